//! What waits for one peer.
ghost use Rattle.std.specs.Prelude.{◌≡◌, ◌≤◌, [], ◌++◌, length, drop, OnOk, OnErr};
ghost use Rattle.nats_outboxes.specs.Outboxes.{grown, shortened};

use bytes::BytesMut;
use nats_names::NoMemory;
use std::alloc::Global;
use std::marker::Model;

/// Bytes that wait for a peer: they grow at their end and are taken from their front. Contracts see them as a list.
/// Own type.
#[derive(Drop)]
pub struct Outbox {
    bytes: BytesMut,
}

impl Model for Outbox {
    ghost use Rattle.std.specs.Prelude.{List, ℕ};

    ghost Value = { List ℕ };

    ghost view = { λ o. o.bytes.items };
}

impl Outbox {
    /// No byte. It takes no memory.
    pub fn new(alloc: Global) -> Outbox
        ensures { result ≡ [] }
    {
        Outbox {
            bytes: BytesMut::new(alloc),
        }
    }

    /// The bytes.
    pub fn as_slice(&self) -> &[u8]
        ensures { result.now ≡ self.now }
    {
        self.bytes.as_slice()
    }

    /// Puts `text` last.
    ///
    /// # Errors
    ///
    /// `NoMemory` for want of memory: nothing changed.
    pub fn push(&mut self, text: &[u8]) -> Result<(), NoMemory>
        ensures ok { OnOk result (self.new ≡ grown text.now self.old) }
        ensures err { OnErr result (self.new ≡ self.old) }
    {
        self.bytes.extend_from_slice(text)?;
        Ok(())
    }

    /// Lets the first `n` bytes go, or all where there are fewer. It copies nothing.
    pub fn advance(&mut self, n: usize)
        ensures { self.new ≡ drop n self.old }
    {
        if n < self.bytes.len() {
            self.bytes.advance(n);
        } else {
            self.bytes.clear();
        }
    }

    /// Lets the last `n` bytes go, or all where there are fewer.
    pub fn shorten(&mut self, n: usize)
        ensures { self.new ≡ shortened n self.old }
    {
        let len = self.bytes.len();
        self.bytes.truncate(len.saturating_sub(n));
    }
}
