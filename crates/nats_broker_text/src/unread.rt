//! The bytes of a peer that no command took yet.
ghost use Rattle.std.specs.Prelude.{◌≡◌, ◌≤◌, ◌++◌, ◌||◌, ◌&&◌, [], length, drop, OnOk, OnErr};
ghost use Rattle.nats_broker_text.specs.Commands.{is_ready};
ghost use Rattle.nats_broker_text.specs.Lines.{Remembers, has_line};

use crate::lines::has_line;
use crate::read::is_ready;
use nats_names::NoMemory;
use nats_outbuf::InBuf;
use std::alloc::Global;
use std::marker::Model;

/// Unread bytes of a peer. Contracts see them as a list. A line that comes in small pieces is searched for its end
/// once, whatever the pieces. Own type.
#[derive(Drop)]
pub struct Unread {
    buf: InBuf,
    /// Whether a line's end stands there.
    ended: bool,
    /// Whether a command stands whole at the front, or what is none.
    ready: bool,
}

impl Model for Unread {
    ghost use Rattle.std.specs.Prelude.{List, ℕ};
    ghost use Rattle.nats_broker_text.specs.Lines.{Remembers};

    ghost Value = { List ℕ };

    ghost view = { λ u. u.buf };

    ghost invariant = { λ u. Remembers u.ended u.ready u.buf };
}

// Whether a line's end stands in bytes to which some were put, where `ended` says whether one stood there before. The
// first `from` bytes aren't looked at again.
fn has_line_from(ended: bool, from: usize, bytes: &[u8]) -> bool
    requires { from ≤ length bytes.now }
    ensures { result ≡ ended || has_line (drop from bytes.now) }
{
    ended || has_line(&bytes[from..])
}

// Whether a command stands whole at the front of bytes, or what is none, where `ended` says whether a line's end was
// found.
fn is_ready_where(alloc: Global, ended: bool, bytes: &[u8]) -> bool
    ensures { result ≡ ended && is_ready bytes.now }
{
    ended && is_ready(alloc, bytes)
}

impl Unread {
    /// No bytes. It takes no memory.
    pub fn new(alloc: Global) -> Unread
        ensures { result ≡ [] }
    {
        Unread {
            buf: InBuf::new(alloc),
            ended: false,
            ready: false,
        }
    }

    /// The bytes.
    pub fn as_slice(&self) -> &[u8]
        ensures { result.now ≡ self.now }
    {
        self.buf.as_slice()
    }

    /// How many there are.
    pub fn len(&self) -> usize
        ensures { result ≡ length self.now }
    {
        self.buf.len()
    }

    /// Whether a command stands whole at their front, or what is none. It takes no memory and reads nothing.
    pub fn is_ready(&self) -> bool
        ensures { result ≡ is_ready self.now }
    {
        self.ready
    }

    /// Puts bytes last.
    ///
    /// # Errors
    ///
    /// `NoMemory` for want of memory: nothing changed.
    pub fn feed(&mut self, alloc: Global, bytes: &[u8]) -> Result<(), NoMemory>
        ensures ok { OnOk result (self.new ≡ self.old ++ bytes.now) }
        ensures err { OnErr result (self.new ≡ self.old) }
    {
        let from = self.buf.len().saturating_sub(1);
        self.buf.feed(alloc, bytes)?;
        let ended = has_line_from(self.ended, from, self.buf.as_slice());
        let ready = is_ready_where(alloc, ended, self.buf.as_slice());
        self.ended = ended;
        self.ready = ready;
        Ok(())
    }

    /// Takes the first `n` bytes away, or all where there are fewer.
    pub fn take(&mut self, alloc: Global, n: usize)
        ensures { self.new ≡ drop n self.old }
    {
        let n = n.min(self.buf.len());
        self.buf.advance(n);
        let ended = has_line(self.buf.as_slice());
        let ready = is_ready_where(alloc, ended, self.buf.as_slice());
        self.ended = ended;
        self.ready = ready;
    }

    /// Takes all bytes away. It takes no memory.
    pub fn clear(&mut self)
        ensures { self.new ≡ [] }
    {
        self.buf.advance(self.buf.len());
        self.ended = false;
        self.ready = false;
    }
}
