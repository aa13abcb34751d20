//! The bytes that came over a link and are not used yet.
ghost use Rattle.std.specs.Prelude.{◌≡◌, ◌+◌, ◌==◌, ◌^◌, ◌<◌, ◌≤◌, ◌++◌, [], length, take, drop, IsTrue, OnOk, OnErr, IfOk, IfSome};
ghost use Rattle.nats_outbuf.specs.Buffers.{is_crlf_at};
ghost use Rattle.nats_outbuf.specs.Store.{store_bytes};

use crate::steps::Steps;
use crate::store::Store;
use nats_names::{Bytes, NoMemory};
use std::alloc::Global;
use std::marker::Model;
use std::mem;
use std::sync::ledger::Ledger;

/// Bytes that came and are not used yet. Contracts see them as a list. Own type; the crate has a `BytesMut` there.
#[derive(Drop)]
pub struct InBuf {
    store: Store,
}

impl Model for InBuf {
    ghost use Rattle.std.specs.Prelude.{List, ℕ};
    ghost use Rattle.nats_outbuf.specs.Store.{store_bytes};

    ghost Value = { List ℕ };

    ghost view = { λ b. store_bytes b.store };
}

impl InBuf {
    /// No bytes. It takes no memory.
    pub fn new(alloc: Global) -> InBuf
        ensures { result ≡ [] }
    {
        InBuf {
            store: Store::new(alloc),
        }
    }

    /// Appends bytes that came, whole or not at all.
    pub fn feed(&mut self, alloc: Global, bytes: &[u8]) -> Result<(), NoMemory>
        ensures ok { OnOk result (self.new ≡ self.old ++ bytes.now) }
        ensures err { OnErr result (self.new ≡ self.old) }
    {
        self.store.feed(alloc, bytes)
    }

    /// Appends bytes that came in a buffer which may be shared, whole or not at all. They are not copied where no byte
    /// waits here. Own call.
    pub fn feed_shared(&mut self, alloc: Global, bytes: &Bytes) -> Result<(), NoMemory>
        ensures ok { OnOk result (self.new ≡ self.old ++ bytes.now) }
        ensures err { OnErr result (self.new ≡ self.old) }
    {
        self.store.feed_shared(alloc, bytes)
    }

    /// How many bytes there are.
    #[inline]
    pub fn len(&self) -> usize
        ensures value { result ≡ length self.now }
        ensures bound { result < 2 ^ 63 }
    {
        self.store.as_slice().len()
    }

    /// Whether there are none.
    #[inline]
    pub fn is_empty(&self) -> bool
        ensures { result ≡ (length self.now == 0) }
    {
        self.store.as_slice().is_empty()
    }

    /// All of them.
    #[inline]
    pub fn as_slice(&self) -> &[u8]
        ensures { result.now ≡ self.now }
    {
        self.store.as_slice()
    }

    /// Whether the end of a line, CR LF, stands at `place`. It is one step: whoever looks for lines by this call
    /// alone has told what the search costs.
    #[inline]
    pub fn crlf_at<L: Ledger>(&self, place: usize, steps: &mut Steps<L>) -> bool
        requires { place + 1 < length self.now }
        ensures tells { result ≡ is_crlf_at self.now place }
        ensures step { steps.new ≡ steps.old + 1 }
    {
        steps.tick();
        self.store.as_slice()[place..].starts_with(b"\r\n")
    }

    /// The bytes before the end of a line that stands at `end`.
    pub fn line(&self, end: usize) -> &[u8]
        requires within { end ≤ length self.now }
        requires ended { IsTrue (is_crlf_at self.now end) }
        ensures { result.now ≡ take end self.now }
    {
        &self.store.as_slice()[..end]
    }

    /// Takes the first `n` bytes out, with no copy: what is left and what was taken share one memory.
    pub fn split(&mut self, _alloc: Global, n: usize) -> Result<Bytes, NoMemory>
        requires { n ≤ length self.old }
        ensures front { IfOk result (λ front. front ≡ take n self.old) }
        ensures rest { OnOk result (self.new ≡ drop n self.old) }
        ensures err { OnErr result (self.new ≡ self.old) }
    {
        self.store.split(n)
    }

    /// Takes the first `n` bytes away. Own call.
    #[inline]
    pub fn advance(&mut self, n: usize)
        requires { n ≤ length self.old }
        ensures { self.new ≡ drop n self.old }
    {
        self.store.advance(n);
    }

    /// From now on parts of the bytes share their memory, where the memory for the count of its owners is found.
    /// What comes next is put behind a copy of them, unless all parts were let go. Own call.
    pub fn share(&mut self)
        ensures { self.new ≡ self.old }
    {
        if self.shared().is_none() {
            self.store = mem::replace(&mut self.store, Store::Shared(Bytes::new())).shared();
        }
    }

    /// All of them, where parts of them share their memory. Own call.
    #[inline]
    pub fn shared(&self) -> Option<&Bytes>
        ensures { IfSome result (λ bytes. bytes.now ≡ self.now) }
    {
        match &self.store {
            Store::Shared(bytes) => Some(bytes),
            Store::Growing(_) => None,
        }
    }
}
