//! Where unread bytes are kept: in a buffer that grows, or in one that messages share.
ghost use Rattle.std.specs.Prelude.{◌≡◌, ◌++◌, ◌≤◌, [], length, take, drop, IfOk, OnOk, OnErr};
ghost use Rattle.nats_outbuf.specs.Store.{store_bytes};

use bytes::BytesMut;
use nats_names::{Bytes, NoMemory};
use std::alloc::Global;
use std::mem;

/// Bytes that can be appended to, or bytes that parts of messages share.
#[derive(Drop)]
pub enum Store {
    Growing(BytesMut),
    Shared(Bytes),
}

impl Store {
    /// No bytes. It takes no memory.
    pub fn new(alloc: Global) -> Store
        ensures { store_bytes result ≡ [] }
    {
        Store::Growing(BytesMut::new(alloc))
    }

    /// All of them.
    #[inline]
    pub fn as_slice(&self) -> &[u8]
        ensures { result.now ≡ store_bytes self.now }
    {
        match self {
            Store::Growing(bytes) => bytes.as_slice(),
            Store::Shared(bytes) => bytes.as_slice(),
        }
    }

    /// Takes the first `n` bytes away.
    #[inline]
    pub fn advance(&mut self, n: usize)
        requires { n ≤ length (store_bytes self.old) }
        ensures { store_bytes self.new ≡ drop n (store_bytes self.old) }
    {
        match self {
            Store::Growing(bytes) => bytes.advance(n),
            Store::Shared(bytes) => bytes.advance(n),
        }
    }

    /// Takes the first `n` bytes out, with no copy: what is left and what was taken share one memory.
    pub fn split(&mut self, n: usize) -> Result<Bytes, NoMemory>
        requires { n ≤ length (store_bytes self.old) }
        ensures front { IfOk result (λ front. front ≡ take n (store_bytes self.old)) }
        ensures rest { OnOk result (store_bytes self.new ≡ drop n (store_bytes self.old)) }
        ensures err { OnErr result (store_bytes self.new ≡ store_bytes self.old) }
    {
        match self {
            Store::Growing(bytes) => Ok(bytes.freeze_to(n)?),
            Store::Shared(bytes) => Ok(bytes.split_to(n)?),
        }
    }

    /// Equal bytes, which can be shared where memory for the count of their owners is found.
    pub fn shared(self) -> Store
        ensures { store_bytes result ≡ store_bytes self }
    {
        match self {
            Store::Growing(bytes) => match bytes.freeze() {
                Ok(bytes) => Store::Shared(bytes),
                Err(refused) => Store::Growing(refused.value),
            },
            Store::Shared(bytes) => Store::Shared(bytes),
        }
    }

    /// Appends bytes, whole or not at all. Where messages share what is left, it is copied; where nothing is left,
    /// messages share what comes too.
    pub fn feed(&mut self, alloc: Global, more: &[u8]) -> Result<(), NoMemory>
        ensures ok { OnOk result (store_bytes self.new ≡ store_bytes self.old ++ more.now) }
        ensures err { OnErr result (store_bytes self.new ≡ store_bytes self.old) }
    {
        match self {
            Store::Growing(bytes) => Ok(bytes.extend_from_slice(more)?),
            Store::Shared(bytes) => {
                if bytes.is_empty() {
                    *self = copied(alloc, more)?;
                    return Ok(());
                }
                self.feed_behind(alloc, more)
            }
        }
    }

    /// Appends bytes that others may share, whole or not at all. They are shared and not copied where nothing is left.
    pub fn feed_shared(&mut self, alloc: Global, more: &Bytes) -> Result<(), NoMemory>
        ensures ok { OnOk result (store_bytes self.new ≡ store_bytes self.old ++ more.now) }
        ensures err { OnErr result (store_bytes self.new ≡ store_bytes self.old) }
    {
        if self.as_slice().is_empty() {
            *self = Store::Shared(more.clone()?);
            return Ok(());
        }
        self.feed(alloc, more.as_slice())
    }

    // The same where something is left of bytes that messages share.
    fn feed_behind(&mut self, alloc: Global, more: &[u8]) -> Result<(), NoMemory>
        ensures ok { OnOk result (store_bytes self.new ≡ store_bytes self.old ++ more.now) }
        ensures err { OnErr result (store_bytes self.new ≡ store_bytes self.old) }
    {
        let (store, fed) = mem::replace(self, Store::Shared(Bytes::new())).fed(alloc, more);
        *self = store;
        fed
    }

    // The same bytes with some more, whole or not at all. Bytes that messages share are copied, what is left of them.
    fn fed(self, alloc: Global, more: &[u8]) -> (Store, Result<(), NoMemory>)
        ensures ok { OnOk result.1 (store_bytes result.0 ≡ store_bytes self ++ more.now) }
        ensures err { OnErr result.1 (store_bytes result.0 ≡ store_bytes self) }
    {
        match self {
            Store::Growing(bytes) => grown(bytes, more),
            Store::Shared(bytes) => match bytes.try_into_mut() {
                Ok(bytes) => grown(bytes, more),
                Err(bytes) => match joined(alloc, bytes.as_slice(), more) {
                    Ok(bytes) => (Store::Growing(bytes), Ok(())),
                    Err(refused) => (Store::Shared(bytes), Err(refused)),
                },
            },
        }
    }
}

// A copy, which can be shared where memory for the count of its owners is found.
fn copied(alloc: Global, bytes: &[u8]) -> Result<Store, NoMemory>
    ensures { IfOk result (λ store. store_bytes store ≡ bytes.now) }
{
    match Bytes::from_vec(Vec::from_slice(alloc, bytes)?) {
        Ok(bytes) => Ok(Store::Shared(bytes)),
        Err(refused) => Ok(Store::Growing(BytesMut::from_vec(refused.value))),
    }
}

fn grown(bytes: BytesMut, more: &[u8]) -> (Store, Result<(), NoMemory>)
    ensures ok { OnOk result.1 (store_bytes result.0 ≡ bytes.items ++ more.now) }
    ensures err { OnErr result.1 (store_bytes result.0 ≡ bytes.items) }
{
    let mut bytes = bytes;
    match bytes.extend_from_slice(more) {
        Ok(()) => (Store::Growing(bytes), Ok(())),
        Err(_) => (Store::Growing(bytes), Err(NoMemory)),
    }
}

fn joined(alloc: Global, first: &[u8], more: &[u8]) -> Result<BytesMut, NoMemory>
    ensures { IfOk result (λ bytes. bytes.items ≡ first.now ++ more.now) }
{
    let mut bytes = Vec::with_capacity(alloc, first.len().saturating_add(more.len()))?;
    bytes.extend_from_slice(first)?;
    bytes.extend_from_slice(more)?;
    Ok(BytesMut::from_vec(bytes))
}
