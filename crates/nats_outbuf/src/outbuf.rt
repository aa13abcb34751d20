//! The bytes that wait to be written to a link.
ghost use Rattle.std.specs.Prelude.{◌≡◌, ◌+◌, ◌^◌, ◌<◌, ◌≤◌, ◌++◌, [], length, take, drop, nat_le, OnOk, OnErr, IfOk};
ghost use Rattle.std.specs.List.{concat};
ghost use Rattle.nats_outbuf.specs.Buffers.{IsFront};

use crate::chunks::Chunks;
use bytes::BytesMut;
use nats_names::{Bytes, NoMemory};
use std::alloc::Global;
use std::marker::Model;

/// The number of waiting bytes from which on a write buffer counts as full. The crate's limit.
pub const SOFT_WRITE_BUF_LIMIT: usize = 65_535;

/// The length from which on a text is kept as a piece of its own. The crate's limit.
pub const CHUNK_LEAST: usize = 4_096;

/// How many pieces are handed out at a time, at most. The crate's limit.
pub const PIECES_MOST: usize = 64;

/// What the number of waiting bytes stays below. Own choice: more fit no memory.
const LEN_LIMIT: usize = 0x8000_0000_0000_0000;

/// Whether a writer is to be flushed. The crate's `ShouldFlush`.
#[derive(Clone, Copy, Debug, PartialEq, Eq)]
pub enum ShouldFlush {
    /// Something was written since the last flush, and nothing waits.
    Yes,
    /// Something was written since the last flush, and more waits.
    May,
    /// Nothing was written since the last flush.
    No,
}

/// The bytes that wait to be written. Contracts see them as a list. Short texts are joined, long ones are kept as
/// pieces of their own, which are shared and not copied. Own type, for the crate's write buffer.
#[derive(Drop)]
pub struct OutBuf {
    chunks: Chunks,
    tail: BytesMut,
}

impl Model for OutBuf {
    ghost use Rattle.std.specs.Prelude.{◌++◌, ◌<◌, ◌^◌, List, ℕ, length};

    ghost Value = { List ℕ };

    ghost view = { λ b. b.chunks ++ b.tail.items };

    ghost invariant = { λ b. length (b.chunks ++ b.tail.items) < 2 ^ 63 };
}

impl OutBuf {
    /// No bytes. It takes no memory.
    pub fn new(alloc: Global) -> OutBuf
        ensures { result ≡ [] }
    {
        OutBuf {
            chunks: Chunks::new(alloc),
            tail: BytesMut::new(alloc),
        }
    }

    // Whether so many more bytes would be too many.
    #[inline(always)]
    fn is_too_long(&self, more: usize) -> bool
        ensures { result ≡ nat_le (2 ^ 63) (length self.now + more) }
    {
        more >= LEN_LIMIT - self.pending()
    }

    /// Appends a text by joining it to those before it, whole or not at all. For texts shorter than `CHUNK_LEAST`.
    #[inline(always)]
    pub fn put_small(&mut self, _alloc: Global, text: &[u8]) -> Result<(), NoMemory>
        ensures ok { OnOk result (self.new ≡ self.old ++ text.now) }
        ensures err { OnErr result (self.new ≡ self.old) }
    {
        if self.is_too_long(text.len()) {
            return Err(NoMemory);
        }
        self.tail.extend_from_slice(text)?;
        Ok(())
    }

    /// Appends a text, whole or not at all: one of `CHUNK_LEAST` bytes or more as a piece that shares its memory, a
    /// shorter one as `put_small` does.
    pub fn put_chunk(&mut self, alloc: Global, text: Bytes) -> Result<(), NoMemory>
        ensures ok { OnOk result (self.new ≡ self.old ++ text) }
        ensures err { OnErr result (self.new ≡ self.old) }
    {
        if text.len() < CHUNK_LEAST {
            return self.put_small(alloc, text.as_slice());
        }
        if self.is_too_long(text.len()) {
            return Err(NoMemory);
        }
        self.chunks.seal(&mut self.tail)?;
        self.chunks.push(text)
    }

    /// How many bytes wait.
    #[inline(always)]
    pub fn pending(&self) -> usize
        ensures value { result ≡ length self.now }
        ensures bound { result < 2 ^ 63 }
    {
        self.chunks.len() + self.tail.len()
    }

    /// Whether `SOFT_WRITE_BUF_LIMIT` bytes or more wait.
    #[inline(always)]
    pub fn is_full(&self) -> bool
        ensures { result ≡ nat_le SOFT_WRITE_BUF_LIMIT (length self.now) }
    {
        self.pending() >= SOFT_WRITE_BUF_LIMIT
    }

    /// The first waiting bytes in `PIECES_MOST` pieces at most, each nonempty, which share their memory; none where
    /// nothing waits. Joined they are what waits first, and all of it where they are fewer than `PIECES_MOST`. They
    /// stay until `taken` takes them.
    pub fn pieces(&mut self, alloc: Global) -> Result<Vec<Bytes>, NoMemory>
        ensures front { IfOk result (λ pieces. IsFront PIECES_MOST pieces.items self.old) }
        ensures all { IfOk result (λ pieces. length pieces.items < PIECES_MOST → concat pieces.items ≡ self.old) }
        ensures memory { OnErr result (0 < length self.old) }
        ensures stays { self.new ≡ self.old }
    {
        self.chunks.seal(&mut self.tail)?;
        self.chunks.first(alloc, PIECES_MOST)
    }

    /// A copy of the first `n` bytes. Own call, for whoever keeps what a link took.
    pub fn copy_first(&self, alloc: Global, n: usize) -> Result<Vec<u8>, NoMemory>
        requires { n ≤ length self.now }
        ensures { IfOk result (λ copy. copy.items ≡ take n self.now) }
    {
        if n == 0 {
            return Ok(Vec::new(alloc));
        }
        let whole = n.min(self.chunks.len());
        let mut copy = Vec::with_capacity(alloc, n)?;
        self.chunks.copy_to(whole, &mut copy)?;
        copy.extend_from_slice(&self.tail.as_slice()[..n - whole])?;
        Ok(copy)
    }

    /// Takes the first `n` bytes away, which were written.
    pub fn taken(&mut self, n: usize)
        requires { n ≤ length self.old }
        ensures { self.new ≡ drop n self.old }
    {
        if n == 0 {
            return;
        }
        let whole = n.min(self.chunks.len());
        self.chunks.advance(whole);
        self.tail.advance(n - whole);
    }

    /// Keeps the first `n` bytes: what was put behind them goes.
    pub fn cut(&mut self, n: usize)
        requires { n ≤ length self.old }
        ensures { self.new ≡ take n self.old }
    {
        let whole = n.min(self.chunks.len());
        self.chunks.cut(whole);
        self.tail.truncate(n - whole);
    }

    /// Lets all go.
    pub fn clear(&mut self)
        ensures { self.new ≡ [] }
    {
        self.chunks.clear();
        self.tail.clear();
    }
}
