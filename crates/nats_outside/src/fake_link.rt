//! The two halves of a link in memory.
ghost use Rattle.std.specs.Prelude.{◌≡◌, ◌≤◌, ◌<◌, ◌++◌, ◌∷◌, [], Some, false, min, take, length, drop, IfOk, OnOk, OnErr};
ghost use Rattle.std.specs.List.{concat};
ghost use Rattle.nats_outside.specs.Fakes.{read_told_of, write_told_of, IsNewLink, pieces_with, kept_of, fails_next};
ghost use Rattle.nats_outside.specs.Told.{read_of, write_of};
ghost use Rattle.std.specs.Io.{ReadsAtMost};
ghost use Rattle.std.specs.Io.KnownBytes.{ReadConsumes};

use crate::fake_parts::{FakeLink, FakeRead, FakeWrite, Past};
use crate::{LinkRead, LinkWrite};
use bytes::Bytes;
use nats_names::{Failed, NoMemory};
use std::alloc::Global;

impl FakeLink {
    /// A link that will give these bytes, at most `most` at a read, and take at most `most` at a write.
    pub fn new(alloc: Global, bytes: Bytes, most: usize) -> Result<FakeLink, NoMemory>
        requires { 0 < most }
        ensures { IfOk result (IsNewLink bytes most [] []) }
    {
        FakeLink::failing(alloc, bytes, most, Vec::new(alloc), Vec::new(alloc))
    }

    /// A link as `new` makes it, whose reads and writes of these numbers, counted from 1, fail.
    pub fn failing(
        alloc: Global,
        bytes: Bytes,
        most: usize,
        failing_reads: Vec<u64>,
        failing_writes: Vec<u64>,
    ) -> Result<FakeLink, NoMemory>
        requires { 0 < most }
        ensures { IfOk result (IsNewLink bytes most failing_reads.items failing_writes.items) }
    {
        let past = Past {
            pieces: Vec::new(alloc),
            taken: Vec::new(alloc),
            before: None,
        };
        Ok(FakeLink {
            bytes,
            most,
            cuts: Vec::new(alloc),
            failing_reads,
            failing_writes,
            room: Box::new(alloc, past)?,
        })
    }

    /// This link, whose first reads give at most so many bytes each, though at least one where one is left.
    pub fn with_cuts(self, cuts: Vec<usize>) -> FakeLink
        ensures { result ≡ record self { cuts = cuts } }
    {
        let mut link = self;
        link.cuts = cuts;
        link
    }
}

fn copy_front(buf: &mut [u8], piece: &[u8])
    requires { length piece.now ≤ length buf.old }
    ensures front { take (length piece.now) buf.new ≡ piece.now }
    ensures len { length buf.new ≡ length buf.old }
{
    buf[..piece.len()].copy_from_slice(piece);
}

impl FakeRead {
    // At most how many bytes the next read gives.
    fn most_next(&mut self) -> usize
        ensures some { 0 < result }
        ensures rest { self.new ≡ record (self.old) { cuts = self.new.cuts } }
    {
        match self.cuts.next() {
            Some(cut) => cut.max(1),
            None => self.most,
        }
    }

    // The next piece: it is kept, and no longer left. None where nothing is left or wanted.
    fn cut(&mut self, count: usize) -> Result<Bytes, NoMemory>
        requires { count ≤ length self.old.bytes }
        ensures ok { IfOk result (λ piece. piece ≡ take count self.old.bytes) }
        ensures told { OnOk result (read_told_of self.new ≡ record (read_told_of self.old) {
          left = Some (drop count self.old.bytes);
          pieces = Some (pieces_with count self.old.bytes self.old.pieces.items);
        }) }
        ensures err { OnErr result (read_told_of self.new ≡ read_told_of self.old) }
    {
        let piece = self.bytes.slice(0..count)?;
        if count > 0 {
            let kept = self.bytes.slice(0..count)?;
            self.pieces.push(kept)?;
        }
        self.bytes.advance(count);
        Ok(piece)
    }
}

impl LinkRead for FakeRead {
    ghost read_told = { read_told_of };

    fn read(&mut self, buf: &mut [u8]) -> Result<usize, Failed>
        ensures bound { ReadsAtMost result buf.new }
        ensures bytes { ReadConsumes ((read_told_of self.old).left) ((read_told_of self.new).left) result buf.new }
        ensures told { read_told_of self.new
            ≡ read_of result buf.new ((read_told_of self.new).left) (read_told_of self.old) }
        ensures answer { IfOk result (λ n. fails_next self.old.failing.items self.old.reads ≡ false) }
    {
        let has_room = !buf.is_empty();
        let most = self.most_next();
        let count = self.bytes.len().min(buf.len()).min(most);
        self.reads = self.reads.saturating_add(1);
        if !self.failing.as_slice().contains(&self.reads)
            && let Ok(piece) = self.cut(count)
        {
            copy_front(buf, piece.as_slice());
            self.given = self.given.saturating_add(count as u64);
            self.ends = self.ends.saturating_add(u64::from(count == 0 && has_room));
            return Ok(count);
        }
        self.faults = self.faults.saturating_add(1);
        Err(Failed)
    }

    fn wait_at_most(&mut self, ms: Option<u64>) {
        self.wait = ms;
    }
}

#[tactic(auto, using(crate::proofs::Pieces::concat_more))]
fn joined(alloc: Global, pieces: &[Bytes]) -> Result<Vec<u8>, NoMemory>
    ensures { IfOk result (λ bytes. bytes.items ≡ concat pieces.now) }
{
    let mut bytes = Vec::new(alloc);
    'pieces: for piece in pieces {
        bytes.extend_from_slice(piece.as_slice())?;
    }
    Ok(bytes)
}

impl FakeWrite {
    /// The bytes that it took.
    pub fn taken(&self) -> &[u8]
        ensures { Some result.now ≡ (write_told_of self.now).taken }
    {
        self.past.taken.as_slice()
    }

    fn take(&mut self, pieces: &[Bytes]) -> Result<usize, NoMemory>
        ensures count { IfOk result (λ n. n ≡ min (length (concat pieces.now)) self.old.most) }
        ensures told { write_told_of self.new ≡ kept_of result (concat pieces.now) (write_told_of self.old) }
    {
        let bytes = joined(self.alloc, pieces)?;
        let count = bytes.len().min(self.most);
        self.past.taken.extend_from_slice(&bytes[..count])?;
        Ok(count)
    }
}

impl LinkWrite for FakeWrite {
    ghost write_told = { write_told_of };

    fn write_pieces(&mut self, pieces: &[Bytes]) -> Result<usize, Failed>
        ensures count { IfOk result (λ n. n ≡ min (length (concat pieces.now)) self.old.most) }
        ensures told { write_told_of self.new ≡ write_of result (concat pieces.now) (write_told_of self.old) }
        ensures answer { IfOk result (λ n. fails_next self.old.failing.items self.old.writes ≡ false) }
    {
        self.writes = self.writes.saturating_add(1);
        if !self.failing.as_slice().contains(&self.writes)
            && let Ok(count) = self.take(pieces)
        {
            return Ok(count);
        }
        self.faults = self.faults.saturating_add(1);
        Err(Failed)
    }

    fn shut(&mut self) {
        self.is_shut = true;
    }
}
