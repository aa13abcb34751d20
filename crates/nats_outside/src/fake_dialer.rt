//! A dialer in memory.
ghost use Rattle.std.specs.Prelude.{◌≡◌, [], false, IfOk};
ghost use Rattle.std.specs.Option.{option_copied};
ghost use Rattle.nats_outside.specs.Past.{last_taken_of};
ghost use Rattle.nats_outside.specs.Fakes.{IsNewDialer, IsLinkOf, DialsFirst, fails_next, dialer_told_of, read_told_of, write_told_of};
ghost use Rattle.nats_addr.specs.Resolving.{risen};
ghost use Rattle.nats_outside.specs.Told.{IsFresh, dialed, word_of};
ghost use Rattle.std.specs.Vec.Iter.{into_iter_items};
ghost use Rattle.nats_outside.specs.declared.dialer.DialWord.TheVariants as word;

use crate::fake_parts::{FakeDialer, FakeLink, FakeRead, FakeWrite};
use crate::{DialWord, Dialer};
use nats_names::Failed;
use std::alloc::Global;
use std::net::SocketAddr;

impl FakeDialer {
    /// It gives these links, one at each dial.
    pub fn told(alloc: Global, links: Vec<FakeLink>) -> FakeDialer
        ensures { IsNewDialer links.items [] result }
    {
        FakeDialer::failing(alloc, links, Vec::new(alloc))
    }

    /// It gives these links, and fails at the dials of these numbers, counted from 1.
    pub fn failing(alloc: Global, links: Vec<FakeLink>, failing: Vec<u64>) -> FakeDialer
        ensures { IsNewDialer links.items failing.items result }
    {
        FakeDialer {
            alloc,
            links: links.into_iter(),
            failing,
            faults: 0,
            ends: 0,
            dials: 0,
            word: DialWord::Fine,
            to: None,
            within: 0,
            came: 0,
            backs: 0,
            was_shut: false,
            ended: None,
        }
    }

    /// The bytes that the link took that was handed back last; none before any.
    pub fn last_taken(&self) -> Option<&[u8]>
        ensures { option_copied result ≡ last_taken_of self.now.ended }
    {
        match &self.ended {
            Some(past) => Some(past.taken.as_slice()),
            None => None,
        }
    }

    fn fail(&mut self) -> Failed
        ensures { self.new ≡ record (self.old) { faults = risen 1 self.old.faults; word = word.Failed } }
    {
        self.faults = self.faults.saturating_add(1);
        self.word = DialWord::Failed;
        Failed
    }
}

// The halves of a link as it begins.
fn halves(alloc: Global, link: FakeLink) -> (FakeRead, FakeWrite)
    ensures fresh { IsFresh (read_told_of result.0) (write_told_of result.1) }
    ensures link { IsLinkOf link result.0 result.1 }
{
    let FakeLink {
        bytes,
        most,
        cuts,
        failing_reads,
        failing_writes,
        mut room,
    } = link;
    room.taken = Vec::new(alloc);
    let read = FakeRead {
        bytes,
        most,
        cuts: cuts.into_iter(),
        failing: failing_reads,
        reads: 0,
        pieces: Vec::new(alloc),
        given: 0,
        ends: 0,
        faults: 0,
        wait: None,
    };
    let write = FakeWrite {
        alloc,
        most,
        failing: failing_writes,
        writes: 0,
        past: room,
        faults: 0,
        is_shut: false,
    };
    (read, write)
}

// The word of a link handed back with that many failures of its halves, and ends.
fn word_of(read_faults: u64, write_faults: u64, ends: u64) -> DialWord
    ensures { result ≡ word_of read_faults write_faults ends }
{
    if read_faults > 0 || write_faults > 0 {
        DialWord::Failed
    } else if ends > 0 {
        DialWord::Ended
    } else {
        DialWord::Fine
    }
}

impl Dialer for FakeDialer {
    type Read = FakeRead;

    type Write = FakeWrite;

    ghost dialer_told = { dialer_told_of };

    ghost BesideDialer = { Unit {0} };

    ghost beside_dialer = { λ _. tt };

    fn dial(&mut self, to: &SocketAddr, within: u64) -> Result<(FakeRead, FakeWrite), Failed>
        ensures told { dialer_told_of self.new ≡ dialed to.now within result (dialer_told_of self.old) }
        ensures fresh { IfOk result (λ link. IsFresh (read_told_of link.0) (write_told_of link.1)) }
        ensures answer { IfOk result (λ link. fails_next self.old.failing.items self.old.dials ≡ false) }
        ensures first { IfOk result (λ link.
            DialsFirst (into_iter_items self.old.links) (into_iter_items self.new.links) link.0 link.1) }
    {
        self.dials = self.dials.saturating_add(1);
        self.to = Some(*to);
        self.within = within;
        if self.failing.as_slice().contains(&self.dials) {
            return Err(self.fail());
        }
        match self.links.next() {
            Some(link) => {
                self.word = DialWord::Fine;
                self.came = self.came.saturating_add(1);
                Ok(halves(self.alloc, link))
            }
            None => Err(self.fail()),
        }
    }

    fn hang_up(&mut self, read: FakeRead, write: FakeWrite) {
        self.word = word_of(read.faults, write.faults, read.ends);
        if read.faults > 0 || write.faults > 0 {
            self.faults = self.faults.saturating_add(1);
        }
        if read.ends > 0 {
            self.ends = self.ends.saturating_add(1);
        }
        self.backs = self.backs.saturating_add(1);
        self.was_shut = write.is_shut;
        let FakeRead { pieces, .. } = read;
        let FakeWrite { mut past, .. } = write;
        past.pieces = pieces;
        past.before = self.ended.take();
        self.ended = Some(past);
    }
}
