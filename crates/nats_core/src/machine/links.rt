//! A core beside a link that is lent to it.
ghost use Rattle.std.specs.Prelude.{◌≡◌, ◌<◌, length, OnOk, OnErr, IfOk, IsTrue, None};
ghost use Rattle.std.specs.List.{concat};
ghost use Rattle.nats_history.specs.declared.turn.Turn.TheVariants as turns;
ghost use Rattle.nats_history.specs.Schedule.{due};
ghost use Rattle.nats_outbuf.specs.Buffers.{IsFront};
ghost use Rattle.nats_session.specs.Handler.{can_play};
ghost use Rattle.nats_core.specs.Journal.{played};
ghost use Rattle.nats_core.specs.Calls.{parts_in, PlaysDue};
ghost use Rattle.nats_core.specs.Links.{Gives, Reads, TakesSome, Writes, waiting_in};

use super::Core;
use crate::answers::{ReadOnce, WriteOnce};
use nats_outside::{Failed, LinkRead, LinkWrite};
use nats_session::{Bytes, NoMemory, Turn};
use nats_wire::PIECES_MOST;
use std::alloc::Global;

/// One read: how many bytes the link gave, or 0 where it ended or failed.
fn read_some<L: LinkRead>(from: &mut L, buf: &mut [u8]) -> usize
    requires { 0 < length buf.old }
    ensures { Gives result buf.new (L.read_told from.old) (L.read_told from.new) }
{
    match from.read(buf) {
        Ok(count) => count,
        Err(Failed) => 0,
    }
}

/// One write of pieces: how many of their bytes the link took; none where it failed.
fn write_some<L: LinkWrite>(out: &mut L, pieces: &[Bytes]) -> Option<usize>
    requires { 0 < length (concat pieces.now) }
    ensures { TakesSome result (concat pieces.now) (L.write_told out.old) (L.write_told out.new) }
{
    match out.write_pieces(pieces) {
        Ok(count) => Some(count),
        Err(Failed) => None,
    }
}

impl Core {
    /// Plays the loss of the link, and then due steps, as memory allows.
    fn lose(&mut self, alloc: Global) -> Result<(), NoMemory>
        requires { IsTrue (can_play (parts_in self.old) turns.Lost) }
        ensures ok { OnOk result (PlaysDue (played turns.Lost self.old) self.new) }
        ensures err { OnErr result (self.new ≡ self.old) }
    {
        self.note_turn(alloc, Turn::Lost)?;
        self.settle(alloc);
        Ok(())
    }

    /// Plays the own steps of a piece, which is copied for the journal alone.
    fn note_piece(&mut self, alloc: Global, bytes: &[u8]) -> Result<(), NoMemory>
        requires { IsTrue (can_play (parts_in self.old) (turns.Piece bytes.now)) }
        ensures ok { OnOk result (self.new ≡ played (turns.Piece bytes.now) self.old) }
        ensures err { OnErr result (self.new ≡ self.old) }
    {
        self.session
            .piece_own(alloc, self.is_kept, &mut self.entries, bytes)
    }

    /// Plays that the link took so many bytes, and then due steps, as memory allows.
    fn wrote(&mut self, alloc: Global, count: usize) -> Result<(), NoMemory>
        requires { IsTrue (can_play (parts_in self.old) (turns.Write count)) }
        ensures ok { OnOk result (PlaysDue (played (turns.Write count) self.old) self.new) }
        ensures err { OnErr result (self.new ≡ self.old) }
    {
        self.note_turn(alloc, Turn::Write(count as u64))?;
        self.settle(alloc);
        Ok(())
    }

    /// Reads once from a link, at most as many bytes as `buf` holds, and plays them as one piece: `Played` tells how
    /// many they are. Where the link gives none, as it ended or failed, its loss is played and `Lost` is answered.
    /// Then due steps are played, as memory allows. It never answers `Gone`. Its conditions: a link is up, no step is
    /// due, and `buf` isn't empty. The crate's handler does so as it polls its stream.
    ///
    /// # Errors
    ///
    /// `NoMemory` leaves the core unchanged. Bytes may have left the link, so that it is to be used no more.
    pub fn read_link<L: LinkRead>(
        &mut self,
        alloc: Global,
        from: &mut L,
        buf: &mut [u8],
    ) -> Result<ReadOnce, NoMemory>
        requires up { IsTrue (parts_in self.old).link.is_up }
        requires settled { due (parts_in self.old) ≡ None }
        requires room { 0 < length buf.old }
        ensures { Reads self.old buf.new (L.read_told from.old) (L.read_told from.new) result self.new }
    {
        let count = read_some(from, buf);
        if count == 0 {
            self.lose(alloc)?;
            return Ok(ReadOnce::Lost);
        }
        self.note_piece(alloc, &buf[..count])?;
        self.settle(alloc);
        Ok(ReadOnce::Played(count as u64))
    }

    /// Writes once to a link: it is handed bytes that wait, from the first on, and `Wrote` tells how many of them it
    /// took, which is played. `Idle`, with nothing written and nothing played, exactly where none waits. Where the
    /// link fails, its loss is played and `Lost` is answered. Then due steps are played, as memory allows. It never
    /// answers `Gone`. Its conditions: a link is up, and no step is due. The crate's handler does so as it polls its
    /// stream.
    ///
    /// # Errors
    ///
    /// `NoMemory`, only where something waits, leaves the core unchanged. The link may have taken bytes, so that it is
    /// to be used no more.
    pub fn write_link<L: LinkWrite>(
        &mut self,
        alloc: Global,
        out: &mut L,
    ) -> Result<WriteOnce, NoMemory>
        requires up { IsTrue (parts_in self.old).link.is_up }
        requires settled { due (parts_in self.old) ≡ None }
        ensures { Writes self.old (L.write_told out.old) (L.write_told out.new) result self.new }
    {
        let pieces = self.pending_pieces(alloc)?;
        if pieces.is_empty() {
            return Ok(WriteOnce::Idle);
        }
        match write_some(out, pieces.as_slice()) {
            Some(count) => {
                self.wrote(alloc, count)?;
                Ok(WriteOnce::Wrote(count as u64))
            }
            None => {
                self.lose(alloc)?;
                Ok(WriteOnce::Lost)
            }
        }
    }

    /// Bytes that wait for the link, as `ConnectionHandler::pending_pieces` answers them: they stay until `Write` is
    /// played. The journal stays. Own call, for a link that is written to while the core is not lent.
    ///
    /// # Errors
    ///
    /// `NoMemory`, only where something waits, leaves the core unchanged.
    pub fn pending_pieces(&mut self, alloc: Global) -> Result<Vec<Bytes>, NoMemory>
        ensures front { IfOk result (λ v. IsFront PIECES_MOST v.items (waiting_in self.old)) }
        ensures wants { OnErr result (0 < length (waiting_in self.old)) }
        ensures same { self.new ≡ self.old }
    {
        self.session.pending_pieces(alloc)
    }
}
