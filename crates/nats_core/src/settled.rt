//! A session that knows whether its due steps are played.
ghost use Rattle.std.specs.Prelude.{◌≡◌, ℕ, OnOk, OnErr, IfOk, IfErr, IsTrue, is_some, drop, length, ◌<◌, None};
ghost use Rattle.nats_history.specs.declared.turn.Turn.TheVariants as turns;
ghost use Rattle.nats_history.specs.Queue.{first};
ghost use Rattle.nats_history.specs.Schedule.{due, own_steps, call_reply};
ghost use Rattle.nats_outbuf.specs.Buffers.{IsFront};
ghost use Rattle.nats_tickets.specs.Kept.{reply_in, without};
ghost use Rattle.nats_session.specs.Handler.{can_play, seen_all, HandsOut, HandsReply};
ghost use Rattle.nats_core.specs.Journal.{reply_to, entries_with, entry_of, due_rounds};

use crate::entry::{Entry, StepReply};
use crate::{notes, plays};
use nats_session::{Bytes, Call, CallReply, ConnectionHandler, Event, NoMemory, Turn};
use nats_wire::PIECES_MOST;
use std::alloc::Global;
use std::marker::Model;

/// A session, and whether it is known that no step of it is due: then no look is taken at what is unread to tell so.
/// Contracts see the session.
#[derive(Drop)]
pub(crate) struct Settled {
    handler: ConnectionHandler,
    is_settled: bool,
}

impl Model for Settled {
    ghost use Rattle.std.specs.Prelude.{◌≡◌, true, None};
    ghost use Rattle.nats_history.specs.Schedule.{due};
    ghost use Rattle.nats_session.specs.Handler.{Seen};

    ghost Value = { Seen };

    ghost view = { λ s. s.handler };

    ghost invariant = { λ s. s.is_settled ≡ true → due s.handler.parts ≡ None };
}

impl Settled {
    /// A session of which nothing is known yet.
    pub fn new(handler: ConnectionHandler) -> Settled
        ensures { result ≡ handler }
    {
        Settled {
            handler,
            is_settled: false,
        }
    }

    /// The session.
    pub fn handler(&self) -> &ConnectionHandler
        ensures { result.now ≡ self.now }
    {
        &self.handler
    }

    /// Whether a step is due.
    pub fn is_due(&self) -> bool
        ensures { result ≡ is_some (due self.now.parts) }
    {
        if self.is_settled {
            return false;
        }
        self.handler.is_due()
    }

    /// Plays the own steps of a turn, and notes it where the journal is kept.
    #[inline(always)]
    pub fn play_own(
        &mut self,
        alloc: Global,
        is_kept: bool,
        entries: &mut Vec<Entry>,
        turn: Turn,
    ) -> Result<StepReply, NoMemory>
        requires { IsTrue (can_play self.old.parts turn) }
        ensures reply { IfOk result (λ reply. reply ≡ reply_to self.old.parts turn) }
        ensures seen { OnOk result (self.new ≡ seen_all self.old (own_steps self.old.parts turn)) }
        ensures noted { OnOk result
            (entries.new.items ≡ entries_with is_kept (entry_of self.old.parts turn) entries.old.items) }
        ensures same { OnErr result (self.new ≡ self.old) }
        ensures stay { OnErr result (entries.new.items ≡ entries.old.items) }
    {
        self.is_settled = false;
        notes::play_own(alloc, is_kept, &mut self.handler, entries, turn)
    }

    /// Plays and notes a piece, whose bytes are copied for the journal alone.
    pub fn piece_own(
        &mut self,
        alloc: Global,
        is_kept: bool,
        entries: &mut Vec<Entry>,
        bytes: &[u8],
    ) -> Result<(), NoMemory>
        requires { IsTrue (can_play self.old.parts (turns.Piece bytes.now)) }
        ensures seen { OnOk result
            (self.new ≡ seen_all self.old (own_steps self.old.parts (turns.Piece bytes.now))) }
        ensures noted { OnOk result (entries.new.items
            ≡ entries_with is_kept (entry_of self.old.parts (turns.Piece bytes.now)) entries.old.items) }
        ensures same { OnErr result (self.new ≡ self.old) }
        ensures stay { OnErr result (entries.new.items ≡ entries.old.items) }
    {
        self.is_settled = false;
        notes::piece_own(alloc, is_kept, &mut self.handler, entries, bytes)
    }

    /// Takes in a call, and notes it where the journal is kept.
    pub fn submit_own(
        &mut self,
        alloc: Global,
        is_kept: bool,
        entries: &mut Vec<Entry>,
        call: Call,
    ) -> Result<CallReply, Call>
        requires { IsTrue (can_play self.old.parts (turns.Do call)) }
        ensures reply { IfOk result (λ reply. reply ≡ call_reply self.old.parts call) }
        ensures seen { OnOk result (self.new ≡ seen_all self.old (own_steps self.old.parts (turns.Do call))) }
        ensures noted { OnOk result (entries.new.items
            ≡ entries_with is_kept (entry_of self.old.parts (turns.Do call)) entries.old.items) }
        ensures back { IfErr result (λ back. back ≡ call) }
        ensures same { OnErr result (self.new ≡ self.old) }
        ensures stay { OnErr result (entries.new.items ≡ entries.old.items) }
    {
        self.is_settled = false;
        notes::submit_own(alloc, is_kept, &mut self.handler, entries, call)
    }

    /// Plays the steps that are due, one after another, until none is.
    pub fn play_due(&mut self, alloc: Global) -> Result<(), NoMemory>
        ensures rounds { (rounds : ℕ) × (self.new ≡ due_rounds rounds self.old) }
        ensures ok { OnOk result (due self.new.parts ≡ None) }
        ensures err { OnErr result (IsTrue (is_some (due self.new.parts))) }
    {
        if self.is_settled {
            return Ok(());
        }
        plays::play_due(alloc, &mut self.handler)?;
        self.is_settled = true;
        Ok(())
    }

    /// Hands out the oldest event that was not handed out yet, if there is one.
    pub fn next_event(&mut self) -> Option<Event>
        ensures event { result ≡ first self.old.events }
        ensures rest { self.new ≡ record self.old { events = drop 1 self.old.events } }
        ensures stands { HandsOut self.old result self.new }
    {
        self.handler.next_event()
    }

    /// Hands out the reply by which a ticket settled, once.
    pub fn reply_of(&mut self, t: u64) -> Option<CallReply>
        ensures reply { result ≡ reply_in t self.old.ready }
        ensures rest { self.new ≡ record self.old { ready = without t self.old.ready } }
        ensures stands { HandsReply t self.old result self.new }
    {
        self.handler.reply_of(t)
    }

    /// Bytes that wait for the link, which stay until they are told as written.
    pub fn pending_pieces(&mut self, alloc: Global) -> Result<Vec<Bytes>, NoMemory>
        ensures front { IfOk result (λ v. IsFront PIECES_MOST v.items self.old.parts.link.wire.waiting) }
        ensures wants { OnErr result (0 < length self.old.parts.link.wire.waiting) }
        ensures same { self.new ≡ self.old }
    {
        self.handler.pending_pieces(alloc)
    }
}
