//! What lies under a hub's lock. Nothing here waits.
ghost use Rattle.std.specs.Prelude.{◌≡◌, ◌+◌, ◌<◌, ◌^◌, ◌-◌, min, vec_len, length, true, false, [], ◌⊎◌, IfSome, OnErr, IfOk, OnOk};
ghost use Rattle.std.specs.List.{concat};
ghost use Rattle.nats_core.specs.Journal.{IsRight, caught_up};
ghost use Rattle.nats_core.specs.Calls.{parts_in};
ghost use Rattle.nats_history.specs.Schedule.{call_reply};
ghost use Rattle.nats_refusals.specs.Refusals.{MayAnswer, may_call, counts};
ghost use Rattle.nats_hub.specs.Tallying.{accepts, is_accepting, accepted_in, count_of, is_do};
ghost use Rattle.nats_hub.specs.Asking.{Objects};
ghost use Rattle.nats_hub.specs.Waiting.{MayTry, counts_tried};

use crate::events::Events;
use crate::{Audit, Tallies, Tally};
use nats_core::{
    Bytes, Call, CallReply, ConnectionHandler, Core, Entry, Event, NoMemory, ServerInfo, StepError,
    StepReply, TakeReply, Turn,
};
use nats_history::refusals::{has_subjects, size_of};
use nats_refusals::{Refusal, answer};
use std::alloc::Global;
use std::marker::Model;
use std::mem;
use std::sync::ledger::{Book, Share};

/// A session, the total of the accepted calls that its holders made, and the events that wait. Contracts see the
/// session.
#[derive(Drop)]
pub(crate) struct Locked<G: Tallies> {
    core: Core,
    tallies: Book<G>,
    events: Events,
    /// Whether who writes to the link sleeps, and no one went to wake them since.
    writer_sleeps: bool,
}

/// The journal is kept where the ledger says so, and then the total is the number of its accepted calls.
impl<G: Tallies> Model for Locked<G> {
    ghost use Rattle.std.specs.Prelude.{◌≡◌, true};
    ghost use Rattle.nats_core.specs.Journal.{Logged};
    ghost use Rattle.nats_hub.specs.Tallying.{accepted_in};

    ghost Value = { Logged };

    ghost view = { λ l. l.core };

    ghost invariant = { λ l. (l.core.is_kept ≡ G.is_kept)
        × (G.is_kept ≡ true → l.tallies.total ≡ accepted_in l.core.entries) };
}

/// What a try to make a call comes to.
pub(crate) enum Tried {
    /// The call was made, or memory was wanting.
    Answered(Result<Option<u64>, Refusal>),
    /// There is no room: the call comes back.
    NoRoom(Call),
}

/// Whether a reply is that of an accepted call.
#[tactic(auto, unfolding(crate::specs::Tallying::is_accepting))]
fn is_accepted(reply: &CallReply) -> bool
    ensures { result ≡ is_accepting reply.now }
{
    matches!(reply, CallReply::Accepted | CallReply::Numbered(_))
}

/// Whether a turn's reply is that of an accepted call.
fn accepts(reply: &StepReply) -> bool
    ensures { result ≡ accepts reply.now }
{
    match reply {
        StepReply::Call(reply) => is_accepted(reply),
        StepReply::Done | StepReply::Take(_) => false,
    }
}

/// Counts a call in a holder's tally where it was accepted.
fn count<G: Tallies>(tallies: &mut Book<G>, mine: &mut Share<G>, accepted: bool)
    requires { 0 < mine.old.parts }
    ensures total { tallies.new.total ≡ tallies.old.total + count_of accepted }
    ensures made { mine.new.amount ≡ mine.old.amount + count_of accepted }
    ensures parts { mine.new.parts ≡ mine.old.parts }
{
    if accepted {
        tallies.add(mine, 1);
    }
}

/// Moves a session's events to those that wait.
#[tactic(auto, using(crate::proofs::Waiting::fewer))]
fn hand_on(core: &mut Core, events: &mut Events)
    ensures kept { core.new.is_kept ≡ core.old.is_kept }
    ensures entries { core.new.entries ≡ core.old.entries }
{
    'events: while let Some(event) = core.next_event() {
        events.put(event);
    }
}

impl<G: Tallies> Locked<G> {
    /// A new session, and the book of a new ledger.
    pub(crate) fn new(core: Core, tallies: Book<G>, events: Events) -> Locked<G>
        requires kept { core.is_kept ≡ G.is_kept }
        requires none { core.entries ≡ [] }
        requires zero { tallies.total ≡ 0 }
    {
        Locked {
            core,
            tallies,
            events,
            writer_sleeps: false,
        }
    }

    /// Moves the session's events to those that wait.
    fn hand_on(&mut self) {
        hand_on(&mut self.core, &mut self.events)
    }

    /// Plays all steps that are due.
    #[tactic(auto, using(crate::proofs::Rooms::due_rules))]
    fn catch_up(&mut self, alloc: Global) -> Result<(), NoMemory>
        ensures { OnOk result (caught_up self.new ≡ self.new) }
    {
        self.core.catch_up(alloc)
    }

    /// Whether a call is not refused for want of room.
    pub(crate) fn may_call(&self) -> bool
        ensures { result ≡ may_call (parts_in self.now) }
    {
        self.core.handler().has_room() || self.core.handler().is_closed()
    }

    /// Plays a turn that is no call, and leaves its events where they are.
    #[tactic(auto, using(crate::proofs::Rooms::kept_step))]
    fn step(&mut self, alloc: Global, turn: Turn) -> Result<StepReply, StepError>
        requires { is_do turn ≡ false }
    {
        self.core.step(alloc, turn)
    }

    /// Plays a turn that is no call.
    pub(crate) fn play(&mut self, alloc: Global, turn: Turn) -> Result<StepReply, StepError>
        requires { is_do turn ≡ false }
    {
        let reply = self.step(alloc, turn);
        self.hand_on();
        reply
    }

    /// Plays a turn that is no call on the link of this number, and leaves its events where they are.
    #[tactic(auto, using(crate::proofs::Rooms::kept_step_on))]
    fn step_on(&mut self, alloc: Global, link: u64, turn: Turn) -> Result<StepReply, StepError>
        requires { is_do turn ≡ false }
    {
        self.core.step_on(alloc, link, turn)
    }

    /// Plays a turn that is no call on the link of this number.
    pub(crate) fn play_on(
        &mut self,
        alloc: Global,
        link: u64,
        turn: Turn,
    ) -> Result<StepReply, StepError>
        requires { is_do turn ≡ false }
    {
        let reply = self.step_on(alloc, link, turn);
        self.hand_on();
        reply
    }

    /// The session.
    pub(crate) fn session(&self) -> &ConnectionHandler {
        self.core.handler()
    }

    /// The oldest event that was not handed out yet.
    pub(crate) fn next_event(&mut self) -> Option<Event> {
        self.hand_on();
        self.events.take()
    }

    /// What the server said of itself last, where that is news, as a core tells it.
    pub(crate) fn news(
        &self,
        alloc: Global,
        seen: u64,
    ) -> Result<Option<(u64, ServerInfo)>, NoMemory> {
        self.core.news(alloc, seen)
    }

    /// Puts an event behind those that wait.
    pub(crate) fn note(&mut self, event: Event) {
        self.hand_on();
        self.events.put(event)
    }

    /// The reply by which a ticket settled, once.
    pub(crate) fn reply_of(&mut self, ticket: u64) -> Option<CallReply> {
        self.core.reply_of(ticket)
    }

    /// The link of this number is up.
    fn is_on(&self, link: u64) -> bool {
        self.core.handler().is_up() && self.core.handler().link() == link
    }

    /// Whether steps are due that were not played yet, for want of memory.
    pub(crate) fn is_behind(&self) -> bool {
        self.core.is_behind()
    }

    /// The link of this number is up, and nothing waits for it.
    pub(crate) fn is_idle_on(&self, link: u64) -> bool {
        self.is_on(link) && self.core.handler().pending() == 0
    }

    /// Notes that who writes to the link goes to sleep.
    pub(crate) fn note_sleep(&mut self) {
        self.writer_sleeps = true;
    }

    /// Whether who writes to the link sleeps; whoever asks goes to wake them.
    pub(crate) fn take_sleep(&mut self) -> bool {
        mem::replace(&mut self.writer_sleeps, false)
    }

    /// The pieces that wait for the link of this number; `None` where it is not the one that is up.
    pub(crate) fn pieces_on(
        &mut self,
        alloc: Global,
        link: u64,
    ) -> Result<Option<Vec<Bytes>>, NoMemory>
        ensures { IfOk result (λ o. IfSome o (λ v. vec_len v ≡ 0 ⊎ 0 < length (concat v.items))) }
    {
        if !self.is_on(link) {
            return Ok(None);
        }
        Ok(Some(self.core.pending_pieces(alloc)?))
    }

    /// Takes the oldest waiting message of a subscription.
    pub(crate) fn take(&mut self, alloc: Global, number: u64) -> Result<TakeReply, NoMemory> {
        match self.play(alloc, Turn::Take(number)) {
            Ok(StepReply::Take(reply)) => Ok(reply),
            Ok(StepReply::Done | StepReply::Call(_)) => Ok(TakeReply::Ended),
            Err(StepError::OutOfTurn | StepError::LinkGone { .. }) => Ok(TakeReply::Ended),
            Err(StepError::NoMemory) => Err(NoMemory),
        }
    }

    /// Why a call would be refused for its subjects or its size, as the session stands, if it would.
    #[tactic(auto, using(nats_refusals::proofs::Replying::fails_names))]
    pub(crate) fn objection(&self, call: &Call) -> Option<Refusal>
        ensures { IfSome result (λ refusal. Objects call.now refusal) }
    {
        let session = self.core.handler();
        if !has_subjects(session.config(), call) {
            return Some(Refusal::InvalidSubject);
        }
        let limit = session.max_payload();
        let size = size_of(call);
        if size > limit {
            return Some(Refusal::TooLarge { limit, size });
        }
        None
    }

    /// Makes a call for a holder, whose tally counts it where it is accepted.
    #[tactic(auto, using(crate::proofs::Rooms::kept_step))]
    #[inline(always)]
    fn make(
        &mut self,
        alloc: Global,
        mine: &mut Share<G>,
        call: Call,
    ) -> Result<CallReply, StepError>
        requires { 0 < mine.old.parts }
        ensures parts { mine.new.parts ≡ mine.old.parts }
        ensures made { IfOk result (λ reply. mine.new.amount ≡ mine.old.amount + count_of (is_accepting reply)) }
        ensures none { OnErr result (mine.new.amount ≡ mine.old.amount) }
        ensures reply { IfOk result (λ reply. reply ≡ call_reply (parts_in (caught_up self.old)) call) }
    {
        match self.core.step(alloc, Turn::Do(call))? {
            StepReply::Call(reply) => {
                count(&mut self.tallies, mine, is_accepted(&reply));
                Ok(reply)
            }
            StepReply::Done | StepReply::Take(_) => unreachable!(),
        }
    }

    /// Makes a call for a holder, whose tally counts it where it is accepted, and leaves its events where they are.
    #[tactic(auto, using(crate::proofs::Rooms::waited, crate::proofs::Rooms::answered))]
    #[inline(always)]
    fn make_once(
        &mut self,
        alloc: Global,
        mine: &mut Share<G>,
        call: Call,
    ) -> Result<Option<u64>, Refusal>
        requires { 0 < mine.old.parts }
        ensures parts { mine.new.parts ≡ mine.old.parts }
        ensures made { mine.new.amount ≡ mine.old.amount + counts result }
        ensures may { MayAnswer false call result }
        ensures waited { caught_up self.old ≡ self.old → may_call (parts_in self.old) ≡ true
            → MayAnswer true call result }
    {
        match self.make(alloc, mine, call) {
            Ok(reply) => answer(&reply),
            Err(StepError::OutOfTurn | StepError::LinkGone { .. }) => Err(Refusal::Closed),
            Err(StepError::NoMemory) => Err(Refusal::NoMemory),
        }
    }

    /// Makes a call for a holder, whose tally counts it where it is accepted.
    #[inline(always)]
    pub(crate) fn call(
        &mut self,
        alloc: Global,
        mine: &mut Share<G>,
        call: Call,
    ) -> Result<Option<u64>, Refusal>
        requires { 0 < mine.old.parts }
        ensures parts { mine.new.parts ≡ mine.old.parts }
        ensures made { mine.new.amount ≡ mine.old.amount + counts result }
        ensures may { MayAnswer false call result }
        ensures waited { caught_up self.old ≡ self.old → may_call (parts_in self.old) ≡ true
            → MayAnswer true call result }
    {
        let answer = self.make_once(alloc, mine, call);
        self.hand_on();
        answer
    }

    /// Makes a call for a holder where there is room for it or the session is closed; else the call comes back.
    pub(crate) fn call_with_room(&mut self, alloc: Global, mine: &mut Share<G>, call: Call) -> Tried
        requires { 0 < mine.old.parts }
        ensures parts { mine.new.parts ≡ mine.old.parts }
        ensures made { mine.new.amount ≡ mine.old.amount + counts_tried result }
        ensures may { MayTry call result }
    {
        if let Err(NoMemory) = self.catch_up(alloc) {
            return Tried::Answered(Err(Refusal::NoMemory));
        }
        if !self.may_call() {
            return Tried::NoRoom(call);
        }
        Tried::Answered(self.call(alloc, mine, call))
    }

    /// What the hub came to, where one holder has all parts. Nothing changes.
    pub(crate) fn audit(
        &mut self,
        alloc: Global,
        all: &mut Share<G>,
        made: u64,
    ) -> Result<Audit, NoMemory>
        requires whole { all.old.parts ≡ G.parts }
        requires made { made ≡ min all.old.amount (2 ^ 64 - 1) }
        ensures parts { all.new.parts ≡ all.old.parts }
        ensures amount { all.new.amount ≡ all.old.amount }
        ensures right { IfOk result (λ audit. IsRight audit.config audit.journal.items) }
        ensures made { IfOk result (λ audit. audit.tally.made ≡ made) }
        ensures accepted { IfOk result (λ audit. audit.tally.accepted ≡ accepted_in audit.journal.items) }
        ensures equal { OnOk result (G.is_kept ≡ true → made ≡ accepted_in self.old.entries) }
        ensures all { IfOk result (λ audit. audit.journal.items ≡ self.old.entries) }
    {
        self.tallies.audit(all);
        let journal = copied(alloc, self.core.journal())?;
        let accepted = accepted_of(journal.as_slice());
        Ok(Audit {
            tally: Tally { made, accepted },
            config: self.core.handler().config().copy(alloc)?,
            journal,
        })
    }
}

/// A copy of a journal, which shares its bytes.
fn copied(alloc: Global, entries: &[Entry]) -> Result<Vec<Entry>, NoMemory>
    ensures { IfOk result (λ v. v.items ≡ entries.now) }
{
    let mut copies = Vec::with_capacity(alloc, entries.len())?;
    for entry in entries {
        copies.push(entry.copy(alloc)?)?;
    }
    Ok(copies)
}

/// How many of these entries are accepted calls.
fn accepted_of(entries: &[Entry]) -> u64
    ensures { result ≡ accepted_in entries.now }
{
    let mut accepted = 0;
    for entry in entries {
        accepted += u64::from(accepts(&entry.reply));
    }
    accepted
}
