//! Calls that wait for the ticket which they are given: flushes, and requests beside a clock.
ghost use Rattle.std.specs.Prelude.{◌≡◌, ◌+◌, ◌≤◌, true, IfErr, Some};
ghost use Rattle.nats_history.specs.declared.call.Call.TheVariants as calls;
ghost use Rattle.nats_refusals.specs.Refusals.{is_numbered, asked_of, counts_flush, CountsAsk};
ghost use Rattle.nats_refusals.specs.Refusals.{MayFailFlush, MayFailAsk};
ghost use Rattle.nats_refusals.specs.declared.refusal.Refusal.TheVariants as refused;
ghost use Rattle.nats_history.specs.Tickets.{is_no_responders};
ghost use Rattle.nats_hub.specs.Asking.{Lacks, replied_by};
ghost use Rattle.nats_hub.specs.Late.{IsLate, is_late, early_of, IsFailed};

use crate::{Holder, Hub, Tallies};
use nats_core::{Call, CallReply, Message, NoMemory, StepError, Turn};
use nats_names::StatusCode;
use nats_outside::Clock;
use nats_refusals::{Refusal, asked, flushed};
use std::alloc::Global;
use std::sync::Wait;

/// How long a request waits at most between two looks at its clock, in milliseconds: the clock need not be the
/// runtime's.
const LOOK_MS: u64 = 1_000;

/// Whether a time is that long after a start at least.
fn is_late(timeout: Option<u64>, start: u64, now: u64) -> bool
    ensures { result ≡ is_late timeout start now }
{
    match timeout {
        Some(timeout) => now >= start && now - start >= timeout,
        None => false,
    }
}

/// How many milliseconds to sleep, unless one is woken: what is left of the time, at least one and at most a second.
fn nap(timeout: Option<u64>, start: u64, now: u64) -> u64 {
    match timeout {
        Some(timeout) => timeout
            .saturating_sub(now.saturating_sub(start))
            .clamp(1, LOOK_MS),
        None => LOOK_MS,
    }
}

/// What the reply of a request's ticket comes to before its own time is over. Where somebody else played the deadline,
/// the request was dropped.
#[tactic(auto, using(crate::proofs::Settling::early_failed, crate::proofs::Settling::early_in_time))]
fn early(reply: CallReply) -> Result<Message, Refusal>
    ensures value { result ≡ early_of (asked_of reply) }
    ensures failed { IfErr result (λ r. IsFailed r) }
    ensures in_time { IfErr result (λ r. r ≡ refused.TimedOut → ⊥) }
{
    match asked(reply) {
        Err(Refusal::TimedOut) => Err(Refusal::Dropped),
        answer => answer,
    }
}

/// Whether a message says that nobody answers requests to the subject.
fn says_none_answers(message: &Message) -> bool
    ensures { result ≡ is_no_responders message.now.status }
{
    match message.status {
        Some(status) => status.as_u16() == StatusCode::NO_RESPONDERS.as_u16(),
        None => false,
    }
}

/// What a message of an inbox comes to, or that none will come.
fn replied(taken: Option<Message>) -> Result<Message, Refusal>
    ensures value { result ≡ replied_by taken }
    ensures lacks { IfErr result (λ r. Lacks r) }
    ensures in_time { IfErr result (λ r. r ≡ refused.TimedOut → ⊥) }
{
    match taken {
        Some(message) => {
            if says_none_answers(&message) {
                Err(Refusal::NoResponders)
            } else {
                Ok(message)
            }
        }
        None => Err(Refusal::Dropped),
    }
}

impl<G: Tallies> Hub<G> {
    /// Waits for a message of the subscription of this number, for at most `timeout` milliseconds by `clock` from now
    /// on. Own call: it stands for the crate's `next` under a timeout.
    ///
    /// # Errors
    ///
    /// `NoResponders` where the message says that nobody answers; `TimedOut` only where the clock gives that the time
    /// is over; `Dropped` where none will come; `NoMemory` for want of memory.
    pub fn await_message<R: Wait, C: Clock>(
        &self,
        rt: &R,
        alloc: Global,
        number: u64,
        timeout: Option<u64>,
        clock: &mut C,
    ) -> Result<Message, Refusal>
        ensures lacks { IfErr result (λ r. Lacks r) }
        ensures late { IfErr result (λ r. r ≡ refused.TimedOut
            → IsLate timeout (C.clock_told clock.old) (C.clock_told clock.new)) }
    {
        let start = clock.start_ms();
        for _ in rt.forever() {
            let seen = match self.message_or_seen(rt, alloc, number) {
                Ok(Err(seen)) => seen,
                Ok(Ok(taken)) => return replied(taken),
                Err(NoMemory) => return Err(Refusal::NoMemory),
            };
            let now = clock.now_ms();
            if is_late(timeout, start, now) {
                return Err(Refusal::TimedOut);
            }
            self.sleep(rt, seen, nap(timeout, start, now));
        }
        unreachable!()
    }
}

impl<G: Tallies> Holder<G> {
    /// Flushes as soon as there is room for the call, and waits for its ticket: it is done once the link took all bytes
    /// that waited when the call was handled.
    ///
    /// # Errors
    ///
    /// Why the call was refused, or `FlushFailed` where its link ended or the session closed first. Such a flush was
    /// accepted, and counts.
    #[tactic(auto, using(crate::proofs::Settling::flush_rules))]
    pub fn flush<R: Wait>(&mut self, rt: &R, alloc: Global) -> Result<(), Refusal>
        ensures parts { self.new.parts ≡ self.old.parts }
        ensures made { self.new.made ≡ self.old.made + counts_flush result }
        ensures may { IfErr result (λ r. MayFailFlush calls.Flush r) }
    {
        match self.call(rt, alloc, Call::Flush) {
            Ok(Some(ticket)) => flushed(&self.hub().settled(rt, ticket)),
            Ok(None) => unreachable!(),
            Err(refusal) => Err(refusal),
        }
    }

    /// What a request came to once its time was over.
    #[tactic(auto, using(crate::proofs::Settling::asked_failed))]
    fn late<R: Wait>(&self, rt: &R, alloc: Global, ticket: u64) -> Result<Message, Refusal>
        ensures { IfErr result (λ r. IsFailed r) }
    {
        match self.hub().play(rt, alloc, Turn::Deadline(ticket)) {
            Ok(_) => {}
            Err(StepError::OutOfTurn | StepError::LinkGone { .. }) => return Err(Refusal::Dropped),
            Err(StepError::NoMemory) => return Err(Refusal::NoMemory),
        }
        match self.hub().reply_or_seen(rt, ticket) {
            Ok(reply) => asked(reply),
            Err(_) => Err(Refusal::TimedOut),
        }
    }

    /// Waits for the ticket of a request.
    fn await_reply<R: Wait, C: Clock>(
        &self,
        rt: &R,
        alloc: Global,
        ticket: u64,
        timeout: Option<u64>,
        clock: &mut C,
    ) -> Result<Message, Refusal>
        ensures failed { IfErr result (λ r. IsFailed r) }
        ensures late { IfErr result (λ r. r ≡ refused.TimedOut
            → IsLate timeout (C.clock_told clock.old) (C.clock_told clock.new)) }
    {
        let start = clock.start_ms();
        for _ in rt.forever() {
            let seen = match self.hub().reply_or_seen(rt, ticket) {
                Ok(reply) => return early(reply),
                Err(seen) => seen,
            };
            let now = clock.now_ms();
            if is_late(timeout, start, now) {
                return self.late(rt, alloc, ticket);
            }
            self.hub().sleep(rt, seen, nap(timeout, start, now));
        }
        unreachable!()
    }

    /// Makes a request as soon as there is room for it, and waits for the message by which it is replied, for at most
    /// `timeout` milliseconds by `clock` from its acceptance on.
    ///
    /// # Errors
    ///
    /// Why the call was refused; `NoResponders` where nobody answers; `TimedOut` only where the clock gives that its
    /// time is over; `Dropped` where it waits no more, for another reason; `NoMemory` for want of memory. A request
    /// that was accepted counts, whatever comes of it.
    #[tactic(auto, using(crate::proofs::Settling::ask_rules))]
    pub fn ask<R: Wait, C: Clock>(
        &mut self,
        rt: &R,
        alloc: Global,
        call: Call,
        timeout: Option<u64>,
        clock: &mut C,
    ) -> Result<Message, Refusal>
        requires { is_numbered call ≡ true }
        ensures parts { self.new.parts ≡ self.old.parts }
        ensures made { CountsAsk result self.old.made self.new.made }
        ensures may { IfErr result (λ r. MayFailAsk call r) }
        ensures late { IfErr result (λ r. r ≡ refused.TimedOut
            → IsLate timeout (C.clock_told clock.old) (C.clock_told clock.new)) }
    {
        match self.call(rt, alloc, call) {
            Ok(Some(ticket)) => self.await_reply(rt, alloc, ticket, timeout, clock),
            Ok(None) => unreachable!(),
            Err(refusal) => Err(refusal),
        }
    }
}
