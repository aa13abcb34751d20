//! A subscriber.
ghost use Rattle.std.specs.Prelude.{◌≡◌, ◌+◌, ◌-◌, ◌^◌, ◌≤◌, IfOk, OnOk, OnErr, IfErr, min};
ghost use Rattle.nats_history.specs.declared.call.TakeReply.TheVariants as takes;
ghost use Rattle.nats_outside.specs.Counts.{RoseBy};
ghost use Rattle.nats_refusals.specs.Errors.{RefusesClosing};
ghost use Rattle.nats_refusals.specs.declared.refusal.Refusal.TheVariants as refused;
ghost use Rattle.nats_hub.specs.Asking.{Lacks};
ghost use Rattle.nats_hub.specs.Late.{IsLate};
ghost use Rattle.nats_client.specs.Calls.{takes_empty};

use crate::Client;
use nats_core::{Call, Message, NoMemory, StepError, StepReply, TakeReply, Turn};
use nats_hub::{Holder, Tallies};
use nats_outside::Clock;
use nats_refusals::{Refusal, UnsubscribeError, closing_cause};
use std::alloc::Global;
use std::marker::Model;
use std::sync::Wait;

/// A subscriber of a hub, which holds one of its parts. Contracts see it as the accepted calls that it made, and how
/// many of its takes found that none waits, up to 2^64-1. The crate's `Subscriber`, without its stream.
#[derive(Drop)]
pub struct Subscriber<G: Tallies> {
    holder: Holder<G>,
    number: u64,
    empties: u64,
}

impl<G: Tallies> Model for Subscriber<G> {
    ghost use Rattle.std.specs.Prelude.{◌≡◌};
    ghost use Rattle.nats_client.specs.Views.{Subscribed};

    ghost Value = { Subscribed };

    ghost view = { λ s. record { made = s.holder.made; empties = s.empties } };

    ghost invariant = { λ s. s.holder.parts ≡ 1 };
}

impl<G: Tallies> Subscriber<G> {
    /// A subscriber of the subscription of this number.
    pub(crate) fn new(holder: Holder<G>, number: u64) -> Subscriber<G>
        requires { holder.parts ≡ 1 }
        ensures { result ≡ record { made = holder.made; empties = 0 } }
    {
        Subscriber {
            holder,
            number,
            empties: 0,
        }
    }

    /// One take.
    fn take<R: Wait>(&self, rt: &R, alloc: Global) -> Result<TakeReply, NoMemory> {
        match self.holder.hub().play(rt, alloc, Turn::Take(self.number)) {
            Ok(StepReply::Take(reply)) => Ok(reply),
            Ok(StepReply::Done | StepReply::Call(_)) => Ok(TakeReply::Ended),
            Err(StepError::OutOfTurn | StepError::LinkGone { .. }) => Ok(TakeReply::Ended),
            Err(StepError::NoMemory) => Err(NoMemory),
        }
    }

    /// The oldest waiting message; `Empty` where none waits and some may still come, `Ended` where none will come. It
    /// waits for nothing. The crate's `poll_next`.
    ///
    /// # Errors
    ///
    /// `NoMemory` for want of memory: no message is lost.
    pub fn poll_next<R: Wait>(&mut self, rt: &R, alloc: Global) -> Result<TakeReply, NoMemory>
        ensures { self.new ≡ record self.old { empties = min (self.old.empties + takes_empty result) (2 ^ 64 - 1) } }
    {
        let reply = self.take(rt, alloc)?;
        self.empties = self
            .empties
            .saturating_add(u64::from(matches!(reply, TakeReply::Empty)));
        Ok(reply)
    }

    /// The oldest waiting message, asked for at most `turns` times: `Empty` only where the count of such answers
    /// rose by `turns`. It waits for nothing. Own call.
    ///
    /// # Errors
    ///
    /// `NoMemory` for want of memory: no message is lost.
    #[tactic(auto, using(crate::proofs::Risen::risen_more))]
    pub fn next_within<R: Wait>(
        &mut self,
        rt: &R,
        alloc: Global,
        turns: u64,
    ) -> Result<TakeReply, NoMemory>
        ensures made { self.new.made ≡ self.old.made }
        ensures risen { IfOk result (λ reply. reply ≡ takes.Empty
            → RoseBy turns self.old.empties self.new.empties) }
    {
        let mut reply = TakeReply::Empty;
        for _ in 0..turns {
            reply = self.poll_next(rt, alloc)?;
            if !matches!(reply, TakeReply::Empty) {
                break;
            }
        }
        Ok(reply)
    }

    /// The next message as soon as one waits; `None` once none will come. The crate's `next` of its stream.
    ///
    /// # Errors
    ///
    /// `NoMemory` for want of memory: no message is lost.
    pub fn next<R: Wait>(&mut self, rt: &R, alloc: Global) -> Result<Option<Message>, NoMemory>
        ensures { self.new ≡ self.old }
    {
        match self.holder.hub().take(rt, alloc, self.number)? {
            TakeReply::Message(message) => Ok(Some(message)),
            TakeReply::Empty | TakeReply::Ended => Ok(None),
        }
    }

    /// Waits for one message, for at most `timeout` milliseconds by `clock` from now on.
    pub(crate) fn await_message<R: Wait, C: Clock>(
        &self,
        rt: &R,
        alloc: Global,
        timeout: Option<u64>,
        clock: &mut C,
    ) -> Result<Message, Refusal>
        ensures lacks { IfErr result (λ r. Lacks r) }
        ensures late { IfErr result (λ r. r ≡ refused.TimedOut
            → IsLate timeout (C.clock_told clock.old) (C.clock_told clock.new)) }
    {
        let hub = self.holder.hub();
        hub.await_message(rt, alloc, self.number, timeout, clock)
    }

    /// Makes a call on its subscription as soon as there is room for it.
    #[tactic(auto, using(nats_refusals::proofs::Telling::tells_closing))]
    fn tell<R: Wait>(&mut self, rt: &R, alloc: Global, call: Call) -> Result<(), UnsubscribeError>
        ensures made { OnOk result (self.new ≡ record self.old { made = self.old.made + 1 }) }
        ensures same { OnErr result (self.new ≡ self.old) }
        ensures refused { IfErr result (λ e. RefusesClosing e.0) }
    {
        match self.holder.call(rt, alloc, call) {
            Ok(_) => Ok(()),
            Err(refusal) => Err(UnsubscribeError(closing_cause(refusal))),
        }
    }

    /// Asks for no further messages, as soon as there is room for the call. Those that wait can still be taken, then
    /// none will come. The crate's `unsubscribe`.
    ///
    /// # Errors
    ///
    /// With cause `Closed` where the session is closed or is to close, with cause `NoMemory` for want of memory. This
    /// subscriber is then as it was.
    pub fn unsubscribe<R: Wait>(&mut self, rt: &R, alloc: Global) -> Result<(), UnsubscribeError>
        ensures made { OnOk result (self.new ≡ record self.old { made = self.old.made + 1 }) }
        ensures same { OnErr result (self.new ≡ self.old) }
        ensures refused { IfErr result (λ e. RefusesClosing e.0) }
    {
        self.tell(rt, alloc, Call::Unsubscribe(self.number))
    }

    /// Has its subscription end once `unsub_after` messages were put into its queue in all, as soon as there is
    /// room for the call. The crate's `unsubscribe_after`.
    ///
    /// # Errors
    ///
    /// Those of `unsubscribe`.
    pub fn unsubscribe_after<R: Wait>(
        &mut self,
        rt: &R,
        alloc: Global,
        unsub_after: u64,
    ) -> Result<(), UnsubscribeError>
        ensures made { OnOk result (self.new ≡ record self.old { made = self.old.made + 1 }) }
        ensures same { OnErr result (self.new ≡ self.old) }
        ensures refused { IfErr result (λ e. RefusesClosing e.0) }
    {
        self.tell(rt, alloc, Call::Limit(self.number, unsub_after))
    }

    /// Drains its subscription, as soon as there is room for the call: the server is asked for no further messages,
    /// those that it sent before are still put into the queue, and then it ends. The crate's `drain`.
    ///
    /// # Errors
    ///
    /// Those of `unsubscribe`.
    pub fn drain<R: Wait>(&mut self, rt: &R, alloc: Global) -> Result<(), UnsubscribeError>
        ensures made { OnOk result (self.new ≡ record self.old { made = self.old.made + 1 }) }
        ensures same { OnErr result (self.new ≡ self.old) }
        ensures refused { IfErr result (λ e. RefusesClosing e.0) }
    {
        self.tell(rt, alloc, Call::Drain(self.number))
    }

    /// Lets its subscription go, and gives its part and its tally to a client of the hub. It waits for nothing:
    /// where there is no room for the call, the server is not told. Own call: in the crate the drop of a subscriber
    /// does so.
    ///
    /// # Errors
    ///
    /// Want of memory hands the subscriber back as it was, and the client is as it was.
    #[tactic(auto, using(crate::proofs::Asks::counts_most))]
    pub fn close<R: Wait>(
        mut self,
        rt: &R,
        alloc: Global,
        into: &mut Client<G>,
    ) -> Result<(), Subscriber<G>>
        requires { G.parts ≡ 2 ^ 63 }
        ensures back { IfErr result (λ s. s ≡ self) }
        ensures same { OnErr result (into.new ≡ into.old) }
        ensures parts { OnOk result (into.new
            ≡ record into.old { parts = into.old.parts + 1; made = into.new.made }) }
        ensures made { OnOk result (into.old.made + self.made ≤ into.new.made) }
        ensures most { OnOk result (into.new.made ≤ into.old.made + self.made + 1) }
    {
        match self.holder.try_call(rt, alloc, Call::DropSub(self.number)) {
            Err(Refusal::NoMemory) => Err(self),
            Ok(_) | Err(_) => {
                into.take_over(self.holder);
                Ok(())
            }
        }
    }
}
