//! Subscribing.
ghost use Rattle.std.specs.Prelude.{◌≡◌, ◌+◌, ◌-◌, true, false, IfOk, OnOk, OnErr, IfErr, Some, None};
ghost use Rattle.nats_refusals.specs.Errors.{RefusesSubscribe};
ghost use Rattle.nats_client.specs.Calls.{subscribed};

use crate::{Client, Subscriber};
use nats_core::{Call, Subject};
use nats_hub::Tallies;
use nats_names::ToSubject;
use nats_refusals::{Refusal, SubscribeError, subscribe_error};
use std::alloc::Global;
use std::sync::Wait;

impl<G: Tallies> Client<G> {
    /// A subscription as soon as there is room for the call.
    #[tactic(auto, using(nats_refusals::proofs::Telling::tells_subscribe))]
    fn subscribe_to<R: Wait>(
        &mut self,
        rt: &R,
        alloc: Global,
        subject: Subject,
        queue_group: Option<Subject>,
    ) -> Result<Subscriber<G>, SubscribeError>
        ensures new { IfOk result (λ s. s ≡ record { made = 0; empties = 0 }) }
        ensures made { OnOk result (self.new
            ≡ record self.old { parts = self.old.parts - 1; made = self.old.made + 1 }) }
        ensures same { OnErr result (self.new ≡ self.old) }
        ensures refused { IfErr result (λ e.
            RefusesSubscribe true self.old.parts (subscribed subject queue_group) e.0 e.1) }
    {
        let call = Call::Subscribe {
            subject,
            queue_group,
        };
        match self.holder.call_for_part(rt, alloc, call) {
            Ok((holder, number)) => Ok(Subscriber::new(holder, number)),
            Err(refusal) => Err(subscribe_error(refusal)),
        }
    }

    /// A subscription to a subject, as soon as there is room for the call. The subscriber takes one of this client's
    /// parts. The crate's `subscribe`.
    ///
    /// # Errors
    ///
    /// `Other` with source `NoPart`, first of all and exactly where this client has one part alone; `InvalidSubject`
    /// only where the subject may not be subscribed to; `Other` where the session is closed or is to close, or no
    /// number is left; `NoMemory` for want of memory. This client is then as it was.
    pub fn subscribe<R: Wait, S: ToSubject + Drop>(
        &mut self,
        rt: &R,
        alloc: Global,
        subject: S,
    ) -> Result<Subscriber<G>, SubscribeError>
        ensures new { IfOk result (λ s. s ≡ record { made = 0; empties = 0 }) }
        ensures made { OnOk result (self.new
            ≡ record self.old { parts = self.old.parts - 1; made = self.old.made + 1 }) }
        ensures same { OnErr result (self.new ≡ self.old) }
        ensures refused { IfErr result (λ e.
            RefusesSubscribe true self.old.parts (subscribed (S.subject_text subject) None) e.0 e.1) }
    {
        if self.holder.has_one_part() {
            return Err(subscribe_error(Refusal::NoPart));
        }
        match subject.to_subject(alloc) {
            Ok(subject) => self.subscribe_to(rt, alloc, subject, None),
            Err(_) => Err(subscribe_error(Refusal::NoMemory)),
        }
    }

    /// A subscription to a subject that the members of a group share, as soon as there is room for the call. The
    /// crate's `queue_subscribe`.
    ///
    /// # Errors
    ///
    /// Those of `subscribe`, and `InvalidQueueName` only where the group is no name.
    pub fn queue_subscribe<R: Wait, S: ToSubject + Drop>(
        &mut self,
        rt: &R,
        alloc: Global,
        subject: S,
        queue_group: Subject,
    ) -> Result<Subscriber<G>, SubscribeError>
        ensures new { IfOk result (λ s. s ≡ record { made = 0; empties = 0 }) }
        ensures made { OnOk result (self.new
            ≡ record self.old { parts = self.old.parts - 1; made = self.old.made + 1 }) }
        ensures same { OnErr result (self.new ≡ self.old) }
        ensures refused { IfErr result (λ e.
            RefusesSubscribe true self.old.parts (subscribed (S.subject_text subject) (Some queue_group)) e.0 e.1) }
    {
        if self.holder.has_one_part() {
            return Err(subscribe_error(Refusal::NoPart));
        }
        match subject.to_subject(alloc) {
            Ok(subject) => self.subscribe_to(rt, alloc, subject, Some(queue_group)),
            Err(_) => Err(subscribe_error(Refusal::NoMemory)),
        }
    }

    /// A subscription to a subject at once. Own call.
    ///
    /// # Errors
    ///
    /// Those of `subscribe`, and `Full` where as many calls wait as may.
    #[tactic(auto, using(nats_refusals::proofs::Telling::tells_subscribe))]
    pub fn try_subscribe<R: Wait, S: ToSubject + Drop>(
        &mut self,
        rt: &R,
        alloc: Global,
        subject: S,
    ) -> Result<Subscriber<G>, SubscribeError>
        ensures new { IfOk result (λ s. s ≡ record { made = 0; empties = 0 }) }
        ensures made { OnOk result (self.new
            ≡ record self.old { parts = self.old.parts - 1; made = self.old.made + 1 }) }
        ensures same { OnErr result (self.new ≡ self.old) }
        ensures refused { IfErr result (λ e.
            RefusesSubscribe false self.old.parts (subscribed (S.subject_text subject) None) e.0 e.1) }
    {
        if self.holder.has_one_part() {
            return Err(subscribe_error(Refusal::NoPart));
        }
        let Ok(subject) = subject.to_subject(alloc) else {
            return Err(subscribe_error(Refusal::NoMemory));
        };
        let call = Call::Subscribe {
            subject,
            queue_group: None,
        };
        match self.holder.try_call_for_part(rt, alloc, call) {
            Ok((holder, number)) => Ok(Subscriber::new(holder, number)),
            Err(refusal) => Err(subscribe_error(refusal)),
        }
    }
}
