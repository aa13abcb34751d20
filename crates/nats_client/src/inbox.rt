//! Requests that ask for replies at a subject of their caller's.
ghost use Rattle.std.specs.Prelude.{◌≡◌, ◌+◌, ◌-◌, ◌<◌, ◌^◌, IfOk, OnOk, OnErr, IfErr};
ghost use Rattle.nats_history.specs.declared.call.Call.TheVariants as calls;
ghost use Rattle.nats_refusals.specs.declared.kinds.RequestErrorKind.TheVariants as kinds;
ghost use Rattle.nats_hub.specs.Late.{IsLate};
ghost use Rattle.nats_client.specs.Calls.{requested};
ghost use Rattle.nats_client.specs.Inboxes as words;

use crate::{Client, Request, Subscriber};
use nats_core::{Bytes, Call, Message, OutboundMessage, Subject};
use nats_hub::Tallies;
use nats_names::ToSubject;
use nats_outside::Clock;
use nats_refusals::{Cause, Error, Refusal, RequestError, RequestErrorKind, request_error};
use std::alloc::Global;
use std::sync::Wait;

/// Why an inbox was not subscribed to: one that may not be is told as another cause, with its form as the source.
fn unheard(refusal: Refusal) -> RequestError
    ensures { result ≡ words.unheard refusal }
{
    match refusal {
        Refusal::InvalidSubject => Error::with_source(RequestErrorKind::Other, Cause::Format),
        refusal => request_error(refusal),
    }
}

/// Why no message came at an inbox: that its subscription ended is told as a broken pipe.
fn unanswered(refusal: Refusal) -> RequestError
    ensures { result ≡ words.unanswered refusal }
{
    match refusal {
        Refusal::Dropped => Error::with_source(RequestErrorKind::Other, Cause::BrokenPipe),
        refusal => request_error(refusal),
    }
}

/// The body of a request.
fn body(payload: Option<Bytes>) -> Bytes
    ensures { result ≡ words.body_of payload }
{
    match payload {
        Some(payload) => payload,
        None => Bytes::new(),
    }
}

/// The message that a call publishes.
fn message_in(call: Call) -> Option<OutboundMessage>
    ensures { result ≡ words.message_in call }
{
    match call {
        Call::Publish(message) => Some(message),
        _other => None,
    }
}

impl<G: Tallies> Client<G> {
    /// Tests the subject and the size of a call.
    #[tactic(auto, using(crate::proofs::Inboxes::tested_rules))]
    fn test<R: Wait>(&self, rt: &R, call: &Call) -> Result<(), RequestError>
        ensures refused { IfErr result (λ e. words.Tests call.now e.0 e.1) }
    {
        match self.hub().objection(rt, call) {
            Some(refusal) => Err(request_error(refusal)),
            None => Ok(()),
        }
    }

    /// Tests the subject and the size of a message, which comes back.
    fn tested<R: Wait>(
        &self,
        rt: &R,
        message: OutboundMessage,
    ) -> Result<OutboundMessage, RequestError>
        ensures back { IfOk result (λ m. m ≡ message) }
        ensures refused { IfErr result (λ e. words.Tests (calls.Publish message) e.0 e.1) }
    {
        let call = Call::Publish(message);
        self.test(rt, &call)?;
        match message_in(call) {
            Some(message) => Ok(message),
            None => unreachable!(),
        }
    }

    /// Subscribes to an inbox.
    #[tactic(auto, using(crate::proofs::Inboxes::heard_rules))]
    fn listen<R: Wait>(
        &mut self,
        rt: &R,
        alloc: Global,
        inbox: Subject,
    ) -> Result<Subscriber<G>, RequestError>
        ensures new { IfOk result (λ s. s ≡ record { made = 0; empties = 0 }) }
        ensures some { OnOk result (1 < self.old.parts) }
        ensures made { OnOk result (self.new
            ≡ record self.old { parts = self.old.parts - 1; made = self.old.made + 1 }) }
        ensures same { OnErr result (self.new ≡ self.old) }
        ensures refused { IfErr result (λ e. words.IsUnheard self.old.parts e.0 e.1) }
    {
        if self.holder.has_one_part() {
            return Err(unheard(Refusal::NoPart));
        }
        let call = Call::Subscribe {
            subject: inbox,
            queue_group: None,
        };
        match self.holder.call_for_part(rt, alloc, call) {
            Ok((holder, number)) => Ok(Subscriber::new(holder, number)),
            Err(refusal) => Err(unheard(refusal)),
        }
    }

    /// Publishes a message that asks for replies at an inbox, and waits for one message of that inbox.
    #[tactic(auto, using(crate::proofs::Inboxes::answered_rules))]
    fn ask_by<R: Wait, C: Clock>(
        &mut self,
        rt: &R,
        alloc: Global,
        message: OutboundMessage,
        inbox: &Subscriber<G>,
        timeout: Option<u64>,
        clock: &mut C,
    ) -> Result<Message, RequestError>
        ensures held { self.new ≡ record self.old { made = self.new.made } }
        ensures made { words.CountsSent result self.old.made self.new.made }
        ensures refused { IfErr result (λ e. words.RefusesSent (calls.Publish message) e.0 e.1) }
        ensures late { IfErr result (λ e. e.0 ≡ kinds.TimedOut
            → IsLate timeout (C.clock_told clock.old) (C.clock_told clock.new)) }
    {
        if let Err(refusal) = self.holder.call(rt, alloc, Call::Publish(message)) {
            return Err(request_error(refusal));
        }
        match inbox.await_message(rt, alloc, timeout, clock) {
            Ok(message) => Ok(message),
            Err(refusal) => Err(unanswered(refusal)),
        }
    }

    /// Closes the subscription to an inbox, whatever the answer is that came there.
    #[tactic(auto, using(crate::proofs::Inboxes::ended_rules))]
    fn end<R: Wait>(
        &mut self,
        rt: &R,
        alloc: Global,
        inbox: Subscriber<G>,
        answer: Result<Message, RequestError>,
    ) -> Result<Message, RequestError>
        requires whole { G.parts ≡ 2 ^ 63 }
        requires new { inbox.made ≡ 0 }
        ensures ended { words.Ends answer result self.old self.new }
    {
        match inbox.close(rt, alloc, self) {
            Ok(()) => answer,
            Err(_) => Err(request_error(Refusal::NoMemory)),
        }
    }

    /// Makes a request that asks for replies at this inbox.
    #[tactic(auto, using(crate::proofs::Inboxes::inbox_rules))]
    fn ask_at<R: Wait, C: Clock>(
        &mut self,
        rt: &R,
        alloc: Global,
        message: OutboundMessage,
        inbox: &str,
        timeout: Option<u64>,
        clock: &mut C,
    ) -> Result<Message, RequestError>
        requires { G.parts ≡ 2 ^ 63 }
        ensures held { words.HoldsAt result self.old self.new }
        ensures made { words.CountsAt result self.old.made self.new.made }
        ensures refused { IfErr result (λ e.
            words.RefusesAt self.old.parts (requested message.subject message.payload message.headers) e.0 e.1) }
        ensures late { IfErr result (λ e. e.0 ≡ kinds.TimedOut
            → IsLate timeout (C.clock_told clock.old) (C.clock_told clock.new)) }
    {
        let Ok(reply) = Subject::from_text(alloc, inbox) else {
            return Err(request_error(Refusal::NoMemory));
        };
        let Ok(subject) = reply.copy(alloc) else {
            return Err(request_error(Refusal::NoMemory));
        };
        let mut message = self.tested(rt, message)?;
        message.reply = Some(reply);
        let inbox = self.listen(rt, alloc, subject)?;
        let answer = self.ask_by(rt, alloc, message, &inbox, timeout, clock);
        self.end(rt, alloc, inbox, answer)
    }

    /// Sends a request as soon as there is room for it, and waits for the message by which it is replied, for at most
    /// its own timeout, or this client's where it has none, by `clock` from its acceptance on. One that has an inbox
    /// of its own asks for replies there, in this order: its subject and its size are tested; the inbox is subscribed
    /// to, for which this client gives one of its parts away; the message is published; one message is taken; and the
    /// subscription is closed, whatever came, which gives the part back. The crate's `send_request`; there the inbox
    /// is subscribed to first, and the drop of a subscriber closes it.
    ///
    /// # Errors
    ///
    /// Those of `request`. With an inbox of its own also: `Other` with source `NoPart` where this client has one part
    /// alone, with source `Format` where the inbox may not be subscribed to, and with source `BrokenPipe` where its
    /// subscription ended before a message came; `NoResponders` where the message says that nobody answers; `NoMemory`
    /// where memory was wanting to close the subscription, whatever came before, and the part is not given back. Calls
    /// that were accepted count, whatever comes of them: with an inbox of its own up to three.
    pub fn send_request<R: Wait, S: ToSubject + Drop, C: Clock>(
        &mut self,
        rt: &R,
        alloc: Global,
        subject: S,
        request: Request,
        clock: &mut C,
    ) -> Result<Message, RequestError>
        requires { G.parts ≡ 2 ^ 63 }
        ensures held { words.HoldsAsked request.inbox result self.old self.new }
        ensures made { words.CountsAsked request.inbox result self.old.made self.new.made }
        ensures refused { IfErr result (λ e. words.RefusesAsked request.inbox self.old.parts
            (requested (S.subject_text subject) (words.body_of request.payload) request.headers) e.0 e.1) }
        ensures late { IfErr result (λ e. e.0 ≡ kinds.TimedOut
            → IsLate (words.time_of request.timeout self.old.timeout)
            (C.clock_told clock.old) (C.clock_told clock.new)) }
    {
        let Request {
            payload,
            headers,
            timeout,
            inbox,
        } = request;
        let timeout = timeout.unwrap_or(self.timeout);
        let payload = body(payload);
        let Ok(subject) = subject.to_subject(alloc) else {
            return Err(request_error(Refusal::NoMemory));
        };
        match inbox {
            None => self.ask(rt, alloc, subject, payload, headers, timeout, clock),
            Some(inbox) => {
                let message = OutboundMessage {
                    subject,
                    reply: None,
                    payload,
                    headers,
                };
                self.ask_at(rt, alloc, message, inbox.as_str(), timeout, clock)
            }
        }
    }
}
