//! What code may ask of a client alone, call by call: the crate's four traits. Their contracts see a client as
//! `Client`'s do: its parts, the accepted calls that it made, how long its requests wait, and whether it was shut.
ghost use Rattle.std.specs.Prelude.{◌≡◌, ◌+◌, ◌-◌, ℕ, true, OnOk, OnErr, IfErr, Option, Some, None};
ghost use Rattle.nats_history.specs.declared.call.Call.TheVariants as calls;
ghost use Rattle.nats_refusals.specs.Errors.{RefusesPublish, RefusesSubscribe};
ghost use Rattle.nats_refusals.specs.declared.kinds.RequestErrorKind.TheVariants as kinds;
ghost use Rattle.nats_hub.specs.Late.{IsLate};
ghost use Rattle.nats_client.specs.Calls.{published, requested, subscribed};
ghost use Rattle.nats_client.specs.Inboxes.{CountsAsked, HoldsAsked, RefusesAsked, body_of, time_of};
ghost use Rattle.nats_client.specs.Views.{ClientView};

use crate::{Client, Request, Subscriber as ClientSubscriber};
use nats_core::{Bytes, Message, OutboundMessage};
use nats_hub::Tallies;
use nats_names::ToSubject;
use nats_outside::Clock;
use nats_refusals::{PublishError, RequestError, SubscribeError};
use std::alloc::Global;
use std::sync::Wait;

/// Publishes messages. The crate's `traits::Publisher`.
pub trait Publisher {
    /// What is seen of it.
    ghost publisher: { Self → ClientView };

    /// Publishes a payload that asks for replies at a subject, as soon as there is room for it.
    ///
    /// # Errors
    ///
    /// Those of `Client::publish_with_reply`. It is then as it was.
    fn publish_with_reply<R: Wait, S: ToSubject + Drop, A: ToSubject + Drop>(
        &mut self,
        rt: &R,
        alloc: Global,
        subject: S,
        reply: A,
        payload: Bytes,
    ) -> Result<(), PublishError>
        ensures made { OnOk result (publisher self.new
            ≡ record (publisher self.old) { made = (publisher self.old).made + 1 }) }
        ensures same { OnErr result (self.new ≡ self.old) }
        ensures refused { IfErr result (λ e. RefusesPublish true
            (published (S.subject_text subject) (Some (A.subject_text reply)) payload None) e.0 e.1) };

    /// Publishes a message as soon as there is room for it.
    ///
    /// # Errors
    ///
    /// Those of `Client::try_publish`, but never `Full`. It is then as it was.
    fn publish_message<R: Wait>(
        &mut self,
        rt: &R,
        alloc: Global,
        msg: OutboundMessage,
    ) -> Result<(), PublishError>
        ensures made { OnOk result (publisher self.new
            ≡ record (publisher self.old) { made = (publisher self.old).made + 1 }) }
        ensures same { OnErr result (self.new ≡ self.old) }
        ensures refused { IfErr result (λ e. RefusesPublish true (calls.Publish msg) e.0 e.1) };
}

/// Subscribes to subjects. The crate's `traits::Subscriber`.
pub trait Subscriber {
    /// What takes the messages of a subscription. The crate's trait gives its `Subscriber`.
    type Subscription: Drop;

    /// What is seen of it.
    ghost subscriber: { Self → ClientView };

    /// A subscription to a subject, as soon as there is room for the call. It takes one of the parts.
    ///
    /// # Errors
    ///
    /// Those of `Client::subscribe`. It is then as it was.
    fn subscribe<R: Wait, S: ToSubject + Drop>(
        &mut self,
        rt: &R,
        alloc: Global,
        subject: S,
    ) -> Result<Self::Subscription, SubscribeError>
        ensures made { OnOk result (subscriber self.new ≡ record (subscriber self.old)
            { parts = (subscriber self.old).parts - 1; made = (subscriber self.old).made + 1 }) }
        ensures same { OnErr result (self.new ≡ self.old) }
        ensures refused { IfErr result (λ e. RefusesSubscribe true (subscriber self.old).parts
            (subscribed (S.subject_text subject) None) e.0 e.1) };
}

/// Makes requests. The crate's `traits::Requester`.
pub trait Requester {
    /// What is seen of it.
    ghost requester: { Self → ClientView };

    /// Its condition: of a client, that its hub has all parts that there are.
    ghost MayAsk: { Type 0 };

    /// Sends a request as soon as there is room for it, and waits for its reply, for at most its own timeout or that of
    /// the requester, by `clock`.
    ///
    /// # Errors
    ///
    /// Those of `Client::send_request`.
    fn send_request<R: Wait, S: ToSubject + Drop, C: Clock>(
        &mut self,
        rt: &R,
        alloc: Global,
        subject: S,
        request: Request,
        clock: &mut C,
    ) -> Result<Message, RequestError>
        requires { MayAsk }
        ensures held { HoldsAsked request.inbox result (requester self.old) (requester self.new) }
        ensures made { CountsAsked request.inbox result (requester self.old).made (requester self.new).made }
        ensures refused { IfErr result (λ e. RefusesAsked request.inbox (requester self.old).parts
            (requested (S.subject_text subject) (body_of request.payload) request.headers) e.0 e.1) }
        ensures late { IfErr result (λ e. e.0 ≡ kinds.TimedOut
            → IsLate (time_of request.timeout (requester self.old).timeout)
            (C.clock_told clock.old) (C.clock_told clock.new)) };
}

/// Tells how long requests wait. The crate's `traits::TimeoutProvider`.
pub trait TimeoutProvider {
    /// How many milliseconds they wait, if not for ever.
    ghost waits: { Self → Option ℕ };

    /// How many milliseconds its requests wait, if not for ever.
    fn timeout(&self) -> Option<u64>
        ensures { result ≡ waits self.now };
}

/// By the client's own calls; a message is published as its others are.
impl<G: Tallies> Publisher for Client<G> {
    ghost publisher = { λ client. client };

    fn publish_with_reply<R: Wait, S: ToSubject + Drop, A: ToSubject + Drop>(
        &mut self,
        rt: &R,
        alloc: Global,
        subject: S,
        reply: A,
        payload: Bytes,
    ) -> Result<(), PublishError> {
        self.publish_with_reply(rt, alloc, subject, reply, payload)
    }

    fn publish_message<R: Wait>(
        &mut self,
        rt: &R,
        alloc: Global,
        msg: OutboundMessage,
    ) -> Result<(), PublishError> {
        self.send(rt, alloc, msg)
    }
}

/// By the client's own call.
impl<G: Tallies> Subscriber for Client<G> {
    type Subscription = ClientSubscriber<G>;

    ghost subscriber = { λ client. client };

    fn subscribe<R: Wait, S: ToSubject + Drop>(
        &mut self,
        rt: &R,
        alloc: Global,
        subject: S,
    ) -> Result<ClientSubscriber<G>, SubscribeError> {
        self.subscribe(rt, alloc, subject)
    }
}

/// By the client's own call.
impl<G: Tallies> Requester for Client<G> {
    ghost use Rattle.std.specs.Prelude.{◌≡◌, ◌^◌};

    ghost requester = { λ client. client };

    ghost MayAsk = { G.parts ≡ 2 ^ 63 };

    fn send_request<R: Wait, S: ToSubject + Drop, C: Clock>(
        &mut self,
        rt: &R,
        alloc: Global,
        subject: S,
        request: Request,
        clock: &mut C,
    ) -> Result<Message, RequestError> {
        self.send_request(rt, alloc, subject, request, clock)
    }
}

/// By the client's own call.
impl<G: Tallies> TimeoutProvider for Client<G> {
    ghost waits = { λ client. client.timeout };

    fn timeout(&self) -> Option<u64> {
        self.timeout()
    }
}
