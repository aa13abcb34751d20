//! Publishing.
ghost use Rattle.std.specs.Prelude.{◌≡◌, ◌+◌, true, false, OnOk, OnErr, IfErr, Some, None};
ghost use Rattle.nats_history.specs.declared.call.Call.TheVariants as calls;
ghost use Rattle.nats_refusals.specs.Errors.{RefusesPublish};
ghost use Rattle.nats_client.specs.Calls.{published};

use crate::Client;
use nats_core::{Bytes, Call, OutboundMessage};
use nats_header::HeaderMap;
use nats_hub::Tallies;
use nats_names::ToSubject;
use nats_refusals::{PublishError, Refusal, publish_error};
use std::alloc::Global;
use std::sync::Wait;

impl<G: Tallies> Client<G> {
    /// Publishes a message as soon as there is room for it.
    #[tactic(auto, using(nats_refusals::proofs::Telling::tells_publish))]
    pub(crate) fn send<R: Wait>(
        &mut self,
        rt: &R,
        alloc: Global,
        message: OutboundMessage,
    ) -> Result<(), PublishError>
        ensures made { OnOk result (self.new ≡ record self.old { made = self.old.made + 1 }) }
        ensures same { OnErr result (self.new ≡ self.old) }
        ensures refused { IfErr result (λ e. RefusesPublish true (calls.Publish message) e.0 e.1) }
    {
        match self.holder.call(rt, alloc, Call::Publish(message)) {
            Ok(_) => Ok(()),
            Err(refusal) => Err(publish_error(refusal)),
        }
    }

    /// Publishes a message at once. Own call.
    ///
    /// # Errors
    ///
    /// `InvalidSubject` only where the subject or the reply may not be published to; `MaxPayloadExceeded` only
    /// where payload and headers are larger than the limit, which the source tells with their size; `Send` where
    /// the session is closed or is to close; `Full` where as many calls wait as may; `NoMemory` for want of memory.
    /// This client is then as it was.
    #[tactic(auto, using(nats_refusals::proofs::Telling::tells_publish))]
    pub fn try_publish<R: Wait>(
        &mut self,
        rt: &R,
        alloc: Global,
        message: OutboundMessage,
    ) -> Result<(), PublishError>
        ensures made { OnOk result (self.new ≡ record self.old { made = self.old.made + 1 }) }
        ensures same { OnErr result (self.new ≡ self.old) }
        ensures refused { IfErr result (λ e. RefusesPublish false (calls.Publish message) e.0 e.1) }
    {
        match self.holder.try_call(rt, alloc, Call::Publish(message)) {
            Ok(_) => Ok(()),
            Err(refusal) => Err(publish_error(refusal)),
        }
    }

    /// Publishes a payload as soon as there is room for it. The crate's `publish`.
    ///
    /// # Errors
    ///
    /// Those of `try_publish`, but never `Full`.
    pub fn publish<R: Wait, S: ToSubject + Drop>(
        &mut self,
        rt: &R,
        alloc: Global,
        subject: S,
        payload: Bytes,
    ) -> Result<(), PublishError>
        ensures made { OnOk result (self.new ≡ record self.old { made = self.old.made + 1 }) }
        ensures same { OnErr result (self.new ≡ self.old) }
        ensures refused { IfErr result (λ e.
            RefusesPublish true (published (S.subject_text subject) None payload None) e.0 e.1) }
    {
        match subject.to_subject(alloc) {
            Ok(subject) => self.send(
                rt,
                alloc,
                OutboundMessage {
                    subject,
                    reply: None,
                    payload,
                    headers: None,
                },
            ),
            Err(_) => Err(publish_error(Refusal::NoMemory)),
        }
    }

    /// Publishes a payload with headers as soon as there is room for it. The crate's `publish_with_headers`.
    ///
    /// # Errors
    ///
    /// Those of `try_publish`, but never `Full`.
    pub fn publish_with_headers<R: Wait, S: ToSubject + Drop>(
        &mut self,
        rt: &R,
        alloc: Global,
        subject: S,
        headers: HeaderMap,
        payload: Bytes,
    ) -> Result<(), PublishError>
        ensures made { OnOk result (self.new ≡ record self.old { made = self.old.made + 1 }) }
        ensures same { OnErr result (self.new ≡ self.old) }
        ensures refused { IfErr result (λ e.
            RefusesPublish true (published (S.subject_text subject) None payload (Some headers)) e.0 e.1) }
    {
        match subject.to_subject(alloc) {
            Ok(subject) => self.send(
                rt,
                alloc,
                OutboundMessage {
                    subject,
                    reply: None,
                    payload,
                    headers: Some(headers),
                },
            ),
            Err(_) => Err(publish_error(Refusal::NoMemory)),
        }
    }

    /// Publishes a payload that asks for replies at a subject, as soon as there is room for it. The crate's
    /// `publish_with_reply`.
    ///
    /// # Errors
    ///
    /// Those of `try_publish`, but never `Full`.
    pub fn publish_with_reply<R: Wait, S: ToSubject + Drop, A: ToSubject + Drop>(
        &mut self,
        rt: &R,
        alloc: Global,
        subject: S,
        reply: A,
        payload: Bytes,
    ) -> Result<(), PublishError>
        ensures made { OnOk result (self.new ≡ record self.old { made = self.old.made + 1 }) }
        ensures same { OnErr result (self.new ≡ self.old) }
        ensures refused { IfErr result (λ e. RefusesPublish true
            (published (S.subject_text subject) (Some (A.subject_text reply)) payload None) e.0 e.1) }
    {
        let Ok(subject) = subject.to_subject(alloc) else {
            return Err(publish_error(Refusal::NoMemory));
        };
        let Ok(reply) = reply.to_subject(alloc) else {
            return Err(publish_error(Refusal::NoMemory));
        };
        let message = OutboundMessage {
            subject,
            reply: Some(reply),
            payload,
            headers: None,
        };
        self.send(rt, alloc, message)
    }

    /// Publishes a payload with headers that asks for replies at a subject, as soon as there is room for it. The
    /// crate's `publish_with_reply_and_headers`.
    ///
    /// # Errors
    ///
    /// Those of `try_publish`, but never `Full`.
    pub fn publish_with_reply_and_headers<R: Wait, S: ToSubject + Drop, A: ToSubject + Drop>(
        &mut self,
        rt: &R,
        alloc: Global,
        subject: S,
        reply: A,
        headers: HeaderMap,
        payload: Bytes,
    ) -> Result<(), PublishError>
        ensures made { OnOk result (self.new ≡ record self.old { made = self.old.made + 1 }) }
        ensures same { OnErr result (self.new ≡ self.old) }
        ensures refused { IfErr result (λ e. RefusesPublish true
            (published (S.subject_text subject) (Some (A.subject_text reply)) payload (Some headers)) e.0 e.1) }
    {
        let Ok(subject) = subject.to_subject(alloc) else {
            return Err(publish_error(Refusal::NoMemory));
        };
        let Ok(reply) = reply.to_subject(alloc) else {
            return Err(publish_error(Refusal::NoMemory));
        };
        let message = OutboundMessage {
            subject,
            reply: Some(reply),
            payload,
            headers: Some(headers),
        };
        self.send(rt, alloc, message)
    }
}
