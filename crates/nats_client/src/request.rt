//! Requests.
ghost use Rattle.std.specs.Prelude.{◌≡◌, true, IfErr, Some, None};
ghost use Rattle.nats_history.specs.declared.call.Call.TheVariants as calls;
ghost use Rattle.nats_refusals.specs.Errors.{RefusesRequest};
ghost use Rattle.nats_refusals.specs.declared.kinds.RequestErrorKind.TheVariants as kinds;
ghost use Rattle.nats_hub.specs.Late.{IsLate};
ghost use Rattle.nats_client.specs.Calls.{requested, CountsRequest};

use crate::Client;
use nats_core::{Bytes, Call, Message, Subject};
use nats_header::HeaderMap;
use nats_hub::Tallies;
use nats_names::ToSubject;
use nats_outside::Clock;
use nats_refusals::{Refusal, RequestError, request_error};
use std::alloc::Global;
use std::sync::Wait;

/// What a request is sent with; what is not set is the client's. The crate's `Request`.
#[derive(Debug, Drop)]
pub struct Request {
    /// The body; empty where it is not set.
    pub payload: Option<Bytes>,
    /// The headers.
    pub headers: Option<HeaderMap>,
    /// How many milliseconds it waits, or for ever; as long as the client's where it is not set.
    pub timeout: Option<Option<u64>>,
    /// The subject at which it asks for replies.
    pub inbox: Option<String>,
}

impl Request {
    /// Nothing is set. The crate's call.
    pub fn new() -> Request
        ensures { result ≡ record { payload = None; headers = None; timeout = None; inbox = None } }
    {
        Request {
            payload: None,
            headers: None,
            timeout: None,
            inbox: None,
        }
    }

    /// With this body. The crate's call.
    pub fn payload(self, payload: Bytes) -> Request
        ensures { result ≡ record self { payload = Some payload } }
    {
        Request {
            payload: Some(payload),
            headers: self.headers,
            timeout: self.timeout,
            inbox: self.inbox,
        }
    }

    /// With these headers. The crate's call.
    pub fn headers(self, headers: HeaderMap) -> Request
        ensures { result ≡ record self { headers = Some headers } }
    {
        Request {
            payload: self.payload,
            headers: Some(headers),
            timeout: self.timeout,
            inbox: self.inbox,
        }
    }

    /// Waiting for so many milliseconds, or for ever. The crate's call.
    pub fn timeout(self, timeout: Option<u64>) -> Request
        ensures { result ≡ record self { timeout = Some timeout } }
    {
        Request {
            payload: self.payload,
            headers: self.headers,
            timeout: Some(timeout),
            inbox: self.inbox,
        }
    }

    /// Asking for replies at this subject. The crate's call.
    pub fn inbox(self, inbox: String) -> Request
        ensures { result ≡ record self { inbox = Some inbox } }
    {
        Request {
            payload: self.payload,
            headers: self.headers,
            timeout: self.timeout,
            inbox: Some(inbox),
        }
    }
}

impl<G: Tallies> Client<G> {
    /// Makes a request under a token that the hub's generator draws.
    #[tactic(auto, using(crate::proofs::Asks::request_rules))]
    pub(crate) fn ask<R: Wait, C: Clock>(
        &mut self,
        rt: &R,
        alloc: Global,
        subject: Subject,
        payload: Bytes,
        headers: Option<HeaderMap>,
        timeout: Option<u64>,
        clock: &mut C,
    ) -> Result<Message, RequestError>
        ensures held { self.new ≡ record self.old { made = self.new.made } }
        ensures made { CountsRequest result self.old.made self.new.made }
        ensures refused { IfErr result (λ e. RefusesRequest (requested subject payload headers) e.0 e.1) }
        ensures late { IfErr result (λ e. e.0 ≡ kinds.TimedOut
            → IsLate timeout (C.clock_told clock.old) (C.clock_told clock.new)) }
    {
        let Ok(token) = self.hub().draw_token(rt, alloc) else {
            return Err(request_error(Refusal::NoMemory));
        };
        let call = Call::Request {
            subject,
            payload,
            headers,
            token,
        };
        match self.holder.ask(rt, alloc, call, timeout, clock) {
            Ok(message) => Ok(message),
            Err(refusal) => Err(request_error(refusal)),
        }
    }

    /// Sends a request as soon as there is room for it, and waits for the message by which it is replied, for at most
    /// this client's `timeout` by `clock` from its acceptance on. The crate's `request`.
    ///
    /// # Errors
    ///
    /// `InvalidSubject` where the subject, or the prefix of inboxes, may not be published to; `MaxPayloadExceeded`
    /// only where the message is larger than the limit, which the source tells with its size; `NoResponders` where
    /// nobody answers requests to the subject; `TimedOut` only where the clock gives that its time is over; `Other`
    /// where the session is closed or is to close, no ticket is left, or the request was dropped; `NoMemory` for
    /// want of memory. A request that was accepted counts, whatever comes of it.
    pub fn request<R: Wait, S: ToSubject + Drop, C: Clock>(
        &mut self,
        rt: &R,
        alloc: Global,
        subject: S,
        payload: Bytes,
        clock: &mut C,
    ) -> Result<Message, RequestError>
        ensures held { self.new ≡ record self.old { made = self.new.made } }
        ensures made { CountsRequest result self.old.made self.new.made }
        ensures refused { IfErr result (λ e.
            RefusesRequest (requested (S.subject_text subject) payload None) e.0 e.1) }
        ensures late { IfErr result (λ e. e.0 ≡ kinds.TimedOut
            → IsLate self.old.timeout (C.clock_told clock.old) (C.clock_told clock.new)) }
    {
        let timeout = self.timeout;
        match subject.to_subject(alloc) {
            Ok(subject) => self.ask(rt, alloc, subject, payload, None, timeout, clock),
            Err(_) => Err(request_error(Refusal::NoMemory)),
        }
    }

    /// Sends a request with headers as soon as there is room for it, and waits for the message by which it is replied,
    /// for at most this client's `timeout` by `clock` from its acceptance on. The crate's `request_with_headers`.
    ///
    /// # Errors
    ///
    /// Those of `request`.
    pub fn request_with_headers<R: Wait, S: ToSubject + Drop, C: Clock>(
        &mut self,
        rt: &R,
        alloc: Global,
        subject: S,
        headers: HeaderMap,
        payload: Bytes,
        clock: &mut C,
    ) -> Result<Message, RequestError>
        ensures held { self.new ≡ record self.old { made = self.new.made } }
        ensures made { CountsRequest result self.old.made self.new.made }
        ensures refused { IfErr result (λ e.
            RefusesRequest (requested (S.subject_text subject) payload (Some headers)) e.0 e.1) }
        ensures late { IfErr result (λ e. e.0 ≡ kinds.TimedOut
            → IsLate self.old.timeout (C.clock_told clock.old) (C.clock_told clock.new)) }
    {
        let timeout = self.timeout;
        match subject.to_subject(alloc) {
            Ok(subject) => self.ask(rt, alloc, subject, payload, Some(headers), timeout, clock),
            Err(_) => Err(request_error(Refusal::NoMemory)),
        }
    }
}
