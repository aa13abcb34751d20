//! Publishing by polls, which wait for nothing.
ghost use Rattle.std.specs.Prelude.{◌≡◌, ◌+◌, true, false, OnOk, OnErr, IfErr, Ok, Err};
ghost use Rattle.nats_history.specs.declared.call.Call.TheVariants as calls;
ghost use Rattle.nats_refusals.specs.Errors.{RefusesPublish};
ghost use Rattle.nats_client.specs.Polling.{unsent};
ghost use Rattle.nats_client.specs.declared.poll.Poll.TheVariants as polls;

use crate::Client;
use nats_core::{Event, OutboundMessage};
use nats_hub::{Room, Tallies};
use nats_refusals::{PublishError, Refusal, publish_error};
use std::alloc::Global;
use std::sync::Wait;

/// What a poll answers. It stands for std's `Poll`: what is not ready is an answer, and nobody is woken.
#[derive(Debug, Drop, PartialEq, Eq)]
pub enum Poll<T> {
    /// This came of it.
    Ready(T),
    /// Nothing came of it yet.
    Pending,
}

impl<G: Tallies> Client<G> {
    /// Whether a message can be sent at once: `Pending` where as many calls wait as may. It keeps no place. The
    /// crate's `poll_ready` of its sink.
    ///
    /// # Errors
    ///
    /// `Send` where the session is closed, or this client was shut.
    pub fn poll_ready<R: Wait>(&mut self, rt: &R) -> Poll<Result<(), PublishError>>
        ensures same { self.new ≡ self.old }
        ensures shut { self.old.is_shut ≡ true → result ≡ polls.Ready (Err unsent) }
    {
        if self.is_shut {
            return Poll::Ready(Err(publish_error(Refusal::Closed)));
        }
        match self.hub().room(rt) {
            Room::Free => Poll::Ready(Ok(())),
            Room::Full => Poll::Pending,
            Room::Closed => Poll::Ready(Err(publish_error(Refusal::Closed))),
        }
    }

    /// Publishes a message at once, as `try_publish`. The crate's `start_send` of its sink.
    ///
    /// # Errors
    ///
    /// Those of `try_publish`, and `Send` where this client was shut.
    pub fn start_send<R: Wait>(
        &mut self,
        rt: &R,
        alloc: Global,
        message: OutboundMessage,
    ) -> Result<(), PublishError>
        ensures shut { self.old.is_shut ≡ true → result ≡ Err unsent }
        ensures made { OnOk result (self.new ≡ record self.old { made = self.old.made + 1 }) }
        ensures same { OnErr result (self.new ≡ self.old) }
        ensures refused { IfErr result (λ e. RefusesPublish false (calls.Publish message) e.0 e.1) }
    {
        if self.is_shut {
            return Err(publish_error(Refusal::Closed));
        }
        self.try_publish(rt, alloc, message)
    }

    /// Nothing is to be done: what was sent waits in the session. The crate's `poll_flush` of its sink.
    pub fn poll_flush(&mut self) -> Poll<Result<(), PublishError>>
        ensures same { self.new ≡ self.old }
        ensures ready { result ≡ polls.Ready (Ok tt) }
    {
        Poll::Ready(Ok(()))
    }

    /// Shuts this client for `poll_ready` and `start_send`; its other calls go on. The crate's `poll_close` of its
    /// sink.
    pub fn poll_close(&mut self) -> Poll<Result<(), PublishError>>
        ensures shut { self.new ≡ record self.old { is_shut = true } }
        ensures ready { result ≡ polls.Ready (Ok tt) }
    {
        self.is_shut = true;
        Poll::Ready(Ok(()))
    }

    /// Hands out the oldest event that was not handed out yet, if there is one. At most 128 wait; later ones are
    /// dropped. Own call: the crate has a callback.
    pub fn poll_event<R: Wait>(&self, rt: &R) -> Option<Event> {
        self.hub().next_event(rt)
    }
}
