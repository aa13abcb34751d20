//! Taking messages, each of which is waited for no longer than for a time: what was lost with a link never comes.

use crate::deeds::refused;
use crate::stop::Stop;
use nats_client::{Client, Message, Subject, Subscriber, Tallies};
use nats_outside::Clock;
use nats_refusals::Refusal;
use std::alloc::Global;
use std::sync::Wait;

/// How long the next message is waited for, in milliseconds.
pub const PATIENCE_MS: u64 = 10_000;

/// How long the first message is waited for where another process publishes it, in milliseconds.
pub const FIRST_MS: u64 = 60_000;

/// What waiting for a message came to.
#[derive(Clone, Copy, Debug, PartialEq, Eq)]
pub enum Heard {
    /// One came.
    Came,
    /// None came in time.
    Late,
    /// None will come: the session is closed.
    Over,
    /// Memory was wanting.
    NoMemory,
}

/// What waiting for a message came to.
fn what_came(came: &Result<Message, Refusal>) -> Heard {
    match came {
        Ok(_) | Err(Refusal::NoResponders) => Heard::Came,
        Err(Refusal::TimedOut) => Heard::Late,
        Err(Refusal::NoMemory) => Heard::NoMemory,
        Err(_) => Heard::Over,
    }
}

/// A subscription, and a client by which it is waited for.
#[derive(Drop)]
pub struct Taker<G: Tallies> {
    /// The client.
    pub client: Client<G>,
    subscriber: Subscriber<G>,
    number: u64,
}

impl<G: Tallies> Taker<G> {
    /// The next message, which is waited for that many milliseconds at most.
    pub fn next<R: Wait, C: Clock>(
        &self,
        rt: &R,
        alloc: Global,
        clock: &mut C,
        ms: u64,
    ) -> Result<Message, Refusal> {
        let hub = self.client.hub();
        hub.await_message(rt, alloc, self.number, Some(ms), clock)
    }

    /// Takes the next message, which is waited for that many milliseconds at most.
    pub fn take<R: Wait, C: Clock>(&self, rt: &R, alloc: Global, clock: &mut C, ms: u64) -> Heard {
        let came = self.next(rt, alloc, clock, ms);
        what_came(&came)
    }
}

/// A clone of a client.
pub fn cloned<G: Tallies>(client: &mut Client<G>) -> Result<Client<G>, Stop> {
    match client.clone() {
        Ok(clone) => Ok(clone),
        Err(_) => Err(Stop::NoMemory),
    }
}

/// Subscribes, where the session has this many subscriptions so far: they are numbered from 1.
pub fn subscribed<G: Tallies, R: Wait + Eprint>(
    rt: &R,
    alloc: Global,
    client: &mut Client<G>,
    subject: Subject,
    made: &mut u64,
) -> Result<Taker<G>, Stop> {
    let clone = cloned(client)?;
    match client.subscribe(rt, alloc, subject) {
        Ok(subscriber) => {
            *made = made.saturating_add(1);
            Ok(Taker {
                client: clone,
                subscriber,
                number: *made,
            })
        }
        Err(error) => Err(refused(rt, &error)),
    }
}
