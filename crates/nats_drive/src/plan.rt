//! What a driver asks of the options of a connection.

use nats_core::Event;
use nats_dial::{ConnectError, ConnectOptions, Linked, try_connect};
use nats_hub::{Hub, Tallies};
use nats_outside::Reach;
use nats_pool::{ServerInfo, ServerPool};
use std::alloc::Global;
use std::num::{NonZeroU16, NonZeroU64};
use std::sync::Wait;

/// What a driver asks of the options of a connection. Own trait: what is sent to a thread is known to be sendable where
/// its type is a parameter.
pub trait Plan {
    /// Milliseconds between two pings.
    fn ping_interval(&self) -> NonZeroU64;

    /// The length of the buffer that a read is handed.
    fn read_buffer_capacity(&self) -> NonZeroU16;

    /// Says whether events go to a callback.
    fn has_event_callback(&self) -> bool;

    /// Tells the callback of an event, where there is one.
    fn tell(&self, event: Event);

    /// One round of connecting with these options, as `try_connect` makes it.
    fn round<P: ServerPool, W: Reach>(
        &self,
        alloc: Global,
        pool: &mut P,
        last: &ServerInfo,
        world: &mut W,
    ) -> Result<Linked<W::Read, W::Write>, ConnectError>;
}

/// The options of a connection, as its driver owns them.
#[derive(Drop)]
pub(crate) struct Planned {
    pub(crate) options: ConnectOptions,
}

impl Plan for Planned {
    fn ping_interval(&self) -> NonZeroU64 {
        self.options.ping_interval
    }

    fn read_buffer_capacity(&self) -> NonZeroU16 {
        self.options.read_buffer_capacity
    }

    fn has_event_callback(&self) -> bool {
        self.options.event_callback.is_some()
    }

    fn tell(&self, event: Event) {
        if let Some(callback) = &self.options.event_callback {
            callback.call(event)
        }
    }

    fn round<P: ServerPool, W: Reach>(
        &self,
        alloc: Global,
        pool: &mut P,
        last: &ServerInfo,
        world: &mut W,
    ) -> Result<Linked<W::Read, W::Write>, ConnectError> {
        try_connect(alloc, pool, &self.options, last, world)
    }
}

/// Hands the events that came to the callback, where there is one, outside the lock: an event goes to the callback or
/// to who polls, never to both.
pub(crate) fn tell<G: Tallies, R: Wait, K: Plan>(rt: &R, hub: &Hub<G>, plan: &K) {
    if plan.has_event_callback() {
        for _ in rt.forever() {
            match hub.next_event(rt) {
                Some(event) => plan.tell(event),
                None => return,
            }
        }
    }
}
