//! What a driver asks of a world.

use crate::{Plan, Starter, World};
use nats_dial::{ConnectError, Linked};
use nats_outside::{LinkRead, LinkWrite};
use nats_pool::{ServerInfo, ServerPool};
use std::alloc::Global;

/// What a driver asks of a world whose links have halves of the types `L` and `H`, and whose clocks are of the type
/// `T`. Each `World` is one. Own trait: what is sent to a thread is known to be sendable where its type is a parameter.
pub trait Driven<L, H, T>: Starter {
    /// A clock for a job. It takes no memory.
    fn clock(&self) -> T;

    /// One round of connecting with the options of this plan.
    fn dial<P: ServerPool, K: Plan>(
        &mut self,
        alloc: Global,
        pool: &mut P,
        plan: &K,
        last: &ServerInfo,
    ) -> Result<Linked<L, H>, ConnectError>;

    /// Takes a link back. It takes no memory.
    fn take_back(&mut self, read: L, write: H);

    /// Comes back after that many milliseconds.
    fn rest(&mut self, ms: u64);
}

impl<W: World> Driven<W::Read, W::Write, W::Ticks> for W {
    fn clock(&self) -> W::Ticks {
        self.ticks()
    }

    fn dial<P: ServerPool, K: Plan>(
        &mut self,
        alloc: Global,
        pool: &mut P,
        plan: &K,
        last: &ServerInfo,
    ) -> Result<Linked<W::Read, W::Write>, ConnectError> {
        plan.round(alloc, pool, last, self)
    }

    fn take_back(&mut self, read: W::Read, write: W::Write) {
        self.hang_up(read, write)
    }

    fn rest(&mut self, ms: u64) {
        self.sleep_ms(ms)
    }
}
