//! The PINGs of a link that wait for their PONGs.
ghost use Rattle.std.specs.Prelude.{◌≡◌, ◌<◌, [], ◌∷◌, ◌++◌, length, drop, OnOk, OnErr, Some};
ghost use Rattle.nats_history.specs.Queue.{first};
ghost use Rattle.nats_history.specs.History.{tick_of, ticks};

use crate::queue::Queue;
use nats_history::{NoMemory, Ping};
use std::alloc::Global;
use std::marker::Model;

/// The PINGs of a link that no PONG answered. Contracts see them oldest first.
#[derive(Drop)]
pub struct Pings {
    waiting: Queue<Ping>,
    tick_count: u64,
}

impl Model for Pings {
    ghost use Rattle.std.specs.Prelude.{◌≡◌, List};
    ghost use Rattle.nats_history.specs.declared.ping.Ping.{Ping};
    ghost use Rattle.nats_history.specs.History.{ticks};

    ghost Value = { List Ping };

    ghost view = { λ p. p.waiting };

    ghost invariant = { λ p. p.tick_count ≡ ticks p.waiting };
}

fn tick_of(ping: Ping) -> u64
    ensures { result ≡ tick_of ping }
{
    match ping {
        Ping::Tick => 1,
        Ping::Drain(_) | Ping::DrainAll => 0,
    }
}

impl Pings {
    /// No PING. It takes no memory.
    pub fn new(alloc: Global) -> Pings
        ensures { result ≡ [] }
    {
        Pings {
            waiting: Queue::new(alloc),
            tick_count: 0,
        }
    }

    /// How many are of ticks.
    pub fn ticks(&self) -> u64
        ensures { result ≡ ticks self.now }
    {
        self.tick_count
    }

    /// The oldest one.
    pub fn front(&self) -> Option<Ping>
        ensures { result ≡ first self.now }
    {
        self.waiting.front().copied()
    }

    /// One more is written.
    pub fn push(&mut self, ping: Ping) -> Result<(), NoMemory>
        ensures ok { OnOk result (self.new ≡ self.old ++ ping ∷ []) }
        ensures err { OnErr result (self.new ≡ self.old) }
    {
        let Some(ticks) = self.tick_count.checked_add(tick_of(ping)) else {
            return Err(NoMemory);
        };
        let Ok(()) = self.waiting.push(ping) else {
            return Err(NoMemory);
        };
        self.tick_count = ticks;
        Ok(())
    }

    /// The youngest one is not written after all.
    pub fn pop_back(&mut self)
        requires { 0 < length self.old }
        ensures { (pings : _) (ping : _) → self.old ≡ pings ++ ping ∷ [] → self.new ≡ pings }
    {
        if let Some(ping) = self.waiting.pop_back() {
            self.tick_count -= tick_of(ping);
        }
    }

    /// A PONG answers the oldest one.
    pub fn discard(&mut self)
        ensures { self.new ≡ drop 1 self.old }
    {
        if let Some(ping) = self.waiting.pop() {
            self.tick_count -= tick_of(ping);
        }
    }

    /// None waits any more: their link ended. It takes no memory.
    pub fn clear(&mut self)
        ensures { self.new ≡ [] }
    {
        self.waiting.clear();
        self.tick_count = 0;
    }
}
