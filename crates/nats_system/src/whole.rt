//! What connects, a spawner and clocks, side by side.
ghost use Rattle.std.specs.Prelude.{◌≡◌};
ghost use Rattle.nats_system.specs.Aside.{Aside};

use crate::{Job, Spawner, World};
use nats_outside::{Clock, Dialer, Draw, Failed, Reach, ResolveError, Resolver};
use std::alloc::Global;
use std::net::SocketAddr;

/// What connects, a spawner, and a clock that each job gets a copy of, side by side: all of the outside that a
/// client needs.
#[derive(Drop)]
pub struct Whole<W, S, C> {
    /// What connects.
    pub reach: W,
    /// Who starts jobs.
    pub spawner: S,
    /// The clock that each job gets a copy of.
    pub clock: C,
}

impl<W: Dialer, S, C> Dialer for Whole<W, S, C> {
    type Read = W::Read;

    type Write = W::Write;

    ghost dialer_told = { λ w. W.dialer_told w.reach };

    ghost BesideDialer = { W.BesideDialer × Aside S C };

    ghost beside_dialer = { λ w. (W.beside_dialer w.reach, record { spawner = w.spawner; clock = w.clock }) };

    fn dial(&mut self, to: &SocketAddr, within: u64) -> Result<(W::Read, W::Write), Failed> {
        self.reach.dial(to, within)
    }

    fn hang_up(&mut self, read: W::Read, write: W::Write) {
        self.reach.hang_up(read, write)
    }
}

impl<W: Resolver, S, C> Resolver for Whole<W, S, C> {
    ghost resolver_told = { λ w. W.resolver_told w.reach };

    ghost BesideResolver = { W.BesideResolver × Aside S C };

    ghost beside_resolver = { λ w. (W.beside_resolver w.reach, record { spawner = w.spawner; clock = w.clock }) };

    fn resolve(
        &mut self,
        alloc: Global,
        host: &str,
        port: u16,
    ) -> Result<Vec<SocketAddr>, ResolveError> {
        self.reach.resolve(alloc, host, port)
    }
}

impl<W: Clock, S, C> Clock for Whole<W, S, C> {
    ghost clock_told = { λ w. W.clock_told w.reach };

    ghost BesideClock = { W.BesideClock × Aside S C };

    ghost beside_clock = { λ w. (W.beside_clock w.reach, record { spawner = w.spawner; clock = w.clock }) };

    fn start_ms(&mut self) -> u64 {
        self.reach.start_ms()
    }

    fn now_ms(&mut self) -> u64 {
        self.reach.now_ms()
    }

    fn sleep_ms(&mut self, ms: u64) {
        self.reach.sleep_ms(ms)
    }
}

impl<W: Draw, S, C> Draw for Whole<W, S, C> {
    ghost BesideDraw = { W.BesideDraw × Aside S C };

    ghost beside_draw = { λ w. (W.beside_draw w.reach, record { spawner = w.spawner; clock = w.clock }) };

    fn draw(&mut self) -> u64 {
        self.reach.draw()
    }
}

impl<W: Reach, S, C> Reach for Whole<W, S, C> {
    ghost use Rattle.std.proofs.Common.{ap, refl};

    ghost seen = { λ w. W.seen w.reach };

    ghost seen_is = { λ w. W.seen_is w.reach };

    ghost BesideReach = { Aside S C };

    ghost beside_reach = { λ w. record { spawner = w.spawner; clock = w.clock } };

    ghost by_dialer = { λ a b e.
        let same = W.by_dialer a.reach b.reach (ap (λ s. s.0) e) in (same.0, same.1, ap (λ s. s.1) e) };

    ghost by_resolver = { λ a b e.
        let same = W.by_resolver a.reach b.reach (ap (λ s. s.0) e) in (same.0, same.1, ap (λ s. s.1) e) };

    ghost by_clock = { λ a b e.
        let same = W.by_clock a.reach b.reach (ap (λ s. s.0) e) in (same.0, same.1, ap (λ s. s.1) e) };

    ghost by_draw = { λ a b e.
        let same = W.by_draw a.reach b.reach (ap (λ s. s.0) e) in (same.0, same.1, same.2, ap (λ s. s.1) e) };
}

impl<W, S: Spawner, C> Spawner for Whole<W, S, C> {
    ghost spawn_faults = { λ w. S.spawn_faults w.spawner };

    ghost BesideSpawner = { W };

    ghost beside_spawner = { λ w. w.reach };

    fn start<J: Job>(&mut self, job: J) -> Result<(), Failed> {
        self.spawner.start(job)
    }
}

impl<W: Reach, S: Spawner, C: Clock + Copy + Drop + Send> World for Whole<W, S, C> {
    ghost use Rattle.std.proofs.Common.{ap};

    type Ticks = C;

    fn ticks(&self) -> C {
        self.clock
    }

    ghost by_reach = { λ a b e. ap (λ s. S.spawn_faults s.spawner) e };

    ghost by_spawner = { λ a b e. ap (λ s. W.seen s) e };
}
