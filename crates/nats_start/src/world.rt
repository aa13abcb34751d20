//! All of the outside that a client who stays connected needs.
ghost use Rattle.std.specs.Prelude.{◌≡◌};

use crate::Starter;
use nats_names::Failed;
use nats_outside::{Clock, Reach};
use nats_system::Whole;

/// All of the outside that a client who stays connected needs: what connecting needs, who starts jobs, and clocks that
/// a job may own. What connects leaves the starter's count as it was, and a start of a job leaves what the other parts
/// tell. Own trait.
pub trait World: Reach + Starter {
    /// A clock that a job owns.
    type Ticks: Clock + Drop;

    /// A clock for a job. It takes no memory.
    fn ticks(&self) -> Self::Ticks;

    ghost by_reach: { (a b : Self) → Self.beside_reach a ≡ Self.beside_reach b
        → Self.start_faults a ≡ Self.start_faults b };

    ghost by_starter: { (a b : Self) → Self.beside_starter a ≡ Self.beside_starter b
        → Self.seen a ≡ Self.seen b };
}

impl<W, S: Starter, C> Starter for Whole<W, S, C> {
    type Rt = S::Rt;

    ghost start_faults = { λ w. S.start_faults w.spawner };

    ghost BesideStarter = { W };

    ghost beside_starter = { λ w. w.reach };

    fn threads(&self) -> &S::Rt {
        self.spawner.threads()
    }

    fn begin(&mut self) -> Result<(), Failed> {
        self.spawner.begin()
    }

    fn refuse(&mut self) -> Failed {
        self.spawner.refuse()
    }
}

impl<W: Reach, S: Starter, C: Clock + Copy + Drop> World for Whole<W, S, C> {
    ghost use Rattle.std.proofs.Common.{ap};

    type Ticks = C;

    fn ticks(&self) -> C {
        self.clock
    }

    ghost by_reach = { λ a b e. ap (λ s. S.start_faults s.spawner) e };

    ghost by_starter = { λ a b e. ap (λ s. W.seen s) e };
}
