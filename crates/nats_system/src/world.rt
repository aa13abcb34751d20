//! All of the outside that a client needs.
ghost use Rattle.std.specs.Prelude.{◌≡◌};

use crate::Spawner;
use nats_outside::{Clock, Reach};

/// All of the outside that a client needs: what connecting needs, who starts jobs, and clocks that a job may
/// own. What connects leaves the spawner's count as it was, and a start of a job leaves what the other parts
/// tell. Own trait.
pub trait World: Reach + Spawner {
    /// A clock that a job owns.
    type Ticks: Clock + Drop + Send;

    /// A clock for a job. It takes no memory.
    fn ticks(&self) -> Self::Ticks;

    ghost by_reach: { (a b : Self) → Self.beside_reach a ≡ Self.beside_reach b
        → Self.spawn_faults a ≡ Self.spawn_faults b };

    ghost by_spawner: { (a b : Self) → Self.beside_spawner a ≡ Self.beside_spawner b
        → Self.seen a ≡ Self.seen b };
}
