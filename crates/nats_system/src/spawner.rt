//! Who starts jobs.
ghost use Rattle.std.specs.Prelude.{◌≡◌, ℕ};
ghost use Rattle.nats_system.specs.Spawning.{spawned};

use crate::TaskSpawner;
use nats_names::Failed;
use std::alloc::Global;

/// What may run beside its maker: it owns all that it uses, may move between threads, and can be dropped. Own
/// trait: the Rust hands its runtime a future.
pub trait Job: Drop + Send + Sized {
    /// Does the job, to its end.
    fn run(self);

    /// Puts the job into a box and hands it to who starts tasks; where there is no memory for the box, the job is
    /// dropped and counted there as one that was not started. A job says this itself, since only it knows its type.
    fn start_on<T: TaskSpawner>(self, alloc: Global, on: &mut T) -> Result<(), Failed>
        ensures { T.task_faults on.new ≡ spawned result (T.task_faults on.old) };
}

/// Starts jobs, and counts those that it could not start; the count stops at 2^64-1. Own trait: the Rust spawns
/// tasks of its runtime, and a clause that names the cause of a refusal needs a count.
pub trait Spawner {
    /// How many jobs were not started.
    ghost spawn_faults: { Self → ℕ };

    /// What stands beside the spawner, which its call leaves as it was.
    ghost BesideSpawner: { Type 0 };

    ghost beside_spawner: { Self → BesideSpawner };

    /// Starts a job. One that is not started is dropped, and counted.
    fn start<J: Job>(&mut self, job: J) -> Result<(), Failed>
        ensures told { spawn_faults self.new ≡ spawned result (spawn_faults self.old) }
        ensures beside { beside_spawner self.new ≡ beside_spawner self.old };
}
