//! A spawner in memory.
ghost use Rattle.std.specs.Prelude.{◌≡◌};
ghost use Rattle.nats_system.specs.Spawning.{IsNewSpawner};

use crate::{Job, Spawner};
use nats_names::Failed;
use std::alloc::Global;

/// A spawner in memory: it runs each job at once, on the caller's thread, and fails at the starts that it was
/// told to fail at.
#[derive(Drop)]
pub struct FakeSpawner {
    failing: Vec<u64>,
    starts: u64,
    faults: u64,
}

impl FakeSpawner {
    /// It starts each job.
    pub fn new(alloc: Global) -> FakeSpawner
        ensures { IsNewSpawner result }
    {
        FakeSpawner::failing(Vec::new(alloc))
    }

    /// It fails at the starts of these numbers, counted from 1.
    pub fn failing(failing: Vec<u64>) -> FakeSpawner
        ensures failing { result.failing ≡ failing }
        ensures new { IsNewSpawner result }
    {
        FakeSpawner {
            failing,
            starts: 0,
            faults: 0,
        }
    }
}

impl Spawner for FakeSpawner {
    ghost spawn_faults = { λ s. s.faults };

    ghost BesideSpawner = { Unit {0} };

    ghost beside_spawner = { λ _. tt };

    fn start<J: Job>(&mut self, job: J) -> Result<(), Failed> {
        self.starts = self.starts.saturating_add(1);
        if self.failing.as_slice().contains(&self.starts) {
            self.faults = self.faults.saturating_add(1);
            return Err(Failed);
        }
        job.run();
        Ok(())
    }
}
