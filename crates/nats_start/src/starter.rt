//! Who starts jobs.
ghost use Rattle.std.specs.Prelude.{◌≡◌, ℕ};
ghost use Rattle.nats_addr.specs.Resolving.{risen};
ghost use Rattle.nats_system.specs.Spawning.{spawned};

use nats_names::Failed;
use std::thread;
use std::thread::Threads;

/// Starts jobs, and counts those that it could not start; the count stops at 2^64-1. A job is a closure that owns all
/// that it uses: `start` is what is called, and the calls above it are what it is made of. Own trait: the Rust spawns
/// tasks of its runtime, and a clause that names the cause of a refusal needs a count.
pub trait Starter {
    /// What threads are started by.
    type Rt: Threads;

    /// How many jobs were not started.
    ghost start_faults: { Self → ℕ };

    /// What stands beside the starter, which its calls leave as it was.
    ghost BesideStarter: { Type 0 };

    ghost beside_starter: { Self → BesideStarter };

    /// What threads are started by.
    fn threads(&self) -> &Self::Rt;

    /// Says whether one more job may be started. One that may not is counted.
    fn begin(&mut self) -> Result<(), Failed>
        ensures told { start_faults self.new ≡ spawned result (start_faults self.old) }
        ensures beside { beside_starter self.new ≡ beside_starter self.old };

    /// Counts a job for which there was no thread.
    fn refuse(&mut self) -> Failed
        ensures told { start_faults self.new ≡ risen 1 (start_faults self.old) }
        ensures beside { beside_starter self.new ≡ beside_starter self.old };

    /// Starts a job on a thread of its own, for which nobody waits. One that is not started is dropped, and counted.
    final fn start<F: FnOnce() + Send + Drop + 'static>(&mut self, job: F) -> Result<(), Failed>
        requires { F.pre job }
        ensures told { start_faults self.new ≡ spawned result (start_faults self.old) }
        ensures beside { beside_starter self.new ≡ beside_starter self.old }
    {
        self.begin()?;
        match thread::spawn(self.threads(), job) {
            Ok(thread) => {
                drop(thread);
                Ok(())
            }
            Err(_) => Err(self.refuse()),
        }
    }
}

/// A starter of threads. A start for which there is no thread fails.
#[derive(Drop)]
pub struct ThreadStarter<R> {
    rt: R,
    faults: u64,
}

impl<R> ThreadStarter<R> {
    /// It started nothing yet.
    pub fn new(rt: R) -> ThreadStarter<R>
        ensures { result.faults ≡ 0 }
    {
        ThreadStarter { rt, faults: 0 }
    }
}

impl<R: Threads> Starter for ThreadStarter<R> {
    type Rt = R;

    ghost start_faults = { λ s. s.faults };

    ghost BesideStarter = { Unit {0} };

    ghost beside_starter = { λ _. tt };

    fn threads(&self) -> &R {
        &self.rt
    }

    fn begin(&mut self) -> Result<(), Failed> {
        Ok(())
    }

    fn refuse(&mut self) -> Failed {
        self.faults = self.faults.saturating_add(1);
        Failed
    }
}
