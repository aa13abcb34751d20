//! A spawner of threads.
ghost use Rattle.std.specs.Prelude.{◌≡◌};

use crate::{Job, Spawner, Task, TaskSpawner};
use nats_names::Failed;
use std::alloc::Global;
use std::thread;
use std::thread::{JoinHandle, Threads};

/// A spawner that starts a thread for each job. It keeps the threads, so that they can be waited for. A start
/// for which there is no thread or no memory fails.
#[derive(Drop)]
pub struct ThreadSpawner<R> {
    rt: R,
    alloc: Global,
    threads: Vec<JoinHandle<()>>,
    faults: u64,
}

impl<R> ThreadSpawner<R> {
    /// It started nothing yet.
    pub fn new(alloc: Global, rt: R) -> ThreadSpawner<R>
        ensures { result.faults ≡ 0 }
    {
        ThreadSpawner {
            rt,
            alloc,
            threads: Vec::new(alloc),
            faults: 0,
        }
    }
}

impl<R: Threads> ThreadSpawner<R> {
    /// Waits until each job that it started is done. Own call.
    pub fn join_all(&mut self)
        ensures { self.new.faults ≡ self.old.faults }
    {
        'threads: while let Some(thread) = self.threads.pop() {
            thread.join(&self.rt);
        }
    }
}

impl<R: Threads> TaskSpawner for ThreadSpawner<R> {
    ghost task_faults = { λ s. s.faults };

    fn start_task(&mut self, task: Task) -> Result<(), Failed> {
        if self.threads.reserve(1).is_err() {
            return Err(self.refuse());
        }
        match thread::spawn(&self.rt, move || task.run()) {
            Ok(thread) => {
                self.threads.push_reserved(thread);
                Ok(())
            }
            Err(_) => Err(self.refuse()),
        }
    }

    fn refuse(&mut self) -> Failed {
        self.faults = self.faults.saturating_add(1);
        Failed
    }
}

impl<R: Threads> Spawner for ThreadSpawner<R> {
    ghost spawn_faults = { λ s. s.faults };

    ghost BesideSpawner = { Unit {0} };

    ghost beside_spawner = { λ _. tt };

    fn start<J: Job>(&mut self, job: J) -> Result<(), Failed> {
        job.start_on(self.alloc, self)
    }
}
