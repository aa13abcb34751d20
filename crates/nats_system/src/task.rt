//! Jobs in boxes, for threads.
ghost use Rattle.std.specs.Prelude.{◌≡◌, ℕ};
ghost use Rattle.nats_addr.specs.Resolving.{risen};
ghost use Rattle.nats_system.specs.Spawning.{spawned};

use nats_names::Failed;

/// A job in a box: what a thread can be handed without knowing whose job it is. Own type.
#[derive(Drop)]
pub struct Task {
    /// What does it.
    pub run: Box<dyn FnOnce() + Send>,
    /// It asks for nothing.
    pub ghost ready: { pre run },
}

impl Task {
    /// Does the job, to its end.
    pub fn run(self) {
        let Task { run } = self;
        run()
    }
}

/// Starts tasks, and counts those that it could not start; the count stops at 2^64-1. Own trait: what a job that
/// is put into a box is handed to.
pub trait TaskSpawner {
    /// How many tasks were not started.
    ghost task_faults: { Self → ℕ };

    /// Starts a task. One that is not started is dropped, and counted.
    fn start_task(&mut self, task: Task) -> Result<(), Failed>
        ensures { task_faults self.new ≡ spawned result (task_faults self.old) };

    /// Counts a job that found no memory for its box.
    fn refuse(&mut self) -> Failed
        ensures { task_faults self.new ≡ risen 1 (task_faults self.old) };
}
