//! A clock in memory that stands still.
ghost use Rattle.std.specs.Prelude.{◌≡◌, false};
ghost use Rattle.nats_system.specs.Still.{still_told_of};

use nats_outside::Clock;

/// A clock in memory that gives 0 at each look, and tells all.
#[derive(Clone, Copy)]
pub struct StillClock {
    starts: u64,
    nap: u64,
    slept: bool,
}

impl StillClock {
    /// It was not looked at yet.
    pub fn new() -> StillClock
        ensures { still_told_of result ≡ record { last = 0; start = 0; starts = 0; nap = 0; slept = false } }
    {
        StillClock {
            starts: 0,
            nap: 0,
            slept: false,
        }
    }
}

impl Clock for StillClock {
    ghost clock_told = { still_told_of };

    ghost BesideClock = { Unit {0} };

    ghost beside_clock = { λ _. tt };

    fn start_ms(&mut self) -> u64 {
        self.starts = self.starts.saturating_add(1);
        self.slept = false;
        0
    }

    fn now_ms(&mut self) -> u64 {
        0
    }

    fn sleep_ms(&mut self, ms: u64) {
        self.nap = ms;
        self.slept = true;
    }
}
