//! A clock over the system's.
ghost use Rattle.std.specs.Prelude.{◌≡◌, false};
ghost use Rattle.nats_system.specs.System.{clock_told_of, looked_at};

use nats_outside::Clock;
use std::time;
use std::time::Duration;

/// A clock over the system's one that never goes back; its values count from an arbitrary moment. Where the
/// system's clock can't be read, the last value is given again, and that is counted.
#[derive(Clone, Copy)]
pub struct SystemClock<R> {
    rt: R,
    last: u64,
    start: u64,
    starts: u64,
    nap: u64,
    slept: bool,
    faults: u64,
}

impl<R> SystemClock<R> {
    /// It was not looked at yet.
    pub fn new(rt: R) -> SystemClock<R>
        ensures { clock_told_of result ≡ record { last = 0; start = 0; starts = 0; nap = 0; slept = false } }
    {
        SystemClock {
            rt,
            last: 0,
            start: 0,
            starts: 0,
            nap: 0,
            slept: false,
            faults: 0,
        }
    }

    /// How often the system's clock could not be read, up to 2^64-1.
    pub fn faults(&self) -> u64
        ensures { result ≡ self.now.faults }
    {
        self.faults
    }
}

// So many whole milliseconds.
fn millis_of(time: Duration) -> u64 {
    u64::try_from(time.as_millis()).unwrap_or(u64::MAX)
}

impl<R: time::Clock> SystemClock<R> {
    fn look(&mut self) -> u64
        ensures { self.new ≡ looked_at result self.new.faults self.old }
    {
        match self.rt.monotonic() {
            Ok(time) => self.last = millis_of(time),
            Err(_) => self.faults = self.faults.saturating_add(1),
        }
        self.last
    }
}

impl<R: time::Clock> Clock for SystemClock<R> {
    ghost clock_told = { clock_told_of };

    ghost BesideClock = { Unit {0} };

    ghost beside_clock = { λ _. tt };

    fn start_ms(&mut self) -> u64 {
        let now = self.look();
        self.start = now;
        self.starts = self.starts.saturating_add(1);
        self.slept = false;
        now
    }

    fn now_ms(&mut self) -> u64 {
        self.look()
    }

    fn sleep_ms(&mut self, ms: u64) {
        self.nap = ms;
        self.slept = true;
        if ms > 0 {
            self.rt.sleep(Duration::from_millis(ms));
        }
    }
}
