//! A clock.
ghost use Rattle.std.specs.Prelude.{◌≡◌};
ghost use Rattle.nats_outside.specs.Told.{ClockTold, started, looked, slept};

/// Gives the time in milliseconds, and sleeps. Nothing is known of its values. Own trait: the Rust asks its runtime.
pub trait Clock {
    /// The value that it gave last, its last start, how many starts there were, and whether it slept since then.
    ghost clock_told: { Self → ClockTold };

    /// What stands beside the clock, which its calls leave as it was.
    ghost BesideClock: { Type 0 };

    ghost beside_clock: { Self → BesideClock };

    /// The time, from which a timeout is then counted.
    fn start_ms(&mut self) -> u64
        ensures told { clock_told self.new ≡ started result (clock_told self.old) }
        ensures beside { beside_clock self.new ≡ beside_clock self.old };

    /// The time.
    fn now_ms(&mut self) -> u64
        ensures told { clock_told self.new ≡ looked result (clock_told self.old) }
        ensures beside { beside_clock self.new ≡ beside_clock self.old };

    /// Comes back after that many milliseconds.
    fn sleep_ms(&mut self, ms: u64)
        ensures told { clock_told self.new ≡ slept ms (clock_told self.old) }
        ensures beside { beside_clock self.new ≡ beside_clock self.old };
}
