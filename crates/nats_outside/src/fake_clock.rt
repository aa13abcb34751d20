//! A clock and a source of numbers in memory.
ghost use Rattle.std.specs.Prelude.{◌≡◌, false, drop};
ghost use Rattle.std.specs.Vec.Iter.{into_iter_items};
ghost use Rattle.nats_outside.specs.Fakes.{clock_told_of, first_or};
ghost use Rattle.nats_outside.specs.Told.{started, looked};

use crate::{Clock, Draw};
use std::vec;

/// A clock in memory: it gives these values in order, and then the last one again and again, and tells all.
#[derive(Drop)]
pub struct FakeClock {
    times: vec::IntoIter<u64>,
    last: u64,
    start: u64,
    starts: u64,
    nap: u64,
    slept: bool,
}

impl FakeClock {
    /// It gives these values.
    pub fn told(times: Vec<u64>) -> FakeClock
        ensures left { into_iter_items result.times ≡ times.items }
        ensures told { clock_told_of result ≡ record { last = 0; start = 0; starts = 0; nap = 0; slept = false } }
    {
        FakeClock {
            times: times.into_iter(),
            last: 0,
            start: 0,
            starts: 0,
            nap: 0,
            slept: false,
        }
    }

    fn look(&mut self) -> u64
        ensures told { self.new ≡ record (self.old) { times = self.new.times; last = result } }
        ensures value { result ≡ first_or self.old.last (into_iter_items self.old.times) }
        ensures left { into_iter_items self.new.times ≡ drop 1 (into_iter_items self.old.times) }
    {
        if let Some(time) = self.times.next() {
            self.last = time;
        }
        self.last
    }
}

impl Clock for FakeClock {
    ghost clock_told = { clock_told_of };

    ghost BesideClock = { Unit {0} };

    ghost beside_clock = { λ _. tt };

    fn start_ms(&mut self) -> u64
        ensures told { clock_told_of self.new ≡ started result (clock_told_of self.old) }
        ensures value { result ≡ first_or self.old.last (into_iter_items self.old.times) }
        ensures left { into_iter_items self.new.times ≡ drop 1 (into_iter_items self.old.times) }
    {
        let now = self.look();
        self.start = now;
        self.starts = self.starts.saturating_add(1);
        self.slept = false;
        now
    }

    fn now_ms(&mut self) -> u64
        ensures told { clock_told_of self.new ≡ looked result (clock_told_of self.old) }
        ensures value { result ≡ first_or self.old.last (into_iter_items self.old.times) }
        ensures left { into_iter_items self.new.times ≡ drop 1 (into_iter_items self.old.times) }
    {
        self.look()
    }

    fn sleep_ms(&mut self, ms: u64) {
        self.nap = ms;
        self.slept = true;
    }
}

/// A source of numbers in memory: it gives these in order, and then 0.
#[derive(Drop)]
pub struct FakeDraw {
    numbers: vec::IntoIter<u64>,
}

impl FakeDraw {
    /// It gives these numbers.
    pub fn told(numbers: Vec<u64>) -> FakeDraw
        ensures { into_iter_items result.numbers ≡ numbers.items }
    {
        FakeDraw {
            numbers: numbers.into_iter(),
        }
    }
}

impl Draw for FakeDraw {
    ghost BesideDraw = { Unit {0} };

    ghost beside_draw = { λ _. tt };

    fn draw(&mut self) -> u64
        ensures value { result ≡ first_or 0 (into_iter_items self.old.numbers) }
        ensures left { into_iter_items self.new.numbers ≡ drop 1 (into_iter_items self.old.numbers) }
    {
        self.numbers.next().unwrap_or(0)
    }
}
