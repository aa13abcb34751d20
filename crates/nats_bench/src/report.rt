//! What a command found, as it is printed.

use crate::carry::Carried;
use crate::churn::Left;
use crate::counts::Counts;
use crate::flushes::Flushed;
use crate::requests::Asked;
use crate::through::Taken;
use crate::wire::{Measured, Outcome};
use std::fmt;
use std::time::Duration;

/// How long the work on a number of turns, and on as many subscriptions, took.
#[derive(Clone, Copy)]
pub struct Times {
    /// How many there were of each.
    pub count: usize,
    /// To play the list of turns.
    pub played: Duration,
    /// To make and drop the subscriptions.
    pub dropped: Duration,
    /// To make and drop twice as many.
    pub dropped_twice: Duration,
}

/// What all kinds of work came to.
#[derive(Drop)]
pub struct Counted {
    /// What a list of turns showed.
    pub counts: Counts,
    /// What subscriptions left that were made and dropped.
    pub left: Left,
    /// What others came to that were carried over links.
    pub carried: Carried,
    pub flushed: Flushed,
    pub asked: Asked,
    /// What a stream of the wire came to, of each kind and mix.
    pub outcomes: Vec<Outcome>,
    /// What messages came to that were taken through a core.
    pub taken: Taken,
}

/// Prints a line for each count, one for each stream, and those of the core.
impl fmt::Display for Counted {
    fn fmt<W: fmt::Write>(&self, f: &mut fmt::Formatter<W>) -> fmt::Result {
        write!(f, "{}{}{}", self.counts, self.left, self.carried)?;
        write!(f, "{}{}", self.flushed, self.asked)?;
        for outcome in self.outcomes.as_slice() {
            writeln!(f, "{outcome}")?;
        }
        write!(f, "{}", self.taken)
    }
}

/// What a command found.
#[derive(Drop)]
pub enum Report {
    /// What all kinds of work came to.
    Counted(Counted),
    /// What a stream of the wire came to, and how long that took.
    Measured(Measured),
    /// How long the first two took.
    Timed(Times),
    /// What subscriptions came to that were carried over links, and how long that took.
    Linked(Carried, Duration),
    /// What flushes came to, and how long that took.
    Flushed(Flushed, Duration),
    /// What requests came to, and how long that took.
    Asked(Asked, Duration),
    /// What messages came to that were taken through a core, and how long that took.
    Taken(Taken, Duration),
}

/// How many of `count` are a second's share; a time of nothing is taken as one nanosecond.
fn per_second(count: usize, elapsed: Duration) -> u128 {
    count as u128 * 1_000_000_000 / elapsed.as_nanos().max(1)
}

/// How many hundredths of `whole` a time is, cut at the greatest number; a `whole` of nothing is taken as one
/// nanosecond.
fn percent_of(whole: Duration, time: Duration) -> u128 {
    time.as_nanos().saturating_mul(100) / whole.as_nanos().max(1)
}

/// Prints a line for the turns and one for the subscriptions.
impl fmt::Display for Times {
    fn fmt<W: fmt::Write>(&self, f: &mut fmt::Formatter<W>) -> fmt::Result {
        let count = self.count;
        let millis = self.played.as_millis();
        let rate = per_second(count, self.played);
        let once = self.dropped.as_millis();
        let twice = percent_of(self.dropped, self.dropped_twice);
        writeln!(f, "{count} turns in {millis} ms, {rate} turns per second")?;
        writeln!(
            f,
            "{count} subscriptions made and dropped in {once} ms, twice as many in {twice} % of that"
        )
    }
}

impl fmt::Display for Report {
    fn fmt<W: fmt::Write>(&self, f: &mut fmt::Formatter<W>) -> fmt::Result {
        match self {
            Report::Counted(counted) => write!(f, "{counted}"),
            Report::Measured(measured) => write!(f, "{measured}"),
            Report::Timed(times) => write!(f, "{times}"),
            Report::Linked(carried, elapsed) => {
                let millis = elapsed.as_millis();
                write!(f, "{carried}in {millis} ms\n")
            }
            Report::Flushed(flushed, elapsed) => {
                let millis = elapsed.as_millis();
                write!(f, "{flushed}in {millis} ms\n")
            }
            Report::Asked(asked, elapsed) => {
                let millis = elapsed.as_millis();
                write!(f, "{asked}in {millis} ms\n")
            }
            Report::Taken(taken, elapsed) => {
                let millis = elapsed.as_millis();
                write!(f, "{taken}in {millis} ms\n")
            }
        }
    }
}
