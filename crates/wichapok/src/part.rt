//! What the threads of a benchmark did, each of its part.

use crate::stop::Stop;

/// What a thread did: so many of so many messages, from when to when by its clock, in milliseconds.
#[derive(Clone, Copy, Debug)]
pub struct Part {
    /// When it began.
    pub begun: u64,
    /// When it did the last one.
    pub ended: u64,
    /// How many it did.
    pub done: u64,
    /// How many it was to do.
    pub of: u64,
    /// Why it stopped, where it was refused.
    pub stop: Option<Stop>,
}

impl Part {
    /// The part of a thread that begins now, and is to do so many.
    pub fn new(now: u64, of: u64) -> Part {
        Part {
            begun: now,
            ended: now,
            done: 0,
            of,
            stop: None,
        }
    }

    /// What is left of it where its messages are counted elsewhere: when it began, and why it stopped.
    pub fn aside(self) -> Part {
        Part {
            ended: self.begun,
            done: 0,
            of: 0,
            ..self
        }
    }

    /// Both parts.
    fn with(self, other: Part) -> Part {
        Part {
            begun: self.begun.min(other.begun),
            ended: self.ended.max(other.ended),
            done: self.done.saturating_add(other.done),
            of: self.of.saturating_add(other.of),
            stop: self.stop.or(other.stop),
        }
    }

    /// Whether all was done.
    pub fn is_whole(&self) -> bool {
        self.done == self.of && self.stop.is_none()
    }

    /// How many milliseconds it took.
    pub fn took(&self) -> u64 {
        self.ended.saturating_sub(self.begun)
    }
}

/// All parts together.
pub fn together(parts: &[Part]) -> Part {
    let mut all = Part {
        begun: u64::MAX,
        ended: 0,
        done: 0,
        of: 0,
        stop: None,
    };
    'parts: for part in parts {
        all = all.with(*part);
    }
    all
}
