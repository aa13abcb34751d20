//! What is counted of a transcript.

use nats_session::Transcript;
use std::fmt;

/// How much of each kind a played list of turns showed.
#[derive(Clone, Copy)]
pub struct Counts {
    /// The turns that were played.
    pub turns: usize,
    /// The messages that were put into a queue.
    pub puts: usize,
    /// The answered takes.
    pub takes: usize,
    /// The messages that met a full queue.
    pub drops: usize,
    /// The events.
    pub events: usize,
    /// The answered calls.
    pub calls: usize,
}

/// The counts of the transcript of `turns` turns. A sum that would not fit is cut to the greatest number.
pub fn counts_of(turns: usize, transcript: &Transcript) -> Counts {
    let mut counts = Counts {
        turns,
        puts: 0,
        takes: 0,
        drops: 0,
        events: transcript.events.as_slice().len(),
        calls: transcript.calls.as_slice().len(),
    };
    for row in transcript.subs.as_slice() {
        counts.puts = counts.puts.saturating_add(row.puts.as_slice().len());
        counts.takes = counts.takes.saturating_add(row.takes.as_slice().len());
        counts.drops = counts.drops.saturating_add(row.drops.as_slice().len());
    }
    counts
}

/// Prints a line for each count.
impl fmt::Display for Counts {
    fn fmt<W: fmt::Write>(&self, f: &mut fmt::Formatter<W>) -> fmt::Result {
        writeln!(f, "turns {}", self.turns)?;
        writeln!(f, "puts {}", self.puts)?;
        writeln!(f, "takes {}", self.takes)?;
        writeln!(f, "drops {}", self.drops)?;
        writeln!(f, "events {}", self.events)?;
        writeln!(f, "calls {}", self.calls)
    }
}
