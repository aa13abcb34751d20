//! What is found where a hub is finished.

use nats_core::{Config, Entry};

/// Accepted calls, as the holders counted them and as the journal has them. Own type.
#[derive(Clone, Copy, Debug, PartialEq, Eq)]
pub struct Tally {
    /// What all holders made together, up to 2^64-1.
    pub made: u64,
    /// The journal's entries that are accepted calls.
    pub accepted: u64,
}

/// What a hub came to. Own type.
#[derive(Debug, Drop, PartialEq, Eq)]
pub struct Audit {
    /// The accepted calls.
    pub tally: Tally,
    /// The settings of the session.
    pub config: Config,
    /// The journal, oldest turn first; empty where none is kept.
    pub journal: Vec<Entry>,
}
