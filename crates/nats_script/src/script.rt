//! A script as it was read.
use nats_history::{Config, Turn};
use nats_names::Seq;

/// What the bytes of a script say.
#[derive(Drop)]
pub enum Script {
    /// The settings, and the turns in order; turn k stands at line k + 1.
    Good { config: Config, turns: Seq<Turn> },
    /// The number of the first line that cannot be read, from 1.
    Bad(u64),
}
