//! A long list of turns made by a rule, and what its transcript comes to in eight numbers: for measures of a
//! session's speed and memory. The rule and the numbers are our own choice.
#![tactic(auto)]

mod generated;
mod laws;
mod sums;

pub use generated::{bulk_config, bulk_turns};
pub use laws::in_turn;
pub use nats_history::{Config, NoMemory, Transcript, Turn};
pub use sums::summary;
