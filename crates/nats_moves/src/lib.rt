//! Moves of the clients of one broker, as words: which may come, and what they make of it all.
#![tactic(auto)]

pub mod laws;
pub mod moves;

pub use moves::Move;
