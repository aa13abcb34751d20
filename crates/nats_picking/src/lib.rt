//! Who gets a message that a peer publishes.
#![tactic(auto)]

pub mod laws;
mod picking;

pub use nats_interests::Interest;
pub use picking::{Target, heard, targets, told_of};
