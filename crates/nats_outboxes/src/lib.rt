//! The texts that wait for peers.
#![tactic(auto)]

mod outbox;
mod outboxes;

pub use outbox::Outbox;
pub use outboxes::{Letter, Outboxes, tell_all};
