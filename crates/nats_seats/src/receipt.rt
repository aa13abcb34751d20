//! What a seat is told of a turn that it played.

use nats_core::StepReply;

/// Where the entry of a turn stands, and what the turn answered.
#[derive(Debug, Drop, PartialEq, Eq)]
pub struct Receipt {
    /// The place of the entry in the journal, from 1.
    pub place: u64,
    /// The reply, which the entry has too.
    pub reply: StepReply,
}
