//! What a journal by seats keeps of each turn.

use nats_core::{StepReply, Turn};

/// A turn that was played, with the seat that played it and what it answered.
#[derive(Debug, Drop, PartialEq, Eq)]
pub struct SeatEntry {
    /// The number of the seat, from 1.
    pub seat: u64,
    /// The turn as it was handed in.
    pub turn: Turn,
    /// Its reply.
    pub reply: StepReply,
}
