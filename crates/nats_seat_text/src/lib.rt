//! What is printed of workers that publish at one session, each with a seat of its own: how many calls were accepted in
//! all, how many bytes the link took, and how many publishes of each worker were accepted. Workers are numbered from
//! 1, and so are links.
#![tactic(auto)]

mod output;
mod taken;

pub use nats_seat_workers::WorkError;
pub use output::seats_output;
