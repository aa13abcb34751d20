//! What a publish of one peer leaves: who gets the message, as which text, and what becomes of the interests.
#![tactic(auto)]

mod publication;
mod router;
mod texts;

pub use nats_names::{Bytes, NoMemory, Subject};
pub use publication::Publication;
pub use router::Router;
