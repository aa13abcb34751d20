//! Several workers publish at one session, each in a thread of its own and with a seat of its own; and what the
//! journal says of each when all are done. Workers are numbered from 1, and so are their publishes; worker i has the
//! seat of number i + 1.
#![tactic(auto)]

mod closed;
mod error;
mod publishing;
mod workers;

pub use closed::{accepted_by, publish_by_seats};
pub use error::WorkError;
pub use workers::run_workers;
