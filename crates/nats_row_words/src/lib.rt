//! What programs of rows say: answers as words of a line, and a line for each group of rows. It decides nothing: its
//! functions have no contracts but that they are safe.
#![tactic(auto)]

mod told;
pub mod words;

pub use nats_names::NoMemory;
pub use told::{DONE, FAILED, Told};
