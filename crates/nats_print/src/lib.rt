//! A transcript as text: a line for each entry. It is our own format.
#![tactic(auto)]

mod print;

pub use nats_history::{NoMemory, Transcript};
pub use print::print_transcript;
