//! The lines of a NATS server in the text that they stand in: where one ends, its word, and what the lines of messages
//! and errors say; with the grammar of all that a server sends, and its laws. It takes no memory.
#![tactic(auto)]

pub mod error_line;
pub mod head;
pub mod laws;
pub mod search;
pub mod word;

pub use nats_outbuf::{InBuf, Steps};
