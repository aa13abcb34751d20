//! The header block of a message: its status, its description and its headers, read from the bytes on the wire.
#![tactic(auto)]

mod block;
mod error;
mod fields;
mod head;
mod lines;

pub use block::{Block, read_block};
pub use error::BlockError;
