//! What a client's bytes say: the grammar of client commands, and its reader.
#![tactic(auto)]

mod block;
mod copies;
mod cut;
pub mod laws;
mod line;
mod pieces;
mod read;
mod sight;

pub use nats_wire::{Bytes, ClientOp, HeaderMap, NoMemory, Seq, Subject};
pub use read::{ClientEnd, ClientFront, ClientRead, read_client_op, read_client_text};
