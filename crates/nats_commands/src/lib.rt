//! The texts of what a NATS client sends, put behind bytes that wait to be written.
#![tactic(auto)]

mod command;

pub use command::{append, append_each, append_publication, append_subscription};
pub use nats_message::{Bytes, ClientOp, HeaderMap, NoMemory, Subject};
pub use nats_outbuf::OutBuf;
