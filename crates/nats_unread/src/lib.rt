//! Bytes that came from a NATS server and that no operation took yet.
#![tactic(auto)]

mod unread;

pub use nats_decode::Sight;
pub use nats_decode::front::Front;
pub use nats_message::{Bytes, NoMemory, ServerOp, WireError};
pub use nats_outbuf::Steps;
pub use unread::Unread;
