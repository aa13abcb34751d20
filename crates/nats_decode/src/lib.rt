//! What stands at the front of a text that a NATS server sent: found without memory, then copied or shared.
#![tactic(auto)]

mod copies;
mod decode;
pub mod front;

pub use copies::operation_kept;
pub use decode::{Line, MessageText, OpText, Sight, needed, sight_at, sight_of};
pub use nats_lines::error_line::ErrorText;
pub use nats_message::{NoMemory, PeekedOp, ServerOp};
pub use nats_outbuf::InBuf;
