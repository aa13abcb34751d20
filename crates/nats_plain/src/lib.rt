//! The message without headers as nearly all come, read in one pass over its line.
#![tactic(auto)]

mod plain;

pub use nats_lines::search::Found;
pub use nats_message::{Message, NoMemory};
pub use nats_outbuf::{InBuf, Steps};
pub use plain::{Plain, PlainLine, PlainText, PlainWord, read_plain};
