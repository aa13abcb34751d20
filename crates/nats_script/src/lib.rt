//! Scripts as text: reading the settings and turns that bytes spell, a line for each turn. It is our own format. What
//! fields spell and how a transcript is printed stand in crates of their own, and are given from here too.
#![tactic(auto)]

mod publish_lines;
mod read;
mod script;
mod turn_lines;

pub use nats_history::{Config, NoMemory, Seq, Transcript, Turn};
pub use nats_message_text::push_message_line;
pub use nats_print::print_transcript;
pub use nats_spelling::{bytes_field, cut, field_number, push_number, push_spelled};
pub use read::read_script;
pub use script::Script;
