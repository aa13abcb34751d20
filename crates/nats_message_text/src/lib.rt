//! A message as text: seven fields of a line, or a line of its own; and headers that pairs of fields spell. It is our
//! own format.
#![tactic(auto)]

mod message;
mod pairs;

pub use message::{push_message, push_message_line};
pub use pairs::headers_of;
