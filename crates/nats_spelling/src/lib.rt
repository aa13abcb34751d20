//! The fields of a line: how a text is cut into lines and fields, what bytes and numbers a field spells, and how it
//! spells them. It is our own format.
#![tactic(auto)]

pub mod cut;
mod fields;
mod lines;
mod spelling;

pub use fields::{bytes_field, field_bytes, field_number, field_optional, field_text, field_token};
pub use lines::{close_line, open_line};
pub use spelling::{push_number, push_optional, push_spelled};
