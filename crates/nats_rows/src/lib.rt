//! Rows: lines of words, and what is answered to them. Here stands how a word spells bytes, how the lines of a text
//! are gone through, and how a program that answers lines ends. The programs that read rows stand on it.
#![tactic(auto)]

mod fault;
mod lines;
mod words;

pub use fault::{Bad, Fault};
pub use lines::{Answers, answer_lines, answer_rows};
pub use words::{
    number_of, payload_of, push_bytes, push_optional, push_word, spelled_bytes, string_of,
    switch_of,
};
