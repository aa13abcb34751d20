//! Scripts of calls that are tried again: a line of settings, then lines of turns as another script has them, `ask S B`
//! and `poll c NOW`. What a script comes to is a text: a line for each call and poll, then the transcript of the core
//! behind them. It is our own format.
#![tactic(auto)]

mod lines;
mod play;
mod print;

pub use nats_names::NoMemory;
pub use play::{Ending, Played, play_rpc};
