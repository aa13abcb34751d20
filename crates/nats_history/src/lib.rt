//! What a NATS session is told by: its settings, calls, turns and transcript as plain values, what tells calls
//! apart, and beside them the words on histories and their laws. It plays nothing. Lengths are in bytes;
//! subscriptions, tickets, links and places of turns are numbered from 1.
#![tactic(auto)]

mod call;
mod config;
pub mod laws;
mod ping;
pub mod refusals;
mod stage;
pub mod statistics;
mod transcript;
mod turn;
mod waits;

pub use call::{Call, CallReply, Interest, TakeReply};
pub use config::Config;
pub use nats_wire::{
    Bytes, Event, HeaderMap, Message, NoMemory, OutboundMessage, Seq, ServerInfo, Subject, Token,
};
pub use ping::Ping;
pub use stage::Stage;
pub use statistics::Statistics;
pub use transcript::{LinkRow, LinkWord, RunError, SubRow, Transcript};
pub use turn::{Due, Turn};
pub use waits::Waits;
