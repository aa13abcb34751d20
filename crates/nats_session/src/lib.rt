//! A NATS session as a machine apart from any input or output: one turn in, a reply and bytes out. It has no clock, no
//! lock and no handle. Lengths are in bytes; subscriptions, links and places of turns are numbered from 1.
#![tactic(auto)]

mod handler;
pub mod laws;
mod play;
mod server;

pub use handler::{ConnectionHandler, DEFAULT_MAX_PAYLOAD};
pub use nats_history::{
    Bytes, Call, CallReply, Config, Due, Event, HeaderMap, LinkRow, LinkWord, Message, NoMemory,
    OutboundMessage, RunError, Seq, ServerInfo, Statistics, SubRow, Subject, TakeReply, Token,
    Transcript, Turn,
};
pub use nats_names::State;
pub use play::run;
pub use server::usual_server;
