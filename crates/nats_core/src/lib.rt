//! A session with a journal of its turns: each turn that is played is noted with its reply, and what the session is at
//! any time is what the journal's turns make of it. It has no clock, no lock and no thread; a link is lent to it.
//! Lengths are in bytes; subscriptions, tickets and links are numbered from 1.
#![tactic(auto)]

pub mod again;
mod answers;
mod entry;
mod machine;
mod notes;
mod plays;
mod settled;

pub use answers::{ReadOnce, StepError, WriteOnce};
pub use entry::{Entry, StepReply};
pub use machine::Core;
pub use nats_outside::{Failed, LinkRead, LinkWrite};
pub use nats_session::{
    Bytes, Call, CallReply, Config, ConnectionHandler, Event, Message, NoMemory, OutboundMessage,
    ServerInfo, Subject, TakeReply, Token, Turn, usual_server,
};
