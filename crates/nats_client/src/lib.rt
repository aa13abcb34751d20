//! Clients and subscribers of a hub: many of them share one session, each counts the accepted calls that it made, and
//! who has settled all others finishes the hub and is told what it came to. A call that waits lets the hub's lock go
//! meanwhile. Payloads are in bytes, times in milliseconds; subscriptions are numbered from 1.
#![tactic(auto)]

mod client;
mod ending;
mod inbox;
mod poll;
mod publish;
mod reads;
mod request;
mod subscribe;
mod subscriber;
pub mod traits;

pub use client::{Client, FinishError, REQUEST_TIMEOUT_MS};
pub use nats_core::{
    Bytes, Config, Event, Message, NoMemory, OutboundMessage, ServerInfo, Subject, TakeReply, Turn,
    usual_server,
};
pub use nats_hub::{ALL_PARTS, Audit, CloneError, Hub, Tallies, Tally};
pub use nats_names::{State, ToSubject};
pub use nats_refusals::{
    DrainError, FlushError, FlushErrorKind, PublishError, PublishErrorKind, ReconnectError,
    RequestError, RequestErrorKind, SubscribeError, SubscribeErrorKind, UnsubscribeError,
};
pub use poll::Poll;
pub use request::Request;
pub use subscriber::Subscriber;
