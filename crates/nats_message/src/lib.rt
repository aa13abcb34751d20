//! Messages and operations of the NATS protocol, as values: what a server sends, what a client sends, and a message as
//! JSON.
#![tactic(auto)]

mod json;
mod message;
mod op;

pub use message::{
    Message, OutboundMessage, PublishMessage, copy_headers, copy_subject, plain_message,
};
pub use nats_connect::ConnectInfo;
pub use nats_header::{HeaderMap, JsonError};
pub use nats_info::ServerInfo;
pub use nats_names::{Bytes, NoMemory, ServerError, StatusCode, Subject, Text};
pub use op::{ClientOp, PeekedOp, ServerOp, WireError};
