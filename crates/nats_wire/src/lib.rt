//! The wire of the NATS protocol: bytes to server operations, client operations to bytes.
#![tactic(auto)]

mod connection;

pub use connection::{Connection, Peeked};
pub use nats_block::Block;
pub use nats_connect::{ConnectInfo, Protocol};
pub use nats_decode::front;
pub use nats_header::{HeaderError, HeaderMap, HeaderName, HeaderValue, JsonError};
pub use nats_info::ServerInfo;
pub use nats_lines::laws;
pub use nats_message::{
    ClientOp, Message, OutboundMessage, PeekedOp, PublishMessage, ServerOp, WireError,
    copy_headers, copy_subject,
};
pub use nats_names::{Bytes, Event, NoMemory, Seq, ServerError, StatusCode, Subject, Text, Token};
pub use nats_outbuf::{CHUNK_LEAST, PIECES_MOST, SOFT_WRITE_BUF_LIMIT, ShouldFlush, Steps};
