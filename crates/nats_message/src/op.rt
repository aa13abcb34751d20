//! Operations: what a server sends, and what a client sends.
ghost use Rattle.std.specs.Prelude.{◌≡◌, Some, IfOk};
ghost use Rattle.nats_message.specs.Content.{op_view, peeked_view};
ghost use Rattle.nats_message.specs.Content.{wire_error_text};
ghost use Rattle.nats_message.specs.declared.op.WireError.TheVariants as refused;

use crate::message::Message;
use nats_connect::ConnectInfo;
use nats_header::HeaderMap;
use nats_info::ServerInfo;
use nats_names::{Bytes, NoMemory, ServerError, Subject};
use std::alloc::Global;
use std::error::Error;
use std::fmt;

/// An operation read from the server, by the NATS client protocol. The crate's `ServerOp`.
#[derive(Debug, Drop, PartialEq, Eq)]
pub enum ServerOp {
    /// The protocol's `+OK`: the server took what the client sent.
    Ok,
    /// The protocol's `INFO`: what the server says of itself.
    Info(Box<ServerInfo>),
    /// The protocol's `PING`: the server asks for a `PONG`.
    Ping,
    /// The protocol's `PONG`: the server's answer to a `PING`.
    Pong,
    /// The protocol's `-ERR`: what the server complains of.
    Error(ServerError),
    /// The protocol's `MSG`, and `HMSG` with headers: a message delivered to the subscription `sid`.
    Message { sid: u64, message: Message },
}

/// A `ServerOp` as it is handed on before it is consumed: a message is in a box of its own, so that it costs
/// little. Own type.
#[derive(Debug, Drop, PartialEq, Eq)]
pub enum PeekedOp {
    /// The protocol's `+OK`.
    Ok,
    /// The protocol's `INFO`.
    Info(Box<ServerInfo>),
    /// The protocol's `PING`.
    Ping,
    /// The protocol's `PONG`.
    Pong,
    /// The protocol's `-ERR`.
    Error(ServerError),
    /// The protocol's `MSG` or `HMSG`.
    Message { sid: u64, message: Box<Message> },
}

impl PeekedOp {
    /// An operation with its message in a box. Memory is taken for a message alone.
    pub fn boxed(alloc: Global, op: ServerOp) -> Result<PeekedOp, NoMemory>
        ensures { IfOk result (λ boxed. peeked_view boxed ≡ op_view op) }
    {
        Ok(match op {
            ServerOp::Ok => PeekedOp::Ok,
            ServerOp::Info(info) => PeekedOp::Info(info),
            ServerOp::Ping => PeekedOp::Ping,
            ServerOp::Pong => PeekedOp::Pong,
            ServerOp::Error(error) => PeekedOp::Error(error),
            ServerOp::Message { sid, message } => PeekedOp::Message {
                sid,
                message: Box::new(alloc, message)?,
            },
        })
    }
}

/// An operation for the server, by the NATS client protocol. The crate's `ClientOp`.
#[derive(Debug, Drop, PartialEq, Eq)]
pub enum ClientOp {
    /// The protocol's `SUB`: asks for the messages of `subject`, under the number `sid`, shared with the others of
    /// the queue group.
    Subscribe {
        sid: u64,
        subject: Subject,
        queue_group: Option<Subject>,
    },
    /// The protocol's `UNSUB`: ends the subscription of the number `sid`, at once or once `max` messages were
    /// delivered to it.
    Unsubscribe {
        sid: u64,
        max: Option<u64>,
    },
    /// The protocol's `PUB`, and `HPUB` where headers are there and not empty: sends a payload to the subscribers
    /// of `subject`, and says where an answer is asked to go.
    Publish {
        subject: Subject,
        payload: Bytes,
        respond: Option<Subject>,
        headers: Option<HeaderMap>,
    },
    /// The protocol's `PING`: asks for a `PONG`.
    Ping,
    /// The protocol's `PONG`: the answer to a `PING`.
    Pong,
    /// The protocol's `CONNECT`: what the client tells of itself when a link begins. The crate's rule: it comes
    /// before all else.
    Connect(ConnectInfo),
}

/// Why no operation was read.
#[derive(Clone, Copy, Debug, PartialEq, Eq)]
pub enum WireError {
    /// The bytes at the front are no operation.
    ReadFault,
    /// Want of memory: nothing was read.
    NoMemory,
}

impl fmt::Display for WireError {
    ghost output = { λ error. Some (wire_error_text error) };

    fn fmt<W: fmt::Write>(&self, f: &mut fmt::Formatter<W>) -> fmt::Result {
        match self {
            WireError::ReadFault => write!(f, "invalid server operation"),
            WireError::NoMemory => write!(f, "out of memory"),
        }
    }
}

impl Error for WireError {}

impl From<NoMemory> for WireError {
    ghost from_gives = { λ _ e. e ≡ refused.NoMemory };

    fn from(_refused: NoMemory) -> WireError {
        WireError::NoMemory
    }
}
