//! Commands as a broker takes them.
ghost use Rattle.std.specs.Prelude.{◌≡◌, ◌+◌, ◌^◌, ◌<◌, ◌||◌, length, IfOk, Some, None, if◌then◌else◌};
ghost use Rattle.nats_header.specs.Headers.{Headers};
ghost use Rattle.nats_commands.specs.Commands.{sent_block};
ghost use Rattle.nats_broker_text.specs.Commands.{holds_white, may_hold_white, block_len, publish_of, command_of};

use crate::connect::Wishes;
use nats_header::HeaderMap;
use nats_names::{Bytes, NoMemory, Subject};
use nats_routing::Publication;
use nats_wire::ClientOp;
use std::alloc::Global;

/// A command of a peer, by the NATS protocol. Own type.
#[derive(Debug, Drop, PartialEq, Eq)]
pub enum Command {
    /// `SUB`: asks for the messages whose subject `pattern` matches, under the number `sid`.
    Subscribe {
        sid: u64,
        pattern: Subject,
        group: Option<Subject>,
    },
    /// `UNSUB`: closes the interest of the number `sid`, at once or once it got `most` messages.
    Unsubscribe {
        sid: u64,
        most: Option<u64>,
    },
    /// `PUB`, or `HPUB` with headers.
    Publish {
        message: Publication,
        /// The length of the payload and the block together, in bytes; a block without a field has 12.
        size: u64,
    },
    /// `PING`: asks for a `PONG`.
    Ping,
    /// `PONG`: asks for nothing.
    Pong,
    /// `CONNECT`: what the peer says of itself.
    Connect(Wishes),
}

/// What stands at the front of a peer's bytes. Own type.
#[derive(Debug, Drop, PartialEq, Eq)]
pub enum PeerFront {
    /// Less than a command: its line or its body isn't there whole.
    Unfinished,
    /// No command, whatever follows.
    Bad,
    /// A command, and how many bytes it takes, its last CR LF with it.
    Got(Command, usize),
}

// Whether a text holds white space by Unicode.
fn holds_white(text: &str) -> bool
    ensures { result ≡ holds_white text.now }
{
    text.chars().any(|c| c.is_whitespace())
}

fn may_hold_white(text: &Option<Subject>) -> bool
    ensures { result ≡ may_hold_white text.now }
{
    match text {
        Some(text) => holds_white(text.as_str()),
        None => false,
    }
}

// The block that goes over the wire: none for a map without a field.
fn block_of(alloc: Global, headers: &Option<HeaderMap>) -> Result<Option<Bytes>, NoMemory>
    ensures { IfOk result (λ block. block ≡ sent_block headers.now) }
{
    match headers {
        Some(headers) if !headers.is_empty() => {
            Ok(Some(Bytes::from_vec(headers.to_bytes(alloc)?)?))
        }
        _ => Ok(None),
    }
}

fn block_len(headers: &Option<HeaderMap>) -> usize
    ensures len { result ≡ block_len headers.now }
    ensures bound { result < 2 ^ 63 }
{
    match headers {
        Some(headers) => headers.wire_len(),
        None => 0,
    }
}

// A publish, `None` where its subject or its reply holds white space: the line of an `HMSG` would be read apart there.
fn publish_of(
    alloc: Global,
    subject: Subject,
    payload: Bytes,
    respond: Option<Subject>,
    headers: &Option<HeaderMap>,
) -> Result<Command, NoMemory>
    ensures { IfOk result (λ made. made ≡ publish_of subject payload respond headers.now) }
{
    let size = (block_len(headers) + payload.len()) as u64;
    let block = block_of(alloc, headers)?;
    let message = Publication {
        subject,
        respond,
        block,
        payload,
    };
    Ok(Command::Publish { message, size })
}

fn publish(
    alloc: Global,
    subject: Subject,
    payload: Bytes,
    respond: Option<Subject>,
    headers: &Option<HeaderMap>,
) -> Result<Option<Command>, NoMemory>
    ensures { IfOk result (λ made. made
        ≡ (if holds_white subject || may_hold_white respond then None
        else Some (publish_of subject payload respond headers.now))) }
{
    if holds_white(subject.as_str()) || may_hold_white(&respond) {
        return Ok(None);
    }
    Ok(Some(publish_of(alloc, subject, payload, respond, headers)?))
}

/// The command that a client's operation is for a broker, `None` where it is none: a publish whose subject or reply
/// holds white space by Unicode.
///
/// # Errors
///
/// `NoMemory` for want of memory.
pub fn command_of(alloc: Global, op: ClientOp) -> Result<Option<Command>, NoMemory>
    ensures { IfOk result (λ made. made ≡ command_of op) }
{
    match op {
        ClientOp::Publish {
            subject,
            payload,
            respond,
            headers,
        } => publish(alloc, subject, payload, respond, &headers),
        ClientOp::Subscribe {
            sid,
            subject,
            queue_group,
        } => Ok(Some(Command::Subscribe {
            sid,
            pattern: subject,
            group: queue_group,
        })),
        ClientOp::Unsubscribe { sid, max } => Ok(Some(Command::Unsubscribe { sid, most: max })),
        ClientOp::Ping => Ok(Some(Command::Ping)),
        ClientOp::Pong => Ok(Some(Command::Pong)),
        ClientOp::Connect(_) => Ok(None),
    }
}
