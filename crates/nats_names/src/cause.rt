//! What an error of a call came of.
ghost use Rattle.std.specs.Prelude.{Some};
ghost use Rattle.nats_names.specs.Causes.{cause_text, op_word_text};

use crate::{AddrError, AuthError, ServerError, Text};
use std::error::Error;
use std::fmt;

/// Which operation came where another was due.
#[derive(Clone, Copy, Debug, PartialEq, Eq)]
pub enum OpWord {
    /// `+OK`
    Ok,
    /// `INFO`
    Info,
    /// `PING`
    Ping,
    /// `PONG`
    Pong,
    /// `-ERR`
    Err,
    /// `MSG` or `HMSG`
    Msg,
}

/// Prints the word, without `+` or `-`.
impl fmt::Display for OpWord {
    ghost output = { λ word. Some (op_word_text word) };

    fn fmt<W: fmt::Write>(&self, f: &mut fmt::Formatter<W>) -> fmt::Result {
        match self {
            OpWord::Ok => write!(f, "OK"),
            OpWord::Info => write!(f, "INFO"),
            OpWord::Ping => write!(f, "PING"),
            OpWord::Pong => write!(f, "PONG"),
            OpWord::Err => write!(f, "ERR"),
            OpWord::Msg => write!(f, "MSG"),
        }
    }
}

/// What an error came of. It stands for the boxed source of the crate's errors.
#[derive(Debug, Drop, PartialEq, Eq)]
pub enum Cause {
    /// The session is closed.
    Closed,
    /// The last number of its kind was given.
    NoNumber,
    /// The holder has one part alone.
    NoPart,
    /// A subject or a reply is not valid.
    Format,
    /// A message is larger than the server takes.
    Payload {
        /// The most bytes that the server takes.
        limit: u64,
        /// The bytes of the message.
        size: u64,
    },
    /// Nobody listens to the subject of a request.
    NoResponders,
    /// The other end went away.
    BrokenPipe,
    /// The request was dropped.
    Dropped,
    /// A link ended, or refused, before its INFO.
    NoInfo,
    /// This operation came where another was due.
    Unexpected(OpWord),
    /// An object of the outside failed.
    Fault,
    /// The link gave what is no operation.
    ReadFault,
    /// Sixteen operations came without a PONG.
    NoPong,
    /// The resolver gave no address.
    NoAddress,
    /// No attempt of a round gave a link.
    AllFailed,
    /// The server said so.
    Server(ServerError),
    /// A signer or an authentication callback refused.
    Auth(AuthError),
    /// A text is no address.
    Addr(AddrError),
    /// Any other words of the outside.
    Io(Text),
    /// Want of memory.
    NoMemory,
}

impl fmt::Display for Cause {
    ghost output = { λ cause. Some (cause_text cause) };

    fn fmt<W: fmt::Write>(&self, f: &mut fmt::Formatter<W>) -> fmt::Result {
        match self {
            Cause::Closed => write!(f, "channel closed"),
            Cause::NoNumber => write!(f, "no number left"),
            Cause::NoPart => write!(f, "no part left"),
            Cause::Format => write!(f, "invalid subject format"),
            Cause::Payload { limit, size } => write!(
                f,
                "Payload size limit of {limit} exceeded by message size of {size}"
            ),
            Cause::NoResponders => write!(f, "no responders"),
            Cause::BrokenPipe => write!(f, "broken pipe"),
            Cause::Dropped => write!(f, "request dropped"),
            Cause::NoInfo => write!(f, "expected INFO, got nothing"),
            Cause::Unexpected(word) => write!(f, "unexpected operation: {word}"),
            Cause::Fault => write!(f, "link failed"),
            Cause::ReadFault => write!(f, "invalid server operation"),
            Cause::NoPong => write!(f, "no PONG within 16 operations"),
            Cause::NoAddress => write!(f, "no addresses resolved"),
            Cause::AllFailed => write!(f, "all connection attempts failed"),
            Cause::Server(error) => write!(f, "{error}"),
            Cause::Auth(error) => write!(f, "{error}"),
            Cause::Addr(error) => write!(f, "{error}"),
            Cause::Io(text) => write!(f, "{text}"),
            Cause::NoMemory => write!(f, "out of memory"),
        }
    }
}

impl Error for Cause {}
