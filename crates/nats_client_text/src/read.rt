//! Reads the commands of a text.
ghost use Rattle.std.specs.Prelude.{◌≡◌, ◌≤◌, length, drop, IfOk, IsTrue, OnErr};
ghost use Rattle.nats_client_text.specs.Grammar.{front, takes_memory, begins_whole, read_of};
ghost use Rattle.nats_client_text.specs.Code.{Takes};

use crate::copies::command;
use crate::sight::{Sight, sight_of};
use nats_names::{NoMemory, Seq};
use nats_wire::ClientOp;
use std::alloc::Global;

/// What stands at the front of a text: a command and the number of its bytes, the beginning of one, or what is none.
/// Own type.
#[derive(Debug, Drop, PartialEq, Eq)]
pub enum ClientFront {
    /// A command, and how many bytes it takes, its last CR LF with it.
    Got(ClientOp, usize),
    /// Less than a command: its line or its body isn't there whole.
    Unfinished,
    /// No command, whatever follows.
    Bad,
}

/// How a text of commands ends. Own type.
#[derive(Clone, Copy, Debug, PartialEq, Eq)]
pub enum ClientEnd {
    /// Behind the last of its commands.
    Whole,
    /// With the beginning of a command, which isn't there whole.
    Unfinished,
    /// With what is no command; what follows isn't looked at.
    Bad,
}

/// The commands of a text. Own type.
#[derive(Debug, Drop, PartialEq, Eq)]
pub struct ClientRead {
    /// The commands in order.
    pub ops: Seq<ClientOp>,
    /// What stands behind them.
    pub end: ClientEnd,
}

/// The command at the front of `text`, for whoever reads what a client wrote: a test server, or an audit of a link.
/// By the NATS client protocol as this library writes it: `PING`, `PONG`, `UNSUB`, `SUB`, `PUB` or `HPUB` in
/// capitals, single spaces, numbers below 2^64 without leading zeros, CR LF behind the line and behind a body. A
/// publish without a block has no headers; a block without lines is an empty map.
///
/// `Unfinished` where no CR LF stands there, or less than a body and its CR LF behind a line that counts it; `Bad` for
/// any other text that begins with no command. Own call.
///
/// # Errors
///
/// `NoMemory` for want of memory, only where the text of a `SUB`, `PUB` or `HPUB` is there whole.
pub fn read_client_op(alloc: Global, text: &[u8]) -> Result<ClientFront, NoMemory>
    ensures front { IfOk result (λ found. found ≡ front text.now) }
    ensures takes { IfOk result (λ found. Takes found (length text.now)) }
    ensures memory { OnErr result (IsTrue (takes_memory text.now)) }
{
    match sight_of(text) {
        Sight::Unfinished => Ok(ClientFront::Unfinished),
        Sight::Bad => Ok(ClientFront::Bad),
        Sight::Whole(op, len) => match command(alloc, &op)? {
            Some(op) => Ok(ClientFront::Got(op, len)),
            None => Ok(ClientFront::Bad),
        },
    }
}

fn behind(text: &[u8], len: usize) -> &[u8]
    requires { len ≤ length text.now }
    ensures { result.now ≡ drop len text.now }
{
    &text[len..]
}

/// The commands of a text from its front on, in time that grows with its length: `read_client_op` again and again, each
/// time behind the last. Own call.
///
/// # Errors
///
/// `NoMemory` for want of memory, only where the text of a command stands whole at the front.
pub fn read_client_text(alloc: Global, text: &[u8]) -> Result<ClientRead, NoMemory>
    ensures read { IfOk result (λ read. read ≡ read_of text.now) }
    ensures memory { OnErr result (IsTrue (begins_whole text.now)) }
{
    let mut ops = Seq::new(alloc);
    let mut left = text;
    while !left.is_empty() {
        match read_client_op(alloc, left)? {
            ClientFront::Got(op, len) => {
                ops.push(alloc, op)?;
                left = behind(left, len);
            }
            ClientFront::Unfinished => {
                let end = ClientEnd::Unfinished;
                return Ok(ClientRead { ops, end });
            }
            ClientFront::Bad => {
                let end = ClientEnd::Bad;
                return Ok(ClientRead { ops, end });
            }
        }
    }
    let end = ClientEnd::Whole;
    Ok(ClientRead { ops, end })
}
