//! Reads the command at the front of a peer's bytes.
ghost use Rattle.std.specs.Prelude.{◌≡◌, ◌+◌, ◌≤◌, false, length, option_map, IfOk, IfSome, OnErr};
ghost use Rattle.nats_lines.specs.Operations.{cut_line};
ghost use Rattle.nats_client_text.specs.Grammar.{front};
ghost use Rattle.nats_broker_text.specs.Commands.{behind_word, connect_text, connect_front, of_client, got_or_bad, peer_front, is_unfinished, is_ready, Takes};

use crate::command::{Command, PeerFront, command_of};
use crate::connect::{ConnectError, read_wishes};
use crate::lines::first_line;
use nats_client_text::{ClientFront, read_client_op};
use nats_names::NoMemory;
use std::alloc::Global;

/// The length of the word `CONNECT` and the space behind it, in bytes.
const WORD_LEN: usize = 8;

fn behind_word(line: &[u8]) -> Option<&[u8]>
    ensures behind { option_map (λ text. text.now) result ≡ behind_word line.now }
    ensures within { IfSome result (λ text. 8 + length text.now ≤ length line.now) }
{
    if line.starts_with(b"CONNECT ") {
        Some(&line[WORD_LEN..])
    } else {
        None
    }
}

fn connect_text(text: &[u8]) -> Option<&[u8]>
    ensures behind { option_map (λ text. text.now) result ≡ connect_text (cut_line text.now) }
    ensures within { IfSome result (λ behind. 10 + length behind.now ≤ length text.now) }
{
    match first_line(text) {
        Some(line) => behind_word(line),
        None => None,
    }
}

fn read_connect(alloc: Global, behind: &[u8]) -> Result<PeerFront, NoMemory>
    ensures front { IfOk result (λ found. found ≡ connect_front behind.now) }
    ensures takes { IfOk result (λ found. Takes found (10 + length behind.now)) }
{
    match read_wishes(alloc, behind) {
        Ok(wishes) => Ok(PeerFront::Got(Command::Connect(wishes), WORD_LEN + behind.len() + 2)),
        Err(ConnectError::Unreadable) => Ok(PeerFront::Bad),
        Err(ConnectError::NoMemory) => Err(NoMemory),
    }
}

fn read_client(alloc: Global, text: &[u8]) -> Result<PeerFront, NoMemory>
    ensures front { IfOk result (λ found. found ≡ of_client (front text.now)) }
    ensures takes { IfOk result (λ found. Takes found (length text.now)) }
    ensures memory { OnErr result (is_unfinished (of_client (front text.now)) ≡ false) }
{
    match read_client_op(alloc, text)? {
        ClientFront::Unfinished => Ok(PeerFront::Unfinished),
        ClientFront::Bad => Ok(PeerFront::Bad),
        ClientFront::Got(op, len) => match command_of(alloc, op)? {
            Some(command) => Ok(PeerFront::Got(command, len)),
            None => Ok(PeerFront::Bad),
        },
    }
}

/// The command at the front of a peer's bytes. By the NATS client protocol as `nats_client_text` reads it, with one
/// line more: `CONNECT`, one space, a JSON object in UTF-8 and CR LF. A publish whose subject or reply holds white
/// space by Unicode is no command here, since the line of an `HMSG` would be read apart there. Own call.
///
/// `Unfinished` where no CR LF stands there, or less than a body and its CR LF behind a line that counts it; `Bad` for
/// any other text that begins with no command.
///
/// # Errors
///
/// `NoMemory` for want of memory, only where the text of a command stands there whole.
pub fn read_command(alloc: Global, text: &[u8]) -> Result<PeerFront, NoMemory>
    ensures front { IfOk result (λ found. found ≡ peer_front text.now) }
    ensures takes { IfOk result (λ found. Takes found (length text.now)) }
    ensures memory { OnErr result (is_unfinished (peer_front text.now) ≡ false) }
{
    match connect_text(text) {
        Some(behind) => read_connect(alloc, behind),
        None => read_client(alloc, text),
    }
}

fn is_unfinished(front: &PeerFront) -> bool
    ensures { result ≡ is_unfinished front.now }
{
    match front {
        PeerFront::Unfinished => true,
        PeerFront::Bad | PeerFront::Got(_, _) => false,
    }
}

/// Whether a command stands whole at the front of a peer's bytes, or what is none. It answers that whatever memory
/// there is: memory is wanting only where a command is there whole.
pub fn is_ready(alloc: Global, text: &[u8]) -> bool
    ensures { result ≡ is_ready text.now }
{
    match read_command(alloc, text) {
        Ok(front) => !is_unfinished(&front),
        Err(NoMemory) => true,
    }
}
