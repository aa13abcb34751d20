//! Requests over one inbox, many of which wait at a time.
ghost use Rattle.std.specs.Prelude.{◌≡◌, IfOk};
ghost use Rattle.nats_history.specs.declared.turn.Turn.TheVariants as turns;
ghost use Rattle.nats_session.specs.Handler.{can_play};

use crate::churn::{bring_up, handle, may_play, submit, write};
use nats_session::{
    Bytes, Call, CallReply, Config, ConnectionHandler, NoMemory, Subject, Token, Turn,
};
use std::alloc::Global;
use std::fmt;

/// How many requests wait at a time.
const AT_A_TIME: usize = 1000;

/// What requests came to.
#[derive(Clone, Copy)]
pub struct Asked {
    /// The last ticket that was given.
    pub given: u64,
    /// The tickets that settled by a reply.
    pub replied: u64,
}

/// Prints a line for each count.
impl fmt::Display for Asked {
    fn fmt<W: fmt::Write>(&self, f: &mut fmt::Formatter<W>) -> fmt::Result {
        writeln!(f, "requests {}", self.given)?;
        writeln!(f, "replied {}", self.replied)
    }
}

fn token_of(alloc: Global, number: usize) -> Result<Option<Token>, NoMemory> {
    let text = format!(in alloc; "T{number}")?;
    Ok(Token::new(text.as_str()))
}

fn request_under(alloc: Global, token: Token) -> Result<Call, NoMemory> {
    let payload = Bytes::copy_from_slice(alloc, b"hi")?;
    Ok(Call::Request {
        subject: Subject::from_static("bench.service"),
        payload,
        headers: None,
        token,
    })
}

/// Asks under a token: the ticket that this gave.
fn ask_under(
    alloc: Global,
    session: &mut ConnectionHandler,
    token: Token,
) -> Result<Option<u64>, NoMemory> {
    let call = request_under(alloc, token)?;
    submit(alloc, session, &call)
}

/// Asks under the token of a number: the ticket that this gave.
fn ask(
    alloc: Global,
    session: &mut ConnectionHandler,
    number: usize,
) -> Result<Option<u64>, NoMemory> {
    let Some(token) = token_of(alloc, number)? else {
        return Ok(None);
    };
    let ticket = ask_under(alloc, session, token)?;
    handle(alloc, session)?;
    Ok(ticket)
}

fn reply_bytes(alloc: Global, number: usize) -> Result<Bytes, NoMemory> {
    let text = format!(in alloc; "MSG _INBOX.MUX1.T{number} 0 5\r\nhello\r\n")?;
    let bytes = Bytes::copy_from_slice(alloc, text.as_bytes())?;
    Ok(bytes)
}

/// Whether the link may give these bytes now.
fn may_give(session: &ConnectionHandler, bytes: &Bytes) -> Result<bool, NoMemory>
    ensures { IfOk result (λ may. may ≡ can_play session.now.parts (turns.Piece bytes.now)) }
{
    let bytes = bytes.clone()?;
    Ok(may_play(session, Turn::Piece(bytes)))
}

/// The link gives these bytes, where it may.
fn give(alloc: Global, session: &mut ConnectionHandler, bytes: &Bytes) -> Result<(), NoMemory> {
    if may_give(session, bytes)? {
        session.piece(alloc, bytes.as_slice())
    } else {
        Ok(())
    }
}

/// The reply under the token of a number comes.
fn give_reply(
    alloc: Global,
    session: &mut ConnectionHandler,
    number: usize,
) -> Result<(), NoMemory> {
    let bytes = reply_bytes(alloc, number)?;
    give(alloc, session, &bytes)
}

/// The reply under the token of a number comes, and is read.
fn reply(alloc: Global, session: &mut ConnectionHandler, number: usize) -> Result<(), NoMemory> {
    give_reply(alloc, session, number)?;
    handle(alloc, session)?;
    Ok(())
}

fn is_reply(reply: &Option<CallReply>) -> bool {
    matches!(reply, Some(CallReply::Replied(_)))
}

/// How many of the tickets behind `first` up to `last` settled by a reply, which is handed out.
fn replied(session: &mut ConnectionHandler, first: u64, last: u64) -> u64 {
    let mut count = 0u64;
    for ticket in first..last {
        let reply = session.reply_of(ticket.saturating_add(1));
        if is_reply(&reply) {
            count = count.saturating_add(1);
        }
    }
    count
}

/// Asks under the tokens of the numbers from `from` up to `to`, then all replies come, and are handed out.
fn round(
    alloc: Global,
    session: &mut ConnectionHandler,
    asked: &mut Asked,
    from: usize,
    to: usize,
) -> Result<(), NoMemory> {
    let mut last = asked.given;
    for number in from..to {
        if let Some(ticket) = ask(alloc, session, number)? {
            last = ticket;
        }
    }
    write(session);
    for number in from..to {
        reply(alloc, session, number)?;
    }
    let replies = replied(session, asked.given, last);
    asked.given = last;
    asked.replied = asked.replied.saturating_add(replies);
    Ok(())
}

fn request_on(
    alloc: Global,
    session: &mut ConnectionHandler,
    count: usize,
) -> Result<Asked, NoMemory> {
    let mut asked = Asked {
        given: 0,
        replied: 0,
    };
    bring_up(alloc, session)?;
    for first in (0..count).step_by(AT_A_TIME) {
        let to = first.saturating_add(AT_A_TIME).min(count);
        round(alloc, session, &mut asked, first, to)?;
    }
    Ok(asked)
}

/// Makes `count` requests, a thousand of which wait at a time, and answers each.
pub fn request(alloc: Global, config: Config, count: usize) -> Result<Asked, NoMemory> {
    let mut session = ConnectionHandler::new(alloc, config)?;
    request_on(alloc, &mut session, count)
}
