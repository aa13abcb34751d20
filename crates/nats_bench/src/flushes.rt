//! Flushes that wait behind the bytes of one command.

use crate::churn::{bring_up, handle, make, submit};
use nats_session::{Call, CallReply, Config, ConnectionHandler, NoMemory, Turn};
use std::alloc::Global;
use std::fmt;

/// What flushes came to that waited behind one command.
#[derive(Clone, Copy)]
pub struct Flushed {
    /// The last ticket that was given.
    pub given: u64,
    /// The tickets that settled as flushed.
    pub flushed: u64,
}

/// Prints a line for each count.
impl fmt::Display for Flushed {
    fn fmt<W: fmt::Write>(&self, f: &mut fmt::Formatter<W>) -> fmt::Result {
        writeln!(f, "tickets {}", self.given)?;
        writeln!(f, "flushed {}", self.flushed)
    }
}

/// Gives out `count` tickets behind the bytes that wait: the last one.
fn flush_all(
    alloc: Global,
    session: &mut ConnectionHandler,
    count: usize,
) -> Result<u64, NoMemory> {
    let mut last = 0;
    for _ in 0..count {
        if let Some(ticket) = submit(alloc, session, &Call::Flush)? {
            last = ticket;
        }
        handle(alloc, session)?;
    }
    Ok(last)
}

/// The link takes what waits, one byte after another.
fn write_slowly(session: &mut ConnectionHandler) {
    for _ in 0..session.pending() {
        if session.check(&Turn::Write(1)) {
            session.written(1);
        }
    }
}

fn is_flushed(reply: &Option<CallReply>) -> bool {
    matches!(reply, Some(CallReply::Flushed))
}

/// How many of the tickets up to `last` settled as flushed.
fn settled(session: &mut ConnectionHandler, last: u64) -> u64 {
    let mut count = 0u64;
    for ticket in 1..=last {
        let reply = session.reply_of(ticket);
        if is_flushed(&reply) {
            count = count.saturating_add(1);
        }
    }
    count
}

fn flush_on(
    alloc: Global,
    session: &mut ConnectionHandler,
    count: usize,
) -> Result<Flushed, NoMemory> {
    bring_up(alloc, session)?;
    make(alloc, session)?;
    handle(alloc, session)?;
    let given = flush_all(alloc, session, count)?;
    write_slowly(session);
    let flushed = settled(session, given);
    Ok(Flushed { given, flushed })
}

/// Gives out `count` tickets while one command waits, which the link then takes byte by byte, and asks for each reply.
pub fn flush(alloc: Global, config: Config, count: usize) -> Result<Flushed, NoMemory> {
    let mut session = ConnectionHandler::new(alloc, config)?;
    flush_on(alloc, &mut session, count)
}
