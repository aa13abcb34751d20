//! Subscriptions that are carried over from link to link.

use crate::churn::{bring_up, handle, make, named, write};
use nats_session::{Config, ConnectionHandler, NoMemory, Turn};
use std::alloc::Global;
use std::fmt;

/// What subscriptions came to that were carried over links.
#[derive(Clone, Copy)]
pub struct Carried {
    /// The number of the last link.
    pub links: u64,
    /// Of the numbers given, those that a turn may still name.
    pub kept: u64,
    /// The bytes that subscribed them again, over all links.
    pub again: u64,
}

/// Prints a line for each count.
impl fmt::Display for Carried {
    fn fmt<W: fmt::Write>(&self, f: &mut fmt::Formatter<W>) -> fmt::Result {
        writeln!(f, "links {}", self.links)?;
        writeln!(f, "kept {}", self.kept)?;
        writeln!(f, "again {}", self.again)
    }
}

fn lose(alloc: Global, session: &mut ConnectionHandler) -> Result<(), NoMemory> {
    if session.check(&Turn::Lost) {
        session.lost(alloc)?;
    }
    Ok(())
}

/// The link is lost and another comes up: how many bytes subscribe all again. The link takes them.
fn relink(alloc: Global, session: &mut ConnectionHandler) -> Result<u64, NoMemory> {
    lose(alloc, session)?;
    bring_up(alloc, session)?;
    let bytes = session.pending();
    write(session);
    Ok(bytes)
}

/// Makes `count` subscriptions: the number of the last one.
fn make_all(alloc: Global, session: &mut ConnectionHandler, count: usize) -> Result<u64, NoMemory> {
    let mut last = 0;
    for _ in 0..count {
        if let Some(number) = make(alloc, session)? {
            last = number;
        }
        handle(alloc, session)?;
    }
    write(session);
    Ok(last)
}

fn carry_on(
    alloc: Global,
    session: &mut ConnectionHandler,
    count: usize,
) -> Result<Carried, NoMemory> {
    bring_up(alloc, session)?;
    let last = make_all(alloc, session, count)?;
    let mut again = 0u64;
    for _ in 0..count {
        again = again.saturating_add(relink(alloc, session)?);
    }
    Ok(Carried {
        links: session.link(),
        kept: named(session, last),
        again,
    })
}

/// Makes `count` subscriptions on one link, and carries them over `count` more.
pub fn carry(alloc: Global, config: Config, count: usize) -> Result<Carried, NoMemory> {
    let mut session = ConnectionHandler::new(alloc, config)?;
    carry_on(alloc, &mut session, count)
}
