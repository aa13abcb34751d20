//! Messages that a core reads, puts into their subscription, and hands out.

use anyhow::{Result, anyhow};
use nats_core::{
    Bytes, Call, Config, Core, Message, StepError, StepReply, Subject, TakeReply, Turn,
    usual_server,
};
use std::alloc::Global;
use std::fmt;

/// How many messages a piece has.
const AT_A_TIME: usize = 64;

/// The number of the one subscription.
const NUMBER: u64 = 1;

/// What the server sends, again and again.
const MESSAGE: &str = "MSG churn 1 16\r\n0123456789abcdef\r\n";

/// What messages came to that were taken.
#[derive(Clone, Copy)]
pub struct Taken {
    /// The messages that were taken.
    pub taken: u64,
    /// The bytes of their payloads.
    pub payloads: u64,
}

impl Taken {
    fn note(&mut self, message: &Message) {
        let bytes = message.payload.len() as u64;
        self.taken = self.taken.saturating_add(1);
        self.payloads = self.payloads.saturating_add(bytes);
    }
}

/// Prints a line for each count.
impl fmt::Display for Taken {
    fn fmt<W: fmt::Write>(&self, f: &mut fmt::Formatter<W>) -> fmt::Result {
        writeln!(f, "taken {}", self.taken)?;
        writeln!(f, "payloads {}", self.payloads)
    }
}

/// The bytes of a piece.
fn piece_bytes(alloc: Global) -> Result<Bytes> {
    let mut bytes = Vec::new(alloc);
    for _ in 0..AT_A_TIME {
        bytes.extend_from_slice(MESSAGE.as_bytes())?;
    }
    Ok(Bytes::from_vec(bytes)?)
}

/// Plays a turn whose answer says no more than that it was played.
fn play(alloc: Global, core: &mut Core, turn: Turn) -> Result<(), StepError> {
    match core.step(alloc, turn) {
        Ok(_) => Ok(()),
        Err(error) => Err(error),
    }
}

/// A link comes up, and the subscription is asked for, whose bytes the link takes.
fn begin(alloc: Global, core: &mut Core) -> Result<(), StepError> {
    play(alloc, core, Turn::Up(usual_server(alloc)))?;
    let call = Call::Subscribe {
        subject: Subject::from_static("churn"),
        queue_group: None,
    };
    play(alloc, core, Turn::Do(call))?;
    play(alloc, core, Turn::Write(u64::MAX))
}

/// The link gives a piece, each message of which is read and put.
fn give(alloc: Global, core: &mut Core, piece: &Bytes) -> Result<(), StepError> {
    let piece = piece.clone()?;
    play(alloc, core, Turn::Piece(piece))
}

/// Notes the message that a take answered, where it did.
fn note_taken(reply: &Result<StepReply, StepError>, taken: &mut Taken) -> Result<(), StepError> {
    match reply {
        Ok(StepReply::Take(TakeReply::Message(message))) => {
            taken.note(message);
            Ok(())
        }
        Ok(_) => Ok(()),
        Err(error) => Err(*error),
    }
}

/// Takes the oldest message that waits, and notes it.
fn take_one(alloc: Global, core: &mut Core, taken: &mut Taken) -> Result<(), StepError> {
    let reply = core.step(alloc, Turn::Take(NUMBER));
    let noted = note_taken(&reply, taken);
    drop(reply);
    noted
}

/// A piece comes, and so many of its messages are taken, one by one.
fn round(
    alloc: Global,
    core: &mut Core,
    piece: &Bytes,
    count: usize,
    taken: &mut Taken,
) -> Result<(), StepError> {
    give(alloc, core, piece)?;
    for _ in 0..count {
        take_one(alloc, core, taken)?;
    }
    Ok(())
}

/// Pieces come, one after another, until `count` messages were taken: what is measured.
#[inline(never)]
fn take_messages(
    alloc: Global,
    core: &mut Core,
    piece: &Bytes,
    count: usize,
) -> Result<Taken, StepError> {
    let mut taken = Taken {
        taken: 0,
        payloads: 0,
    };
    for first in (0..count).step_by(AT_A_TIME) {
        let rest = count.saturating_sub(first);
        round(alloc, core, piece, rest.min(AT_A_TIME), &mut taken)?;
    }
    Ok(taken)
}

fn take_on(
    alloc: Global,
    core: &mut Core,
    piece: &Bytes,
    count: usize,
) -> Result<Taken, StepError> {
    begin(alloc, core)?;
    take_messages(alloc, core, piece, count)
}

fn told(outcome: Result<Taken, StepError>) -> Result<Taken> {
    match outcome {
        Ok(taken) => Ok(taken),
        Err(error) => Err(anyhow!("{error:?}")),
    }
}

/// Takes `count` messages through a core that keeps no journal.
pub fn through(alloc: Global, count: usize) -> Result<Taken> {
    let piece = piece_bytes(alloc)?;
    let mut core = Core::new(alloc, Config::new(alloc)?, false)?;
    told(take_on(alloc, &mut core, &piece, count))
}
