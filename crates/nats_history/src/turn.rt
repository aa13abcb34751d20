//! The events that a session is played by.
ghost use Rattle.std.specs.Prelude.{◌≡◌, IfOk};

use crate::call::Call;
use nats_wire::{Bytes, Message, NoMemory, ServerInfo};
use std::alloc::Global;

/// One event of a session.
#[derive(Debug, Drop, PartialEq, Eq)]
pub enum Turn {
    /// A link came up, and its server said this of itself.
    Up(ServerInfo),
    /// The link gave these bytes.
    Piece(Bytes),
    /// The link took this many of the waiting bytes, or all where fewer wait.
    Write(u64),
    /// So long passed that the link is to show that it still works.
    Tick,
    /// The link was lost.
    Lost,
    /// No further link is tried, and the session closes.
    GiveUp,
    /// The user hangs up: a link that is up ends, and the session closes.
    Hangup,
    /// The user made a call.
    Do(Call),
    /// The user asked for the oldest waiting message of the subscription of this number.
    Take(u64),
    /// The deadline of the request of this ticket came.
    Deadline(u64),
}

/// One due step that was played.
#[derive(Debug, Drop, PartialEq, Eq)]
pub enum Due {
    /// None was due.
    Nothing,
    /// An operation was read that is none of the others here.
    Read,
    /// A message was put into the queue of the subscription of this number.
    Put(u64),
    /// A message met the full queue of the subscription of this number.
    Dropped(u64, Message),
    /// The oldest waiting call was handled.
    Handled,
    /// The link ended.
    Ended,
}

impl Turn {
    /// An equal turn, which shares its bytes.
    pub fn copy(&self, alloc: Global) -> Result<Turn, NoMemory>
        ensures { IfOk result (λ t. t ≡ self.now) }
    {
        match self {
            Turn::Up(info) => Ok(Turn::Up(info.copy(alloc)?)),
            Turn::Piece(bytes) => Ok(Turn::Piece(bytes.clone()?)),
            Turn::Write(n) => Ok(Turn::Write(*n)),
            Turn::Tick => Ok(Turn::Tick),
            Turn::Lost => Ok(Turn::Lost),
            Turn::GiveUp => Ok(Turn::GiveUp),
            Turn::Hangup => Ok(Turn::Hangup),
            Turn::Do(call) => Ok(Turn::Do(call.copy(alloc)?)),
            Turn::Take(s) => Ok(Turn::Take(*s)),
            Turn::Deadline(t) => Ok(Turn::Deadline(*t)),
        }
    }
}
