//! What a played list of turns leaves.
ghost use Rattle.std.specs.Prelude.{Some};
ghost use Rattle.nats_history.specs.Refusals.{run_error_text};

use crate::call::{CallReply, TakeReply};
use nats_wire::{Event, Message, NoMemory, Seq};
use std::error::Error;
use std::fmt;

/// How a link stands at the end of a transcript.
#[derive(Clone, Copy, Debug, PartialEq, Eq)]
pub enum LinkWord {
    /// It is up.
    Up,
    /// It was lost.
    Lost,
    /// It ended by bytes that are no operation.
    Fault,
    /// It ended as it answered none of the last ticks.
    Ticks,
    /// It ended as the user asked for another.
    Reconnect,
    /// It ended as the session was drained.
    Drained,
    /// It ended as the user hung up.
    Hangup,
}

/// What happened on one link.
#[derive(Debug, Drop, PartialEq, Eq)]
pub struct LinkRow {
    /// How it ended, or that it is up.
    pub end: LinkWord,
    /// The bytes that it took.
    pub taken: Seq<u8>,
    /// The bytes that waited for it at its end, or wait.
    pub left: Seq<u8>,
}

/// What happened to one subscription; each entry with its place, the number of its turn from 1.
#[derive(Debug, Drop, PartialEq, Eq)]
pub struct SubRow {
    /// The messages that were put into its queue.
    pub puts: Seq<(u64, Message)>,
    /// The messages that met its full queue.
    pub drops: Seq<(u64, Message)>,
    /// The answers to its takes.
    pub takes: Seq<(u64, TakeReply)>,
}

/// All that a played list of turns showed; places are numbers of turns from 1.
#[derive(Debug, Drop, PartialEq, Eq)]
pub struct Transcript {
    /// The links in order.
    pub links: Seq<LinkRow>,
    /// The accepted subscriptions by their numbers.
    pub subs: Seq<SubRow>,
    /// The events in order.
    pub events: Seq<(u64, Event)>,
    /// The reply of each call, in order.
    pub calls: Seq<(u64, CallReply)>,
    /// The tickets by their numbers, each with the place at which it settled and its reply; `None` where it did not.
    pub tickets: Seq<Option<(u64, CallReply)>>,
}

/// Why a list of turns was not played to its end.
#[derive(Clone, Copy, Debug, PartialEq, Eq)]
pub enum RunError {
    /// The turn at this place, from 1, is the first that may not come there.
    OutOfTurn { place: u64 },
    /// Want of memory.
    NoMemory,
}

impl From<NoMemory> for RunError {
    ghost use Rattle.std.specs.Prelude.{◌≡◌};
    ghost use Rattle.nats_history.specs.declared.transcript.RunError.TheVariants as refused;

    ghost from_gives = { λ _ e. e ≡ refused.NoMemory };

    fn from(_refused: NoMemory) -> RunError {
        RunError::NoMemory
    }
}

impl fmt::Display for RunError {
    ghost output = { λ error. Some (run_error_text error) };

    fn fmt<W: fmt::Write>(&self, f: &mut fmt::Formatter<W>) -> fmt::Result {
        match self {
            RunError::OutOfTurn { place } => write!(f, "turn {place} may not come there"),
            RunError::NoMemory => write!(f, "out of memory"),
        }
    }
}

impl Error for RunError {}
