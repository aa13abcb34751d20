//! Turns of a broker.
ghost use Rattle.std.specs.Prelude.{◌≡◌, Some};
ghost use Rattle.nats_broker.specs.Errors.{route_error_text};
ghost use Rattle.nats_broker.specs.declared.turn.RouteError.TheVariants as refused;

use nats_names::{Bytes, NoMemory};
use std::error::Error;
use std::fmt;

/// What a broker is told. Own type.
#[derive(Debug, Drop, PartialEq, Eq)]
pub enum BrokerTurn {
    /// A peer joins; the first has the number 1.
    Join,
    /// These bytes of the peer came.
    Feed(u64, Bytes),
    /// The peer leaves.
    Leave(u64),
}

/// Why turns have no rows. Own type.
#[derive(Clone, Copy, Debug, PartialEq, Eq)]
pub enum RouteError {
    /// The turn at this place, counted from 1, may not come there.
    OutOfTurn { place: u64 },
    /// Want of memory.
    NoMemory,
}

impl fmt::Display for RouteError {
    ghost output = { λ error. Some (route_error_text error) };

    fn fmt<W: fmt::Write>(&self, f: &mut fmt::Formatter<W>) -> fmt::Result {
        match self {
            RouteError::OutOfTurn { place } => write!(f, "turn {place} out of turn"),
            RouteError::NoMemory => write!(f, "out of memory"),
        }
    }
}

impl Error for RouteError {}

impl From<NoMemory> for RouteError {
    ghost from_gives = { λ _ error. error ≡ refused.NoMemory };

    fn from(_refused: NoMemory) -> RouteError {
        RouteError::NoMemory
    }
}
