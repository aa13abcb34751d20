//! Why a turn was not played, and why a seat was not made.
ghost use Rattle.std.specs.Prelude.{Some};
ghost use Rattle.nats_desk.specs.Refusals.{play_error_text, split_error_text};

use nats_core::Turn;
use std::error::Error;
use std::fmt;

/// Why a turn was not played. The turn comes back.
#[derive(Debug, Drop, PartialEq, Eq)]
pub enum PlayError {
    /// The turn may not come where the session stands.
    OutOfTurn(Turn),
    /// Want of memory, or of a place in the journal.
    NoMemory(Turn),
}

/// Why a seat was not made.
#[derive(Clone, Copy, Debug, PartialEq, Eq)]
pub enum SplitError {
    /// The number 2^32 - 1 was given, and none follows it.
    NoNumber,
    /// Want of memory, or of a place in the journal.
    NoMemory,
}

impl fmt::Display for PlayError {
    ghost output = { λ error. Some (play_error_text error) };

    fn fmt<W: fmt::Write>(&self, f: &mut fmt::Formatter<W>) -> fmt::Result {
        match self {
            PlayError::OutOfTurn(_) => write!(f, "the turn may not come there"),
            PlayError::NoMemory(_) => write!(f, "out of memory"),
        }
    }
}

impl Error for PlayError {}

impl fmt::Display for SplitError {
    ghost output = { λ error. Some (split_error_text error) };

    fn fmt<W: fmt::Write>(&self, f: &mut fmt::Formatter<W>) -> fmt::Result {
        match self {
            SplitError::NoNumber => write!(f, "no number is left for a seat"),
            SplitError::NoMemory => write!(f, "out of memory"),
        }
    }
}

impl Error for SplitError {}
