//! Why no header block was read.
ghost use Rattle.std.specs.Prelude.{◌≡◌, Some};
ghost use Rattle.nats_block.specs.Answers.{block_error_text};
ghost use Rattle.nats_block.specs.declared.error.BlockError.TheVariants as refused;

use nats_names::NoMemory;
use std::error::Error;
use std::fmt;

/// Why no header block was read. Own type of this library.
#[derive(Clone, Copy, Debug, PartialEq, Eq)]
pub enum BlockError {
    /// The bytes are no header block of the protocol.
    Malformed,
    /// Want of memory.
    NoMemory,
}

impl fmt::Display for BlockError {
    ghost output = { λ error. Some (block_error_text error) };

    fn fmt<W: fmt::Write>(&self, f: &mut fmt::Formatter<W>) -> fmt::Result {
        match self {
            BlockError::Malformed => write!(f, "malformed header block"),
            BlockError::NoMemory => write!(f, "out of memory"),
        }
    }
}

impl Error for BlockError {}

impl From<NoMemory> for BlockError {
    ghost from_gives = { λ _ error. error ≡ refused.NoMemory };

    fn from(_refused: NoMemory) -> BlockError {
        BlockError::NoMemory
    }
}
