//! What the calls of a core answer where they play no turn, and what those on a link do.

use nats_session::NoMemory;
use std::alloc::AllocError;

/// Why a turn was not played.
#[derive(Clone, Copy, Debug, PartialEq, Eq)]
pub enum StepError {
    /// The turn may not come where the session stands.
    OutOfTurn,
    /// The link that was named is not the one that is up: `current` is the number of that one, or 0 where none is up.
    LinkGone { current: u64 },
    /// Want of memory.
    NoMemory,
}

impl From<NoMemory> for StepError {
    ghost use Rattle.std.specs.Prelude.{◌≡◌};
    ghost use Rattle.nats_core.specs.declared.answers.StepError.TheVariants as refused;

    ghost from_gives = { λ _ e. e ≡ refused.NoMemory };

    fn from(_refused: NoMemory) -> StepError {
        StepError::NoMemory
    }
}

/// Want of memory as std tells it, so that `?` of an allocation serves beside that of a call.
impl From<AllocError> for StepError {
    ghost use Rattle.std.specs.Prelude.{◌≡◌};
    ghost use Rattle.nats_core.specs.declared.answers.StepError.TheVariants as refused;

    ghost from_gives = { λ _ e. e ≡ refused.NoMemory };

    fn from(_refused: AllocError) -> StepError {
        StepError::NoMemory
    }
}

/// What one read of a link came to.
#[derive(Clone, Copy, Debug, PartialEq, Eq)]
pub enum ReadOnce {
    /// So many bytes, at least one, were read and played.
    Played(u64),
    /// The link failed or ended, and its loss was played.
    Lost,
    /// No link is up, or another one is, and nothing was read. `Core::read_link` never answers it: calls over a core
    /// do.
    Gone,
}

/// What one write to a link came to.
#[derive(Clone, Copy, Debug, PartialEq, Eq)]
pub enum WriteOnce {
    /// So many bytes, at least one, were taken, and that was played.
    Wrote(u64),
    /// No byte waits, and nothing was written.
    Idle,
    /// The link failed, and its loss was played.
    Lost,
    /// No link is up, or another one is, and nothing was written. `Core::write_link` never answers it: calls over a
    /// core do.
    Gone,
}
