//! What a journal keeps of each turn.
ghost use Rattle.std.specs.Prelude.{◌≡◌, IfOk};

use nats_session::{CallReply, NoMemory, TakeReply, Turn};
use std::alloc::Global;

/// What a turn answers.
#[derive(Debug, Drop, PartialEq, Eq)]
pub enum StepReply {
    /// The turn was played; it is neither a call nor a take, which answer more.
    Done,
    /// The reply to a call.
    Call(CallReply),
    /// The reply to a take.
    Take(TakeReply),
}

/// A turn that was played, with what it answered.
#[derive(Debug, Drop, PartialEq, Eq)]
pub struct Entry {
    /// The turn as it was handed in.
    pub turn: Turn,
    /// Its reply.
    pub reply: StepReply,
}

impl StepReply {
    /// An equal answer, which shares its bytes.
    ///
    /// # Errors
    ///
    /// `NoMemory` for want of memory.
    pub fn copy(&self, alloc: Global) -> Result<StepReply, NoMemory>
        ensures { IfOk result (λ r. r ≡ self.now) }
    {
        match self {
            StepReply::Done => Ok(StepReply::Done),
            StepReply::Call(reply) => Ok(StepReply::Call(reply.copy(alloc)?)),
            StepReply::Take(reply) => Ok(StepReply::Take(reply.copy(alloc)?)),
        }
    }
}

impl Entry {
    /// An equal entry, which shares its bytes.
    ///
    /// # Errors
    ///
    /// `NoMemory` for want of memory.
    pub fn copy(&self, alloc: Global) -> Result<Entry, NoMemory>
        ensures { IfOk result (λ e. e ≡ self.now) }
    {
        Ok(Entry {
            turn: self.turn.copy(alloc)?,
            reply: self.reply.copy(alloc)?,
        })
    }
}
