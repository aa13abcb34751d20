//! A core's turns, each with all that it makes due: the own ones, and those of a link that is lent to it.
ghost use Rattle.std.specs.Prelude.{◌≡◌, ◌<◌, length};
ghost use Rattle.nats_live.specs.Steps.{PlaysWhole, ReadsWhole, WritesWhole};

use crate::error::LiveError;
use nats_core::{
    Core, LinkRead, LinkWrite, NoMemory, ReadOnce, StepError, StepReply, Turn, WriteOnce,
};
use std::alloc::Global;

// Plays a turn, and all that is due before it and after it.
pub(crate) fn play(alloc: Global, core: &mut Core, turn: Turn) -> Result<StepReply, StepError>
    ensures { PlaysWhole core.old turn result core.new }
{
    match core.step(alloc, turn) {
        Ok(reply) => match core.catch_up(alloc) {
            Ok(()) => Ok(reply),
            Err(NoMemory) => Err(StepError::NoMemory),
        },
        Err(error) => Err(error),
    }
}

// Writes once, and plays all that is due before it and after it. `Gone` where no link is up.
pub(crate) fn write_some<T: LinkWrite>(
    alloc: Global,
    core: &mut Core,
    write: &mut T,
) -> Result<WriteOnce, NoMemory>
    ensures { WritesWhole core.old (T.write_told write.old) (T.write_told write.new) result core.new }
{
    core.catch_up(alloc)?;
    if !core.handler().is_up() {
        return Ok(WriteOnce::Gone);
    }
    let once = core.write_link(alloc, write)?;
    core.catch_up(alloc)?;
    Ok(once)
}

// Reads once, and plays all that is due before it and after it. `Gone` where no link is up.
pub(crate) fn read_some<L: LinkRead>(
    alloc: Global,
    core: &mut Core,
    read: &mut L,
    buf: &mut [u8],
) -> Result<ReadOnce, NoMemory>
    requires { 0 < length buf.old }
    ensures reads { ReadsWhole core.old buf.new (L.read_told read.old) (L.read_told read.new) result core.new }
    ensures len { length buf.new ≡ length buf.old }
{
    core.catch_up(alloc)?;
    if !core.handler().is_up() {
        return Ok(ReadOnce::Gone);
    }
    let once = core.read_link(alloc, read, buf)?;
    core.catch_up(alloc)?;
    Ok(once)
}

impl From<StepError> for LiveError {
    ghost use Rattle.std.specs.Prelude.{◌≡◌};
    ghost use Rattle.nats_live.specs.Steps.{step_refused};

    ghost from_gives = { λ error e. e ≡ step_refused error };

    fn from(error: StepError) -> LiveError {
        match error {
            StepError::OutOfTurn => LiveError::LinkEnded,
            StepError::LinkGone { current: _ } => LiveError::LinkEnded,
            StepError::NoMemory => LiveError::NoMemory,
        }
    }
}
