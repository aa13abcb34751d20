//! The core of a client: a turn on it, and what its journal comes to.
ghost use Rattle.std.specs.Prelude.{◌≡◌, IfOk, take};
ghost use Rattle.nats_history.specs.Transcripts.{transcript};
ghost use Rattle.nats_core.specs.Journal.{config_of, journal_turns, turns_of};
ghost use Rattle.nats_mesh.specs.Cores.{PlaysTurn, TellsPlayed, last_left, left_bytes};

use nats_core::{Core, Entry, StepError, StepReply, Turn};
use nats_history::{LinkRow, RunError, Transcript};
use nats_names::{Bytes, NoMemory};
use nats_session::run;
use std::alloc::Global;

/// Whether a turn was played, where memory was not wanting.
fn played(step: Result<StepReply, StepError>) -> Result<bool, NoMemory>
    ensures { TellsPlayed step result }
{
    match step {
        Ok(_) => Ok(true),
        Err(StepError::OutOfTurn | StepError::LinkGone { .. }) => Ok(false),
        Err(StepError::NoMemory) => Err(NoMemory),
    }
}

/// Plays a turn on a core, and answers whether it may come.
///
/// # Errors
///
/// `NoMemory` for want of memory.
pub(crate) fn play(alloc: Global, core: &mut Core, turn: Turn) -> Result<bool, NoMemory>
    ensures { PlaysTurn core.old turn result core.new }
{
    core.catch_up(alloc)?;
    let _session = core.handler();
    let step = core.step(alloc, turn);
    played(step)
}

fn turns_of(alloc: Global, journal: &[Entry]) -> Result<Vec<Turn>, NoMemory>
    ensures { IfOk result (λ turns. turns.items ≡ turns_of journal.now) }
{
    let mut turns = Vec::new(alloc);
    let mut k = 0;
    'entries: while k < journal.len() {
        let entry = &journal[k];
        k += 1;
        turns.push(entry.turn.copy(alloc)?)?;
    }
    Ok(turns)
}

/// The transcript of the turns that a core noted. It plays them anew.
///
/// # Errors
///
/// `NoMemory` for want of memory.
pub(crate) fn transcript_of(alloc: Global, core: &Core) -> Result<Transcript, NoMemory>
    ensures { IfOk result (λ t. t ≡ transcript (config_of core.now) (journal_turns core.now)) }
{
    let turns = turns_of(alloc, core.journal())?;
    let config = core.handler().config().copy(alloc)?;
    match run(alloc, config, turns.as_slice()) {
        Ok(transcript) => Ok(transcript),
        Err(RunError::OutOfTurn { .. }) => unreachable!(),
        Err(RunError::NoMemory) => Err(NoMemory),
    }
}

/// The bytes that wait for the last link, or waited at its end; none where there is no link.
fn last_left(links: &[LinkRow]) -> &[u8]
    ensures { result.now ≡ last_left links.now }
{
    match links.get(links.len().saturating_sub(1)) {
        Some(row) => row.left.as_slice(),
        None => &[],
    }
}

/// The first of some bytes, so many at most.
pub(crate) fn first_of(alloc: Global, bytes: &[u8], n: u64) -> Result<Bytes, NoMemory>
    ensures { IfOk result (λ first. first ≡ take n bytes.now) }
{
    let count = (n as usize).min(bytes.len());
    Ok(Bytes::copy_from_slice(alloc, &bytes[..count])?)
}

/// So many of the bytes that wait for a core's link, or all. It plays the core's turns anew.
///
/// # Errors
///
/// `NoMemory` for want of memory.
pub(crate) fn waiting_of(alloc: Global, core: &Core, n: u64) -> Result<Bytes, NoMemory>
    ensures { IfOk result (λ bytes. bytes ≡ take n (left_bytes (config_of core.now) (journal_turns core.now))) }
{
    let transcript = transcript_of(alloc, core)?;
    first_of(alloc, last_left(transcript.links.as_slice()), n)
}
