//! A session with requests is played on a core, and each call that answers want of memory is made a second time.

use crate::Refused;
use nats_core::{Config, Core, Entry, NoMemory, StepError, Turn};
use nats_script::{Script, print_transcript, read_script};
use nats_session::{RunError, run};
use std::alloc::Global;

/// Two requests are answered, one of them by a 503; of two under one token the later replaces the earlier, and is timed
/// out. Then the link takes a part of what waits, and another comes.
const SCRIPT: &[u8] = b"config 2048 65536 check _INBOX MUX1
up 1048576
request svc T1 hi
piece MSG%20_INBOX.MUX1.T1%200%202%0D%0Aok%0D%0A
piece MSG%20_INBOX.MUX1.T1%200%202%0D%0Aok%0D%0A
request svc T2 hi
piece HMSG%20_INBOX.MUX1.T2%200%2016%2016%0D%0ANATS/1.0%20503%0D%0A%0D%0A%0D%0A
request svc T3 hi
request svc T3 hi
deadline 4
piece MSG%20_INBOX.MUX1.T3%200%202%0D%0Aok%0D%0A
write 52
lost
up 1048576
";

fn script(alloc: Global) -> Result<Script, NoMemory> {
    match read_script(alloc, SCRIPT) {
        Err(NoMemory) => read_script(alloc, SCRIPT),
        script => script,
    }
}

/// Plays a turn: whether it may come.
fn play(alloc: Global, core: &mut Core, turn: &Turn) -> Result<bool, NoMemory> {
    match core.step(alloc, turn.copy(alloc)?) {
        Ok(_) => Ok(true),
        Err(StepError::OutOfTurn | StepError::LinkGone { .. }) => Ok(false),
        Err(StepError::NoMemory) => Err(NoMemory),
    }
}

fn play_twice(alloc: Global, core: &mut Core, turn: &Turn) -> Result<bool, NoMemory> {
    match play(alloc, core, turn) {
        Err(NoMemory) => play(alloc, core, turn),
        played => played,
    }
}

fn core_of(alloc: Global, config: &Config) -> Result<Core, NoMemory> {
    Core::new(alloc, config.copy(alloc)?, true)
}

/// A core on which all turns were played.
fn played(alloc: Global, config: &Config, turns: &[Turn]) -> Result<Core, Refused> {
    let mut core = match core_of(alloc, config) {
        Err(NoMemory) => core_of(alloc, config)?,
        Ok(core) => core,
    };
    for turn in turns {
        if !play_twice(alloc, &mut core, turn)? {
            return Err(Refused::Played);
        }
    }
    Ok(core)
}

fn turns_of(alloc: Global, journal: &[Entry]) -> Result<Vec<Turn>, NoMemory> {
    let mut turns = Vec::new(alloc);
    for entry in journal {
        turns.push(entry.turn.copy(alloc)?)?;
    }
    Ok(turns)
}

/// What is printed of a journal.
fn text_of(alloc: Global, config: &Config, journal: &[Entry]) -> Result<Vec<u8>, Refused> {
    let turns = turns_of(alloc, journal)?;
    match run(alloc, config.copy(alloc)?, turns.as_slice()) {
        Ok(transcript) => Ok(print_transcript(alloc, &transcript)?),
        Err(RunError::NoMemory) => Err(Refused::NoMemory),
        Err(RunError::OutOfTurn { .. }) => Err(Refused::Played),
    }
}

/// What comes of the journal of the session that the script plays.
pub(crate) fn printed(alloc: Global) -> Result<Vec<u8>, Refused> {
    let Script::Good { config, turns } = script(alloc)? else {
        return Err(Refused::Played);
    };
    let core = played(alloc, &config, turns.as_slice())?;
    match text_of(alloc, &config, core.journal()) {
        Err(Refused::NoMemory) => text_of(alloc, &config, core.journal()),
        text => text,
    }
}
