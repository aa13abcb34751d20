//! Journals beside one another, and a journal whose turns are played again.

use crate::entries::line_of;
use anyhow::{Result, anyhow};
use nats_client::{Audit, Turn};
use nats_core::{Core, Entry};
use nats_names::NoMemory;
use nats_print::print_transcript;
use nats_session::run;
use std::alloc::Global;
use std::str;

/// A text without the letter `z`.
fn without_z(alloc: Global, text: &str) -> Result<String, NoMemory> {
    let mut out = String::new(alloc);
    for part in text.split('z') {
        out.push_str(part)?;
    }
    Ok(out)
}

/// Whether an entry is the same as another once the letter `z` is left out of it.
fn is_same(alloc: Global, plain: &Entry, tailed: &Entry) -> Result<bool, NoMemory> {
    let line = without_z(alloc, line_of(alloc, tailed)?.as_str())?;
    Ok(line_of(alloc, plain)?.as_str() == line.as_str())
}

/// Prints how many entries are the same once the letter `z` is left out, and each other one.
pub(crate) fn differing<R: Print>(
    rt: &R,
    alloc: Global,
    plain: &Audit,
    tailed: &Audit,
) -> Result<()> {
    let mut same = 0u64;
    for (one, other) in plain.journal.iter().zip(tailed.journal.as_slice()) {
        if is_same(alloc, one, other)? {
            same = same.saturating_add(1);
        } else {
            println!(rt; "differs in more:{}", line_of(alloc, other)?.as_str())?;
        }
    }
    println!(rt; "the same without z: {same}")?;
    Ok(())
}

/// The turns of a journal.
fn turns_of(alloc: Global, journal: &[Entry]) -> Result<Vec<Turn>, NoMemory> {
    let mut turns = Vec::new(alloc);
    for entry in journal {
        turns.push(entry.turn.copy(alloc)?)?;
    }
    Ok(turns)
}

/// Plays a turn. Whether it may come.
fn step(alloc: Global, core: &mut Core, turn: &Turn) -> Result<bool, NoMemory> {
    Ok(core.step(alloc, turn.copy(alloc)?).is_ok())
}

/// Whether a new session that keeps its journal comes to the same one by its turns.
fn is_again(alloc: Global, audit: &Audit) -> Result<bool, NoMemory> {
    let mut core = Core::new(alloc, audit.config.copy(alloc)?, true)?;
    for entry in audit.journal.as_slice() {
        if !step(alloc, &mut core, &entry.turn)? {
            return Ok(false);
        }
    }
    Ok(core.journal() == audit.journal.as_slice())
}

/// The transcript of a journal's turns, as text.
fn transcript_of(alloc: Global, audit: &Audit) -> Result<Vec<u8>> {
    let turns = turns_of(alloc, audit.journal.as_slice())?;
    match run(alloc, audit.config.copy(alloc)?, turns.as_slice()) {
        Ok(transcript) => Ok(print_transcript(alloc, &transcript)?),
        Err(error) => Err(anyhow!("{error}")),
    }
}

/// Prints the lines of a transcript, but for the bytes that wait, among which a drawn token is.
fn show<R: Print>(rt: &R, text: &str) -> Result<()> {
    for line in text.lines() {
        if !line.starts_with("left ") {
            println!(rt; "{line}")?;
        }
    }
    Ok(())
}

/// Prints whether a journal's turns come to the same journal, and the transcript of these turns.
pub(crate) fn play_again<R: Print>(rt: &R, alloc: Global, audit: &Audit) -> Result<()> {
    println!(rt; "played again, the same: {}", is_again(alloc, audit)?)?;
    let text = transcript_of(alloc, audit)?;
    show(rt, str::from_utf8(text.as_slice()).unwrap_or("(bytes)"))
}
