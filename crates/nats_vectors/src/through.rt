//! What the links of a script carry, from outside: played by `replay`, and read out of what that prints.

use crate::sent::say_read;
use nats_client_text::read_client_text;
use nats_names::NoMemory;
use nats_replay::{MemorySink, MemorySource, MemoryWorld, memory_world, replay};
use nats_row_words::words::say;
use percent_encoding::percent_decode;
use std::alloc::Global;
use std::sync::Wait;
use std::thread::Threads;

/// The most bytes that the source gives, and the sink takes, at a time.
const AT_ONCE: usize = 65_536;

/// The text of no bytes, as a word.
const NOTHING: &str = "%";

/// Appends the bytes that a word spells.
fn push_spelled(out: &mut Vec<u8>, word: &str) -> Result<(), NoMemory> {
    if word == NOTHING {
        return Ok(());
    }
    for byte in percent_decode(word.as_bytes()) {
        out.push(byte)?;
    }
    Ok(())
}

/// Says the commands that a link's bytes are read as.
fn say_text(alloc: Global, out: &mut Vec<u8>, text: &[u8]) -> Result<(), NoMemory> {
    let read = read_client_text(alloc, text)?;
    say_read(out, &read)
}

/// Says what a printed line tells: the reply of a call, or, where the line ends a link, the commands of all that it
/// carries.
fn say_line(
    alloc: Global,
    out: &mut Vec<u8>,
    carried: &mut Vec<u8>,
    line: &str,
) -> Result<(), NoMemory> {
    if let Some(word) = line.strip_prefix("out ") {
        carried.clear();
        push_spelled(carried, word)?;
    } else if let Some(word) = line.strip_prefix("left ") {
        push_spelled(carried, word)?;
        say_text(alloc, out, carried.as_slice())?;
    }
    Ok(())
}

fn say_call(out: &mut Vec<u8>, line: &str) -> Result<(), NoMemory> {
    let Some(call) = line.strip_prefix("call ") else {
        return Ok(());
    };
    if let Some((_, reply)) = call.split_once(' ') {
        say(out, reply)?;
        say(out, "\n")?;
    }
    Ok(())
}

fn say_printed(alloc: Global, out: &mut Vec<u8>, printed: &str) -> Result<(), NoMemory> {
    for line in printed.lines() {
        say_call(out, line)?;
    }
    let mut carried = Vec::new(alloc);
    for line in printed.lines() {
        say_line(alloc, out, &mut carried, line)?;
    }
    Ok(())
}

/// The words of the command that plays a script.
fn run_words(alloc: Global) -> Result<Vec<String>, NoMemory> {
    let mut words = Vec::new(alloc);
    words.push(String::from_str(alloc, "run")?)?;
    Ok(words)
}

/// Plays a script, and answers the status that it ends with.
fn play<R: Threads + Wait + Sync>(
    rt: &R,
    alloc: Global,
    script: &str,
    sink: &mut MemorySink,
    world: &mut MemoryWorld,
) -> Result<u8, NoMemory> {
    let words = run_words(alloc)?;
    let bytes = Vec::from_slice(alloc, script.as_bytes())?;
    let mut source = MemorySource::new(bytes, AT_ONCE);
    Ok(replay(rt, alloc, words.as_slice(), &mut source, sink, world))
}

/// Plays a script through `replay` in a world that has no links, and answers its status.
fn play_alone<R: Threads + Wait + Sync>(
    rt: &R,
    alloc: Global,
    script: &str,
    sink: &mut MemorySink,
) -> Result<u8, NoMemory> {
    let mut world = memory_world(alloc, Vec::new(alloc))?;
    let status = play(rt, alloc, script, sink, &mut world);
    drop(world);
    status
}

/// What is read out of the bytes of a run that ended with this status.
fn told(alloc: Global, status: u8, bytes: &[u8]) -> Result<Vec<u8>, NoMemory> {
    let mut out = Vec::new(alloc);
    match str::from_utf8(bytes) {
        Ok(printed) if status == 0 => say_printed(alloc, &mut out, printed)?,
        Ok(_) | Err(_) => out.extend_from_slice(bytes)?,
    }
    Ok(out)
}

/// What `replay` prints of a script.
pub fn printed<R: Threads + Wait + Sync>(
    rt: &R,
    alloc: Global,
    script: &str,
) -> Result<Vec<u8>, NoMemory> {
    let mut sink = MemorySink::new(alloc, AT_ONCE);
    let _status = play_alone(rt, alloc, script, &mut sink)?;
    Ok(Vec::from_slice(alloc, sink.bytes())?)
}

/// What `carried` tells, played by `replay` from the bytes of a script, and read out of the bytes that it writes
/// alone: the replies to calls, then the commands of each link. Where it does not end with 0, what it writes.
pub fn carried_through<R: Threads + Wait + Sync>(
    rt: &R,
    alloc: Global,
    script: &str,
) -> Result<Vec<u8>, NoMemory> {
    let mut sink = MemorySink::new(alloc, AT_ONCE);
    let status = play_alone(rt, alloc, script, &mut sink)?;
    told(alloc, status, sink.bytes())
}
