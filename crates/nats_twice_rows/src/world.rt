//! Commands on a live link over a world in memory: a handshake, and behind it a publish, or a message that is taken.

use bytes::Bytes;
use nats_outside::FakeLink;
use nats_replay::{MemorySink, MemorySource, MemoryWorld, NoMemory, memory_world, replay};
use std::alloc::Global;
use std::sync::Wait;
use std::thread::Threads;

/// How many bytes a read of the link gives: no message comes with the end of the handshake.
const CUT: usize = 6;

/// The status of a command that did what it was asked for.
const DONE: u8 = 0;

/// The most bytes that are printed.
const MOST: usize = 4_096;

/// A command, and what its link gives.
#[derive(Clone, Copy)]
pub(crate) struct Command<'a> {
    words: &'a [&'a str],
    gives: &'static [u8],
}

/// A publish.
pub(crate) const PUBLISH: Command = Command {
    words: &["pub", "nats://h", "a", "hi"],
    gives: b"INFO {\"max_payload\":100}\r\nPONG\r\n",
};

/// A subscription, of which one message is taken.
pub(crate) const RECEIVE: Command = Command {
    words: &["sub", "nats://h", "a", "1"],
    gives: b"INFO {\"max_payload\":100}\r\nPONG\r\nMSG a 1 2\r\nhi\r\n",
};

fn words_of(alloc: Global, command: &Command) -> Result<Vec<String>, NoMemory> {
    let mut words = Vec::new(alloc);
    for word in command.words {
        words.push(String::from_str(alloc, word)?)?;
    }
    Ok(words)
}

fn world_of(alloc: Global, command: &Command) -> Result<MemoryWorld, NoMemory> {
    let link = FakeLink::new(alloc, Bytes::from_static(command.gives), CUT)?;
    memory_world(alloc, vec![in alloc; link]?)
}

/// What a command prints. A link or a sink in memory that wants memory for what it notes fails, and the command with
/// it.
fn played<R: Threads + Wait + Sync>(
    rt: &R,
    alloc: Global,
    command: &Command,
) -> Result<MemorySink, NoMemory> {
    let words = words_of(alloc, command)?;
    let mut world = world_of(alloc, command)?;
    let mut source = MemorySource::new(Vec::new(alloc), 1);
    let mut sink = MemorySink::new(alloc, MOST);
    let status = replay(
        rt,
        alloc,
        words.as_slice(),
        &mut source,
        &mut sink,
        &mut world,
    );
    drop(world);
    match status {
        DONE => Ok(sink),
        _ => Err(NoMemory),
    }
}

fn once<R: Threads + Wait + Sync>(
    rt: &R,
    alloc: Global,
    command: &Command,
) -> Result<Vec<u8>, NoMemory> {
    let sink = played(rt, alloc, command)?;
    Ok(Vec::from_slice(alloc, sink.bytes())?)
}

/// What a command prints. Where memory is wanting it is played once more, in a new world.
pub(crate) fn printed<R: Threads + Wait + Sync>(
    rt: &R,
    alloc: Global,
    command: &Command,
) -> Result<Vec<u8>, NoMemory> {
    match once(rt, alloc, command) {
        Err(NoMemory) => once(rt, alloc, command),
        text => text,
    }
}
