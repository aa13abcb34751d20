//! Rows of commands on a live link, over a world in memory.

use bytes::Bytes;
use nats_outside::FakeLink;
use nats_replay::{MemorySink, MemorySource, MemoryWorld, NoMemory, memory_world, replay};
use nats_row_words::words::say;
use std::alloc::Global;
use std::sync::Wait;
use std::thread::Threads;

/// What a new connection writes first, on default options.
const OPENING: &str =
    "CONNECT {\"verbose\":false,\"pedantic\":false,\"jwt\":null,\"nkey\":null,\"sig\":null,\"name\":null,\
\"echo\":true,\"lang\":\"rust\",\"version\":\"0.51.0\",\"protocol\":1,\"tls_required\":false,\"user\":null,\
\"pass\":null,\"auth_token\":null,\"headers\":true,\"no_responders\":true}\r\nPING\r\n";

/// A row: the words; what the link gives, each text by a read of its own; the status, what is printed, and what
/// the link took behind the opening.
#[derive(Clone, Copy)]
struct Row<'a> {
    words: &'a [&'a str],
    gives: &'a [&'a str],
    status: u8,
    printed: &'a str,
    took: &'a str,
}

const SMALL: &str = "INFO {\"max_payload\":100}\r\n";

const PUBLISHED: Row = Row {
    words: &["pub", "nats://h", "a", "hi"],
    gives: &[SMALL, "PONG\r\n"],
    status: 0,
    printed: "published\n",
    took: "PUB a 2\r\nhi\r\n",
};

const RECEIVED: Row = Row {
    words: &["sub", "nats://h", "a", "1"],
    gives: &[SMALL, "PONG\r\n", "MSG a 1 2\r\nhi\r\n"],
    status: 0,
    printed: "message a ~ hi ~ ~ 3 ~\n",
    took: "SUB a 1\r\n",
};

const ROWS: [Row; 14] = [
    PUBLISHED,
    Row {
        words: &["pub", "nats://h", "a", "hi"],
        gives: &["INFO {}\r\n", "PONG\r\n"],
        status: 9,
        printed: "max payload size exceeded: Payload size limit of 0 exceeded by message size of 2\n",
        took: "",
    },
    RECEIVED,
    Row {
        words: &["sub", "nats://h", "a", "1"],
        gives: &[SMALL, "PONG\r\n"],
        status: 9,
        printed: "link ended\n",
        took: "SUB a 1\r\n",
    },
    Row {
        words: &["pub", "http://a", "x", "y"],
        gives: &[],
        status: 9,
        printed: "failed to parse server or server list: invalid scheme for NATS server URL\n",
        took: "",
    },
    // A PING that came with the handshake's last piece is answered before the publish.
    Row {
        words: &["pub", "h", "a", ""],
        gives: &[SMALL, "PONG\r\nPING\r\nPING\r\n"],
        status: 0,
        printed: "published\n",
        took: "PONG\r\nPONG\r\nPUB a 0\r\n\r\n",
    },
    // A message that came with it is none of the subscription's; later ones are, though they begin there, and
    // PINGs are answered.
    Row {
        words: &["sub", "h", "a", "2"],
        gives: &[
            SMALL,
            "PONG\r\nMSG a 1 1\r\nx\r\nPING\r\nMSG a 1 2\r\n",
            "hi\r\nMSG b 2 1\r\ny\r\nPING\r\n",
            "MSG a 1 r 2\r\nho\r\nMSG a 1 1\r\nz\r\n",
        ],
        status: 0,
        printed: "message a ~ hi ~ ~ 3 ~\nmessage a r ho ~ ~ 4 ~\n",
        took: "PONG\r\nSUB a 1\r\nPONG\r\n",
    },
    // What is no operation ends the link: at once, later, and behind enough messages, where that is no matter.
    Row {
        words: &["pub", "h", "a", "hi"],
        gives: &[SMALL, "PONG\r\nWHAT\r\n"],
        status: 9,
        printed: "link ended\n",
        took: "",
    },
    Row {
        words: &["sub", "h", "a", "2"],
        gives: &[SMALL, "PONG\r\n", "MSG a 1 2\r\nhi\r\nWHAT\r\n"],
        status: 9,
        printed: "link ended\n",
        took: "SUB a 1\r\n",
    },
    Row {
        words: &["sub", "h", "a", "1"],
        gives: &[SMALL, "PONG\r\n", "MSG a 1 2\r\nhi\r\nWHAT\r\n"],
        status: 0,
        printed: "message a ~ hi ~ ~ 3 ~\n",
        took: "SUB a 1\r\n",
    },
    // A refusal is tested before the link's end.
    Row {
        words: &["pub", "h", "a b", "hi"],
        gives: &[SMALL, "PONG\r\nWHAT\r\n"],
        status: 9,
        printed: "invalid subject: invalid subject format\n",
        took: "",
    },
    Row {
        words: &["sub", "h", "a..b", "1"],
        gives: &[SMALL, "PONG\r\nWHAT\r\n"],
        status: 9,
        printed: "invalid subject: invalid subject format\n",
        took: "",
    },
    // Words that are no row.
    Row {
        words: &["sub", "h", "a", "0"],
        gives: &[],
        status: 2,
        printed: "unknown command\n",
        took: "",
    },
    Row {
        words: &["pub", "h", "a"],
        gives: &[],
        status: 2,
        printed: "unknown command\n",
        took: "",
    },
];

// All that a link gives, and how long each read of it is.
fn pieces(alloc: Global, gives: &[&str]) -> Result<(Vec<u8>, Vec<usize>), NoMemory> {
    let mut text = Vec::new(alloc);
    let mut cuts = Vec::new(alloc);
    for piece in gives {
        text.extend_from_slice(piece.as_bytes())?;
        cuts.push(piece.len())?;
    }
    Ok((text, cuts))
}

// A link that gives this text and fails at this read and this write, counted from 1.
fn link_of(alloc: Global, text: Vec<u8>, read: u64, write: u64) -> Result<FakeLink, NoMemory> {
    let bytes = Bytes::from_vec(text)?;
    let reads = vec![in alloc; read]?;
    let writes = vec![in alloc; write]?;
    Ok(FakeLink::failing(alloc, bytes, 65_536, reads, writes)?)
}

// A world with one link that gives these texts, each by a read of its own, and fails at this read and this
// write, counted from 1.
fn in_memory(
    alloc: Global,
    gives: &[&str],
    read: u64,
    write: u64,
) -> Result<MemoryWorld, NoMemory> {
    let (text, cuts) = pieces(alloc, gives)?;
    let link = link_of(alloc, text, read, write)?;
    memory_world(alloc, vec![in alloc; link.with_cuts(cuts)]?)
}

fn words_of(alloc: Global, row: &Row) -> Result<Vec<String>, NoMemory> {
    let mut words = Vec::new(alloc);
    for word in row.words {
        words.push(String::from_str(alloc, word)?)?;
    }
    Ok(words)
}

// The status and what is printed.
fn plays<R: Threads + Wait + Sync>(
    rt: &R,
    alloc: Global,
    row: &Row,
    world: &mut MemoryWorld,
) -> Result<(u8, MemorySink), NoMemory> {
    let words = words_of(alloc, row)?;
    let mut source = MemorySource::new(Vec::new(alloc), 1);
    let mut sink = MemorySink::new(alloc, 65_536);
    let status = replay(rt, alloc, words.as_slice(), &mut source, &mut sink, world);
    Ok((status, sink))
}

// Whether the link took the opening and then that; where none was handed back, it took nothing.
fn took(alloc: Global, world: &MemoryWorld, text: &str) -> Result<bool, NoMemory> {
    let Some(taken) = world.reach.dialer.last_taken() else {
        return Ok(text.is_empty());
    };
    let mut want = Vec::from_slice(alloc, OPENING.as_bytes())?;
    want.extend_from_slice(text.as_bytes())?;
    Ok(taken == want.as_slice())
}

// Whether the row ends and prints as it says in this world.
fn prints<R: Threads + Wait + Sync>(
    rt: &R,
    alloc: Global,
    row: &Row,
    world: &mut MemoryWorld,
) -> Result<bool, NoMemory> {
    let (status, sink) = plays(rt, alloc, row, world)?;
    Ok(status == row.status && sink.bytes() == row.printed.as_bytes())
}

// Whether the row plays as it says in this world.
fn goes<R: Threads + Wait + Sync>(
    rt: &R,
    alloc: Global,
    row: &Row,
    world: &mut MemoryWorld,
) -> Result<bool, NoMemory> {
    Ok(prints(rt, alloc, row, world)? && took(alloc, world, row.took)?)
}

// Whether it does on a link that fails at this read and this write, counted from 1.
fn goes_on<R: Threads + Wait + Sync>(
    rt: &R,
    alloc: Global,
    row: &Row,
    read: u64,
    write: u64,
) -> Result<bool, NoMemory> {
    let mut world = in_memory(alloc, row.gives, read, write)?;
    let gone = goes(rt, alloc, row, &mut world);
    drop(world);
    gone
}

/// Whether each row plays as it says; the words of one that does not are said.
pub fn go<R: Threads + Wait + Sync>(
    rt: &R,
    alloc: Global,
    out: &mut Vec<u8>,
) -> Result<bool, NoMemory> {
    let mut holds = true;
    for row in &ROWS {
        if !goes_on(rt, alloc, row, 0, 0)? {
            holds = false;
            say_words(out, row)?;
        }
    }
    Ok(holds)
}

fn say_words(out: &mut Vec<u8>, row: &Row) -> Result<(), NoMemory> {
    for word in row.words {
        say(out, word)?;
        say(out, " ")?;
    }
    say(out, "\n")
}

/// Whether a link that fails has ended, for one that publishes and one that receives.
pub fn end<R: Threads + Wait + Sync>(rt: &R, alloc: Global) -> Result<bool, NoMemory> {
    let (status, printed) = (9, "link ended\n");
    let not_published = Row {
        status,
        printed,
        took: "",
        ..PUBLISHED
    };
    let not_received = Row {
        status,
        printed,
        ..RECEIVED
    };
    Ok(goes_on(rt, alloc, &not_published, 0, 2)? && goes_on(rt, alloc, &not_received, 3, 0)?)
}

// Whether the row prints as it says, and its link was handed back before it took a byte.
fn writes_nothing<R: Threads + Wait + Sync>(
    rt: &R,
    alloc: Global,
    row: &Row,
) -> Result<bool, NoMemory> {
    let mut world = in_memory(alloc, row.gives, 0, 0)?;
    let is_printed = prints(rt, alloc, row, &mut world);
    let is_untouched = match world.reach.dialer.last_taken() {
        Some(taken) => taken.is_empty(),
        None => false,
    };
    drop(world);
    Ok(is_printed? && is_untouched)
}

/// Whether nothing is written to a server where TLS is wanted, by the scheme of its address or by its INFO.
pub fn refuse_tls<R: Threads + Wait + Sync>(rt: &R, alloc: Global) -> Result<bool, NoMemory> {
    let (status, printed) = (9, "TLS error\n");
    let by_scheme = Row {
        words: &["pub", "tls://h", "a", "hi"],
        status,
        printed,
        took: "",
        ..PUBLISHED
    };
    let by_info = Row {
        gives: &["INFO {\"tls_required\":true}\r\n", "PONG\r\n"],
        status,
        printed,
        took: "",
        ..PUBLISHED
    };
    Ok(writes_nothing(rt, alloc, &by_scheme)? && writes_nothing(rt, alloc, &by_info)?)
}
