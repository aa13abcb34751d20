//! Scripts that are replayed from their bytes, and the statuses that end them: sources and sinks that fail, words
//! that are no command.
ghost use Rattle.std.specs.Prelude.{◌<◌};

use nats_replay::{
    Failing, MemorySink, MemorySource, NoMemory, Reading, Sink, Source, Writing, memory_world,
    replay,
};
use nats_row_words::words::agrees;
use std::alloc::Global;
use std::io;
use std::io::Read;
use std::sync::Wait;
use std::thread::Threads;

/// One link and one subscription, whose one message is taken.
const SCRIPT: &str = "config 2048 65536 check _INBOX MUX1\nup 1048576\nsub FOO.BAR ~\n\
piece MSG%20FOO.BAR%201%2011%0D%0AHello%20World%0D%0A\ntake 1\nwrite 100\n";

const TRANSCRIPT: &str = "link 1 up\nout SUB%20FOO.BAR%201%0D%0A\nleft %\nsub 1\n\
put 3 FOO.BAR ~ Hello%20World ~ ~ 18 ~\ntake 4 message FOO.BAR ~ Hello%20World ~ ~ 18 ~\n\
event 1 connected\ncall 2 numbered 1\n";

fn word(alloc: Global, text: &str) -> Result<Vec<String>, NoMemory> {
    let mut words = Vec::new(alloc);
    words.push(String::from_str(alloc, text)?)?;
    Ok(words)
}

fn source(alloc: Global, text: &str, most: usize) -> Result<MemorySource, NoMemory>
    requires { 0 < most }
{
    let bytes = Vec::from_slice(alloc, text.as_bytes())?;
    Ok(MemorySource::new(bytes, most))
}

/// The status of `replay` in a world without links.
fn plays<R: Threads + Wait + Sync, S: Source, K: Sink>(
    rt: &R,
    alloc: Global,
    words: &[String],
    source: &mut S,
    sink: &mut K,
) -> Result<u8, NoMemory> {
    let mut world = memory_world(alloc, Vec::new(alloc))?;
    Ok(replay(rt, alloc, words, source, sink, &mut world))
}

/// The status that a script ends with, and what it prints.
fn played<R: Threads + Wait + Sync>(
    rt: &R,
    alloc: Global,
    text: &str,
) -> Result<(u8, MemorySink), NoMemory> {
    let words = word(alloc, "run")?;
    let mut source = source(alloc, text, 65_536)?;
    let mut sink = MemorySink::new(alloc, 65_536);
    let status = plays(rt, alloc, words.as_slice(), &mut source, &mut sink)?;
    Ok((status, sink))
}

/// Whether a source that gives so much at a time, and a sink that takes as much, give the transcript.
fn is_printed_by<R: Threads + Wait + Sync>(
    rt: &R,
    alloc: Global,
    most: usize,
) -> Result<bool, NoMemory>
    requires { 0 < most }
{
    let words = word(alloc, "run")?;
    let mut source = source(alloc, SCRIPT, most)?;
    let mut sink = MemorySink::new(alloc, most);
    let status = plays(rt, alloc, words.as_slice(), &mut source, &mut sink)?;
    Ok(status == 0 && sink.bytes() == TRANSCRIPT.as_bytes())
}

/// Whether the plain path prints its transcript. A body that always answers want of memory meets every clause, and
/// fails here.
fn is_plain<R: Threads + Wait + Sync>(rt: &R, alloc: Global) -> Result<bool, NoMemory> {
    let mut holds = true;
    for most in [1, 7, 65_536] {
        holds = is_printed_by(rt, alloc, most)? && holds;
    }
    Ok(holds)
}

/// Turns under the usual settings, the status that they end with, and what is printed.
const PLAYED: [(&str, u8, &str); 17] = [
    ("", 0, ""),
    ("take 1", 6, "turn 1 out of turn\n"),
    ("up 1048576\nup 1048576", 6, "turn 2 out of turn\n"),
    (
        "up 1048576\nsub a ~\npiece a%0D%0A\npiece a",
        6,
        "turn 4 out of turn\n",
    ),
    ("bogus", 5, "script line 2\n"),
    ("hpub a ~ % K v%0D%0Aw", 5, "script line 2\n"),
    (
        "sub FOO.BAR ~\nup 1048576\nwrite 100",
        0,
        "link 1 up\nout SUB%20FOO.BAR%201%0D%0A\nleft %\nsub 1\nevent 2 connected\ncall 1 numbered 1\n",
    ),
    (
        "up 1048576\npiece ONE%0D%0APING%0D%0A",
        0,
        "link 1 fault\nout %\nleft %\nevent 1 connected\nevent 2 disconnected\n",
    ),
    (
        "up 1048576\nsub a ~\nsub b ~\npiece PING%0D%0AMSG%20b%202%202%0D%0Ahi%0D%0A\nwrite 9\ntake 1\ntake 2",
        0,
        "link 1 up\nout SUB%20a%201%0D%0A\nleft SUB%20b%202%0D%0APONG%0D%0A\nsub 1\ntake 6 empty\nsub 2\n\
put 4 b ~ hi ~ ~ 3 ~\ntake 7 message b ~ hi ~ ~ 3 ~\nevent 1 connected\ncall 2 numbered 1\ncall 3 numbered 2\n",
    ),
    (
        "up 1048576\npiece -ERR%20'x'%0D%0AINFO%20{\"ldm\":true}%0D%0A",
        0,
        "link 1 up\nout %\nleft %\nevent 1 connected\nevent 2 server%20error:%20nats:%20x\n\
event 2 lame%20duck%20mode%20detected\n",
    ),
    (
        "up 1048576\nsub a ~\npiece HMSG%20a%201%2023%2025%0D%0ANATS/1.0%20404%20N%0D%0Ak:v%0D%0A%0D%0Ahi%0D%0A",
        0,
        "link 1 up\nout %\nleft SUB%20a%201%0D%0A\nsub 1\nput 3 a ~ hi 404 N 26 1 k v\n\
event 1 connected\ncall 2 numbered 1\n",
    ),
    ("pub a%0D%0APUB%20b%200 ~ %", 0, "call 1 invalid-subject\n"),
    ("sub .a ~", 0, "call 1 invalid-subject\n"),
    ("sub a g%20h", 0, "call 1 invalid-queue-name\n"),
    (
        "up 33\nhpub FOO.BAR INBOX.67 Hello%20World Header X",
        0,
        "link 1 up\nout %\nleft %\nevent 1 connected\ncall 2 max-payload 33 34\n",
    ),
    (
        "open {\"max_payload\":34}\nhpub FOO.BAR INBOX.67 Hello%20World Header X",
        0,
        "link 1 up\nout %\nleft HPUB%20FOO.BAR%20INBOX.67%2023%2034%0D%0ANATS/1.0%0D%0AHeader:%20X%0D%0A%0D%0A\
Hello%20World%0D%0A\nevent 1 connected\ncall 2 accepted\n",
    ),
    (
        "up 1048576\nsub a ~\nunsub 1\nunsub 1\ntake 1",
        0,
        "link 1 up\nout %\nleft SUB%20a%201%0D%0AUNSUB%201%0D%0A\nsub 1\ntake 5 ended\nevent 1 connected\n\
call 2 numbered 1\ncall 3 accepted\ncall 4 accepted\n",
    ),
];

/// The script of these turns under settings.
fn under(alloc: Global, settings: &str, turns: &str) -> Result<String, NoMemory> {
    let mut text = String::from_str(alloc, settings)?;
    text.push_str(turns)?;
    Ok(text)
}

fn ends_so<R: Threads + Wait + Sync>(
    rt: &R,
    alloc: Global,
    out: &mut Vec<u8>,
    text: &str,
    (status, want): (u8, &str),
) -> Result<bool, NoMemory> {
    let (answer, sink) = played(rt, alloc, text)?;
    Ok(agrees(out, text, sink.bytes(), want.as_bytes())? && answer == status)
}

fn are_shown<R: Threads + Wait + Sync>(
    rt: &R,
    alloc: Global,
    out: &mut Vec<u8>,
) -> Result<bool, NoMemory> {
    let mut holds = true;
    for (turns, status, want) in PLAYED {
        let text = under(alloc, "config 2048 65536 check _INBOX MUX1\n", turns)?;
        holds = ends_so(rt, alloc, out, text.as_str(), (status, want))? && holds;
    }
    Ok(holds)
}

/// Scripts under other settings, and what is printed of them.
const SETTINGS: [(&str, u8, &str); 4] = [
    ("", 5, "script line 1\n"),
    (
        "config 0 65536 check _INBOX MUX1\nsub a ~",
        0,
        "call 1 full\n",
    ),
    (
        "config 1 1 skip _INBOX MUX1\npub a%0D%0APUB%20b%200 ~ %",
        0,
        "call 1 accepted\n",
    ),
    (
        "config 2048 1 check _INBOX MUX1\nup 1048576\nsub a ~\n\
piece MSG%20a%201%201%0D%0A1%0D%0AMSG%20a%201%201%0D%0A2%0D%0AMSG%20a%201%201%0D%0A3%0D%0A\n\
take 1\npiece MSG%20a%201%201%0D%0A4%0D%0A",
        0,
        "link 1 up\nout %\nleft SUB%20a%201%0D%0A\nsub 1\nput 3 a ~ 1 ~ ~ 2 ~\nput 5 a ~ 4 ~ ~ 2 ~\n\
drop 3 a ~ 2 ~ ~ 2 ~\ndrop 3 a ~ 3 ~ ~ 2 ~\ntake 4 message a ~ 1 ~ ~ 2 ~\nevent 1 connected\n\
event 3 slow%20consumers%20for%20subscription%201\nevent 3 slow%20consumers%20for%20subscription%201\n\
call 2 numbered 1\n",
    ),
];

fn are_kept_to<R: Threads + Wait + Sync>(
    rt: &R,
    alloc: Global,
    out: &mut Vec<u8>,
) -> Result<bool, NoMemory> {
    let mut holds = true;
    for (text, status, want) in SETTINGS {
        holds = ends_so(rt, alloc, out, text, (status, want))? && holds;
    }
    Ok(holds)
}

/// Whether scripts print what their turns show, under the usual settings and under others.
pub fn are_printed<R: Threads + Wait + Sync>(
    rt: &R,
    alloc: Global,
    out: &mut Vec<u8>,
) -> Result<bool, NoMemory> {
    Ok(is_plain(rt, alloc)? && are_shown(rt, alloc, out)? && are_kept_to(rt, alloc, out)?)
}

/// A script of publishes of this many bytes each, with lines between and after them.
fn publishes(
    alloc: Global,
    first: &str,
    size: usize,
    between: &[&str],
) -> Result<Vec<u8>, NoMemory> {
    let mut text = Vec::from_slice(alloc, first.as_bytes())?;
    for lines in between {
        text.extend_from_slice(b"pub a ~ ".as_slice())?;
        let length = text.len().saturating_add(size);
        text.resize(length, b'x')?;
        text.extend_from_slice(lines.as_bytes())?;
    }
    Ok(text)
}

/// The status that a script of its own bytes ends with, and what it prints.
fn played_bytes<R: Threads + Wait + Sync>(
    rt: &R,
    alloc: Global,
    text: Vec<u8>,
) -> Result<(u8, MemorySink), NoMemory> {
    let words = word(alloc, "run")?;
    let mut source = MemorySource::new(text, 65_536);
    let mut sink = MemorySink::new(alloc, 65_536);
    let status = plays(rt, alloc, words.as_slice(), &mut source, &mut sink)?;
    Ok((status, sink))
}

/// Whether a script of its own bytes ends with 0 and prints a text that begins and ends so.
fn prints_between<R: Threads + Wait + Sync>(
    rt: &R,
    alloc: Global,
    text: Vec<u8>,
    first: &[u8],
    last: &[u8],
) -> Result<bool, NoMemory> {
    let (status, sink) = played_bytes(rt, alloc, text)?;
    Ok(status == 0 && sink.bytes().starts_with(first) && sink.bytes().ends_with(last))
}

/// Whether a script of its own bytes ends with 0 and prints just a first text, so many `x` and a last text.
fn prints_filled<R: Threads + Wait + Sync>(
    rt: &R,
    alloc: Global,
    text: Vec<u8>,
    first: &str,
    size: usize,
    last: &str,
) -> Result<bool, NoMemory> {
    let mut want = Vec::from_slice(alloc, first.as_bytes())?;
    let length = want.len().saturating_add(size);
    want.resize(length, b'x')?;
    want.extend_from_slice(last.as_bytes())?;
    let (status, sink) = played_bytes(rt, alloc, text)?;
    Ok(status == 0 && sink.bytes() == want.as_slice())
}

/// Whether a call waits while the link is full: 3 bytes are taken, and 65,546 are left.
fn is_full<R: Threads + Wait + Sync>(rt: &R, alloc: Global) -> Result<bool, NoMemory> {
    let first = "config 1 65536 check _INBOX MUX1\nup 1048576\n";
    let text = publishes(alloc, first, 65_522, &["\npub a ~ y\npub a ~ z\nwrite 3\n"])?;
    prints_filled(
        rt,
        alloc,
        text,
        "link 1 up\nout PUB\nleft %20a%2065522%0D%0A",
        65_522,
        "%0D%0APUB%20a%201%0D%0Ay%0D%0A\nevent 1 connected\n\
call 2 accepted\ncall 3 accepted\ncall 4 full\n",
    )
}

/// Whether a subscription that is let go while calls wait is gone, though the call is refused.
fn is_gone_all_the_same<R: Threads + Wait + Sync>(rt: &R, alloc: Global) -> Result<bool, NoMemory> {
    let first = "config 1 65536 check _INBOX MUX1\nsub a ~\nup 1048576\n";
    let text = publishes(alloc, first, 65_535, &["\npub a ~ y\ndrop 1\n"])?;
    let is_refused = prints_filled(
        rt,
        alloc,
        text,
        "link 1 up\nout %\nleft SUB%20a%201%0D%0APUB%20a%2065535%0D%0A",
        65_535,
        "%0D%0A\nsub 1\nevent 2 connected\n\
call 1 numbered 1\ncall 3 accepted\ncall 4 accepted\ncall 5 full\n",
    )?;
    let text = publishes(alloc, first, 65_535, &["\npub a ~ y\ndrop 1\ntake 1\n"])?;
    let (status, sink) = played_bytes(rt, alloc, text)?;
    Ok(is_refused && status == 6 && sink.bytes() == b"turn 6 out of turn\n".as_slice())
}

/// Whether calls wait while the link is full, and go on whenever fewer bytes wait than the limit.
pub fn wait_for_room<R: Threads + Wait + Sync>(rt: &R, alloc: Global) -> Result<bool, NoMemory> {
    let first = "config 2048 65536 check _INBOX MUX1\nup 1048576\n";
    let between = [
        "\n",
        "\n",
        "\nwrite 20000\nwrite 100000\n",
        "\n",
        "\nwrite 1\nwrite 80000\n",
    ];
    let text = publishes(alloc, first, 40_000, between.as_slice())?;
    let goes_on = prints_between(
        rt,
        alloc,
        text,
        b"link 1 up\nout PUB%20a%2040000%0D%0Axxx",
        b"\nevent 1 connected\ncall 2 accepted\ncall 3 accepted\ncall 4 accepted\ncall 7 accepted\ncall 8 accepted\n",
    )?;
    Ok(goes_on && is_full(rt, alloc)? && is_gone_all_the_same(rt, alloc)?)
}

/// Whether a sink that fails leaves a first part.
fn leaves_a_part<R: Threads + Wait + Sync>(rt: &R, alloc: Global) -> Result<bool, NoMemory> {
    let words = word(alloc, "run")?;
    let mut source = source(alloc, SCRIPT, 65_536)?;
    let kept = MemorySink::new(alloc, 10);
    let mut sink = Failing::new(kept, [2].to_vec(alloc)?);
    let status = plays(rt, alloc, words.as_slice(), &mut source, &mut sink)?;
    Ok(status == 4 && sink.inner().bytes() == b"link 1 up\n".as_slice())
}

/// Whether a read that fails in mid-stream prints nothing, where a source gives so much at a time.
fn prints_nothing<R: Threads + Wait + Sync>(
    rt: &R,
    alloc: Global,
    most: usize,
) -> Result<bool, NoMemory>
    requires { 0 < most }
{
    let words = word(alloc, "run")?;
    let held = source(alloc, SCRIPT, most)?;
    let mut source = Failing::new(held, [2].to_vec(alloc)?);
    let mut sink = MemorySink::new(alloc, 65_536);
    let status = plays(rt, alloc, words.as_slice(), &mut source, &mut sink)?;
    Ok(status == 3 && sink.bytes().is_empty())
}

/// The status that a script of so many bytes ends with, none of which is a line.
fn status_at<R: Threads + Wait + Sync>(rt: &R, alloc: Global, length: u64) -> Result<u8, NoMemory> {
    let words = word(alloc, "run")?;
    let mut source = Reading::new(io::repeat(b'a').take(length));
    let mut sink = MemorySink::new(alloc, 65_536);
    plays(rt, alloc, words.as_slice(), &mut source, &mut sink)
}

/// Whether sources and sinks that fail, and a script that is too long, end with their statuses.
pub fn end_in_time<R: Threads + Wait + Sync>(rt: &R, alloc: Global) -> Result<bool, NoMemory> {
    Ok(
        leaves_a_part(rt, alloc)?
            && prints_nothing(rt, alloc, 10)?
            && prints_nothing(rt, alloc, 65_536)?
            && status_at(rt, alloc, 16_777_216)? == 5
            && status_at(rt, alloc, 16_777_217)? == 8,
    )
}

/// Whether a list made by a rule is summed up.
fn is_summed_up<R: Threads + Wait + Sync>(rt: &R, alloc: Global) -> Result<bool, NoMemory> {
    let mut words = word(alloc, "bulk")?;
    words.push(String::from_str(alloc, "8")?)?;
    let mut none = source(alloc, "", 1)?;
    let mut sink = MemorySink::new(alloc, 65_536);
    let status = plays(rt, alloc, words.as_slice(), &mut none, &mut sink)?;
    let lines = "turns 11\ncalls 4\nputs 2\ntakes 2\ndrops 0\nsettled 1\nout 45\nleft 0\n";
    Ok(status == 0 && sink.bytes() == lines.as_bytes())
}

fn is_unknown<R: Threads + Wait + Sync>(
    rt: &R,
    alloc: Global,
    text: &str,
) -> Result<bool, NoMemory> {
    let words = word(alloc, text)?;
    let mut source = source(alloc, SCRIPT, 65_536)?;
    let mut sink = MemorySink::new(alloc, 65_536);
    let status = plays(rt, alloc, words.as_slice(), &mut source, &mut sink)?;
    Ok(status == 2 && sink.bytes() == b"unknown command\n".as_slice())
}

/// The status of no words, printed into a list.
fn status_of_none<R: Threads + Wait + Sync>(rt: &R, alloc: Global) -> Result<u8, NoMemory> {
    let mut none = source(alloc, SCRIPT, 65_536)?;
    let mut sink = Writing::new(Vec::new(alloc));
    plays(rt, alloc, &[], &mut none, &mut sink)
}

/// Whether a list made by a rule is summed up, and other words are called unknown.
pub fn are_known<R: Threads + Wait + Sync>(rt: &R, alloc: Global) -> Result<bool, NoMemory> {
    let mut holds = is_summed_up(rt, alloc)? && status_of_none(rt, alloc)? == 2;
    for text in ["walk", "", "Run", "run "] {
        holds = is_unknown(rt, alloc, text)? && holds;
    }
    Ok(holds)
}
