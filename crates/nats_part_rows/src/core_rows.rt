//! A core that is driven step by step, as scripts say.

use nats_core::{
    Bytes, Call, CallReply, Config, Core, Entry, Event, LinkRead, LinkWrite, NoMemory, ReadOnce,
    ServerInfo, StepError, StepReply, Turn, WriteOnce, usual_server,
};
use nats_outside::{Dialer, FakeDialer, FakeLink, FakeRead, FakeWrite};
use nats_row_words::words::{say, say_event, say_number, say_reply, say_take};
use nats_script::{Script, read_script};
use std::alloc::Global;
use std::net::{IpAddr, Ipv4Addr, SocketAddr};

// A link that is never up in these rows.
const OTHER_LINK: u64 = 9;

fn say_answer(out: &mut Vec<u8>, reply: &StepReply) -> Result<(), NoMemory> {
    match reply {
        StepReply::Done => say(out, "done"),
        StepReply::Call(reply) => say_reply(out, reply),
        StepReply::Take(reply) => say_take(out, reply),
    }
}

fn say_refusal(out: &mut Vec<u8>, error: StepError) -> Result<(), NoMemory> {
    match error {
        StepError::OutOfTurn => say(out, "out of turn"),
        StepError::LinkGone { current } => say_number(out, "gone", current),
        StepError::NoMemory => Err(NoMemory),
    }
}

fn say_outcome(out: &mut Vec<u8>, answer: &Result<StepReply, StepError>) -> Result<(), NoMemory> {
    match answer {
        Ok(reply) => say_answer(out, reply),
        Err(error) => say_refusal(out, *error),
    }
}

fn say_step(out: &mut Vec<u8>, answer: &Result<StepReply, StepError>) -> Result<(), NoMemory> {
    say_outcome(out, answer)?;
    say(out, "\n")
}

// A turn is played on link 1 where that is up.
fn played(alloc: Global, core: &mut Core, turn: Turn) -> Result<StepReply, StepError> {
    if core.handler().is_up() {
        core.step_on(alloc, 1, turn)
    } else {
        core.step(alloc, turn)
    }
}

fn step(alloc: Global, core: &mut Core, out: &mut Vec<u8>, turn: Turn) -> Result<(), NoMemory> {
    let answer = played(alloc, core, turn);
    let said = say_step(out, &answer);
    drop(answer);
    said
}

fn step_copy(
    alloc: Global,
    core: &mut Core,
    out: &mut Vec<u8>,
    turn: &Turn,
) -> Result<(), NoMemory> {
    let turn = turn.copy(alloc)?;
    step(alloc, core, out, turn)
}

fn step_elsewhere(alloc: Global, core: &mut Core, out: &mut Vec<u8>) -> Result<(), NoMemory> {
    let answer = core.step_on(alloc, OTHER_LINK, Turn::Tick);
    let said = say_step(out, &answer);
    drop(answer);
    said
}

fn say_submitted(out: &mut Vec<u8>, answer: &Result<CallReply, Call>) -> Result<(), NoMemory> {
    match answer {
        Ok(reply) => say_reply(out, reply)?,
        Err(_) => return Err(NoMemory),
    }
    say(out, "\n")
}

fn submit(alloc: Global, core: &mut Core, out: &mut Vec<u8>) -> Result<(), NoMemory> {
    let answer = core.submit(alloc, Call::Flush);
    let said = say_submitted(out, &answer);
    drop(answer);
    said
}

fn say_entry(out: &mut Vec<u8>, entry: &Entry) -> Result<(), NoMemory> {
    say(out, " ")?;
    say_answer(out, &entry.reply)
}

fn say_journal(out: &mut Vec<u8>, entries: &[Entry]) -> Result<(), NoMemory> {
    say(out, "journal")?;
    for entry in entries {
        say_entry(out, entry)?;
    }
    Ok(())
}

fn say_next(alloc: Global, out: &mut Vec<u8>, event: &Option<Event>) -> Result<(), NoMemory> {
    match event {
        Some(event) => say_event(alloc, out, event),
        None => say(out, " no event"),
    }
}

fn hand_out(alloc: Global, core: &mut Core, out: &mut Vec<u8>) -> Result<(), NoMemory> {
    let event = core.next_event();
    let said = say_next(alloc, out, &event);
    drop(event);
    said
}

fn say_settled(out: &mut Vec<u8>, reply: &Option<CallReply>) -> Result<(), NoMemory> {
    match reply {
        Some(reply) => say_reply(out, reply),
        None => say(out, " unsettled"),
    }
}

fn say_ticket(core: &mut Core, out: &mut Vec<u8>) -> Result<(), NoMemory> {
    let reply = core.reply_of(1);
    let said = say_settled(out, &reply);
    drop(reply);
    said
}

fn drive(
    alloc: Global,
    core: &mut Core,
    out: &mut Vec<u8>,
    turns: &[Turn],
) -> Result<(), NoMemory> {
    for turn in turns {
        step_copy(alloc, core, out, turn)?;
    }
    step_elsewhere(alloc, core, out)?;
    submit(alloc, core, out)?;
    core.catch_up(alloc)?;
    say_journal(out, core.journal())?;
    hand_out(alloc, core, out)?;
    say_ticket(core, out)
}

fn new_core(alloc: Global, config: &Config, is_kept: bool) -> Result<Core, NoMemory> {
    Core::new(alloc, config.copy(alloc)?, is_kept)
}

fn drive_new(
    alloc: Global,
    out: &mut Vec<u8>,
    config: &Config,
    turns: &[Turn],
    is_kept: bool,
) -> Result<(), NoMemory> {
    let mut core = new_core(alloc, config, is_kept)?;
    let driven = drive(alloc, &mut core, out, turns);
    drop(core);
    driven
}

fn drive_script(
    alloc: Global,
    out: &mut Vec<u8>,
    script: &Script,
    is_kept: bool,
) -> Result<(), NoMemory> {
    match script {
        Script::Good { config, turns } => {
            drive_new(alloc, out, config, turns.as_slice(), is_kept)
        }
        Script::Bad(line) => say_number(out, "line", *line),
    }
}

fn steps_of(alloc: Global, script: &str, is_kept: bool) -> Result<Vec<u8>, NoMemory> {
    let script = read_script(alloc, script.as_bytes())?;
    let mut out = Vec::new(alloc);
    let driven = drive_script(alloc, &mut out, &script, is_kept);
    drop(script);
    driven?;
    Ok(out)
}

const SCRIPT: &str = "config 2048 65536 check _INBOX MUX1
up 1048576
sub a ~
piece MSG%20a%201%202%0D%0Ahi%0D%0A
take 1
take 9
";

const STEPS: &str = "done\nnumbered 1\ndone\nmessage hi\nout of turn\ngone 1\nnumbered 1\n";

const KEPT: &str = "journal done numbered 1 done message hi numbered 1 (connected) unsettled";

/// Whether each turn is noted with its reply, and played so without a journal.
pub fn are_noted(alloc: Global) -> Result<bool, NoMemory> {
    let kept = steps_of(alloc, SCRIPT, true)?;
    let want = format!(in alloc; "{STEPS}{KEPT}")?;
    let bare = steps_of(alloc, SCRIPT, false)?;
    Ok(kept.as_slice() == want.as_bytes() && bare.as_slice().starts_with(STEPS.as_bytes()))
}

// ---- a link that is lent

fn bring_up(alloc: Global, core: &mut Core) -> Result<(), NoMemory> {
    let mut out = Vec::new(alloc);
    let up = Turn::Up(usual_server(alloc));
    step(alloc, core, &mut out, up)
}

// The halves of a link in memory that gives this text and takes 4 bytes at a write.
fn halves(alloc: Global, text: &str) -> Result<(FakeRead, FakeWrite), NoMemory> {
    let bytes = Bytes::copy_from_slice(alloc, text.as_bytes())?;
    let link = FakeLink::new(alloc, bytes, 4)?;
    let links = vec![in alloc; link]?;
    let home = SocketAddr::new(IpAddr::V4(Ipv4Addr::LOCALHOST), 4222);
    let mut dialer = FakeDialer::told(alloc, links);
    let halves = dialer.dial(&home, 5_000);
    drop(dialer);
    halves.map_err(|_| NoMemory)
}

fn reads<L: LinkRead>(core: &mut Core, alloc: Global, link: &mut L) -> Option<ReadOnce> {
    let mut buf = [0u8; 16];
    if !core.handler().is_up() || core.is_behind() {
        return None;
    }
    core.read_link(alloc, link, &mut buf).ok()
}

fn writes<L: LinkWrite>(core: &mut Core, alloc: Global, link: &mut L) -> Option<WriteOnce> {
    if !core.handler().is_up() || core.is_behind() {
        return None;
    }
    core.write_link(alloc, link).ok()
}

fn answers_a_ping(
    alloc: Global,
    core: &mut Core,
    read: &mut FakeRead,
    write: &mut FakeWrite,
) -> Result<bool, NoMemory> {
    Ok(
        writes(core, alloc, write) == Some(WriteOnce::Idle)
            && reads(core, alloc, read) == Some(ReadOnce::Played(4))
            && reads(core, alloc, read) == Some(ReadOnce::Played(4))
            && writes(core, alloc, write) == Some(WriteOnce::Wrote(4))
            && core.pending_pieces(alloc)?.len() == 1
            && writes(core, alloc, write) == Some(WriteOnce::Wrote(2)),
    )
}

/// What news came: a link's INFO with its number, or want of memory.
type News = Result<Option<(u64, ServerInfo)>, NoMemory>;

fn number_of(news: &News) -> Result<Option<u64>, NoMemory> {
    match news {
        Ok(Some((number, _))) => Ok(Some(*number)),
        Ok(None) => Ok(None),
        Err(NoMemory) => Err(NoMemory),
    }
}

/// The number of the INFO that came after so many, where one did.
fn news_after(alloc: Global, core: &Core, seen: u64) -> Result<Option<u64>, NoMemory> {
    let news = core.news(alloc, seen);
    let number = number_of(&news);
    drop(news);
    number
}

fn tells_of_an_info(alloc: Global, core: &mut Core, read: &mut FakeRead) -> Result<bool, NoMemory> {
    let before = news_after(alloc, core, 0)?;
    let is_read = reads(core, alloc, read) == Some(ReadOnce::Played(4))
        && reads(core, alloc, read) == Some(ReadOnce::Played(3));
    let behind = news_after(alloc, core, 0)?;
    let last = news_after(alloc, core, 1)?;
    Ok(is_read && (before, behind, last) == (None, Some(1), None))
}

fn is_lost(alloc: Global, core: &mut Core, read: &mut FakeRead) -> bool {
    reads(core, alloc, read) == Some(ReadOnce::Lost)
        && !core.handler().is_up()
        && core.journal().len() == 8
}

fn answers_and_loses(
    alloc: Global,
    core: &mut Core,
    read: &mut FakeRead,
    write: &mut FakeWrite,
) -> Result<bool, NoMemory> {
    let answers = answers_a_ping(alloc, core, read, write)? && tells_of_an_info(alloc, core, read)?;
    Ok(answers && write.taken() == b"PONG\r\n".as_slice() && is_lost(alloc, core, read))
}

fn lends_a_link(alloc: Global, core: &mut Core) -> Result<bool, NoMemory> {
    bring_up(alloc, core)?;
    let (mut read, mut write) = halves(alloc, "PING\r\nINFO {}\r\n")?;
    answers_and_loses(alloc, core, &mut read, &mut write)
}

/// Whether a link that is lent is read and written.
pub fn is_lent(alloc: Global) -> Result<bool, NoMemory> {
    let mut core = Core::new(alloc, Config::new(alloc)?, true)?;
    let is_lent = lends_a_link(alloc, &mut core);
    drop(core);
    is_lent
}
