//! Measures the session: a mixed list of turns is made in memory and played, and as many subscriptions are made and
//! dropped again, one after another. `count N` prints what N turns showed and what N subscriptions left, `time N`
//! how long they took. `links N` carries N subscriptions over N links and prints how long that took; `count N` does
//! so with 20 at most. `flushes N` has N flushes wait behind one command and prints how long it took to settle and
//! to hand out all; `requests N` makes N requests, a thousand of which wait at a time, and prints how long it took
//! to answer all; `count N` does both too. `decode MIX N`, `encode MIX N` and `publish MIX N` measure the wire
//! alone over N operations of a mix, `small`, `large`, `hmsg` or `mixed`; `count N` prints what each of these comes
//! to, too. `core N` has a core read, put and take N messages of 16 bytes, 64 of which come at a time, and prints how
//! long that took; `count N` prints how many it took, and how many bytes their payloads have.
#![tactic(auto)]

mod carry;
mod churn;
mod counts;
mod flushes;
mod mix;
mod report;
mod requests;
mod streams;
mod through;
mod wire;

use crate::carry::{Carried, carry};
use crate::churn::{Left, churn};
use crate::counts::{Counts, counts_of};
use crate::flushes::{Flushed, flush};
use crate::mix::mixed_turns;
use crate::report::{Counted, Report, Times};
use crate::requests::{Asked, request};
use crate::streams::{MIXES, Mix};
use crate::through::{Taken, through};
use crate::wire::{Outcome, WORKS, Work, come_to, measure_wire};
use anyhow::{Result, anyhow};
use nats_session::{Config, NoMemory, RunError, Subject, Token, Transcript, run};
use std::alloc::Global;
use std::env;
use std::process::ExitCode;
use std::rt::{Clock, Env};
use std::time::{Duration, Instant};

/// The most turns of a list, and the most subscriptions.
const TURN_LIMIT: usize = 10_000_000;

/// The most subscriptions that `count` carries over links.
const CARRIED: usize = 20;

/// Nothing was measured.
const FAILED: u8 = 1;
/// The words are no command.
const UNKNOWN: u8 = 2;

/// What to print of a number of turns and of as many subscriptions.
#[derive(Clone, Copy)]
enum Command {
    /// What they showed and left.
    Count(usize),
    /// How long they took.
    Time(usize),
    /// How long it took to carry so many over as many links.
    Links(usize),
    /// How long it took to settle so many flushes.
    Flushes(usize),
    /// How long it took to answer so many requests.
    Requests(usize),
    /// How long it took to take so many messages through a core.
    Core(usize),
    /// How long it took to decode or encode so many operations of a mix.
    Code(Work, Mix, usize),
}

fn count_of(word: &str) -> Option<usize> {
    let number = word.parse::<usize>().ok()?;
    (number <= TURN_LIMIT).then_some(number)
}

fn work_named(word: &str) -> Option<Work> {
    WORKS.into_iter().find(|work| work.name() == word)
}

fn coding_of(word: &str, mix: &str, number: &str) -> Option<Command> {
    let work = work_named(word)?;
    let mix = Mix::named(mix)?;
    let count = count_of(number)?;
    Some(Command::Code(work, mix, count))
}

fn command_of(words: &[String]) -> Option<Command> {
    match words {
        [word, number] => playing_of(word.as_str(), number.as_str()),
        [word, mix, number] => coding_of(word.as_str(), mix.as_str(), number.as_str()),
        _ => None,
    }
}

fn playing_of(word: &str, number: &str) -> Option<Command> {
    let count = count_of(number)?;
    match word {
        "count" => Some(Command::Count(count)),
        "time" => Some(Command::Time(count)),
        "links" => Some(Command::Links(count)),
        "flushes" => Some(Command::Flushes(count)),
        "requests" => Some(Command::Requests(count)),
        "core" => Some(Command::Core(count)),
        _ => None,
    }
}

fn mux_id() -> Token {
    match Token::new("MUX1") {
        Some(id) => id,
        None => unreachable!(),
    }
}

fn settings(alloc: Global) -> Result<Config, NoMemory> {
    Ok(Config {
        client_capacity: 2048,
        subscription_capacity: 65_536,
        skip_subject_validation: false,
        inbox_prefix: Subject::from_text(alloc, "_INBOX")?,
        mux_id: mux_id(),
    })
}

/// What the transcript of `count` turns counts, or why there is none.
fn counted_of(count: usize, played: &Result<Transcript, RunError>) -> Result<Counts> {
    match played {
        Ok(transcript) => Ok(counts_of(count, transcript)),
        Err(refusal) => Err(anyhow!("{refusal:?}")),
    }
}

/// Plays a list of `count` turns: what they showed, and how long they took.
fn play<R: Clock + AllocGlobal>(rt: &R, count: usize) -> Result<(Counts, Duration)> {
    let turns = mixed_turns(rt.alloc(), count)?;
    let start = Instant::now(rt)?;
    let config = settings(rt.alloc())?;
    let played = run(rt.alloc(), config, turns.as_slice());
    let elapsed = start.elapsed(rt);
    let counts = counted_of(count, &played);
    drop(played);
    Ok((counts?, elapsed?))
}

/// Makes and drops `count` subscriptions: what they left, and how long it took.
fn play_churn<R: Clock + AllocGlobal>(rt: &R, count: usize) -> Result<(Left, Duration)> {
    let start = Instant::now(rt)?;
    let left = churn(rt.alloc(), settings(rt.alloc())?, count)?;
    Ok((left, start.elapsed(rt)?))
}

/// Carries `count` subscriptions over as many links: what they came to, and how long it took.
fn play_links<R: Clock + AllocGlobal>(rt: &R, count: usize) -> Result<(Carried, Duration)> {
    let start = Instant::now(rt)?;
    let carried = carry(rt.alloc(), settings(rt.alloc())?, count)?;
    Ok((carried, start.elapsed(rt)?))
}

/// Settles `count` flushes: what they came to, and how long it took.
fn play_flushes<R: Clock + AllocGlobal>(rt: &R, count: usize) -> Result<(Flushed, Duration)> {
    let start = Instant::now(rt)?;
    let flushed = flush(rt.alloc(), settings(rt.alloc())?, count)?;
    Ok((flushed, start.elapsed(rt)?))
}

/// Answers `count` requests: what they came to, and how long it took.
fn play_requests<R: Clock + AllocGlobal>(rt: &R, count: usize) -> Result<(Asked, Duration)> {
    let start = Instant::now(rt)?;
    let asked = request(rt.alloc(), settings(rt.alloc())?, count)?;
    Ok((asked, start.elapsed(rt)?))
}

/// Takes `count` messages through a core: what they came to, and how long it took.
fn play_through<R: Clock + AllocGlobal>(rt: &R, count: usize) -> Result<(Taken, Duration)> {
    let start = Instant::now(rt)?;
    let taken = through(rt.alloc(), count)?;
    Ok((taken, start.elapsed(rt)?))
}

/// What `count` operations of the wire come to, of each kind and mix.
fn coded(alloc: Global, count: usize) -> Result<Vec<Outcome>> {
    let mut outcomes = Vec::new(alloc);
    for work in WORKS {
        for mix in MIXES {
            outcomes.push(come_to(alloc, work, mix, count)?)?;
        }
    }
    Ok(outcomes)
}

fn counted<R: Clock + AllocGlobal>(rt: &R, count: usize) -> Result<Report> {
    let (counts, _) = play(rt, count)?;
    let (left, _) = play_churn(rt, count)?;
    let (carried, _) = play_links(rt, count.min(CARRIED))?;
    let (flushed, _) = play_flushes(rt, count)?;
    let (asked, _) = play_requests(rt, count)?;
    let (taken, _) = play_through(rt, count)?;
    let outcomes = coded(rt.alloc(), count)?;
    Ok(Report::Counted(Counted {
        counts,
        left,
        carried,
        flushed,
        asked,
        outcomes,
        taken,
    }))
}

fn linked<R: Clock + AllocGlobal>(rt: &R, count: usize) -> Result<Report> {
    let (carried, elapsed) = play_links(rt, count)?;
    Ok(Report::Linked(carried, elapsed))
}

fn settled<R: Clock + AllocGlobal>(rt: &R, count: usize) -> Result<Report> {
    let (flushed, elapsed) = play_flushes(rt, count)?;
    Ok(Report::Flushed(flushed, elapsed))
}

fn answered<R: Clock + AllocGlobal>(rt: &R, count: usize) -> Result<Report> {
    let (asked, elapsed) = play_requests(rt, count)?;
    Ok(Report::Asked(asked, elapsed))
}

fn taken<R: Clock + AllocGlobal>(rt: &R, count: usize) -> Result<Report> {
    let (taken, elapsed) = play_through(rt, count)?;
    Ok(Report::Taken(taken, elapsed))
}

fn timed<R: Clock + AllocGlobal>(rt: &R, count: usize) -> Result<Report> {
    let (_, played) = play(rt, count)?;
    let (_, dropped) = play_churn(rt, count)?;
    let (_, dropped_twice) = play_churn(rt, count.saturating_mul(2))?;
    Ok(Report::Timed(Times {
        count,
        played,
        dropped,
        dropped_twice,
    }))
}

/// The words of the command line, without the program's name.
fn words<R: Env + AllocGlobal>(rt: &R) -> Result<Vec<String>> {
    let words = env::args(rt)?.skip(1).collect(rt.alloc())?;
    Ok(words)
}

fn asked<R: Env + AllocGlobal>(rt: &R) -> Result<Option<Command>> {
    let words = words(rt)?;
    Ok(command_of(words.as_slice()))
}

fn measured<R: Clock + AllocGlobal>(rt: &R, work: Work, mix: Mix, count: usize) -> Result<Report> {
    Ok(Report::Measured(measure_wire(rt, work, mix, count)?))
}

/// What a command finds.
fn found<R: Clock + AllocGlobal>(rt: &R, command: Command) -> Result<Report> {
    match command {
        Command::Count(count) => counted(rt, count),
        Command::Time(count) => timed(rt, count),
        Command::Links(count) => linked(rt, count),
        Command::Flushes(count) => settled(rt, count),
        Command::Requests(count) => answered(rt, count),
        Command::Core(count) => taken(rt, count),
        Command::Code(work, mix, count) => measured(rt, work, mix, count),
    }
}

/// What the words of the command line ask for; `None` where they are no command.
fn measure<R: Clock + Env + AllocGlobal>(rt: &R) -> Result<Option<Report>> {
    match asked(rt)? {
        Some(command) => Ok(Some(found(rt, command)?)),
        None => Ok(None),
    }
}

fn print<R: Print>(rt: &R, report: &Report) -> u8 {
    match print!(rt; "{report}") {
        Ok(()) => 0,
        Err(_) => FAILED,
    }
}

fn main(rt: HostRuntime) -> ExitCode {
    let status = match measure(&rt) {
        Ok(Some(report)) => print(&rt, &report),
        Ok(None) => {
            let _ = eprintln!(rt;
                "usage: nats_bench count|time|links|flushes|requests|core N, or decode|encode|publish MIX N; \
                 N is at most {TURN_LIMIT}, MIX small, large, hmsg or mixed"
            );
            UNKNOWN
        }
        Err(failure) => {
            let _ = eprintln!(rt; "{failure:?}");
            FAILED
        }
    };
    ExitCode::from(status)
}
