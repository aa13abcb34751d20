//! Measures seats. `time N K` opens a session, lets N workers publish K times each at once, each with a seat of its
//! own, closes the session and prints how many milliseconds that took, with the journal's entries; `count N K` prints
//! the entries alone.
#![tactic(auto)]

ghost use Rattle.std.specs.Prelude.{◌≤◌, IfSome};

use anyhow::Result;
use nats_core::Config;
use nats_seat_workers::publish_by_seats;
use std::env;
use std::process::ExitCode;
use std::rt::{Clock, Env};
use std::sync::Wait;
use std::thread::Threads;
use std::time::{Duration, Instant};

/// The most workers.
const MOST_WORKERS: u64 = 64;

/// The most publishes of each.
const MOST_PUBLISHES: u64 = 1_000_000;

/// Nothing was measured.
const FAILED: u8 = 1;
/// The words are no command.
const UNKNOWN: u8 = 2;

/// What to print.
#[derive(Clone, Copy)]
enum Shown {
    /// How many entries the journal has.
    Count,
    /// How long it took, too.
    Time,
}

/// What the words of the command line ask for.
#[derive(Clone, Copy)]
struct Asked {
    shown: Shown,
    workers: u64,
    count: u64,
}

fn shown_of(word: &str) -> Option<Shown> {
    match word {
        "count" => Some(Shown::Count),
        "time" => Some(Shown::Time),
        _ => None,
    }
}

fn number_up_to(most: u64, word: &str) -> Option<u64>
    ensures { IfSome result (λ n. n ≤ most) }
{
    let number = word.parse::<u64>().ok()?;
    (number <= most).then_some(number)
}

fn asked_of(words: &[String]) -> Option<Asked>
    ensures { IfSome result (λ a. (a.workers ≤ 64) × (a.count ≤ 1000000)) }
{
    match words {
        [word, workers, count] => {
            let shown = shown_of(word.as_str())?;
            let workers = number_up_to(MOST_WORKERS, workers.as_str())?;
            let count = number_up_to(MOST_PUBLISHES, count.as_str())?;
            Some(Asked {
                shown,
                workers,
                count,
            })
        }
        _ => None,
    }
}

/// Lets the workers publish: how many entries the journal has, and how long all took.
fn publish<R: Threads + Wait + Sync + Clock + AllocGlobal>(
    rt: &R,
    workers: u64,
    count: u64,
) -> Result<(usize, Duration)>
    requires { (workers ≤ 64) × (count ≤ 1000000) }
{
    let alloc = rt.alloc();
    let mut config = Config::new(alloc)?;
    config.client_capacity = workers * count;
    let start = Instant::now(rt)?;
    let journal = publish_by_seats(rt, alloc, config, workers, count)?;
    Ok((journal.len(), start.elapsed(rt)?))
}

fn print<R: Print>(rt: &R, shown: Shown, entries: usize, elapsed: Duration) -> Result<()> {
    match shown {
        Shown::Count => println!(rt; "{entries} entries")?,
        Shown::Time => println!(rt; "{entries} entries in {} ms", elapsed.as_millis())?,
    }
    Ok(())
}

/// Does what the words of the command line ask for; `false` where they are no command.
fn measure<R: Threads + Wait + Sync + Clock + Env + Print + AllocGlobal>(rt: &R) -> Result<bool> {
    let words: Vec<String> = env::args(rt)?.skip(1).collect(rt.alloc())?;
    match asked_of(words.as_slice()) {
        Some(asked) => {
            let (entries, elapsed) = publish(rt, asked.workers, asked.count)?;
            print(rt, asked.shown, entries, elapsed)?;
            Ok(true)
        }
        None => Ok(false),
    }
}

fn main(rt: HostRuntime) -> ExitCode {
    let status = match measure(&rt) {
        Ok(true) => 0,
        Ok(false) => {
            let _ = eprintln!(rt;
                "usage: nats_seat_bench count|time N K; N is at most {MOST_WORKERS}, K {MOST_PUBLISHES}"
            );
            UNKNOWN
        }
        Err(failure) => {
            let _ = eprintln!(rt; "{failure:?}");
            FAILED
        }
    };
    ExitCode::from(status)
}
