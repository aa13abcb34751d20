//! Measures a hub. `time N K` lets N clients of one hub, each on a thread of its own, publish K messages of 128 bytes
//! each, while the link takes all that waits for it, and prints how many milliseconds that took, with how many messages
//! were accepted; `count N K` prints the messages alone.
#![tactic(auto)]

mod crew;

ghost use Rattle.std.specs.Prelude.{◌≡◌, ◌≤◌, ◌^◌, IfSome, false};

use anyhow::Result;
use nats_client::{ALL_PARTS, Config, Tallies};
use std::env;
use std::marker::Brand;
use std::process::ExitCode;
use std::rt::{Clock, Env};
use std::sync::Wait;
use std::sync::ledger::Blank;
use std::thread::Threads;
use std::time::{Duration, Instant};

/// The most workers.
const MOST_WORKERS: u64 = 64;

/// The most publishes of each.
const MOST_PUBLISHES: u64 = 1_000_000;

/// Nothing was measured.
const FAILED: u8 = 1;
/// The words are no command.
const UNKNOWN: u8 = 2;

/// What to print.
#[derive(Clone, Copy)]
enum Shown {
    /// How many messages were accepted.
    Count,
    /// How long it took, too.
    Time,
}

/// What the words of the command line ask for.
#[derive(Clone, Copy)]
struct Asked {
    shown: Shown,
    workers: u64,
    count: u64,
}

fn shown_of(word: &str) -> Option<Shown> {
    match word {
        "count" => Some(Shown::Count),
        "time" => Some(Shown::Time),
        _ => None,
    }
}

fn number_up_to(most: u64, word: &str) -> Option<u64>
    ensures { IfSome result (λ n. n ≤ most) }
{
    let number = word.parse::<u64>().ok()?;
    (number <= most).then_some(number)
}

fn asked_of(words: &[String]) -> Option<Asked>
    ensures { IfSome result (λ a. (a.workers ≤ 64) × (a.count ≤ 1000000)) }
{
    match words {
        [word, workers, count] => {
            let shown = shown_of(word.as_str())?;
            let workers = number_up_to(MOST_WORKERS, workers.as_str())?;
            let count = number_up_to(MOST_PUBLISHES, count.as_str())?;
            Some(Asked {
                shown,
                workers,
                count,
            })
        }
        _ => None,
    }
}

/// Lets the clients publish: how many messages were accepted, and how long all took.
fn publish<G: Tallies + Send + Sync, R: Threads + Wait + Sync + Clock + AllocGlobal>(
    rt: &R,
    blank: Blank,
    workers: u64,
    count: u64,
) -> Result<(u64, Duration)>
    requires name { blank.name ≡ G.name }
    requires parts { blank.parts ≡ G.parts }
    requires all { blank.parts ≡ 2 ^ 63 }
    requires kept { G.is_kept ≡ false }
    requires few { (workers ≤ 64) × (count ≤ 1000000) }
{
    let alloc = rt.alloc();
    let mut config = Config::new(alloc)?;
    config.client_capacity = workers * count;
    let start = Instant::now(rt)?;
    let accepted = crew::publish::<G, R>(rt, alloc, blank, config, workers, count)?;
    Ok((accepted, start.elapsed(rt)?))
}

fn print<R: Print>(rt: &R, shown: Shown, messages: u64, elapsed: Duration) -> Result<()> {
    match shown {
        Shown::Count => println!(rt; "{messages} messages")?,
        Shown::Time => println!(rt; "{messages} messages in {} ms", elapsed.as_millis())?,
    }
    Ok(())
}

/// Does what the words of the command line ask for; `false` where they are no command.
fn measure<R: Threads + Wait + Sync + Clock + Env + Print + AllocGlobal>(rt: &R) -> Result<bool> {
    let words: Vec<String> = env::args(rt)?.skip(1).collect(rt.alloc())?;
    match asked_of(words.as_slice()) {
        Some(asked) => {
            let blank = Blank::new(ALL_PARTS);
            let (messages, elapsed) = publish::<Brand, R>(rt, blank, asked.workers, asked.count)?;
            print(rt, asked.shown, messages, elapsed)?;
            Ok(true)
        }
        None => Ok(false),
    }
}

fn main(rt: HostRuntime) -> ExitCode {
    let status = match measure(&rt) {
        Ok(true) => 0,
        Ok(false) => {
            let _ = eprintln!(rt;
                "usage: nats_hub_bench count|time N K; N is at most {MOST_WORKERS}, K {MOST_PUBLISHES}"
            );
            UNKNOWN
        }
        Err(failure) => {
            let _ = eprintln!(rt; "{failure:?}");
            FAILED
        }
    };
    ExitCode::from(status)
}
