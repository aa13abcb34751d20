//! Workers, and what is printed of them.

use anyhow::{Result, anyhow};
use nats_seat_text::seats_output;
use nats_seat_workers::{WorkError, accepted_by, publish_by_seats};
use nats_seats::{Config, NoMemory, SeatEntry};
use nats_thread_text::threads_output;
use nats_worker_text::{Crew, crew_of};
use std::alloc::{AllocError, Global};
use std::str;
use std::sync::Wait;
use std::thread::Threads;

/// Settings at which so many calls may wait.
fn waiting(alloc: Global, calls: u64) -> Result<Config, NoMemory> {
    let mut config = Config::new(alloc)?;
    config.client_capacity = calls;
    Ok(config)
}

/// The closed journal of two workers that publish three times each, where so many calls may wait.
fn journal_of_workers<R: Threads + Wait + Sync>(
    rt: &R,
    alloc: Global,
    calls: u64,
) -> Result<Vec<SeatEntry>, WorkError> {
    let config = waiting(alloc, calls)?;
    publish_by_seats(rt, alloc, config, 2, 3)
}

/// Prints how many publishes of each worker were accepted, and what is told where no call may wait.
pub(crate) fn play_workers<R: Threads + Wait + Print + Sync>(rt: &R, alloc: Global) -> Result<()> {
    let journal = journal_of_workers(rt, alloc, 6)?;
    let entries = journal.as_slice();
    println!(rt;
        "workers: entries {}, accepted {} {} {}",
        entries.len(),
        accepted_by(entries, 1),
        accepted_by(entries, 2),
        accepted_by(entries, 3)
    )?;
    match journal_of_workers(rt, alloc, 0) {
        Ok(_) => println!(rt; "workers were not refused")?,
        Err(error) => println!(rt; "workers at which no call may wait: {error}")?,
    }
    Ok(())
}

fn words_of(alloc: Global, texts: &[&str]) -> Result<Vec<String>, AllocError> {
    let mut words = Vec::new(alloc);
    for text in texts {
        words.push(String::from_str(alloc, text)?)?;
    }
    Ok(words)
}

/// Prints a text.
fn show<R: Print>(rt: &R, text: &[u8]) -> Result<()> {
    print!(rt; "{}", str::from_utf8(text).unwrap_or("(bytes)"))?;
    Ok(())
}

/// Prints what these words ask for, and what is printed of that.
fn play_words<R: Threads + Wait + Print + Sync>(
    rt: &R,
    alloc: Global,
    texts: &[&str],
) -> Result<()> {
    let words = words_of(alloc, texts)?;
    match crew_of(words.as_slice()) {
        Some(Crew::Seats { workers, count }) => {
            show(rt, seats_output(rt, alloc, workers, count)?.as_slice())
        }
        Some(Crew::Threads { workers, count }) => match threads_output(rt, alloc, workers, count) {
            Ok(text) => show(rt, text.as_slice()),
            Err(_) => Err(anyhow!("no memory")),
        },
        None => {
            println!(rt; "no workers are asked for")?;
            Ok(())
        }
    }
}

/// Prints what words that ask for workers, and words that do not, come to.
pub(crate) fn play_text<R: Threads + Wait + Print + Sync>(rt: &R, alloc: Global) -> Result<()> {
    play_words(rt, alloc, &["seats", "2", "3"])?;
    play_words(rt, alloc, &["seats", "0", "1"])?;
    play_words(rt, alloc, &["threads", "2", "3"])?;
    play_words(rt, alloc, &["threads", "2", "10001"])
}
