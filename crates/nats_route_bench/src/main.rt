//! Measures a broker in memory. `time N M K` lets peers make N interests, M of which match, lets one more publish K
//! times, and prints how many bytes the peers were told and how many milliseconds the publishing took; `count N M K`
//! prints the bytes alone. `line N K` lets a peer write a line of N bytes in pieces of K, and prints how long that
//! took.
#![tactic(auto)]

use anyhow::Result;
use nats_broker::{Broker, BrokerInfo, BrokerTurn, Bytes, NoMemory, Token};
use std::alloc::Global;
use std::env;
use std::process::ExitCode;
use std::rt::{Clock, Env};
use std::time::Instant;

/// How many peers listen; peer 1 publishes.
const LISTENERS: u64 = 10;
/// How many publishes come at once.
const BATCH: u64 = 64;
/// A publish.
const PUBLISH: &[u8] = b"PUB news.today 16\r\n0123456789abcdef\r\n";
/// The most bytes of a piece of a line.
const PIECE: [u8; 1024] = [b'x'; 1024];

/// Nothing was measured.
const FAILED: u8 = 1;

/// The numbers behind the first word, `None` where one is none.
fn numbers_of(alloc: Global, words: &[String]) -> Result<Option<Vec<u64>>> {
    let mut numbers = Vec::new(alloc);
    for word in words {
        match word.as_str().parse::<u64>() {
            Ok(number) => numbers.push(number)?,
            Err(_) => return Ok(None),
        }
    }
    Ok(Some(numbers))
}

/// Feeds a peer and does its commands; `false` where it is not up.
fn play(alloc: Global, broker: &mut Broker, peer: u64, bytes: &[u8]) -> Result<bool> {
    if !broker.check(&BrokerTurn::Feed(peer, Bytes::new())) {
        return Ok(false);
    }
    broker.feed(alloc, peer, bytes)?;
    broker.settle(alloc)?;
    Ok(true)
}

/// A broker with its peers, and their interests.
fn broker_with(alloc: Global, interests: u64, matching: u64) -> Result<Broker> {
    let server_id = Token::new("LOOPBACK").ok_or(NoMemory)?;
    let mut broker = Broker::new(
        alloc,
        BrokerInfo {
            server_id,
            max_payload: 1_048_576,
        },
    )?;
    for _ in 0..LISTENERS + 1 {
        if broker.check(&BrokerTurn::Join) {
            broker.join(alloc)?;
        }
    }
    for i in 0..interests {
        let line = if i < matching {
            format!(in alloc; "SUB news.today {i}\r\n")?
        } else {
            format!(in alloc; "SUB other.{i} {i}\r\n")?
        };
        play(alloc, &mut broker, 2 + i % LISTENERS, line.as_bytes())?;
    }
    Ok(broker)
}

/// Takes all that waits: how many bytes.
fn take_all(broker: &mut Broker) -> u64 {
    let mut told = 0u64;
    for peer in 1..LISTENERS + 2 {
        let n = broker.waiting(peer).len();
        broker.taken(peer, n);
        told = told.saturating_add(n as u64);
    }
    told
}

/// Publishes so often: how many bytes the peers were told.
fn publish(alloc: Global, broker: &mut Broker, count: u64) -> Result<u64> {
    let mut text = Vec::new(alloc);
    for _ in 0..BATCH {
        text.extend_from_slice(PUBLISH)?;
    }
    take_all(broker);
    let mut told = 0u64;
    for _ in 0..count / BATCH {
        play(alloc, broker, 1, text.as_slice())?;
        told = told.saturating_add(take_all(broker));
    }
    Ok(told)
}

/// A peer writes a line in pieces.
fn write_line(alloc: Global, len: u64, piece: &[u8]) -> Result<()> {
    let mut broker = broker_with(alloc, 0, 0)?;
    for _ in 0..len.checked_div(piece.len() as u64).unwrap_or(0) {
        play(alloc, &mut broker, 1, piece)?;
    }
    Ok(())
}

/// Does what the words ask for; `false` where they are no command.
fn measure<R: Clock + Env + Print + AllocGlobal>(rt: &R) -> Result<bool> {
    let words: Vec<String> = env::args(rt)?.skip(1).collect(rt.alloc())?;
    let [word, rest @ ..] = words.as_slice() else {
        return Ok(false);
    };
    let Some(numbers) = numbers_of(rt.alloc(), rest)? else {
        return Ok(false);
    };
    match numbers.as_slice() {
        [interests, matching, count] => {
            let mut broker = broker_with(rt.alloc(), *interests, *matching)?;
            let start = Instant::now(rt)?;
            let told = publish(rt.alloc(), &mut broker, *count)?;
            match word.as_str() {
                "time" => println!(rt; "{told} bytes in {} ms", start.elapsed(rt)?.as_millis())?,
                _ => println!(rt; "{told} bytes")?,
            }
        }
        [len, piece] => {
            let start = Instant::now(rt)?;
            write_line(rt.alloc(), *len, &PIECE[..PIECE.len().min(*piece as usize)])?;
            println!(rt; "{} ms", start.elapsed(rt)?.as_millis())?;
        }
        _ => return Ok(false),
    }
    Ok(true)
}

fn main(rt: HostRuntime) -> ExitCode {
    match measure(&rt) {
        Ok(true) => ExitCode::SUCCESS,
        Ok(false) => ExitCode::from(FAILED + 1),
        Err(failure) => {
            let _ = eprintln!(rt; "{failure:?}");
            ExitCode::from(FAILED)
        }
    }
}
