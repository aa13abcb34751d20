//! How rates are shown.

use crate::asked::Bench;
use crate::stop::Stop;
use std::alloc::{AllocError, Global};

/// How many bytes a megabyte has here, as it does where `nats bench` shows one.
const MEGABYTE: u64 = 1_048_576;

/// How often progress is told, at most.
const STEPS: u64 = 10;

/// A number with a comma between each three digits, as 1,234,567.
fn grouped(alloc: Global, number: u64) -> Result<String, AllocError> {
    let digits = format!(in alloc; "{number}")?;
    let mut text = String::new(alloc);
    let mut left = digits.len();
    'digits: for digit in digits.as_str().chars() {
        text.push(digit)?;
        left = left.saturating_sub(1);
        if left > 0 && left % 3 == 0 {
            text.push(',')?;
        }
    }
    Ok(text)
}

/// So many in a second, where they took so many milliseconds.
fn in_a_second(number: u64, ms: u64) -> u64 {
    number.saturating_mul(1_000) / ms.max(1)
}

/// Prints the rate of so many messages that took so many milliseconds.
pub fn rate<R: Print>(rt: &R, alloc: Global, bench: Bench, msgs: u64, ms: u64) -> Result<(), Stop> {
    let rate = in_a_second(msgs, ms);
    let bytes = in_a_second(msgs.saturating_mul(bench.size), ms);
    let hundredths = bytes.saturating_mul(100) / MEGABYTE;
    let (whole, part) = (hundredths / 100, hundredths % 100);
    let rate = grouped(alloc, rate)?;
    let whole = grouped(alloc, whole)?;
    let name = bench.way.title();
    match println!(rt; "{name} stats: {rate} msgs/sec ~ {whole}.{part:02} MB/sec") {
        Ok(()) => Ok(()),
        Err(_) => Err(Stop::Output),
    }
}

/// Tells on standard error how far a thread is, in the line that told it before.
pub fn progress<R: Eprint>(rt: &R, done: u64, msgs: u64) {
    let step = (msgs / STEPS).max(1);
    if done % step == 0 || done == msgs {
        let _ = eprint!(rt; "\r{done} of {msgs}");
    }
}

/// Ends the line that told of progress.
pub fn over<R: Eprint>(rt: &R) {
    let _ = eprintln!(rt; "");
}
