//! What a pool is made of: the delay before an attempt (`delay`), texts that are no list of addresses (`refused`), and
//! the copy of a choice, an address with its delay (`target`).
use crate::addr::refusal;
use crate::says::{push, push_number};
use nats_pool::{
    AddrError, ReconnectToServer, ServerAddr, addrs_of_texts, reconnect_delay_default,
};
use nats_rows::{Bad, number_of};
use std::alloc::Global;

fn push_delay(alloc: Global, word: &str, out: &mut String) -> Result<(), Bad> {
    let attempts = word.parse().map_err(|_| Bad::Form)?;
    push_number(alloc, reconnect_delay_default(attempts), out)
}

/// Appends how texts are refused as a list of addresses.
fn push_refused(alloc: Global, texts: &str, out: &mut String) -> Result<(), Bad> {
    let texts: Vec<&str> = texts.split(' ').collect(alloc)?;
    let made = addrs_of_texts(alloc, texts.as_slice());
    let error = made.err().unwrap_or(AddrError::NoMemory);
    push(out, refusal(error)?)
}

fn delay_of(word: &str) -> Result<Option<u64>, Bad> {
    match word {
        "~" => Ok(None),
        word => number_of(word).map(Some),
    }
}

/// The choice of an address and a delay.
fn target_of(alloc: Global, text: &str, delay: &str) -> Result<ReconnectToServer, Bad> {
    let delay = delay_of(delay)?;
    let addr = ServerAddr::parse(alloc, text).map_err(|_| Bad::Form)?;
    Ok(ReconnectToServer { addr, delay })
}

fn push_alike(
    alloc: Global,
    copy: &ReconnectToServer,
    target: &ReconnectToServer,
    out: &mut String,
) -> Result<(), Bad> {
    let (host, is_same) = (copy.addr.host(), copy.addr == target.addr);
    out.push_str(format!(in alloc; "{host} {is_same} ")?.as_str())?;
    match copy.delay {
        Some(ms) => push_number(alloc, ms, out),
        None => push(out, "~"),
    }
}

fn push_copied(alloc: Global, target: &ReconnectToServer, out: &mut String) -> Result<(), Bad> {
    let copy = target.copy(alloc)?;
    let pushed = push_alike(alloc, &copy, target, out);
    drop(copy);
    pushed
}

/// Appends the host and the delay of the copy of a choice, and whether its address is the same.
fn push_target(alloc: Global, rest: &str, out: &mut String) -> Result<(), Bad> {
    let (text, delay) = rest.split_once(' ').ok_or(Bad::Form)?;
    let target = target_of(alloc, text, delay)?;
    let pushed = push_copied(alloc, &target, out);
    drop(target);
    pushed
}

/// Answers a question on what a pool is made of, and tells whether it is one.
pub fn answer(alloc: Global, word: &str, rest: &str, out: &mut String) -> Result<bool, Bad> {
    match word {
        "delay" => push_delay(alloc, rest, out)?,
        "refused" => push_refused(alloc, rest, out)?,
        "target" => push_target(alloc, rest, out)?,
        _ => return Ok(false),
    }
    Ok(true)
}
