//! A handshake over the two halves of a link: `shake`, the time that the clock comes to, and the link's text; and
//! `unread` and that time, where the link's first read fails.
use crate::handshake::{NoServers, begun, kind_word, push_finished};
use crate::outside::{DIAL_TIMEOUT, home};
use crate::says::push;
use bytes::Bytes;
use nats_dial::{ConnectOptions, Handshake, shake_hands};
use nats_outside::{Dialer, FakeClock, FakeDialer, FakeLink, FakeRead, FakeWrite};
use nats_rows::{Bad, number_of, spelled_bytes};
use std::alloc::Global;

/// The most bytes that a read of a link gives.
const MOST_READ: usize = 7;

/// A link that gives this text, at most 7 bytes at a read.
pub fn link(alloc: Global, text: &[u8]) -> Result<FakeLink, Bad> {
    let bytes = Bytes::copy_from_slice(alloc, text)?;
    Ok(FakeLink::new(alloc, bytes, MOST_READ)?)
}

/// One whose first read fails.
fn unreadable(alloc: Global) -> Result<FakeLink, Bad> {
    let failing = vec![in alloc; 1]?;
    Ok(FakeLink::failing(alloc, Bytes::new(), MOST_READ, failing, Vec::new(alloc))?)
}

fn halves(alloc: Global, link: FakeLink) -> Result<(FakeRead, FakeWrite), Bad> {
    let links = vec![in alloc; link]?;
    let mut dialer = FakeDialer::told(alloc, links);
    let halves = dialer.dial(&home(), DIAL_TIMEOUT);
    drop(dialer);
    halves.map_err(|_| Bad::Form)
}

/// The word of what a handshake over these halves comes to.
fn shaken_word(
    alloc: Global,
    shaking: &mut Handshake,
    (mut read, mut write): (FakeRead, FakeWrite),
    clock: &mut FakeClock,
) -> &'static str {
    let options = ConnectOptions::new();
    let shaken = shake_hands(
        alloc,
        shaking,
        &options,
        &mut NoServers,
        &mut read,
        &mut write,
        clock,
    );
    drop(options);
    match shaken {
        Ok(()) => "up",
        Err(error) => kind_word(error.kind()),
    }
}

fn shakes(
    alloc: Global,
    shaking: &mut Handshake,
    link: FakeLink,
    last: u64,
) -> Result<&'static str, Bad> {
    let mut clock = FakeClock::told(vec![in alloc; 0, last]?);
    let halves = halves(alloc, link)?;
    Ok(shaken_word(alloc, shaking, halves, &mut clock))
}

fn push_word_of(
    alloc: Global,
    shaking: &mut Handshake,
    link: FakeLink,
    last: u64,
    out: &mut String,
) -> Result<(), Bad> {
    push(out, shakes(alloc, shaking, link, last)?)?;
    push(out, " ")
}

/// Appends what a handshake over this link comes to, and what came behind it.
fn push_over(alloc: Global, link: FakeLink, last: u64, out: &mut String) -> Result<(), Bad> {
    match begun(alloc, "a", 0) {
        Ok(mut shaking) => {
            let pushed = push_word_of(alloc, &mut shaking, link, last, out);
            let ended = push_finished(alloc, shaking, out);
            pushed.and(ended)
        }
        Err(_) => Err(Bad::NoMemory),
    }
}

/// Appends what a handshake over a link of this text comes to, and what came behind it.
pub fn push_shaken(alloc: Global, rest: &str, out: &mut String) -> Result<(), Bad> {
    let (last, word) = rest.split_once(' ').ok_or(Bad::Form)?;
    let last = number_of(last)?;
    let text = spelled_bytes(alloc, word)?;
    push_over(alloc, link(alloc, text.as_slice())?, last, out)
}

/// Appends what a handshake comes to whose first read fails.
pub fn push_unread(alloc: Global, rest: &str, out: &mut String) -> Result<(), Bad> {
    let last = number_of(rest)?;
    push_over(alloc, unreadable(alloc)?, last, out)
}
