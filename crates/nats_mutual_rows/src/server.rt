//! The server, which hands on what one client publishes to the subscriptions of the other.

use crate::client;
use anyhow::{Result, anyhow};
use nats_client::{Bytes, Hub, Tallies, Turn};
use std::alloc::Global;
use std::sync::Wait;
use std::{str, thread};

/// A subscription that was heard of: its number, and its subject, or all of its subject up to a last `*`.
#[derive(Drop)]
struct Sub {
    number: u64,
    subject: String,
    is_open_ended: bool,
}

impl Sub {
    /// Whether it takes messages of a subject.
    fn takes(&self, subject: &str) -> bool {
        if self.is_open_ended {
            subject.starts_with(self.subject.as_str())
        } else {
            subject == self.subject.as_str()
        }
    }
}

/// What the server knows of one client.
#[derive(Drop)]
pub(crate) struct Seat {
    subs: Vec<Sub>,
}

/// The subscription of a line that subscribes.
fn sub_in(alloc: Global, line: &str) -> Result<Option<Sub>> {
    let mut words = line.split(' ');
    if words.next() != Some("SUB") {
        return Ok(None);
    }
    let (Some(subject), Some(number)) = (words.next(), words.next()) else {
        return Ok(None);
    };
    let Ok(number) = number.parse::<u64>() else {
        return Ok(None);
    };
    let (subject, is_open_ended) = match subject.strip_suffix("*") {
        Some(start) => (start, true),
        None => (subject, false),
    };
    Ok(Some(Sub {
        number,
        subject: String::from_str(alloc, subject)?,
        is_open_ended,
    }))
}

/// The subject of a line that publishes, and the inbox at which it asks for replies, or nothing.
fn subject_in(line: &str) -> Option<(&str, &str)> {
    let mut words = line.split(' ');
    if words.next() != Some("PUB") {
        return None;
    }
    let subject = words.next()?;
    let second = words.next()?;
    match words.next() {
        Some(_) => Some((subject, second)),
        None => Some((subject, "")),
    }
}

/// A message, as it is handed on.
fn message(alloc: Global, number: u64, pubbed: (&str, &str), body: &str) -> Result<String> {
    let ((subject, inbox), length) = (pubbed, body.len());
    if inbox.is_empty() {
        Ok(format!(in alloc; "MSG {subject} {number} {length}\r\n{body}\r\n")?)
    } else {
        Ok(format!(in alloc; "MSG {subject} {number} {inbox} {length}\r\n{body}\r\n")?)
    }
}

impl Seat {
    /// Nothing was heard yet.
    fn new(alloc: Global) -> Seat {
        Seat {
            subs: Vec::new(alloc),
        }
    }

    /// Notes a subscription, if the line is of one.
    fn note(&mut self, alloc: Global, line: &str) -> Result<()> {
        if let Some(sub) = sub_in(alloc, line)? {
            self.subs.push(sub)?;
        }
        Ok(())
    }

    /// The number of a subscription that takes messages of a subject.
    fn number_for(&self, subject: &str) -> Option<u64> {
        for sub in self.subs.iter() {
            if sub.takes(subject) {
                return Some(sub.number);
            }
        }
        None
    }

    /// What this client is given of a message: all of it, or nothing.
    fn given(&self, alloc: Global, pubbed: (&str, &str), body: &str) -> Result<String> {
        match self.number_for(pubbed.0) {
            Some(number) => message(alloc, number, pubbed, body),
            None => Ok(String::new(alloc)),
        }
    }

    /// Notes the subscriptions of a text, and what the other client is given of its messages: their number, and the
    /// text that goes there.
    fn hear(&mut self, alloc: Global, other: &Seat, text: &str) -> Result<(u64, String)> {
        let mut open: Option<(&str, &str)> = None;
        let (mut count, mut given) = (0u64, String::new(alloc));
        for line in text.lines() {
            self.note(alloc, line)?;
            if let Some(pubbed) = open {
                count = count.saturating_add(1);
                given.push_str(other.given(alloc, pubbed, line)?.as_str())?;
            }
            open = subject_in(line);
        }
        Ok((count, given))
    }
}

/// Takes what waits for the link: its text.
fn takes<G: Tallies, R: Wait>(rt: &R, alloc: Global, hub: &Hub<G>) -> Result<String> {
    let mut text = String::new(alloc);
    let mut count = 0u64;
    let pieces = hub
        .pieces_on(rt, alloc, hub.link(rt))
        .ok()
        .ok_or(anyhow!("no memory"))?;
    if let Some(pieces) = pieces {
        for piece in pieces.iter() {
            text.push_str(str::from_utf8(piece.as_slice()).unwrap_or("(bytes)"))?;
            count = count.saturating_add(piece.len() as u64);
        }
        client::play(rt, alloc, hub, Turn::Write(count))?;
    }
    Ok(text)
}

/// Gives a client a text, if there is one.
fn gives<G: Tallies, R: Wait>(rt: &R, alloc: Global, hub: &Hub<G>, text: &str) -> Result<()> {
    if text.is_empty() {
        return Ok(());
    }
    let piece = Bytes::copy_from_slice(alloc, text.as_bytes())?;
    client::play(rt, alloc, hub, Turn::Piece(piece))
}

/// A client's seat, which knows the subscriptions that the client wrote so far.
pub(crate) fn take_seat<G: Tallies, R: Wait>(rt: &R, alloc: Global, hub: &Hub<G>) -> Result<Seat> {
    let mut seat = Seat::new(alloc);
    let text = takes(rt, alloc, hub)?;
    for line in text.as_str().lines() {
        seat.note(alloc, line)?;
    }
    Ok(seat)
}

/// Hands on what one client wrote: how many messages it published.
fn hands_on<G: Tallies, H: Tallies, R: Wait>(
    rt: &R,
    alloc: Global,
    from: (&Hub<G>, &mut Seat),
    to: (&Hub<H>, &Seat),
) -> Result<u64> {
    let text = takes(rt, alloc, from.0)?;
    let (count, given) = from.1.hear(alloc, to.1, text.as_str())?;
    gives(rt, alloc, to.0, given.as_str())?;
    Ok(count)
}

/// Hands on what either client wrote, until they published so many messages.
pub(crate) fn serves<G: Tallies, H: Tallies, R: Wait>(
    rt: &R,
    alloc: Global,
    one: (&Hub<G>, &mut Seat),
    two: (&Hub<H>, &mut Seat),
    wanted: u64,
) -> Result<u64> {
    let mut count = 0u64;
    for _ in rt.forever() {
        let first = hands_on(rt, alloc, (one.0, &mut *one.1), (two.0, &*two.1))?;
        let second = hands_on(rt, alloc, (two.0, &mut *two.1), (one.0, &*one.1))?;
        count = count.saturating_add(first).saturating_add(second);
        if count >= wanted {
            return Ok(count);
        }
        if first == 0 && second == 0 {
            thread::yield_now();
        }
    }
    unreachable!()
}
