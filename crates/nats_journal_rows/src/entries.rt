//! The entries of a journal as text, a line for each.

use nats_core::{Call, CallReply, Entry, OutboundMessage, StepReply, Subject, TakeReply, Turn};
use nats_header::HeaderMap;
use nats_names::NoMemory;
use std::alloc::Global;
use std::str;

/// A word behind a space.
fn push_word(out: &mut String, word: &str) -> Result<(), NoMemory> {
    out.push_str(" ")?;
    Ok(out.push_str(word)?)
}

/// Bytes behind a space, with a bar in place of each end of a line.
fn push_bytes(out: &mut String, bytes: &[u8]) -> Result<(), NoMemory> {
    out.push_str(" ")?;
    let text = str::from_utf8(bytes).unwrap_or("(bytes)");
    for (place, part) in text.split("\r\n").enumerate() {
        if place > 0 {
            out.push_str("|")?;
        }
        out.push_str(part)?;
    }
    Ok(())
}

/// A number behind a word.
fn push_number(alloc: Global, out: &mut String, word: &str, number: u64) -> Result<(), NoMemory> {
    push_word(out, word)?;
    push_word(out, format!(in alloc; "{number}")?.as_str())
}

/// A subject behind a word, where there is one.
fn push_named(out: &mut String, word: &str, subject: &Option<Subject>) -> Result<(), NoMemory> {
    match subject {
        Some(subject) => {
            push_word(out, word)?;
            push_word(out, subject.as_str())
        }
        None => Ok(()),
    }
}

/// The headers, where there are some.
fn push_headers(out: &mut String, headers: &Option<HeaderMap>) -> Result<(), NoMemory> {
    let Some(headers) = headers else {
        return Ok(());
    };
    for (name, values) in headers.iter() {
        for value in values {
            push_word(out, name.as_str())?;
            push_word(out, value.as_str())?;
        }
    }
    Ok(())
}

/// The words of a message that is published.
fn push_message(out: &mut String, message: &OutboundMessage) -> Result<(), NoMemory> {
    push_word(out, "publish")?;
    push_word(out, message.subject.as_str())?;
    push_named(out, "reply", &message.reply)?;
    push_headers(out, &message.headers)?;
    push_bytes(out, message.payload.as_slice())
}

/// Whether a text has as many letters and digits as a token that a hub draws, and nothing else.
fn is_drawn(text: &str) -> bool {
    text.len() == 22
        && text
            .as_bytes()
            .iter()
            .all(|byte| byte.is_ascii_alphanumeric())
}

/// The words of a call.
fn push_call(alloc: Global, out: &mut String, call: &Call) -> Result<(), NoMemory> {
    match call {
        Call::Publish(message) => push_message(out, message),
        Call::Subscribe {
            subject,
            queue_group,
        } => {
            push_word(out, "subscribe")?;
            push_word(out, subject.as_str())?;
            push_named(out, "group", queue_group)
        }
        Call::Unsubscribe(number) => push_number(alloc, out, "unsubscribe", *number),
        Call::Limit(number, most) => {
            push_number(alloc, out, "limit", *number)?;
            push_number(alloc, out, "to", *most)
        }
        Call::Drain(number) => push_number(alloc, out, "drain", *number),
        Call::DrainAll => push_word(out, "drain all"),
        Call::Flush => push_word(out, "flush"),
        Call::Request {
            subject,
            payload,
            headers,
            token,
        } => {
            push_word(out, "request")?;
            push_word(out, subject.as_str())?;
            push_headers(out, headers)?;
            push_bytes(out, payload.as_slice())?;
            push_word(
                out,
                if is_drawn(token.as_str()) {
                    "drawn"
                } else {
                    "not drawn"
                },
            )
        }
        Call::DropSub(number) => push_number(alloc, out, "let go", *number),
        Call::Reconnect => push_word(out, "reconnect"),
    }
}

/// The words of a turn.
fn push_turn(alloc: Global, out: &mut String, turn: &Turn) -> Result<(), NoMemory> {
    match turn {
        Turn::Up(info) => push_number(alloc, out, "up, messages of", info.max_payload),
        Turn::Piece(bytes) => {
            push_word(out, "piece")?;
            push_bytes(out, bytes.as_slice())
        }
        Turn::Write(count) => push_number(alloc, out, "write", *count),
        Turn::Tick => push_word(out, "tick"),
        Turn::Lost => push_word(out, "lost"),
        Turn::GiveUp => push_word(out, "give up"),
        Turn::Hangup => push_word(out, "hang up"),
        Turn::Do(call) => push_call(alloc, out, call),
        Turn::Take(number) => push_number(alloc, out, "take", *number),
        Turn::Deadline(ticket) => push_number(alloc, out, "deadline", *ticket),
    }
}

/// The answer to a call.
fn push_answer(alloc: Global, out: &mut String, reply: &CallReply) -> Result<(), NoMemory> {
    match reply {
        CallReply::Accepted => push_word(out, "-> accepted"),
        CallReply::Numbered(number) => push_number(alloc, out, "-> number", *number),
        CallReply::Closed => push_word(out, "-> closed"),
        CallReply::Flushed
        | CallReply::Replied(_)
        | CallReply::InvalidSubject
        | CallReply::InvalidQueueName
        | CallReply::MaxPayloadExceeded { .. }
        | CallReply::NoNumber
        | CallReply::Full
        | CallReply::FlushFailed
        | CallReply::NoResponders
        | CallReply::TimedOut
        | CallReply::Dropped => push_word(out, "-> another answer"),
    }
}

/// The answer to a take.
fn push_taken(out: &mut String, reply: &TakeReply) -> Result<(), NoMemory> {
    match reply {
        TakeReply::Message(message) => {
            push_word(out, "->")?;
            push_word(out, message.subject.as_str())?;
            push_bytes(out, message.payload.as_slice())
        }
        TakeReply::Empty => push_word(out, "-> empty"),
        TakeReply::Ended => push_word(out, "-> ended"),
    }
}

/// The line of an entry.
pub(crate) fn line_of(alloc: Global, entry: &Entry) -> Result<String, NoMemory> {
    let mut line = String::new(alloc);
    push_turn(alloc, &mut line, &entry.turn)?;
    match &entry.reply {
        StepReply::Done => {}
        StepReply::Call(reply) => push_answer(alloc, &mut line, reply)?,
        StepReply::Take(reply) => push_taken(&mut line, reply)?,
    }
    Ok(line)
}
