//! Answers as words of a line.

use nats_names::NoMemory;
use nats_session::{CallReply, Due, Event, Message, TakeReply};
use nats_spelling::push_number;
use std::alloc::Global;

/// Says a word.
pub fn say(out: &mut Vec<u8>, word: &str) -> Result<(), NoMemory> {
    out.extend_from_slice(word.as_bytes())?;
    Ok(())
}

/// Whether a row is answered as is wanted; where it is not, the row and its answer are said.
pub fn agrees(out: &mut Vec<u8>, row: &str, answer: &[u8], want: &[u8]) -> Result<bool, NoMemory> {
    if answer == want {
        return Ok(true);
    }
    say(out, row)?;
    say(out, "\n= ")?;
    out.extend_from_slice(answer)?;
    say(out, "\n")?;
    Ok(false)
}

/// Says a word and, behind a space, a number.
pub fn say_number(out: &mut Vec<u8>, word: &str, n: u64) -> Result<(), NoMemory> {
    say(out, word)?;
    say(out, " ")?;
    push_number(out, n)
}

/// Says, behind a space, a payload.
pub fn say_payload(out: &mut Vec<u8>, message: &Message) -> Result<(), NoMemory> {
    say(out, " ")?;
    out.extend_from_slice(message.payload.as_slice())?;
    Ok(())
}

fn say_sizes(out: &mut Vec<u8>, limit: u64, size: u64) -> Result<(), NoMemory> {
    say_number(out, "max-payload", limit)?;
    say_number(out, "", size)
}

/// Says the reply to a call.
pub fn say_reply(out: &mut Vec<u8>, reply: &CallReply) -> Result<(), NoMemory> {
    match reply {
        CallReply::Accepted => say(out, "accepted"),
        CallReply::Numbered(n) => say_number(out, "numbered", *n),
        CallReply::InvalidSubject => say(out, "invalid-subject"),
        CallReply::InvalidQueueName => say(out, "invalid-queue-name"),
        CallReply::MaxPayloadExceeded { limit, size } => say_sizes(out, *limit, *size),
        CallReply::Closed => say(out, "closed"),
        CallReply::NoNumber => say(out, "no-number"),
        CallReply::Full => say(out, "full"),
        CallReply::Flushed => say(out, "flushed"),
        CallReply::Replied(message) => say_message(out, "replied", message),
        CallReply::FlushFailed => say(out, "flush-failed"),
        CallReply::NoResponders => say(out, "no-responders"),
        CallReply::TimedOut => say(out, "timed-out"),
        CallReply::Dropped => say(out, "dropped"),
    }
}

/// Says, behind a space, the reply by which a ticket settled.
pub fn say_ticket(out: &mut Vec<u8>, t: u64, reply: &CallReply) -> Result<(), NoMemory> {
    say_number(out, " ticket", t)?;
    say(out, " ")?;
    say_reply(out, reply)
}

/// Says the reply to a take.
pub fn say_take(out: &mut Vec<u8>, reply: &TakeReply) -> Result<(), NoMemory> {
    match reply {
        TakeReply::Message(message) => say_message(out, "message", message),
        TakeReply::Empty => say(out, "empty"),
        TakeReply::Ended => say(out, "ended"),
    }
}

fn say_message(out: &mut Vec<u8>, word: &str, message: &Message) -> Result<(), NoMemory> {
    say(out, word)?;
    say_payload(out, message)
}

fn say_dropped(out: &mut Vec<u8>, s: u64, message: &Message) -> Result<(), NoMemory> {
    say_number(out, " dropped", s)?;
    say_payload(out, message)
}

/// Says, behind a space, which due step was played.
pub fn say_due(out: &mut Vec<u8>, due: &Due) -> Result<(), NoMemory> {
    match due {
        Due::Nothing => say(out, " nothing"),
        Due::Read => say(out, " read"),
        Due::Put(s) => say_number(out, " put", *s),
        Due::Dropped(s, message) => say_dropped(out, *s, message),
        Due::Handled => say(out, " handled"),
        Due::Ended => say(out, " ended"),
    }
}

/// Says, in brackets behind a space, an event.
pub fn say_event(alloc: Global, out: &mut Vec<u8>, event: &Event) -> Result<(), NoMemory> {
    let text = event.to_string(alloc)?;
    say(out, " (")?;
    say(out, text.as_str())?;
    say(out, ")")
}

/// Says, behind a space, the youngest waiting message of a subscription, where one waits.
pub fn say_last(out: &mut Vec<u8>, last: Option<&Message>) -> Result<(), NoMemory> {
    match last {
        Some(message) => say_message(out, " last", message),
        None => say(out, " none"),
    }
}
