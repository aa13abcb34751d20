//! How messages are shown.

use crate::stop::Stop;
use nats_client::Message;
use nats_header::HeaderMap;

/// Prints a line of words.
fn line<R: Print>(rt: &R, text: &str) -> Result<(), Stop> {
    match print!(rt; "{text}") {
        Ok(()) => Ok(()),
        Err(_) => Err(Stop::Output),
    }
}

/// Prints bytes as they are, those that are no UTF-8 as a question mark.
fn bytes<R: Print>(rt: &R, bytes: &[u8]) -> Result<(), Stop> {
    match std::str::from_utf8(bytes) {
        Ok(text) => line(rt, text),
        Err(_) => line(rt, "(bytes that are no text)"),
    }
}

/// Prints each header on a line.
fn headers<R: Print>(rt: &R, headers: &HeaderMap) -> Result<(), Stop> {
    'fields: for (name, values) in headers.iter() {
        'values: for value in values {
            line(rt, name.as_str())?;
            line(rt, ": ")?;
            line(rt, value.as_str())?;
            line(rt, "\n")?;
        }
    }
    Ok(())
}

/// Prints what a message says: its headers, an empty line behind them where there are some, and its payload.
pub fn content<R: Print>(rt: &R, message: &Message) -> Result<(), Stop> {
    if let Some(with) = &message.headers {
        headers(rt, with)?;
        line(rt, "\n")?;
    }
    bytes(rt, message.payload.as_slice())?;
    line(rt, "\n")
}

/// Prints the message of this number.
pub fn received<R: Print>(rt: &R, number: u64, message: &Message) -> Result<(), Stop> {
    let subject = message.subject.as_str();
    let told = match &message.reply {
        Some(reply) => println!(rt;
            "[#{number}] Received on \"{subject}\" with reply \"{}\"",
            reply.as_str()
        ),
        None => println!(rt; "[#{number}] Received on \"{subject}\""),
    };
    if told.is_err() {
        return Err(Stop::Output);
    }
    content(rt, message)?;
    line(rt, "\n")
}

/// Prints that so many bytes were published.
pub fn published<R: Print>(rt: &R, bytes: usize, subject: &str) -> Result<(), Stop> {
    match println!(rt; "Published {bytes} bytes to \"{subject}\"") {
        Ok(()) => Ok(()),
        Err(_) => Err(Stop::Output),
    }
}
