//! A line as an operation, which is written.
use crate::connect::connect_of;
use nats_rows::{Bad, number_of, payload_of, string_of};
use nats_wire::{Bytes, ClientOp, Connection, HeaderError, HeaderMap, Subject};
use std::alloc::Global;

/// The subject of a word.
fn subject_of(alloc: Global, word: &str) -> Result<Subject, Bad> {
    let text = string_of(alloc, word)?;
    Ok(Subject::from_text(alloc, text.as_str())?)
}

/// The subject of a word, or none.
fn optional_subject_of(alloc: Global, word: &str) -> Result<Option<Subject>, Bad> {
    match word {
        "~" => Ok(None),
        word => Ok(Some(subject_of(alloc, word)?)),
    }
}

/// Appends a header by its two words.
fn append_header(
    alloc: Global,
    headers: &mut HeaderMap,
    name: &str,
    value: &str,
) -> Result<(), Bad> {
    let name = string_of(alloc, name)?;
    let value = string_of(alloc, value)?;
    headers
        .append(alloc, name.as_str(), value.as_str())
        .map_err(|error| match error {
            HeaderError::NoMemory => Bad::NoMemory,
            HeaderError::Name | HeaderError::Value => Bad::Form,
        })
}

/// Appends headers by words, a name and a value by turns.
fn append_headers(alloc: Global, headers: &mut HeaderMap, words: &[&str]) -> Result<(), Bad> {
    for pair in words.chunks(2) {
        match pair {
            [name, value] => append_header(alloc, headers, name, value)?,
            _ => return Err(Bad::Form),
        }
    }
    Ok(())
}

/// The headers of a line's last words.
fn headers_of(alloc: Global, words: &[&str]) -> Result<HeaderMap, Bad> {
    let mut headers = HeaderMap::new(alloc);
    append_headers(alloc, &mut headers, words)?;
    Ok(headers)
}

/// Puts an operation behind the bytes that wait on a connection.
fn put(alloc: Global, connection: &mut Connection, op: ClientOp) -> Result<(), Bad> {
    let done = connection.enqueue_write_op(alloc, &op);
    drop(op);
    Ok(done?)
}

/// The subject, the subject of replies and the payload of a publication.
type Said = (Subject, Option<Subject>, Bytes);

fn said(alloc: Global, [subject, respond, payload]: [&str; 3]) -> Result<Said, Bad> {
    let subject = subject_of(alloc, subject)?;
    let respond = optional_subject_of(alloc, respond)?;
    Ok((subject, respond, payload_of(alloc, payload)?))
}

fn published((subject, respond, payload): Said, headers: Option<HeaderMap>) -> ClientOp {
    ClientOp::Publish {
        subject,
        payload,
        respond,
        headers,
    }
}

fn publish(alloc: Global, connection: &mut Connection, words: [&str; 3]) -> Result<(), Bad> {
    let said = said(alloc, words)?;
    put(alloc, connection, published(said, None))
}

fn publish_with(
    alloc: Global,
    connection: &mut Connection,
    words: [&str; 3],
    pairs: &[&str],
) -> Result<(), Bad> {
    let said = said(alloc, words)?;
    let headers = headers_of(alloc, pairs)?;
    put(alloc, connection, published(said, Some(headers)))
}

fn subscribe(
    alloc: Global,
    connection: &mut Connection,
    [sid, subject, group]: [&str; 3],
) -> Result<(), Bad> {
    let sid = number_of(sid)?;
    let queue_group = optional_subject_of(alloc, group)?;
    let subject = subject_of(alloc, subject)?;
    put(
        alloc,
        connection,
        ClientOp::Subscribe {
            sid,
            subject,
            queue_group,
        },
    )
}

/// The number of a word, or none.
fn optional_number_of(word: &str) -> Result<Option<u64>, Bad> {
    match word {
        "~" => Ok(None),
        word => number_of(word).map(Some),
    }
}

fn unsubscribe(
    alloc: Global,
    connection: &mut Connection,
    sid: &str,
    max: &str,
) -> Result<(), Bad> {
    let sid = number_of(sid)?;
    let max = optional_number_of(max)?;
    put(alloc, connection, ClientOp::Unsubscribe { sid, max })
}

/// Writes the operation of a line's words.
fn write_words(alloc: Global, connection: &mut Connection, words: &[&str]) -> Result<(), Bad> {
    match words {
        ["ping"] => put(alloc, connection, ClientOp::Ping),
        ["pong"] => put(alloc, connection, ClientOp::Pong),
        ["pub", subject, respond, payload] => {
            publish(alloc, connection, [subject, respond, payload])
        }
        ["hpub", subject, respond, payload, pairs @ ..] => {
            publish_with(alloc, connection, [subject, respond, payload], pairs)
        }
        ["sub", sid, subject, group] => subscribe(alloc, connection, [sid, subject, group]),
        ["unsub", sid, max] => unsubscribe(alloc, connection, sid, max),
        _ => Err(Bad::Form),
    }
}

fn connect(alloc: Global, connection: &mut Connection, fields: &str) -> Result<(), Bad> {
    let info = connect_of(alloc, fields)?;
    put(alloc, connection, ClientOp::Connect(info))
}

/// Puts the operation of a line behind the bytes that wait on a connection.
pub fn write_op(alloc: Global, connection: &mut Connection, line: &str) -> Result<(), Bad> {
    if line == "connect" {
        return connect(alloc, connection, "");
    }
    if let Some(fields) = line.strip_prefix("connect ") {
        return connect(alloc, connection, fields);
    }
    let words: Vec<&str> = line.split(' ').collect(alloc)?;
    write_words(alloc, connection, words.as_slice())
}
