//! The texts of clients: a line for each command would be `ping`, `pong`, `sub`, `unsub` or `pub`; here they stand
//! behind one another, each with a `;` behind it, and a word on how the text ends comes last.
use crate::says::{push, push_number};
use nats_client_text::{
    ClientEnd, ClientFront, ClientOp, ClientRead, HeaderMap, Subject, read_client_op,
    read_client_text,
};
use nats_rows::{Bad, push_optional, push_word};
use std::alloc::Global;

fn push_name(subject: &Option<Subject>, out: &mut String) -> Result<(), Bad> {
    out.push(' ')?;
    let subject = subject.as_ref().map(|subject| subject.as_str());
    Ok(push_optional(out, subject)?)
}

/// Appends each name with its values.
fn push_headers(headers: &Option<HeaderMap>, out: &mut String) -> Result<(), Bad> {
    let Some(headers) = headers else {
        return push(out, " ~");
    };
    out.push_str(" {")?;
    for (name, values) in headers.iter() {
        for value in values {
            push_word(out, name.as_str().as_bytes())?;
            push_word(out, value.as_str().as_bytes())?;
        }
    }
    push(out, " }")
}

fn push_numbers(alloc: Global, sid: u64, max: Option<u64>, out: &mut String) -> Result<(), Bad> {
    push(out, "unsub ")?;
    push_number(alloc, sid, out)?;
    push(out, " ")?;
    match max {
        Some(max) => push_number(alloc, max, out),
        None => push(out, "~"),
    }
}

fn push_subscribed(
    alloc: Global,
    sid: u64,
    subject: &Subject,
    queue_group: &Option<Subject>,
    out: &mut String,
) -> Result<(), Bad> {
    push(out, "sub ")?;
    push_number(alloc, sid, out)?;
    push_word(out, subject.as_str().as_bytes())?;
    push_name(queue_group, out)
}

/// Appends where a publish goes.
fn push_address(subject: &Subject, respond: &Option<Subject>, out: &mut String) -> Result<(), Bad> {
    out.push_str("pub")?;
    push_word(out, subject.as_str().as_bytes())?;
    push_name(respond, out)
}

/// Appends what a publish carries.
fn push_carried(headers: &Option<HeaderMap>, payload: &[u8], out: &mut String) -> Result<(), Bad> {
    push_headers(headers, out)?;
    Ok(push_word(out, payload)?)
}

fn push_command(alloc: Global, op: &ClientOp, out: &mut String) -> Result<(), Bad> {
    match op {
        ClientOp::Ping => push(out, "ping"),
        ClientOp::Pong => push(out, "pong"),
        ClientOp::Connect(_) => push(out, "connect"),
        ClientOp::Unsubscribe { sid, max } => push_numbers(alloc, *sid, *max, out),
        ClientOp::Subscribe {
            sid,
            subject,
            queue_group,
        } => push_subscribed(alloc, *sid, subject, queue_group, out),
        ClientOp::Publish {
            subject,
            payload,
            respond,
            headers,
        } => {
            push_address(subject, respond, out)?;
            push_carried(headers, payload.as_slice(), out)
        }
    }
}

/// Appends a command: a subscription is its number, subject and group, a publish its subject, reply, headers and
/// payload.
fn push_op(alloc: Global, op: &ClientOp, out: &mut String) -> Result<(), Bad> {
    push_command(alloc, op, out)?;
    push(out, ";")
}

fn end_word(end: ClientEnd) -> &'static str {
    match end {
        ClientEnd::Whole => "whole",
        ClientEnd::Unfinished => "unfinished",
        ClientEnd::Bad => "bad",
    }
}

fn push_ops(alloc: Global, read: &ClientRead, out: &mut String) -> Result<(), Bad> {
    for op in read.ops.as_slice() {
        push_op(alloc, op, out)?;
    }
    push(out, end_word(read.end))
}

/// Appends the commands that a text is read as.
pub fn push_read(alloc: Global, text: &[u8], out: &mut String) -> Result<(), Bad> {
    let read = read_client_text(alloc, text)?;
    let pushed = push_ops(alloc, &read, out);
    drop(read);
    pushed
}

fn len_of(front: &ClientFront) -> usize {
    match front {
        ClientFront::Got(_, len) => *len,
        ClientFront::Unfinished | ClientFront::Bad => 0,
    }
}

/// Appends how many bytes the first command of a text has, 0 where there is none.
pub fn push_first(alloc: Global, text: &[u8], out: &mut String) -> Result<(), Bad> {
    let front = read_client_op(alloc, text)?;
    let len = len_of(&front);
    drop(front);
    push_number(alloc, len as u64, out)
}
