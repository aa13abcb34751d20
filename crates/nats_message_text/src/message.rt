//! Printing a message.
ghost use Rattle.std.specs.Prelude.{◌≡◌, ◌++◌, IfOk, OnOk};
ghost use Rattle.std.specs.List.{flat_map};
ghost use Rattle.nats_message_text.specs.Printed.{number_or_absent, header_fields, value_count, headers_text, content_text, answer_text, message_text, message_line};
ghost use Rattle.nats_spelling.specs.Spelling.{spelled_or_absent};

use nats_header::{HeaderMap, HeaderName, HeaderValue};
use nats_message::Message;
use nats_names::{NoMemory, StatusCode, Text};
use nats_spelling::{close_line, push_number, push_optional, push_spelled};

fn push_status(out: &mut Vec<u8>, status: Option<StatusCode>) -> Result<(), NoMemory>
    ensures { OnOk result (out.new.items ≡ out.old.items ++ number_or_absent status) }
{
    match status {
        Some(status) => push_number(out, u64::from(status.as_u16())),
        None => {
            out.push(b'~')?;
            Ok(())
        }
    }
}

fn push_header(out: &mut Vec<u8>, name: &HeaderName, values: &[HeaderValue]) -> Result<(), NoMemory>
    ensures { OnOk result (out.new.items ≡ out.old.items ++ header_fields (name.now, values.now)) }
{
    for value in values {
        out.push(b' ')?;
        push_spelled(out, name.as_str().as_bytes())?;
        out.push(b' ')?;
        push_spelled(out, value.as_str().as_bytes())?;
    }
    Ok(())
}

// No map holds as many values as there are numbers.
fn value_count(headers: &HeaderMap) -> Result<u64, NoMemory>
    ensures { IfOk result (λ n. n ≡ value_count headers.now) }
{
    let mut count = 0u64;
    for (_, values) in headers.iter() {
        count = count.checked_add(values.len() as u64).ok_or(NoMemory)?;
    }
    Ok(count)
}

fn push_fields(out: &mut Vec<u8>, headers: &HeaderMap) -> Result<(), NoMemory>
    ensures { OnOk result (out.new.items ≡ out.old.items ++ flat_map header_fields headers.now) }
{
    for (name, values) in headers.iter() {
        push_header(out, name, values)?;
    }
    Ok(())
}

fn push_headers(out: &mut Vec<u8>, headers: &Option<HeaderMap>) -> Result<(), NoMemory>
    ensures { OnOk result (out.new.items ≡ out.old.items ++ headers_text headers.now) }
{
    match headers {
        Some(headers) => {
            push_number(out, value_count(headers)?)?;
            push_fields(out, headers)
        }
        None => {
            out.push(b'~')?;
            Ok(())
        }
    }
}

fn push_description(out: &mut Vec<u8>, text: &Option<Text>) -> Result<(), NoMemory>
    ensures { OnOk result (out.new.items ≡ out.old.items ++ spelled_or_absent text.now) }
{
    match text {
        Some(text) => push_spelled(out, text.as_str().as_bytes()),
        None => {
            out.push(b'~')?;
            Ok(())
        }
    }
}

fn push_content(out: &mut Vec<u8>, m: &Message) -> Result<(), NoMemory>
    ensures { OnOk result (out.new.items ≡ out.old.items ++ content_text m.now) }
{
    push_spelled(out, m.subject.as_str().as_bytes())?;
    out.push(b' ')?;
    push_optional(out, &m.reply)?;
    out.push(b' ')?;
    push_spelled(out, m.payload.as_slice())?;
    out.push(b' ')?;
    Ok(())
}

fn push_answer(out: &mut Vec<u8>, m: &Message) -> Result<(), NoMemory>
    ensures { OnOk result (out.new.items ≡ out.old.items ++ answer_text m.now) }
{
    push_status(out, m.status)?;
    out.push(b' ')?;
    push_description(out, &m.description)?;
    out.push(b' ')?;
    push_number(out, m.length as u64)?;
    out.push(b' ')?;
    Ok(())
}

/// A message as seven fields: its subject, reply, payload, status, description, length and headers.
///
/// # Errors
///
/// `NoMemory` for want of memory: a part may stand at the end already.
pub fn push_message(out: &mut Vec<u8>, m: &Message) -> Result<(), NoMemory>
    ensures { OnOk result (out.new.items ≡ out.old.items ++ message_text m.now) }
{
    push_content(out, m)?;
    push_answer(out, m)?;
    push_headers(out, &m.headers)
}

/// A message as a line of its own: the word `message`, then its seven fields.
///
/// # Errors
///
/// `NoMemory` for want of memory: a part may stand at the end already.
pub fn push_message_line(out: &mut Vec<u8>, m: &Message) -> Result<(), NoMemory>
    ensures { OnOk result (out.new.items ≡ out.old.items ++ message_line m.now) }
{
    out.extend_from_slice(b"message ")?;
    push_message(out, m)?;
    close_line(out)
}
