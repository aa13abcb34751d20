//! JSON of header names, values, maps and messages: a kind, a space and a JSON text. It is answered with a name or a
//! value itself, the names of a map in order and its JSON, the JSON of a message, or `none` where it is none.
use crate::says::push;
use nats_rows::{Bad, push_bytes};
use nats_wire::{HeaderMap, HeaderName, HeaderValue, JsonError, Message};
use serde_json::{Category, Error, Value};
use std::alloc::Global;

fn push_refusal(error: JsonError, out: &mut String) -> Result<(), Bad> {
    match error {
        JsonError::NoMatch => push(out, "none"),
        JsonError::NoMemory => Err(Bad::NoMemory),
    }
}

fn push_text(alloc: Global, json: &Value, out: &mut String) -> Result<(), Bad> {
    push(out, json.to_string(alloc)?.as_str())
}

/// Appends the names of a map in order, and its JSON.
fn push_map(alloc: Global, map: &HeaderMap, out: &mut String) -> Result<(), Bad> {
    for (name, _values) in map.iter() {
        push(out, name.as_str())?;
        push(out, " ")?;
    }
    let json = map.to_json(alloc)?;
    let pushed = push_text(alloc, &json, out);
    drop(json);
    pushed
}

fn push_read_map(
    alloc: Global,
    read: &Result<HeaderMap, JsonError>,
    out: &mut String,
) -> Result<(), Bad> {
    match read {
        Ok(map) => push_map(alloc, map, out),
        Err(error) => push_refusal(*error, out),
    }
}

fn push_headers(alloc: Global, json: &Value, out: &mut String) -> Result<(), Bad> {
    let read = HeaderMap::from_json(alloc, json);
    let pushed = push_read_map(alloc, &read, out);
    drop(read);
    pushed
}

fn push_name(alloc: Global, json: &Value, out: &mut String) -> Result<(), Bad> {
    match HeaderName::from_json(alloc, json) {
        Ok(name) => push(out, name.as_str()),
        Err(error) => push_refusal(error, out),
    }
}

fn push_value(alloc: Global, json: &Value, out: &mut String) -> Result<(), Bad> {
    match HeaderValue::from_json(alloc, json) {
        Ok(value) => push(out, value.as_str()),
        Err(error) => push_refusal(error, out),
    }
}

fn push_again(alloc: Global, message: &Message, out: &mut String) -> Result<(), Bad> {
    let json = message.to_json(alloc)?;
    let pushed = push_text(alloc, &json, out);
    drop(json);
    pushed
}

fn push_read_message(
    alloc: Global,
    read: &Result<Message, JsonError>,
    out: &mut String,
) -> Result<(), Bad> {
    match read {
        Ok(message) => push_again(alloc, message, out),
        Err(error) => push_refusal(*error, out),
    }
}

fn push_message(alloc: Global, json: &Value, out: &mut String) -> Result<(), Bad> {
    let read = Message::from_json(alloc, json);
    let pushed = push_read_message(alloc, &read, out);
    drop(read);
    pushed
}

fn push_as(alloc: Global, kind: &str, json: &Value, out: &mut String) -> Result<(), Bad> {
    match kind {
        "headers" => push_headers(alloc, json, out),
        "name" => push_name(alloc, json, out),
        "value" => push_value(alloc, json, out),
        "message" => push_message(alloc, json, out),
        _ => push(out, "no kind"),
    }
}

fn push_read(
    alloc: Global,
    kind: &str,
    read: &Result<Value, Error>,
    out: &mut String,
) -> Result<(), Bad> {
    match read {
        Ok(json) => push_as(alloc, kind, json, out),
        Err(error) => match error.classify() {
            Category::Memory => Err(Bad::NoMemory),
            _ => push(out, "none"),
        },
    }
}

/// Appends what is read of a kind and a JSON text.
pub fn push_json(alloc: Global, rest: &str, out: &mut String) -> Result<(), Bad> {
    let (kind, text) = rest.split_once(' ').ok_or(Bad::Form)?;
    let read = Value::from_str(alloc, text);
    let pushed = push_read(alloc, kind, &read, out);
    drop(read);
    pushed
}

/// Appends the texts of the two refusals.
pub fn push_refusals(alloc: Global, out: &mut String) -> Result<(), Bad> {
    for error in [JsonError::NoMatch, JsonError::NoMemory] {
        push_bytes(out, error.to_string(alloc)?.as_bytes())?;
        out.push('|')?;
    }
    Ok(())
}
