//! JSON of header maps and messages: a line is `headers` or `message`, a space and a JSON text. It is answered with
//! the JSON of what was read, or `refused` where the text is no JSON or says nothing.
use nats_rows::{Answers, Bad};
use nats_wire::{HeaderMap, JsonError, Message};
use serde_json::{Category, Value};
use std::alloc::Global;

/// Answers lines of JSON.
#[derive(Drop)]
pub struct Jsons;

fn value_of(alloc: Global, text: &str) -> Result<Value, JsonError> {
    Value::from_str(alloc, text).map_err(|error| match error.classify() {
        Category::Memory => JsonError::NoMemory,
        _ => JsonError::NoMatch,
    })
}

fn json_of_headers(alloc: Global, read: &Result<HeaderMap, JsonError>) -> Result<Value, JsonError> {
    match read {
        Ok(headers) => headers.to_json(alloc).map_err(JsonError::from),
        Err(error) => Err(*error),
    }
}

fn headers_as(alloc: Global, text: &str) -> Result<Value, JsonError> {
    let value = value_of(alloc, text)?;
    let read = HeaderMap::from_json(alloc, &value);
    let json = json_of_headers(alloc, &read);
    drop(read);
    json
}

fn json_of_message(alloc: Global, read: &Result<Message, JsonError>) -> Result<Value, JsonError> {
    match read {
        Ok(message) => message.to_json(alloc).map_err(JsonError::from),
        Err(error) => Err(*error),
    }
}

fn message_as(alloc: Global, text: &str) -> Result<Value, JsonError> {
    let value = value_of(alloc, text)?;
    let read = Message::from_json(alloc, &value);
    let json = json_of_message(alloc, &read);
    drop(read);
    json
}

/// Appends the JSON that was made, or that the text is none.
fn push_json(alloc: Global, out: &mut String, json: &Result<Value, JsonError>) -> Result<(), Bad> {
    match json {
        Ok(json) => Ok(out.push_str(json.to_string(alloc)?.as_str())?),
        Err(JsonError::NoMatch) => Ok(out.push_str("refused")?),
        Err(JsonError::NoMemory) => Err(Bad::NoMemory),
    }
}

fn push_headers(alloc: Global, out: &mut String, text: &str) -> Result<(), Bad> {
    let json = headers_as(alloc, text);
    let pushed = push_json(alloc, out, &json);
    drop(json);
    pushed
}

fn push_message(alloc: Global, out: &mut String, text: &str) -> Result<(), Bad> {
    let json = message_as(alloc, text);
    let pushed = push_json(alloc, out, &json);
    drop(json);
    pushed
}

impl Answers for Jsons {
    fn answer(&mut self, alloc: Global, line: &str, out: &mut String) -> Result<(), Bad> {
        match line.split_once(' ') {
            Some(("headers", text)) => push_headers(alloc, out, text)?,
            Some(("message", text)) => push_message(alloc, out, text)?,
            _ => return Err(Bad::Form),
        }
        Ok(out.push('\n')?)
    }
}
