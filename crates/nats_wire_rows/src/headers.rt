//! Header names, values and maps.
use crate::json::push_json;
use crate::maps::push_calls;
use crate::says::{owned, push};
use nats_header::{HeaderError, HeaderName, HeaderValue, IntoHeaderValue};
use nats_rows::{Bad, push_bytes, string_of};
use std::alloc::Global;

/// Appends how a name or a value is refused.
pub fn push_refusal(error: HeaderError, out: &mut String) -> Result<(), Bad> {
    match error {
        HeaderError::Name => push(out, "!name"),
        HeaderError::Value => push(out, "!value"),
        HeaderError::NoMemory => Err(Bad::NoMemory),
    }
}

/// Appends the name that is made of a text, by way of a copy.
fn push_name(alloc: Global, text: &str, out: &mut String) -> Result<(), Bad> {
    match HeaderName::parse(alloc, text) {
        Ok(name) => Ok(push_bytes(out, name.copy(alloc)?.as_str().as_bytes())?),
        Err(error) => push_refusal(error, out),
    }
}

fn push_made(made: Result<HeaderValue, HeaderError>, out: &mut String) -> Result<(), Bad> {
    match made {
        Ok(value) => Ok(push_bytes(out, value.as_str().as_bytes())?),
        Err(error) => push_refusal(error, out),
    }
}

/// Appends the value that is made of a text, by way of a copy.
fn push_parsed(alloc: Global, text: &str, out: &mut String) -> Result<(), Bad> {
    match HeaderValue::parse(alloc, text) {
        Ok(value) => push_made(value.copy(alloc).map_err(HeaderError::from), out),
        Err(error) => push_refusal(error, out),
    }
}

/// Appends the value that a source is converted to, by way of that value's own conversion.
fn push_converted<V: IntoHeaderValue>(
    alloc: Global,
    source: V,
    out: &mut String,
) -> Result<(), Bad> {
    match source.into_header_value(alloc) {
        Ok(value) => push_made(value.into_header_value(alloc), out),
        Err(error) => push_refusal(error, out),
    }
}

/// Appends what a text is as a value: itself, and converted as a text that is lent and as one that is given.
fn push_value(alloc: Global, text: &str, out: &mut String) -> Result<(), Bad> {
    push_parsed(alloc, text, out)?;
    push(out, " ")?;
    push_converted(alloc, text, out)?;
    push(out, " ")?;
    push_converted(alloc, owned(alloc, text)?, out)
}

/// Answers a question on headers, and tells whether it is one.
pub fn answer(alloc: Global, word: &str, rest: &str, out: &mut String) -> Result<bool, Bad> {
    match word {
        "name" => push_name(alloc, string_of(alloc, rest)?.as_str(), out)?,
        "value" => push_value(alloc, string_of(alloc, rest)?.as_str(), out)?,
        "map" => push_calls(alloc, rest, out)?,
        "json" => push_json(alloc, rest, out)?,
        _ => return Ok(false),
    }
    Ok(true)
}
