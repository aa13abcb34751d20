//! A header map by its calls: each word is a call with its texts behind commas, and is answered by a word.
use crate::headers::push_refusal;
use crate::says::{owned, push, push_number, push_truth};
use nats_header::{HeaderError, HeaderMap, HeaderName, HeaderValue};
use nats_rows::{Bad, push_bytes, push_optional, string_of};
use std::alloc::Global;

/// Names without values, in the order of the texts between commas.
fn pairs_of(alloc: Global, texts: &str) -> Result<Vec<(HeaderName, HeaderValue)>, Bad> {
    let mut pairs = Vec::new(alloc);
    for text in texts.split(',') {
        if let Ok(name) = HeaderName::parse(alloc, text) {
            pairs.push((name, HeaderValue::new(alloc)))?;
        }
    }
    Ok(pairs)
}

/// A map of names without values, in the order of the texts between commas.
fn of_names(alloc: Global, texts: &str) -> Result<HeaderMap, Bad> {
    let pairs = pairs_of(alloc, texts)?;
    Ok(HeaderMap::from_pairs(alloc, pairs)?)
}

fn insert(alloc: Global, map: &mut HeaderMap, field: &str) -> Result<(), HeaderError> {
    let (name, value) = field.split_once(',').unwrap_or((field, ""));
    map.insert(alloc, name, value)
}

fn append(alloc: Global, map: &mut HeaderMap, field: &str) -> Result<(), HeaderError> {
    let (name, value) = field.split_once(',').unwrap_or((field, ""));
    map.append(alloc, name, value)
}

/// Appends with a name that is given and not lent.
fn append_owned(alloc: Global, map: &mut HeaderMap, field: &str) -> Result<(), HeaderError> {
    let (name, value) = field.split_once(',').unwrap_or((field, ""));
    map.append(alloc, owned(alloc, name)?, value)
}

/// Inserts with a name that stands in the program.
fn insert_key(alloc: Global, map: &mut HeaderMap, value: &str) -> Result<(), HeaderError> {
    map.insert(alloc, HeaderName::from_static("Key"), value)
}

fn set_names(alloc: Global, map: &mut HeaderMap, texts: &str) -> Result<(), Bad> {
    *map = of_names(alloc, texts)?;
    Ok(())
}

fn push_done(done: Result<(), HeaderError>, out: &mut String) -> Result<(), Bad> {
    match done {
        Ok(()) => push(out, "ok"),
        Err(error) => push_refusal(error, out),
    }
}

/// Appends the values of a name, each with a bar behind it.
fn push_values(map: &HeaderMap, key: &str, out: &mut String) -> Result<(), Bad> {
    for value in map.get_all(key) {
        push_bytes(out, value.as_str().as_bytes())?;
        out.push('|')?;
    }
    Ok(())
}

/// Appends the names in order, each with a bar behind it for each of its values.
fn push_names(map: &HeaderMap, out: &mut String) -> Result<(), Bad> {
    for (name, values) in map.iter() {
        push_bytes(out, name.as_str().as_bytes())?;
        for _value in values {
            out.push('|')?;
        }
    }
    Ok(())
}

/// Appends the names of a map's copy.
fn push_copy(alloc: Global, map: &HeaderMap, out: &mut String) -> Result<(), Bad> {
    let copy = map.copy(alloc)?;
    let pushed = push_names(&copy, out);
    drop(copy);
    pushed
}

fn is_new(alloc: Global, map: &HeaderMap) -> bool {
    let new = HeaderMap::new(alloc);
    let is_same = *map == new;
    drop(new);
    is_same
}

fn push_block(alloc: Global, map: &HeaderMap, out: &mut String) -> Result<(), Bad> {
    let block = map.to_bytes(alloc)?;
    Ok(push_bytes(out, block.as_slice())?)
}

/// Appends what a map tells of itself.
fn push_told(alloc: Global, map: &HeaderMap, call: &str, out: &mut String) -> Result<(), Bad> {
    match call {
        "names" => push_names(map, out),
        "copy" => push_copy(alloc, map, out),
        "len" => push_number(alloc, map.len() as u64, out),
        "wire" => push_number(alloc, map.wire_len() as u64, out),
        "empty" => push_truth(map.is_empty(), out),
        "new" => push_truth(is_new(alloc, map), out),
        "block" => push_block(alloc, map, out),
        _ => Err(Bad::Form),
    }
}

/// Whether a map is that of these names.
fn is_of(alloc: Global, map: &HeaderMap, names: &str) -> Result<bool, Bad> {
    let other = of_names(alloc, names)?;
    let is_same = other == *map;
    drop(other);
    Ok(is_same)
}

/// Appends what a map tells of a name.
fn push_asked(
    alloc: Global,
    map: &HeaderMap,
    verb: &str,
    key: &str,
    out: &mut String,
) -> Result<(), Bad> {
    match verb {
        "get" => Ok(push_optional(out, map.get(key).map(|value| value.as_str()))?),
        "last" => Ok(push_optional(out, map.get_last(key).map(|value| value.as_str()))?),
        "all" => push_values(map, key, out),
        "equals" => push_truth(is_of(alloc, map, key)?, out),
        _ => Err(Bad::Form),
    }
}

/// Calls a map and appends the answer.
fn push_call(alloc: Global, map: &mut HeaderMap, call: &str, out: &mut String) -> Result<(), Bad> {
    let Some((verb, text)) = call.split_once(',') else {
        return push_told(alloc, map, call, out);
    };
    match verb {
        "insert" => push_done(insert(alloc, map, text), out),
        "append" => push_done(append(alloc, map, text), out),
        "append_owned" => push_done(append_owned(alloc, map, text), out),
        "insert_key" => push_done(insert_key(alloc, map, text), out),
        "pairs" => {
            set_names(alloc, map, text)?;
            push(out, "ok")
        }
        _ => push_asked(alloc, map, verb, text, out),
    }
}

fn push_each(alloc: Global, map: &mut HeaderMap, calls: &str, out: &mut String) -> Result<(), Bad> {
    for call in calls.split(' ') {
        let call = string_of(alloc, call)?;
        push_call(alloc, map, call.as_str(), out)?;
        out.push(' ')?;
    }
    Ok(())
}

/// Calls an empty map by each word in turn, and appends the answers.
pub fn push_calls(alloc: Global, calls: &str, out: &mut String) -> Result<(), Bad> {
    let mut map = HeaderMap::new(alloc);
    push_each(alloc, &mut map, calls, out)
}
