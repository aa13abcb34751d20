//! What answers of several kinds are made of: texts, numbers and truths.
use nats_names::NoMemory;
use nats_rows::Bad;
use std::alloc::Global;

pub fn push(out: &mut String, text: &str) -> Result<(), Bad> {
    Ok(out.push_str(text)?)
}

pub fn push_number(alloc: Global, number: u64, out: &mut String) -> Result<(), Bad> {
    push(out, number.to_string(alloc)?.as_str())
}

pub fn push_truth(is_so: bool, out: &mut String) -> Result<(), Bad> {
    push(out, if is_so { "true" } else { "false" })
}

/// A text of its own.
pub fn owned(alloc: Global, text: &str) -> Result<String, NoMemory> {
    Ok(String::from_str(alloc, text)?)
}
