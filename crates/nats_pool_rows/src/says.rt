//! What answers of several kinds are made of: texts and numbers.
use nats_rows::Bad;
use std::alloc::Global;

pub fn push(out: &mut String, text: &str) -> Result<(), Bad> {
    Ok(out.push_str(text)?)
}

pub fn push_number(alloc: Global, number: u64, out: &mut String) -> Result<(), Bad> {
    push(out, number.to_string(alloc)?.as_str())
}
