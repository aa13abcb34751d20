//! INFO lines, header blocks and the texts of clients.
use crate::client::{push_first, push_read};
use crate::says::{push, push_number};
use nats_block::{Block, BlockError, read_block};
use nats_info::{InfoError, ServerInfo, read_info};
use nats_rows::{Bad, push_bytes, push_optional, push_word, spelled_bytes};
use std::alloc::Global;

/// Appends all that an INFO says, by way of a copy.
fn push_info(alloc: Global, info: &ServerInfo, out: &mut String) -> Result<(), Bad> {
    let copy = info.copy(alloc)?;
    let text = format!(in alloc; "{copy:?}");
    drop(copy);
    push(out, text?.as_str())
}

fn push_default(alloc: Global, out: &mut String) -> Result<(), Bad> {
    let info = ServerInfo::default(alloc);
    push_info(alloc, &info, out)
}

fn push_found_info(
    alloc: Global,
    read: &Result<ServerInfo, InfoError>,
    out: &mut String,
) -> Result<(), Bad> {
    match read {
        Ok(info) => push_info(alloc, info, out),
        Err(InfoError::Unreadable) => push(out, "unreadable"),
        Err(InfoError::NoMemory) => Err(Bad::NoMemory),
    }
}

fn push_read_info(alloc: Global, text: &[u8], out: &mut String) -> Result<(), Bad> {
    let read = read_info(alloc, text);
    let pushed = push_found_info(alloc, &read, out);
    drop(read);
    pushed
}

/// Appends what a block says: status, description, and each name with its values.
fn push_parts(alloc: Global, block: &Block, out: &mut String) -> Result<(), Bad> {
    let status = block.status.map_or(0, |status| status.as_u16());
    push_number(alloc, u64::from(status), out)?;
    push(out, " ")?;
    push_optional(out, block.description.as_ref().map(|text| text.as_str()))?;
    for (name, values) in block.headers.iter() {
        push_word(out, name.as_str().as_bytes())?;
        for value in values {
            out.push('=')?;
            push_bytes(out, value.as_str().as_bytes())?;
        }
    }
    Ok(())
}

fn push_found_block(
    alloc: Global,
    read: &Result<Block, BlockError>,
    out: &mut String,
) -> Result<(), Bad> {
    match read {
        Ok(block) => push_parts(alloc, block, out),
        Err(BlockError::Malformed) => push(out, "malformed"),
        Err(BlockError::NoMemory) => Err(Bad::NoMemory),
    }
}

fn push_block(alloc: Global, text: &[u8], out: &mut String) -> Result<(), Bad> {
    let read = read_block(alloc, text);
    let pushed = push_found_block(alloc, &read, out);
    drop(read);
    pushed
}

/// Answers a question on a text, and tells whether it is one.
pub fn answer(alloc: Global, word: &str, rest: &str, out: &mut String) -> Result<bool, Bad> {
    let text = spelled_bytes(alloc, rest)?;
    match word {
        "info" => push_read_info(alloc, text.as_slice(), out)?,
        "no_info" => push_default(alloc, out)?,
        "block" => push_block(alloc, text.as_slice(), out)?,
        "client" => push_read(alloc, text.as_slice(), out)?,
        "first" => push_first(alloc, text.as_slice(), out)?,
        _ => return Ok(false),
    }
    Ok(true)
}
