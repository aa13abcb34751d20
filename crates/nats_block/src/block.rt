//! A whole header block.
ghost use Rattle.std.specs.Str.Lines.{lines};
ghost use Rattle.nats_block.specs.Block.{block_of_lines, block_of};
ghost use Rattle.nats_block.specs.Answers.{Gives};

use crate::BlockError;
use crate::fields::read_fields;
use crate::head::read_head;
use crate::lines::next_line;
use nats_header::HeaderMap;
use nats_names::{StatusCode, Text};
use std::alloc::Global;
use std::str;

/// What stands in the header block of a message.
#[derive(Debug, Drop, PartialEq, Eq)]
pub struct Block {
    /// The code that a server sends in place of a message.
    pub status: Option<StatusCode>,
    /// What the server says beside the code.
    pub description: Option<Text>,
    /// The names and values, perhaps none.
    pub headers: HeaderMap,
}

fn read_text(alloc: Global, text: &str) -> Result<Block, BlockError>
    ensures { Gives (block_of_lines (lines text.now)) result }
{
    let Some(first) = next_line(text) else {
        return Err(BlockError::Malformed);
    };
    let headers = read_fields(alloc, first.rest)?;
    let head = read_head(alloc, first.text)?;
    Ok(Block {
        status: head.status,
        description: head.description,
        headers,
    })
}

/// Reads the header block of a message, by the NATS protocol: a line `NATS/1.0`, perhaps with a status of three
/// digits and a description, then lines `Name: value`. It ends with the last byte; the empty line that ends a block
/// may be missing.
///
/// # Errors
///
/// `Malformed` exactly where the bytes aren't UTF-8, no line stands there, the first line has another version or a
/// bad status, or another line that isn't empty has no colon, no name of a header before it or a CR within its
/// value. `NoMemory` for want of memory.
pub fn read_block(alloc: Global, block: &[u8]) -> Result<Block, BlockError>
    ensures { Gives (block_of block.now) result }
{
    match str::from_utf8(block) {
        Ok(text) => read_text(alloc, text),
        Err(_) => Err(BlockError::Malformed),
    }
}
