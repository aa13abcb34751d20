//! Reads the header block of a publish.
ghost use Rattle.std.specs.Prelude.{◌≡◌, option_map, codes};
ghost use Rattle.std.specs.Str.{bytes_eq};
ghost use Rattle.nats_block.specs.Fields.{tested, with_field};
ghost use Rattle.nats_block.specs.Lines.{cut_at};
ghost use Rattle.nats_block.specs.Answers.{Gives, Puts};
ghost use Rattle.nats_client_text.specs.Blocks.{lines_of, field_of, field_cut, headers_of, block_of};
ghost use Rattle.nats_client_text.specs.Code.{lines_from};

use crate::cut::{CutText, cut};
use nats_block::BlockError;
use nats_header::{HeaderError, HeaderMap};
use std::alloc::Global;
use std::str;

fn next_line(text: &[u8]) -> Option<CutText<'_>>
    ensures { lines_from result text.now ≡ lines_of text.now }
{
    cut(text)
}

// Puts a field last among those of its name.
fn put(headers: &mut HeaderMap, alloc: Global, name: &str, value: &str) -> Result<(), BlockError>
    ensures { Puts (option_map (with_field headers.old) (tested (name.now, value.now))) result headers.new }
{
    match headers.append(alloc, name, value) {
        Ok(()) => Ok(()),
        Err(HeaderError::NoMemory) => Err(BlockError::NoMemory),
        Err(HeaderError::Name | HeaderError::Value) => Err(BlockError::Malformed),
    }
}

fn cut_at_colon(line: &str) -> Option<(&str, &str)>
    ensures { option_map (λ cut. (cut.0.now, cut.1.now)) result ≡ cut_at 58 line.now }
{
    line.split_once(':')
}

fn put_text(headers: &mut HeaderMap, alloc: Global, line: &str) -> Result<(), BlockError>
    ensures { Puts (option_map (with_field headers.old) (field_cut (cut_at 58 line.now))) result headers.new }
{
    let Some((name, behind)) = cut_at_colon(line) else {
        return Err(BlockError::Malformed);
    };
    match behind.strip_prefix(' ') {
        Some(value) => put(headers, alloc, name, value),
        None => Err(BlockError::Malformed),
    }
}

fn put_line(headers: &mut HeaderMap, alloc: Global, line: &[u8]) -> Result<(), BlockError>
    ensures { Puts (option_map (with_field headers.old) (field_of line.now)) result headers.new }
{
    match str::from_utf8(line) {
        Ok(line) => put_text(headers, alloc, line),
        Err(_) => Err(BlockError::Malformed),
    }
}

fn read_fields(alloc: Global, text: &[u8]) -> Result<HeaderMap, BlockError>
    ensures { Gives (headers_of (lines_of text.now)) result }
{
    let mut headers = HeaderMap::new(alloc);
    let mut left = text;
    while let Some(line) = next_line(left) {
        if line.line.is_empty() {
            return if line.rest.is_empty() {
                Ok(headers)
            } else {
                Err(BlockError::Malformed)
            };
        }
        put_line(&mut headers, alloc, line.line)?;
        left = line.rest;
    }
    Err(BlockError::Malformed)
}

fn is_version(line: &[u8]) -> bool
    ensures { result ≡ bytes_eq line.now (codes "NATS/1.0") }
{
    line == b"NATS/1.0".as_slice()
}

/// Reads a block, `Malformed` exactly where it is none, `NoMemory` for want of memory.
pub fn read_block(alloc: Global, block: &[u8]) -> Result<HeaderMap, BlockError>
    ensures { Gives (block_of block.now) result }
{
    let Some(first) = next_line(block) else {
        return Err(BlockError::Malformed);
    };
    if !is_version(first.line) {
        return Err(BlockError::Malformed);
    }
    read_fields(alloc, first.rest)
}
