//! The fields of a header block.
ghost use Rattle.std.specs.Prelude.{◌≡◌, option_map};
ghost use Rattle.std.specs.Str.Lines.{lines};
ghost use Rattle.nats_block.specs.Lines.{joined};
ghost use Rattle.nats_block.specs.Fields.{tested, with_field, field_of, headers_of};
ghost use Rattle.nats_block.specs.Code.{past_joined};
ghost use Rattle.nats_block.specs.Answers.{Gives, Puts, PutsOf};

use crate::BlockError;
use crate::lines::{Line, cut_at, join, next_joined, next_line};
use nats_header::{HeaderError, HeaderMap};
use std::alloc::Global;

// Puts a field last among those of its name.
#[inline(always)]
fn put(headers: &mut HeaderMap, alloc: Global, name: &str, value: &str) -> Result<(), BlockError>
    ensures { Puts (option_map (with_field headers.old) (tested (name.now, value.now))) result headers.new }
{
    match headers.append(alloc, name, value) {
        Ok(()) => Ok(()),
        Err(HeaderError::NoMemory) => Err(BlockError::NoMemory),
        Err(HeaderError::Name | HeaderError::Value) => Err(BlockError::Malformed),
    }
}

// Puts the field that begins in a line last among those of its name, and answers what follows the field's lines.
#[inline(always)]
fn put_field<'a>(
    headers: &mut HeaderMap,
    alloc: Global,
    line: &Line<'a>,
) -> Result<&'a str, BlockError>
    ensures { PutsOf (option_map (with_field headers.old)
        (field_of line.now.text.now (joined (lines line.now.rest.now))))
        (past_joined (lines line.now.rest.now)) result headers.new }
{
    let Some((name, value)) = cut_at(line.text, b':') else {
        return Err(BlockError::Malformed);
    };
    let value = value.trim_start();
    if next_joined(line.rest).is_none() {
        put(headers, alloc, name, value.trim_end())?;
        return Ok(line.rest);
    }
    let joined = join(alloc, value, line.rest)?;
    put(headers, alloc, name, joined.text.as_str().trim_end())?;
    Ok(joined.rest)
}

/// The headers of the lines behind the first.
#[inline(always)]
pub fn read_fields(alloc: Global, text: &str) -> Result<HeaderMap, BlockError>
    ensures { Gives (headers_of (lines text.now)) result }
{
    let mut headers = HeaderMap::new(alloc);
    let mut left = text;
    while let Some(line) = next_line(left) {
        left = if line.text.is_empty() {
            line.rest
        } else {
            put_field(&mut headers, alloc, &line)?
        };
    }
    Ok(headers)
}
