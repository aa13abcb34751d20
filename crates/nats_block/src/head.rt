//! The first line of a header block.
ghost use Rattle.std.specs.Prelude.{◌≡◌, IfOk};
ghost use Rattle.nats_block.specs.Head.{head_with, head_of_text, head_of};
ghost use Rattle.nats_block.specs.Lines.{some_text};
ghost use Rattle.nats_block.specs.Answers.{Gives};

use crate::BlockError;
use crate::lines::cut_at;
use nats_names::{NoMemory, StatusCode, Text};
use std::alloc::Global;

/// What the first line says.
#[derive(Drop)]
pub struct Head {
    pub status: Option<StatusCode>,
    pub description: Option<Text>,
}

/// The version that a block begins with, by the NATS protocol.
const VERSION: &str = "NATS/1.0";

fn some_copy(alloc: Global, text: &str) -> Result<Option<Text>, NoMemory>
    ensures { IfOk result (λ copy. copy ≡ some_text text.now) }
{
    if text.is_empty() {
        return Ok(None);
    }
    Ok(Some(Text::from_text(alloc, text)?))
}

fn head_with(alloc: Global, status: &str, description: &str) -> Result<Head, BlockError>
    ensures { Gives (head_with (some_text status.now) (some_text description.now)) result }
{
    let status = match status {
        "" => None,
        code => Some(StatusCode::from_bytes(code.as_bytes()).map_err(|_| BlockError::Malformed)?),
    };
    Ok(Head {
        status,
        description: some_copy(alloc, description)?,
    })
}

fn read_text(alloc: Global, text: &str) -> Result<Head, BlockError>
    ensures { Gives (head_of_text text.now) result }
{
    match cut_at(text, b' ') {
        Some((status, description)) => head_with(alloc, status.trim(), description.trim()),
        None => head_with(alloc, text, ""),
    }
}

/// The head that the first line of a block is.
pub fn read_head(alloc: Global, line: &str) -> Result<Head, BlockError>
    ensures { Gives (head_of line.now) result }
{
    match line.strip_prefix(VERSION) {
        Some(rest) => read_text(alloc, rest.trim()),
        None => Err(BlockError::Malformed),
    }
}
