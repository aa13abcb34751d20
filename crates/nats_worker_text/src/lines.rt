//! A line of what is printed of workers.
ghost use Rattle.std.specs.Prelude.{◌≡◌, ◌++◌, OnOk, string_bytes};
ghost use Rattle.nats_bulk.specs.Summary.{line};

use nats_session::NoMemory;
use std::alloc::Global;

/// Puts a line behind a text: a word, a space, and a number in decimal.
///
/// # Errors
///
/// `NoMemory` for want of memory.
pub fn push_line(alloc: Global, out: &mut String, word: &str, n: u64) -> Result<(), NoMemory>
    ensures { OnOk result (string_bytes out.new ≡ string_bytes out.old ++ line word.now n) }
{
    let line = format!(in alloc; "{word} {n}\n")?;
    out.push_str(line.as_str())?;
    Ok(())
}
