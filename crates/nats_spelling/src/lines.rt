//! How a line begins and ends.
ghost use Rattle.std.specs.Prelude.{◌≡◌, ◌++◌, OnOk};
ghost use Rattle.nats_spelling.specs.Lines.{lf, opening};

use crate::spelling::push_number;
use nats_names::NoMemory;

/// Appends a word and a number, as a line begins: a space behind each.
///
/// # Errors
///
/// `NoMemory` for want of memory: a part may stand at the end already.
pub fn open_line(out: &mut Vec<u8>, word: &[u8], n: u64) -> Result<(), NoMemory>
    ensures { OnOk result (out.new.items ≡ out.old.items ++ opening word.now n) }
{
    out.extend_from_slice(word)?;
    out.push(b' ')?;
    push_number(out, n)?;
    out.push(b' ')?;
    Ok(())
}

/// Appends the line feed that ends a line.
///
/// # Errors
///
/// `NoMemory` for want of memory.
pub fn close_line(out: &mut Vec<u8>) -> Result<(), NoMemory>
    ensures { OnOk result (out.new.items ≡ out.old.items ++ lf) }
{
    out.push(b'\n')?;
    Ok(())
}
