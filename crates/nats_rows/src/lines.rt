//! Going through the lines of a text.
use crate::fault::{Bad, Fault};
use std::alloc::Global;

/// What answers lines.
pub trait Answers {
    /// Appends what is answered to a line.
    fn answer(&mut self, alloc: Global, line: &str, out: &mut String) -> Result<(), Bad>;
}

/// Appends what is answered to each line of a text, up to the first that is not answered.
pub fn answer_lines<A: Answers>(
    alloc: Global,
    asked: &mut A,
    lines: &str,
    out: &mut String,
) -> Result<(), Fault> {
    for (index, line) in lines.lines().enumerate() {
        asked
            .answer(alloc, line, out)
            .map_err(|bad| Fault::behind(index, bad))?;
    }
    Ok(())
}

/// Appends a line: one that is empty or begins with `#` as it is, and what is answered to another.
fn answer_row<A: Answers>(
    alloc: Global,
    asked: &mut A,
    line: &str,
    out: &mut String,
) -> Result<(), Bad> {
    if line.is_empty() || line.starts_with('#') {
        out.push_str(line)?;
    } else {
        asked.answer(alloc, line, out)?;
    }
    Ok(out.push('\n')?)
}

/// Appends a line for each line of a text, up to the first that is not answered: an empty one, and one that begins
/// with `#`, stays as it is, and others are answered.
pub fn answer_rows<A: Answers>(
    alloc: Global,
    asked: &mut A,
    lines: &str,
    out: &mut String,
) -> Result<(), Fault> {
    for (index, line) in lines.lines().enumerate() {
        answer_row(alloc, asked, line, out).map_err(|bad| Fault::behind(index, bad))?;
    }
    Ok(())
}
