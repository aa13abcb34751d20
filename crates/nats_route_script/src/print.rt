//! Printing what became of peers, and why nothing did.
ghost use Rattle.std.specs.Prelude.{◌≡◌, ◌++◌, IfOk, OnOk};
ghost use Rattle.nats_spelling.specs.Lines.{lf, numbered};
ghost use Rattle.nats_broker.specs.Peers.{word_text};
ghost use Rattle.nats_route_script.specs.Printed.{peer_lines, unreadable_text, out_of_turn_text};

use nats_broker::{NoMemory, PeerRow, PeerWord};
use nats_spelling::{push_number, push_spelled};
use std::alloc::Global;

fn word_text(word: PeerWord) -> &'static [u8]
    ensures { result.now ≡ word_text word }
{
    match word {
        PeerWord::Up => b"up",
        PeerWord::Left => b"left",
        PeerWord::Bad => b"bad",
        PeerWord::Size => b"size",
    }
}

fn push_row(out: &mut Vec<u8>, p: u64, row: &PeerRow) -> Result<(), NoMemory>
    ensures { OnOk result (out.new.items ≡ out.old.items ++ peer_lines p row.now) }
{
    out.extend_from_slice(b"peer ")?;
    push_number(out, p)?;
    out.push(b' ')?;
    out.extend_from_slice(word_text(row.word))?;
    out.extend_from_slice(b"\ntext ")?;
    push_spelled(out, row.text.as_slice())?;
    out.push(b'\n')?;
    Ok(())
}

/// Appends two lines for each peer, in the order of their numbers from 1.
///
/// # Errors
///
/// `NoMemory` for want of memory: some lines may stand at the end already.
pub fn push_rows(out: &mut Vec<u8>, rows: &[PeerRow]) -> Result<(), NoMemory>
    ensures { OnOk result (out.new.items ≡ out.old.items ++ numbered peer_lines 1 rows.now) }
{
    let mut p = 1;
    for row in rows {
        push_row(out, p, row)?;
        p += 1;
    }
    Ok(())
}

/// The line that names the first line of a script that cannot be read.
///
/// # Errors
///
/// `NoMemory` for want of memory.
pub fn unreadable_text(alloc: Global, line: u64) -> Result<Vec<u8>, NoMemory>
    ensures { IfOk result (λ text. text.items ≡ unreadable_text line) }
{
    let mut text = Vec::from_slice(alloc, b"script line ".as_slice())?;
    push_number(&mut text, line)?;
    text.push(b'\n')?;
    Ok(text)
}

/// The line that names the first turn of a script that may not come where it stands.
///
/// # Errors
///
/// `NoMemory` for want of memory.
pub fn out_of_turn_text(alloc: Global, place: u64) -> Result<Vec<u8>, NoMemory>
    ensures { IfOk result (λ text. text.items ≡ out_of_turn_text place) }
{
    let mut text = Vec::from_slice(alloc, b"turn ".as_slice())?;
    push_number(&mut text, place)?;
    text.extend_from_slice(b" out of turn\n".as_slice())?;
    Ok(text)
}
