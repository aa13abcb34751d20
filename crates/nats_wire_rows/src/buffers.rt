//! The buffers by their calls: each word is a call with its text or numbers behind commas, and is answered by a word.
ghost use Rattle.std.specs.Prelude.{◌≡◌, ◌<◌};

use crate::says::{push, push_number};
use nats_outbuf::{Bytes, InBuf, OutBuf, Steps};
use nats_rows::{Bad, push_bytes, string_of};
use std::alloc::Global;
use std::marker::Brand;
use std::sync::ledger::{Blank, Ledger};

/// A text of so many bytes.
fn filled(alloc: Global, count: usize) -> Result<Bytes, Bad> {
    Ok(Bytes::from_vec(vec![in alloc; b'x'; count]?)?)
}

fn size_of(word: &str) -> Result<usize, Bad> {
    word.parse().map_err(|_| Bad::Form)
}

/// Puts a chunk of a size behind the bytes that wait, as often as is said.
fn put_chunks(alloc: Global, buf: &mut OutBuf, size: usize, count: usize) -> Result<(), Bad> {
    let chunk = filled(alloc, size)?;
    for _ in 0..count {
        buf.put_chunk(alloc, chunk.clone()?)?;
    }
    Ok(())
}

/// Appends how many bytes and how many pieces are handed out.
fn push_pieces(alloc: Global, buf: &mut OutBuf, out: &mut String) -> Result<(), Bad> {
    let pieces = buf.pieces(alloc)?;
    let mut bytes = 0usize;
    for piece in pieces.as_slice() {
        bytes = bytes.saturating_add(piece.len());
    }
    let count = pieces.len();
    Ok(out.push_str(format!(in alloc; "{bytes}/{count}")?.as_str())?)
}

/// Takes the pieces that are handed out, one after the other.
fn take_each(alloc: Global, buf: &mut OutBuf) -> Result<(), Bad> {
    let pieces = buf.pieces(alloc)?;
    for piece in pieces.as_slice() {
        let n = piece.len().min(buf.pending());
        buf.taken(n);
    }
    Ok(())
}

/// Calls that change the bytes that wait to be written.
fn change(alloc: Global, buf: &mut OutBuf, verb: &str, text: &str) -> Result<(), Bad> {
    match verb {
        "small" => buf.put_small(alloc, text.as_bytes())?,
        "chunk" => put_chunks(alloc, buf, size_of(text)?, 1)?,
        "seventy" => put_chunks(alloc, buf, size_of(text)?, 70)?,
        "taken" => {
            let n = size_of(text)?.min(buf.pending());
            buf.taken(n);
        }
        "cut" => {
            let n = size_of(text)?.min(buf.pending());
            buf.cut(n);
        }
        "each" => take_each(alloc, buf)?,
        "clear" => buf.clear(),
        _ => return Err(Bad::Form),
    }
    Ok(())
}

/// Calls the bytes that wait to be written, and appends how many there are then, or what is asked for.
fn push_out_call(alloc: Global, buf: &mut OutBuf, call: &str, out: &mut String) -> Result<(), Bad> {
    match call {
        "pieces" => push_pieces(alloc, buf, out),
        "full" => push(out, if buf.is_full() { "full" } else { "room" }),
        _ => {
            let (verb, text) = call.split_once(',').unwrap_or((call, ""));
            change(alloc, buf, verb, text)?;
            push_number(alloc, buf.pending() as u64, out)
        }
    }
}

fn push_out_each(
    alloc: Global,
    buf: &mut OutBuf,
    calls: &str,
    out: &mut String,
) -> Result<(), Bad> {
    for call in calls.split(' ') {
        push_out_call(alloc, buf, call, out)?;
        out.push(' ')?;
    }
    Ok(())
}

fn push_out_calls(alloc: Global, calls: &str, out: &mut String) -> Result<(), Bad> {
    let mut buf = OutBuf::new(alloc);
    push_out_each(alloc, &mut buf, calls, out)
}

/// The length of the first line of some bytes, its place found by counted steps, and of all where none ends.
fn first_line<L: Ledger>(alloc: Global, blank: Blank, text: &[u8]) -> Result<usize, Bad>
    requires name { blank.name ≡ L.name }
    requires parts { (blank.parts ≡ L.parts) × (0 < L.parts) }
{
    let mut steps = Steps::<L>::new(blank);
    let mut buf = InBuf::new(alloc);
    buf.feed(alloc, text)?;
    for place in 0..buf.len().saturating_sub(1) {
        if buf.crlf_at(place, &mut steps) {
            return Ok(buf.line(place).len());
        }
    }
    Ok(buf.len())
}

fn push_line(alloc: Global, text: &str, out: &mut String) -> Result<(), Bad> {
    let len = first_line::<Brand>(alloc, Blank::new(1), text.as_bytes())?;
    push_number(alloc, len as u64, out)
}

/// Appends the first bytes, so many or all, which are split off.
fn push_split(alloc: Global, buf: &mut InBuf, n: usize, out: &mut String) -> Result<(), Bad> {
    let n = n.min(buf.len());
    let front = buf.split(alloc, n)?;
    Ok(push_bytes(out, front.as_slice())?)
}

/// Calls the bytes that were read, and appends how many there are then, or what is split off.
fn push_in_call(alloc: Global, buf: &mut InBuf, call: &str, out: &mut String) -> Result<(), Bad> {
    let (verb, text) = call.split_once(',').unwrap_or((call, ""));
    match verb {
        "feed" => buf.feed(alloc, text.as_bytes())?,
        "shared" => {
            let piece = Bytes::copy_from_slice(alloc, text.as_bytes())?;
            buf.feed_shared(alloc, &piece)?;
        }
        "split" => return push_split(alloc, buf, size_of(text)?, out),
        _ => return Err(Bad::Form),
    }
    push_number(alloc, buf.len() as u64, out)
}

fn push_in_each(alloc: Global, buf: &mut InBuf, calls: &str, out: &mut String) -> Result<(), Bad> {
    for call in calls.split(' ') {
        let call = string_of(alloc, call)?;
        push_in_call(alloc, buf, call.as_str(), out)?;
        out.push(' ')?;
    }
    Ok(())
}

fn push_in_calls(alloc: Global, calls: &str, out: &mut String) -> Result<(), Bad> {
    let mut buf = InBuf::new(alloc);
    push_in_each(alloc, &mut buf, calls, out)
}

/// Answers a question on the buffers, and tells whether it is one.
pub fn answer(alloc: Global, word: &str, rest: &str, out: &mut String) -> Result<bool, Bad> {
    match word {
        "outbuf" => push_out_calls(alloc, rest, out)?,
        "inbuf" => push_in_calls(alloc, rest, out)?,
        "line" => push_line(alloc, string_of(alloc, rest)?.as_str(), out)?,
        _ => return Ok(false),
    }
    Ok(true)
}
