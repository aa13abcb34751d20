//! Cases: the bytes of a server, and the places where they are cut into pieces.
use crate::lines::push_op;
use memchr::memchr;
use nats_rows::{Bad, Fault};
use nats_wire::{Connection, ServerOp, WireError};
use std::alloc::Global;

/// Where the bytes of a case are cut.
#[derive(Clone, Copy)]
enum Cuts<'a> {
    /// Nowhere.
    Whole,
    /// Behind each so many bytes.
    Every(usize),
    /// At these places, which ascend, spelled with single spaces between them.
    At(&'a str),
}

/// One case, and what follows it.
#[derive(Clone, Copy)]
struct Case<'a> {
    bytes: &'a [u8],
    cuts: Cuts<'a>,
    rest: &'a [u8],
}

/// A connection that reads a case, the answer so far, and how many bytes of the case are still to come.
#[derive(Drop)]
struct Reader {
    connection: Connection,
    to_come: usize,
    is_faulty: bool,
}

/// What a reading came to.
#[derive(Clone, Copy)]
enum Found {
    /// An operation.
    Op,
    /// No whole operation.
    Nothing,
    /// Bytes that are no operation.
    Fault,
}

/// Appends the operation that was read, where one was.
fn push_read(
    alloc: Global,
    out: &mut String,
    read: &Result<Option<ServerOp>, WireError>,
) -> Result<Found, Bad> {
    match read {
        Ok(Some(op)) => push_op(alloc, out, op)
            .map(|()| Found::Op)
            .map_err(Bad::from),
        Ok(None) => Ok(Found::Nothing),
        Err(WireError::ReadFault) => Ok(Found::Fault),
        Err(WireError::NoMemory) => Err(Bad::NoMemory),
    }
}

impl Reader {
    /// Feeds a piece and reads the operations that are then there, up to a fault.
    fn feed(&mut self, alloc: Global, out: &mut String, piece: &[u8]) -> Result<(), Bad> {
        if self.is_faulty {
            return Ok(());
        }
        self.connection.feed(alloc, piece)?;
        self.to_come = self.to_come.saturating_sub(piece.len());
        for _ in 0..self.connection.unread() {
            if !self.read(alloc, out)? {
                break;
            }
        }
        Ok(())
    }

    /// Reads an operation, where one is there, and tells whether one was.
    fn read(&mut self, alloc: Global, out: &mut String) -> Result<bool, Bad> {
        let read = self.connection.read_op(alloc);
        let found = push_read(alloc, out, &read);
        drop(read);
        let found = found?;
        self.is_faulty = matches!(found, Found::Fault);
        Ok(matches!(found, Found::Op))
    }

    /// Feeds pieces that end at these places.
    fn feed_at(
        &mut self,
        alloc: Global,
        out: &mut String,
        bytes: &[u8],
        places: &str,
    ) -> Result<(), Bad> {
        let mut start = 0;
        for place in places.split(' ') {
            let end = place.parse().map_err(|_| Bad::Form)?;
            let piece = bytes.get(start..end).ok_or(Bad::Form)?;
            self.feed(alloc, out, piece)?;
            start = end;
        }
        let piece = bytes.get(start..).ok_or(Bad::Form)?;
        self.feed(alloc, out, piece)
    }

    /// Feeds pieces of this size.
    fn feed_by(
        &mut self,
        alloc: Global,
        out: &mut String,
        bytes: &[u8],
        size: usize,
    ) -> Result<(), Bad> {
        for piece in bytes.chunks(size.max(1)) {
            self.feed(alloc, out, piece)?;
        }
        Ok(())
    }

    /// Appends the line of the end: how many bytes no operation took.
    fn finish(&self, alloc: Global, out: &mut String) -> Result<(), Bad> {
        let word = if self.is_faulty {
            "fault"
        } else {
            "unfinished"
        };
        let left = self.connection.unread().saturating_add(self.to_come);
        let line = format!(in alloc; "end {word} {left}\n")?;
        out.push_str(line.as_str())?;
        Ok(())
    }
}

/// Appends the lines of one server's bytes, cut into pieces.
fn push_cut(alloc: Global, out: &mut String, bytes: &[u8], cuts: Cuts<'_>) -> Result<(), Bad> {
    let mut reader = Reader {
        connection: Connection::new(alloc),
        to_come: bytes.len(),
        is_faulty: false,
    };
    let fed = match cuts {
        Cuts::Whole => reader.feed(alloc, out, bytes),
        Cuts::Every(size) => reader.feed_by(alloc, out, bytes, size),
        Cuts::At(places) => reader.feed_at(alloc, out, bytes, places),
    };
    let ended = reader.finish(alloc, out);
    fed.and(ended)
}

fn cuts_of(words: &str) -> Option<Cuts<'_>> {
    if words == "-" {
        return Some(Cuts::Whole);
    }
    match words.split_once(' ')? {
        ("every", size) => Some(Cuts::Every(size.parse().ok()?)),
        ("at", places) => Some(Cuts::At(places)),
        _ => None,
    }
}

/// The first line of some bytes, and what stands behind its LF.
fn first_line(bytes: &[u8]) -> Option<(&str, &[u8])> {
    let end = memchr(b'\n', bytes)?;
    let behind = bytes.get(end.checked_add(1)?..)?;
    Some((str::from_utf8(bytes.get(..end)?).ok()?, behind))
}

/// The length and the cuts that the line of a case says.
fn head_of(line: &str) -> Option<(usize, Cuts<'_>)> {
    let (length, cuts) = line.split_once(' ')?;
    Some((length.parse().ok()?, cuts_of(cuts)?))
}

/// So many bytes, and what stands behind them and an LF.
fn body_of(bytes: &[u8], length: usize) -> Option<(&[u8], &[u8])> {
    let rest = bytes.get(length..)?.strip_prefix(b"\n")?;
    Some((bytes.get(..length)?, rest))
}

/// The first case of some bytes: a line with its length and its cuts, so many bytes, and an LF.
fn first_case(bytes: &[u8]) -> Option<Case<'_>> {
    let (line, behind) = first_line(bytes)?;
    let (length, cuts) = head_of(line)?;
    let (bytes, rest) = body_of(behind, length)?;
    Some(Case { bytes, cuts, rest })
}

/// Appends the lines of one server's bytes.
pub fn push_answer(alloc: Global, out: &mut String, bytes: &[u8]) -> Result<(), Fault> {
    push_cut(alloc, out, bytes, Cuts::Whole).map_err(|bad| Fault::behind(0, bad))
}

/// Appends the lines of the first case of some bytes, and answers the bytes behind it.
fn push_first<'a>(alloc: Global, out: &mut String, bytes: &'a [u8]) -> Result<&'a [u8], Bad> {
    let case = first_case(bytes).ok_or(Bad::Form)?;
    push_cut(alloc, out, case.bytes, case.cuts)?;
    Ok(case.rest)
}

/// How many lines end before the last of the bytes.
fn lines_before(bytes: &[u8], left: usize) -> usize {
    let passed = bytes.len().saturating_sub(left);
    bytes
        .iter()
        .take(passed)
        .filter(|byte| **byte == b'\n')
        .count()
}

/// Appends the answers to a list of cases. A case that is out of form is told by the line at which it begins.
pub fn push_answers(alloc: Global, out: &mut String, bytes: &[u8]) -> Result<(), Fault> {
    let mut rest = bytes;
    for _ in 0..bytes.len() {
        if rest.is_empty() {
            break;
        }
        rest = push_first(alloc, out, rest).map_err(|bad| Fault::behind(
            lines_before(bytes, rest.len()),
            bad,
        ))?;
    }
    Ok(())
}
