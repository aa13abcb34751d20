//! The two halves of a link over a stream of the system.
ghost use Rattle.std.specs.Prelude.{◌≡◌, ◌≤◌, ◌<◌, [], length, IfSome, None, false};
ghost use Rattle.std.specs.List.{concat};
ghost use Rattle.nats_addr.specs.Resolving.{risen};
ghost use Rattle.nats_system.specs.System.{net_read_told, net_write_told};

use bytes::Bytes;
use nats_names::Failed;
use nats_outside::{LinkRead, LinkWrite};
use std::io::{Read, Write};
use std::net::{OpenStream, Shutdown};
use std::time::Duration;

/// The reading half of a link over a stream, which blocks until bytes are there, or for as long as it was told to
/// wait at most. Each `Err` of the stream is a
/// failure, whatever its kind. It tells its counts and no bytes: what a socket gives is not known.
#[derive(Drop)]
pub struct NetRead<S> {
    stream: S,
    given: u64,
    ends: u64,
    faults: u64,
    wait: Option<u64>,
}

// So many milliseconds; one in place of none, which would stand for no bound.
pub(crate) fn at_least_one(ms: u64) -> Duration {
    Duration::from_millis(ms.max(1))
}

impl<S> NetRead<S> {
    /// A half that gives what `stream` gives; its counts begin at 0.
    pub fn new(stream: S) -> NetRead<S>
        ensures stream { result.stream ≡ stream }
        ensures told { net_read_told result
            ≡ record { left = None; pieces = None; given = 0; ends = 0; faults = 0; wait = None } }
    {
        NetRead {
            stream,
            given: 0,
            ends: 0,
            faults: 0,
            wait: None,
        }
    }

    /// How many reads failed, up to 2^64-1.
    pub fn faults(&self) -> u64
        ensures { result ≡ (net_read_told self.now).faults }
    {
        self.faults
    }

    /// How many reads met the end, up to 2^64-1.
    pub fn ends(&self) -> u64
        ensures { result ≡ (net_read_told self.now).ends }
    {
        self.ends
    }
}

impl<S: Read + OpenStream> LinkRead for NetRead<S> {
    ghost read_told = { net_read_told };

    fn read(&mut self, buf: &mut [u8]) -> Result<usize, Failed> {
        let has_room = !buf.is_empty();
        match self.stream.read(buf) {
            Ok(count) => {
                self.given = self.given.saturating_add(count as u64);
                self.ends = self.ends.saturating_add(u64::from(count == 0 && has_room));
                Ok(count)
            }
            Err(_) => {
                self.faults = self.faults.saturating_add(1);
                Err(Failed)
            }
        }
    }

    fn wait_at_most(&mut self, ms: Option<u64>) {
        let _ = self.stream.set_read_timeout(ms.map(at_least_one));
        self.wait = ms;
    }
}

/// The writing half of a link over a stream, which blocks until bytes are taken. Each `Err` of the stream is a
/// failure, whatever its kind, and so is taking none of nonempty bytes. It tells its count and no bytes.
#[derive(Drop)]
pub struct NetWrite<S> {
    stream: S,
    faults: u64,
    is_shut: bool,
}

impl<S> NetWrite<S> {
    /// A half that hands what it takes to `stream`; its count begins at 0.
    pub fn new(stream: S) -> NetWrite<S>
        ensures stream { result.stream ≡ stream }
        ensures told { net_write_told result ≡ record { taken = None; faults = 0; is_shut = false } }
    {
        NetWrite {
            stream,
            faults: 0,
            is_shut: false,
        }
    }

    /// Whether it was shut.
    pub fn is_shut(&self) -> bool
        ensures { result ≡ (net_write_told self.now).is_shut }
    {
        self.is_shut
    }

    /// How many writes failed, up to 2^64-1.
    pub fn faults(&self) -> u64
        ensures { result ≡ (net_write_told self.now).faults }
    {
        self.faults
    }

    fn fail(&mut self)
        ensures told { net_write_told self.new
            ≡ record (net_write_told self.old) { faults = risen 1 self.old.faults } }
    {
        self.faults = self.faults.saturating_add(1);
    }
}

// The first of some pieces that isn't empty: it is all that is written at once, as the pieces after it come next.
fn first_piece(pieces: &[Bytes]) -> Option<&Bytes>
    ensures some { IfSome result (λ piece. (0 < length piece.now) × (length piece.now ≤ length (concat pieces.now))) }
    ensures none { result ≡ None → concat pieces.now ≡ [] }
{
    'pieces: for piece in pieces {
        if !piece.is_empty() {
            return Some(piece);
        }
    }
    None
}

impl<S: Write + OpenStream> LinkWrite for NetWrite<S> {
    ghost write_told = { net_write_told };

    fn write_pieces(&mut self, pieces: &[Bytes]) -> Result<usize, Failed> {
        let Some(piece) = first_piece(pieces) else {
            return Ok(0);
        };
        match self.stream.write(piece.as_slice()) {
            Ok(count) if count > 0 => Ok(count),
            _ => {
                self.fail();
                Err(Failed)
            }
        }
    }

    fn shut(&mut self) {
        self.is_shut = true;
        if self.stream.shutdown(Shutdown::Both).is_err() {
            self.fail();
        }
    }
}
