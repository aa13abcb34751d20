//! The wire alone: the operations of a server are decoded, those of a client encoded.

use crate::streams::{CYCLE, Mix, Parts, client_parts, server_stream};
use anyhow::{Result, anyhow};
use nats_wire::{ClientOp, Connection, Message, NoMemory, ServerOp, WireError};
use std::alloc::Global;
use std::fmt;
use std::rt::Clock;
use std::time::{Duration, Instant};

/// How often a stream is measured; what is told is the median.
const RUNS: usize = 5;

/// How many bytes of a server come at a time.
const PIECE: usize = 65_536;

/// What is measured.
#[derive(Clone, Copy)]
pub enum Work {
    /// The operations of a server are read, looked at and dropped.
    Decode,
    /// The operations of a client, made before, are written.
    Encode,
    /// The operations of a client are made, their texts copied, and written, within the time.
    Publish,
}

/// Each of them, in order.
pub const WORKS: [Work; 3] = [Work::Decode, Work::Encode, Work::Publish];

impl Work {
    /// The word that names it.
    pub fn name(self) -> &'static str {
        match self {
            Work::Decode => "decode",
            Work::Encode => "encode",
            Work::Publish => "publish",
        }
    }
}

/// What a stream came to, whatever the time.
#[derive(Clone, Copy)]
pub struct Outcome {
    pub work: Work,
    pub mix: Mix,
    /// The operations that were read or written.
    pub count: u64,
    /// The bytes that were read or written.
    pub bytes: u64,
    /// Of operations that were read, for each in order 31 times the sum so far plus the next one's weight.
    pub checksum: Option<u64>,
}

/// Prints a line.
impl fmt::Display for Outcome {
    fn fmt<W: fmt::Write>(&self, f: &mut fmt::Formatter<W>) -> fmt::Result {
        let work = self.work.name();
        let mix = self.mix.name();
        let bytes = self.bytes;
        let count = self.count;
        write!(f, "{work} {mix} bytes={bytes} count={count}")?;
        match self.checksum {
            Some(checksum) => write!(f, " checksum={checksum:016x}"),
            None => Ok(()),
        }
    }
}

/// What a stream came to, and how long it took.
#[derive(Clone, Copy)]
pub struct Measured {
    pub outcome: Outcome,
    /// The median of all runs.
    pub median: Duration,
    /// The shortest.
    pub least: Duration,
    /// The longest.
    pub greatest: Duration,
}

/// Prints a line.
impl fmt::Display for Measured {
    fn fmt<W: fmt::Write>(&self, f: &mut fmt::Formatter<W>) -> fmt::Result {
        let nanos = self.median.as_nanos().max(1);
        let rate = (self.outcome.count as u128).saturating_mul(1_000_000_000) / nanos;
        let megabytes = (self.outcome.bytes as u128).saturating_mul(1000) / nanos;
        let median = self.median.as_micros();
        let least = self.least.as_micros();
        let greatest = self.greatest.as_micros();
        write!(f, "{} ", self.outcome)?;
        writeln!(
            f,
            "ops_per_s={rate} MB_per_s={megabytes} median_us={median} min_us={least} max_us={greatest} runs={RUNS}"
        )
    }
}

// ---- decoding

fn end_byte(byte: Option<&u8>) -> u64 {
    byte.copied().map_or(0, u64::from)
}

fn status_of(message: &Message) -> u64 {
    match &message.status {
        Some(status) => u64::from(status.as_u16()),
        None => 0,
    }
}

fn names_of(message: &Message) -> u64 {
    match &message.headers {
        Some(headers) => headers.len() as u64,
        None => 0,
    }
}

fn scaled(factor: u64, n: u64) -> u64 {
    factor.wrapping_mul(n)
}

fn weight_of_message(sid: u64, message: &Message) -> u64 {
    let payload = message.payload.as_slice();
    (message.length as u64)
        .wrapping_add(scaled(3, payload.len() as u64))
        .wrapping_add(scaled(5, end_byte(payload.first())))
        .wrapping_add(scaled(7, end_byte(payload.last())))
        .wrapping_add(scaled(11, names_of(message)))
        .wrapping_add(scaled(13, sid))
        .wrapping_add(scaled(17, status_of(message)))
}

/// What an operation adds to the checksum.
fn weight(op: &ServerOp) -> u64 {
    match op {
        ServerOp::Ok => 1,
        ServerOp::Ping => 2,
        ServerOp::Pong => 3,
        ServerOp::Info(_) => 4,
        ServerOp::Error(_) => 5,
        ServerOp::Message { sid, message } => weight_of_message(*sid, message),
    }
}

/// What was read so far.
#[derive(Clone, Copy)]
struct Tally {
    count: u64,
    checksum: u64,
}

impl Tally {
    fn note(&mut self, op: &ServerOp) {
        self.count = self.count.saturating_add(1);
        self.checksum = self.checksum.wrapping_mul(31).wrapping_add(weight(op));
    }
}

type Read = Result<Option<ServerOp>, WireError>;

/// Notes what was read, and tells whether an operation was.
#[inline(always)]
fn note_read(read: &Read, tally: &mut Tally) -> Result<bool, WireError> {
    match read {
        Ok(Some(op)) => {
            tally.note(op);
            Ok(true)
        }
        Ok(None) => Ok(false),
        Err(error) => Err(*error),
    }
}

/// Reads an operation and notes it, and tells whether one was there.
#[inline(always)]
fn read_one(
    alloc: Global,
    connection: &mut Connection,
    tally: &mut Tally,
) -> Result<bool, WireError> {
    let read = connection.read_op(alloc);
    let noted = note_read(&read, tally);
    drop(read);
    noted
}

/// Reads all that stands whole in the unread bytes.
fn read_all(alloc: Global, connection: &mut Connection, tally: &mut Tally) -> Result<()> {
    for _ in 0..connection.unread() {
        if !read_one(alloc, connection, tally)? {
            return Ok(());
        }
    }
    Ok(())
}

fn decode(alloc: Global, stream: &[u8]) -> Result<Tally> {
    let mut connection = Connection::new(alloc);
    let mut tally = Tally {
        count: 0,
        checksum: 0,
    };
    for piece in stream.chunks(PIECE) {
        connection.feed(alloc, piece)?;
        read_all(alloc, &mut connection, &mut tally)?;
    }
    Ok(tally)
}

// ---- encoding

/// Takes all that waits: how many bytes that were.
#[inline(never)]
fn take_all(alloc: Global, connection: &mut Connection) -> Result<u64, NoMemory> {
    let mut bytes = 0u64;
    for _ in 0..connection.pending() {
        if connection.pending() == 0 {
            return Ok(bytes);
        }
        let pieces = connection.pending_pieces(alloc)?;
        let mut len = 0usize;
        for piece in pieces.as_slice() {
            len = len.saturating_add(piece.len());
        }
        connection.written(len.min(connection.pending()));
        bytes = bytes.saturating_add(len as u64);
    }
    Ok(bytes)
}

#[inline(always)]
fn put(alloc: Global, connection: &mut Connection, op: &ClientOp) -> Result<u64, NoMemory> {
    connection.enqueue_write_op(alloc, op)?;
    if connection.is_write_buf_full() {
        take_all(alloc, connection)
    } else {
        Ok(0)
    }
}

fn encode_on(
    alloc: Global,
    connection: &mut Connection,
    ops: &[ClientOp],
    count: usize,
) -> Result<u64, NoMemory> {
    let mut bytes = 0u64;
    for k in 0..count {
        if let Some(op) = ops.get(k % CYCLE) {
            bytes = bytes.saturating_add(put(alloc, connection, op)?);
        }
    }
    Ok(bytes.saturating_add(take_all(alloc, connection)?))
}

fn encode(alloc: Global, ops: &[ClientOp], count: usize) -> Result<u64, NoMemory> {
    let mut connection = Connection::new(alloc);
    encode_on(alloc, &mut connection, ops, count)
}

/// Makes an operation and writes it: how many bytes were taken then.
#[inline(always)]
fn put_made(alloc: Global, connection: &mut Connection, parts: &Parts) -> Result<u64> {
    let taken = {
        let op = parts.made(alloc)?;
        put(alloc, connection, &op)
    };
    Ok(taken?)
}

fn publish_on(
    alloc: Global,
    connection: &mut Connection,
    parts: &[Parts],
    count: usize,
) -> Result<u64> {
    let mut bytes = 0u64;
    for k in 0..count {
        if let Some(parts) = parts.get(k % CYCLE) {
            bytes = bytes.saturating_add(put_made(alloc, connection, parts)?);
        }
    }
    Ok(bytes.saturating_add(take_all(alloc, connection)?))
}

fn publish(alloc: Global, parts: &[Parts], count: usize) -> Result<u64> {
    let mut connection = Connection::new(alloc);
    publish_on(alloc, &mut connection, parts, count)
}

fn add_op(alloc: Global, ops: &mut Vec<ClientOp>, parts: &Parts) -> Result<()> {
    let op = parts.made(alloc)?;
    Ok(ops.push(op)?)
}

fn client_ops(alloc: Global, parts: &[Parts]) -> Result<Vec<ClientOp>> {
    let mut ops = Vec::new(alloc);
    for parts in parts {
        add_op(alloc, &mut ops, parts)?;
    }
    Ok(ops)
}

// ---- measuring

/// What one run over a stream gave.
#[derive(Clone, Copy)]
struct Run {
    tally: Tally,
    bytes: u64,
    time: Duration,
}

/// How long some runs took.
#[derive(Clone, Copy)]
struct Times {
    least: Duration,
    median: Duration,
    greatest: Duration,
}

fn times_of(mut times: Vec<Duration>) -> Result<Times> {
    times.sort_unstable();
    match times.as_slice() {
        [least, _, median, _, greatest] => Ok(Times {
            least: *least,
            median: *median,
            greatest: *greatest,
        }),
        _ => Err(anyhow!("there are {RUNS} runs")),
    }
}

/// What a stream is kept as while it is measured.
#[derive(Drop)]
enum Prepared {
    Server(Vec<u8>),
    Ops(Vec<ClientOp>),
    Parts(Vec<Parts>),
}

fn prepared_ops(alloc: Global, mix: Mix) -> Result<Vec<ClientOp>> {
    let parts = client_parts(alloc, mix)?;
    client_ops(alloc, parts.as_slice())
}

fn prepare(alloc: Global, work: Work, mix: Mix, count: usize) -> Result<Prepared> {
    match work {
        Work::Decode => Ok(Prepared::Server(server_stream(alloc, mix, count)?)),
        Work::Encode => Ok(Prepared::Ops(prepared_ops(alloc, mix)?)),
        Work::Publish => Ok(Prepared::Parts(client_parts(alloc, mix)?)),
    }
}

fn written(count: usize) -> Tally {
    Tally {
        count: count as u64,
        checksum: 0,
    }
}

fn play_once(alloc: Global, prepared: &Prepared, count: usize) -> Result<(Tally, u64)> {
    match prepared {
        Prepared::Server(stream) => Ok((decode(alloc, stream.as_slice())?, stream.len() as u64)),
        Prepared::Ops(ops) => Ok((written(count), encode(alloc, ops.as_slice(), count)?)),
        Prepared::Parts(parts) => Ok((written(count), publish(alloc, parts.as_slice(), count)?)),
    }
}

fn run_once<R: Clock + AllocGlobal>(rt: &R, prepared: &Prepared, count: usize) -> Result<Run> {
    let start = Instant::now(rt)?;
    let (tally, bytes) = play_once(rt.alloc(), prepared, count)?;
    let time = start.elapsed(rt)?;
    Ok(Run { tally, bytes, time })
}

fn outcome_of(work: Work, mix: Mix, tally: Tally, bytes: u64) -> Outcome {
    let checksum = match work {
        Work::Decode => Some(tally.checksum),
        Work::Encode | Work::Publish => None,
    };
    Outcome {
        work,
        mix,
        count: tally.count,
        bytes,
        checksum,
    }
}

/// What the first `count` operations of a stream come to.
pub fn come_to(alloc: Global, work: Work, mix: Mix, count: usize) -> Result<Outcome> {
    let prepared = prepare(alloc, work, mix, count)?;
    let (tally, bytes) = play_once(alloc, &prepared, count)?;
    Ok(outcome_of(work, mix, tally, bytes))
}

/// What the first operations of a stream come to, measured some times over.
pub fn measure_wire<R: Clock + AllocGlobal>(
    rt: &R,
    work: Work,
    mix: Mix,
    count: usize,
) -> Result<Measured> {
    let prepared = prepare(rt.alloc(), work, mix, count)?;
    let mut times = Vec::new(rt.alloc());
    let mut last = outcome_of(work, mix, written(0), 0);
    for _ in 0..RUNS {
        let run = run_once(rt, &prepared, count)?;
        times.push(run.time)?;
        last = outcome_of(work, mix, run.tally, run.bytes);
    }
    let times = times_of(times)?;
    Ok(Measured {
        outcome: last,
        median: times.median,
        least: times.least,
        greatest: times.greatest,
    })
}
