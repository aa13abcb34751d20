//! The streams that the wire is measured on, in four mixes: what a server sends, and what a client sends.
ghost use Rattle.std.specs.Prelude.{◌≤◌};

use anyhow::Result;
use nats_wire::{Bytes, ClientOp, HeaderMap, NoMemory, Subject};
use std::alloc::Global;

/// How many operations a stream has before it repeats.
pub const CYCLE: usize = 416;

const SUBJECT: &str = "bench.subject";

const REPLY: &str = "_INBOX.bench.reply";

/// How many bytes the payload of a message with headers has.
const WITH_HEADERS: usize = 128;

/// What a stream is made of.
#[derive(Clone, Copy, Debug, PartialEq, Eq)]
pub enum Mix {
    /// Messages of 16 bytes.
    Small,
    /// Messages of 8,192 bytes.
    Large,
    /// Messages of 128 bytes with three headers.
    Hmsg,
    /// Mostly small messages, some of all kinds, and now and then a word alone.
    Mixed,
}

/// Each of them, in the order of their table.
pub const MIXES: [Mix; 4] = [Mix::Small, Mix::Large, Mix::Hmsg, Mix::Mixed];

impl Mix {
    /// The word that names it.
    pub fn name(self) -> &'static str {
        match self {
            Mix::Small => "small",
            Mix::Large => "large",
            Mix::Hmsg => "hmsg",
            Mix::Mixed => "mixed",
        }
    }

    /// The one that a word names.
    pub fn named(word: &str) -> Option<Mix> {
        MIXES.into_iter().find(|mix| mix.name() == word)
    }
}

/// An operation of a stream.
#[derive(Clone, Copy)]
enum Shape {
    Msg { size: usize, has_reply: bool },
    Hmsg,
    Ping,
    Ok,
}

fn plain(size: usize) -> Shape {
    Shape::Msg {
        size,
        has_reply: false,
    }
}

fn mixed_shape(k: usize) -> Shape {
    match k % 8 {
        0..=3 => plain(16),
        4 => Shape::Msg {
            size: 256,
            has_reply: true,
        },
        5 => Shape::Hmsg,
        6 if k % 16 == 6 => Shape::Ping,
        6 => Shape::Ok,
        _ if k % 32 == 7 => plain(8192),
        _ => plain(1024),
    }
}

fn shape_of(mix: Mix, k: usize) -> Shape {
    match mix {
        Mix::Small => plain(16),
        Mix::Large => plain(8192),
        Mix::Hmsg => Shape::Hmsg,
        Mix::Mixed => mixed_shape(k),
    }
}

/// The letter that the payload of operation `k` is filled with.
fn letter(k: usize) -> u8 {
    b'a' + (k % 26) as u8
}

fn filled(alloc: Global, k: usize, size: usize) -> Result<Vec<u8>, NoMemory> {
    let mut payload = Vec::new(alloc);
    payload.resize(size, letter(k))?;
    Ok(payload)
}

// ---- what a server sends

fn push_body(
    alloc: Global,
    out: &mut Vec<u8>,
    head: &str,
    k: usize,
    size: usize,
) -> Result<(), NoMemory> {
    let payload = filled(alloc, k, size)?;
    out.extend_from_slice(head.as_bytes())?;
    out.extend_from_slice(payload.as_slice())?;
    out.extend_from_slice(b"\r\n")?;
    Ok(())
}

fn push_msg(
    alloc: Global,
    out: &mut Vec<u8>,
    k: usize,
    size: usize,
    has_reply: bool,
) -> Result<(), NoMemory> {
    let head = if has_reply {
        format!(in alloc; "MSG {SUBJECT} 1 {REPLY} {size}\r\n")?
    } else {
        format!(in alloc; "MSG {SUBJECT} 1 {size}\r\n")?
    };
    push_body(alloc, out, head.as_str(), k, size)
}

fn push_hmsg(alloc: Global, out: &mut Vec<u8>, k: usize) -> Result<(), NoMemory> {
    let block = format!(in alloc;
        "NATS/1.0\r\nNats-Msg-Id: {k}\r\nX-Trace: 0123456789abcdef\r\nContent-Type: text/plain\r\n\r\n"
    )?;
    let front = block.len();
    let total = front.saturating_add(WITH_HEADERS);
    let head = format!(in alloc; "HMSG {SUBJECT} 1 {front} {total}\r\n{block}")?;
    push_body(alloc, out, head.as_str(), k, WITH_HEADERS)
}

fn push_server(alloc: Global, out: &mut Vec<u8>, mix: Mix, k: usize) -> Result<(), NoMemory> {
    match shape_of(mix, k) {
        Shape::Msg { size, has_reply } => push_msg(alloc, out, k, size, has_reply),
        Shape::Hmsg => push_hmsg(alloc, out, k),
        Shape::Ping => Ok(out.extend_from_slice(b"PING\r\n")?),
        Shape::Ok => Ok(out.extend_from_slice(b"+OK\r\n")?),
    }
}

/// The bytes of a server that sends `count` operations.
pub fn server_stream(alloc: Global, mix: Mix, count: usize) -> Result<Vec<u8>, NoMemory> {
    let mut stream = Vec::new(alloc);
    for k in 0..count {
        push_server(alloc, &mut stream, mix, k % CYCLE)?;
    }
    Ok(stream)
}

// ---- what a client sends

fn append_all(alloc: Global, headers: &mut HeaderMap, id: &str) -> Result<()> {
    headers.append(alloc, "Nats-Msg-Id", id)?;
    headers.append(alloc, "X-Trace", "0123456789abcdef")?;
    Ok(headers.append(alloc, "Content-Type", "text/plain")?)
}

#[inline(never)]
fn headers(alloc: Global, id: &str) -> Result<HeaderMap> {
    let mut headers = HeaderMap::new(alloc);
    append_all(alloc, &mut headers, id)?;
    Ok(headers)
}

#[inline(always)]
fn reply_subject(alloc: Global, has_reply: bool) -> Result<Option<Subject>, NoMemory> {
    if has_reply {
        Ok(Some(Subject::from_text(alloc, REPLY)?))
    } else {
        Ok(None)
    }
}

/// The subject, the payload and the subject of replies of a publication.
type Said = (Subject, Bytes, Option<Subject>);

#[inline(always)]
fn published((subject, payload, respond): Said, headers: Option<HeaderMap>) -> ClientOp {
    ClientOp::Publish {
        subject,
        payload,
        respond,
        headers,
    }
}

/// What an operation of a client is made of.
#[derive(Drop)]
pub struct Parts {
    shape: Shape,
    payload: Vec<u8>,
    id: String,
}

impl Parts {
    fn of(alloc: Global, mix: Mix, k: usize) -> Result<Parts, NoMemory> {
        let shape = shape_of(mix, k);
        let size = match shape {
            Shape::Msg { size, .. } => size,
            Shape::Hmsg => WITH_HEADERS,
            Shape::Ping | Shape::Ok => 0,
        };
        let payload = filled(alloc, k, size)?;
        let id = format!(in alloc; "{k}")?;
        Ok(Parts { shape, payload, id })
    }

    #[inline(always)]
    fn said(&self, alloc: Global, has_reply: bool) -> Result<Said, NoMemory> {
        let subject = Subject::from_text(alloc, SUBJECT)?;
        let payload = Bytes::copy_from_slice(alloc, self.payload.as_slice())?;
        let respond = reply_subject(alloc, has_reply)?;
        Ok((subject, payload, respond))
    }

    /// The operation, its texts copied.
    #[inline(always)]
    pub fn made(&self, alloc: Global) -> Result<ClientOp> {
        match self.shape {
            Shape::Msg { has_reply, .. } => Ok(published(self.said(alloc, has_reply)?, None)),
            Shape::Hmsg => {
                let headers = headers(alloc, self.id.as_str())?;
                Ok(published(self.said(alloc, false)?, Some(headers)))
            }
            Shape::Ping => Ok(ClientOp::Ping),
            Shape::Ok => Ok(ClientOp::Pong),
        }
    }
}

/// What the first operations of a client's stream are made of, up to where it repeats.
pub fn client_parts(alloc: Global, mix: Mix) -> Result<Vec<Parts>, NoMemory> {
    let mut parts = Vec::new(alloc);
    for k in 0..CYCLE {
        parts.push(Parts::of(alloc, mix, k)?)?;
    }
    Ok(parts)
}
