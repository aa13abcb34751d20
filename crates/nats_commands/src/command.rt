//! The texts of client operations, by the NATS client protocol.
ghost use Rattle.std.specs.Prelude.{◌≡◌, ◌++◌, Some, None, OnOk, OnErr};
ghost use Rattle.nats_connect.specs.Connect.{connect_text};
ghost use Rattle.nats_commands.specs.Commands.{crlf, word_and_space, sent_block, publication_text, subscription_text, unsubscription_text, command_text, command_texts, joined};

use itoa::Buffer;
use nats_connect::{ConnectInfo, connect_text};
use nats_header::HeaderMap;
use nats_message::ClientOp;
use nats_names::{Bytes, NoMemory, Subject};
use nats_outbuf::{CHUNK_LEAST, OutBuf};
use std::alloc::Global;

/// Appends what the client writes for an operation, whole or not at all.
#[inline(always)]
pub fn append(alloc: Global, op: &ClientOp, out: &mut OutBuf) -> Result<(), NoMemory>
    ensures ok { OnOk result (out.new ≡ out.old ++ command_text op.now) }
    ensures err { OnErr result (out.new ≡ out.old) }
{
    match op {
        ClientOp::Subscribe {
            sid,
            subject,
            queue_group,
        } => append_subscription(alloc, *sid, subject, queue_group, out),
        ClientOp::Unsubscribe { sid, max } => append_unsubscription(alloc, *sid, *max, out),
        ClientOp::Publish {
            subject,
            payload,
            respond,
            headers,
        } => append_publication(alloc, subject, respond, headers, payload, out),
        ClientOp::Ping => append_all(alloc, &[b"PING\r\n".as_slice()], out),
        ClientOp::Pong => append_all(alloc, &[b"PONG\r\n".as_slice()], out),
        ClientOp::Connect(info) => append_connect(alloc, info, out),
    }
}

/// Appends what the client writes for some operations in order, all of it or nothing.
pub fn append_each(alloc: Global, ops: &[ClientOp], out: &mut OutBuf) -> Result<(), NoMemory>
    ensures ok { OnOk result (out.new ≡ out.old ++ command_texts ops.now) }
    ensures err { OnErr result (out.new ≡ out.old) }
{
    let before = out.pending();
    for op in ops {
        if let Err(refused) = append(alloc, op, out) {
            out.cut(before);
            return Err(refused);
        }
    }
    Ok(())
}

#[inline(never)]
fn append_connect(alloc: Global, info: &ConnectInfo, out: &mut OutBuf) -> Result<(), NoMemory>
    ensures ok { OnOk result (out.new ≡ out.old ++ connect_text info.now) }
    ensures err { OnErr result (out.new ≡ out.old) }
{
    let text = connect_text(alloc, info)?;
    out.put_small(alloc, text.as_slice())
}

// The words that may follow, and the space behind them.
fn word_and_space(word: &Option<Subject>) -> (&[u8], &[u8])
    ensures { result.0.now ++ result.1.now ≡ word_and_space word.now }
{
    match word {
        Some(word) => (word.as_str().as_bytes(), b" "),
        None => (b"", b""),
    }
}

/// Appends what the client writes to subscribe, of parts that are lent, whole or not at all.
#[inline(never)]
pub fn append_subscription<'a>(
    alloc: Global,
    sid: u64,
    subject: &'a Subject,
    queue_group: &'a Option<Subject>,
    out: &mut OutBuf,
) -> Result<(), NoMemory>
    ensures ok { OnOk result (out.new ≡ out.old ++ subscription_text sid subject.now queue_group.now) }
    ensures err { OnErr result (out.new ≡ out.old) }
{
    let subject = subject.as_str().as_bytes();
    let (group, space) = word_and_space(queue_group);
    let mut number = Buffer::new();
    let sid = number.format(sid).as_bytes();
    append_all(
        alloc,
        &[b"SUB ", subject, b" ", group, space, sid, b"\r\n"],
        out,
    )
}

#[inline(never)]
fn append_unsubscription(
    alloc: Global,
    sid: u64,
    max: Option<u64>,
    out: &mut OutBuf,
) -> Result<(), NoMemory>
    ensures ok { OnOk result (out.new ≡ out.old ++ unsubscription_text sid max) }
    ensures err { OnErr result (out.new ≡ out.old) }
{
    let mut number = Buffer::new();
    let sid = number.format(sid).as_bytes();
    let Some(max) = max else {
        return append_all(alloc, &[b"UNSUB ", sid, b"\r\n"], out);
    };
    let mut limit = Buffer::new();
    let max = limit.format(max).as_bytes();
    append_all(alloc, &[b"UNSUB ", sid, b" ", max, b"\r\n"], out)
}

/// Appends what the client writes to publish, of parts that are lent, whole or not at all.
#[inline(always)]
pub fn append_publication(
    alloc: Global,
    subject: &Subject,
    respond: &Option<Subject>,
    headers: &Option<HeaderMap>,
    payload: &Bytes,
    out: &mut OutBuf,
) -> Result<(), NoMemory>
    ensures ok { OnOk result (out.new ≡ out.old
        ++ publication_text subject.now respond.now (sent_block headers.now) payload.now) }
    ensures err { OnErr result (out.new ≡ out.old) }
{
    match headers {
        Some(headers) if !headers.is_empty() => {
            let block = headers.to_bytes(alloc)?;
            append_hpub(alloc, subject, respond, block.as_slice(), payload, out)
        }
        _ => append_pub(alloc, subject, respond, payload, out),
    }
}

#[inline(always)]
fn append_pub<'a>(
    alloc: Global,
    subject: &'a Subject,
    respond: &'a Option<Subject>,
    payload: &'a Bytes,
    out: &mut OutBuf,
) -> Result<(), NoMemory>
    ensures ok { OnOk result (out.new ≡ out.old ++ publication_text subject.now respond.now None payload.now) }
    ensures err { OnErr result (out.new ≡ out.old) }
{
    let (respond, space) = word_and_space(respond);
    let mut number = Buffer::new();
    let count = number.format(payload.len()).as_bytes();
    let subject = subject.as_str().as_bytes();
    append_message(
        alloc,
        &[b"PUB ", subject, b" ", respond, space, count, b"\r\n"],
        payload,
        out,
    )
}

#[inline(never)]
fn append_hpub<'a>(
    alloc: Global,
    subject: &'a Subject,
    respond: &'a Option<Subject>,
    block: &'a [u8],
    payload: &'a Bytes,
    out: &mut OutBuf,
) -> Result<(), NoMemory>
    ensures ok { OnOk result (out.new ≡ out.old
        ++ publication_text subject.now respond.now (Some block.now) payload.now) }
    ensures err { OnErr result (out.new ≡ out.old) }
{
    let (respond, space) = word_and_space(respond);
    let mut number = Buffer::new();
    let header_len = number.format(block.len()).as_bytes();
    let mut sum = Buffer::new();
    let total = sum.format(block.len() + payload.len()).as_bytes();
    append_message(
        alloc,
        &[
            b"HPUB ",
            subject.as_str().as_bytes(),
            b" ",
            respond,
            space,
            header_len,
            b" ",
            total,
            b"\r\n",
            block,
        ],
        payload,
        out,
    )
}

// Appends the line of a message, the payload and the end of its line, all of it or nothing.
#[inline(always)]
fn append_message(
    alloc: Global,
    line: &[&[u8]],
    payload: &Bytes,
    out: &mut OutBuf,
) -> Result<(), NoMemory>
    ensures ok { OnOk result (out.new ≡ out.old ++ (joined line.now ++ payload.now ++ crlf)) }
    ensures err { OnErr result (out.new ≡ out.old) }
{
    let before = out.pending();
    append_all(alloc, line, out)?;
    if let Err(refused) = append_payload(alloc, payload, out) {
        out.cut(before);
        return Err(refused);
    }
    if let Err(refused) = out.put_small(alloc, b"\r\n") {
        out.cut(before);
        return Err(refused);
    }
    Ok(())
}

// Appends a payload, a large one as a piece that shares its memory.
#[inline(always)]
fn append_payload(alloc: Global, payload: &Bytes, out: &mut OutBuf) -> Result<(), NoMemory>
    ensures ok { OnOk result (out.new ≡ out.old ++ payload.now) }
    ensures err { OnErr result (out.new ≡ out.old) }
{
    if payload.len() < CHUNK_LEAST {
        return out.put_small(alloc, payload.as_slice());
    }
    out.put_chunk(alloc, payload.clone()?)
}

// Appends some parts one after another, all of them or none.
fn append_all(alloc: Global, parts: &[&[u8]], out: &mut OutBuf) -> Result<(), NoMemory>
    ensures ok { OnOk result (out.new ≡ out.old ++ joined parts.now) }
    ensures err { OnErr result (out.new ≡ out.old) }
{
    let before = out.pending();
    for part in parts {
        if let Err(refused) = out.put_small(alloc, part) {
            out.cut(before);
            return Err(refused);
        }
    }
    Ok(())
}
