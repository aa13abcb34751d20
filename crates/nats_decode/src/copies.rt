//! Copies of what was read, which outlive the text.
ghost use Rattle.std.specs.Prelude.{◌≡◌, ◌+◌, ◌<◌, ◌≤◌, length, IfOk, None, option_map};
ghost use Rattle.nats_info.specs.Fields.{info_at};
ghost use Rattle.nats_block.specs.Block.{block_of};
ghost use Rattle.nats_lines.specs.Operations.{info_op, message, with_block, op_view, peeked_view, op_of, whole, sight};
ghost use Rattle.nats_decode.specs.Decoder.{op_text_view, message_view, EndsAt};
ghost use Rattle.nats_lines.specs.Heads.{error_view};

use crate::decode::{MessageText, OpText};
use nats_block::{Block, BlockError, read_block};
use nats_info::{InfoError, read_info};
use nats_lines::error_line::ErrorText;
use nats_message::{Message, PeekedOp, ServerOp, plain_message};
use nats_names::{Bytes, NoMemory, ServerError, Subject, Text};
use nats_outbuf::InBuf;
use std::alloc::Global;

/// The bytes of the word of a message, and of one with headers, with the space behind it.
const PLAIN: usize = 4;

const HEADED: usize = 5;

#[inline(always)]
fn optional(alloc: Global, text: Option<&str>) -> Result<Option<Subject>, NoMemory>
    ensures { IfOk result (λ copy. copy ≡ option_map (λ text. text.now) text.entry) }
{
    match text {
        Some(text) => Ok(Some(Subject::from_text(alloc, text)?)),
        None => Ok(None),
    }
}

fn message(alloc: Global, text: &MessageText<'_>) -> Result<Message, NoMemory>
    ensures { IfOk result (λ copy. copy ≡ message_view text.now) }
{
    let subject = Subject::from_text(alloc, text.subject)?;
    let reply = optional(alloc, text.reply)?;
    let payload = Bytes::copy_from_slice(alloc, text.payload)?;
    Ok(plain_message(subject, reply, payload, text.length))
}

// A subject with the text of `text`, which is shared where it stands at `at`, and else copied.
#[inline(always)]
fn subject_in(alloc: Global, bytes: &Bytes, at: usize, text: &str) -> Result<Subject, NoMemory>
    ensures { IfOk result (λ s. s ≡ text.now) }
{
    let len = text.len();
    if at <= bytes.len() && bytes.as_slice()[at..].starts_with(text.as_bytes()) {
        let part = bytes.slice(at..at + len)?;
        return Ok(Subject::from_bytes_unchecked(part));
    }
    Subject::from_text(alloc, text)
}

// The payload of a text that takes the first `len` of some bytes, which it shares.
#[inline(always)]
fn payload_in(bytes: &Bytes, payload: &[u8], len: usize) -> Result<Bytes, NoMemory>
    requires { EndsAt bytes.now len payload.now }
    ensures { IfOk result (λ part. part ≡ payload.now) }
{
    let end = len - 2;
    Ok(bytes.slice(end - payload.len()..end)?)
}

// The message of a text that takes the first `len` of some bytes, whose first word takes the first `at`. It shares
// the bytes.
#[inline(always)]
fn message_in(
    alloc: Global,
    bytes: &Bytes,
    text: &MessageText<'_>,
    len: usize,
    at: usize,
) -> Result<Message, NoMemory>
    requires { EndsAt bytes.now len text.now.payload.now }
    ensures { IfOk result (λ copy. copy ≡ message_view text.now) }
{
    let payload = payload_in(bytes, text.payload, len)?;
    let subject = subject_in(alloc, bytes, at, text.subject)?;
    let reply = optional(alloc, text.reply)?;
    Ok(plain_message(subject, reply, payload, text.length))
}

fn error(alloc: Global, text: &ErrorText<'_>) -> Result<ServerError, NoMemory>
    ensures { IfOk result (λ copy. copy ≡ error_view text.now) }
{
    Ok(match text {
        ErrorText::AuthorizationViolation => ServerError::AuthorizationViolation,
        ErrorText::Other(text) => ServerError::Other(Text::from_text(alloc, text)?),
    })
}

// The INFO of a text, where it has one.
fn info(alloc: Global, text: &[u8]) -> Result<Option<ServerOp>, NoMemory>
    ensures { IfOk result (λ op. option_map op_view op ≡ option_map info_op (info_at text.now)) }
{
    match read_info(alloc, text) {
        Ok(info) => Ok(Some(ServerOp::Info(Box::new(alloc, info)?))),
        Err(InfoError::Unreadable) => Ok(None),
        Err(InfoError::NoMemory) => Err(NoMemory),
    }
}

// A message with what its header block says.
fn headed(sid: u64, plain: Message, block: Block) -> ServerOp
    ensures { op_view result ≡ message sid (with_block plain block) }
{
    let message = Message {
        headers: Some(block.headers),
        status: block.status,
        description: block.description,
        ..plain
    };
    ServerOp::Message { sid, message }
}

// The message of a text with what its header block says, where that is a header block. The block is read first: it
// may be none, and then nothing else is copied.
fn header_message(
    alloc: Global,
    sid: u64,
    text: &MessageText<'_>,
    block: &[u8],
) -> Result<Option<ServerOp>, NoMemory>
    ensures { IfOk result (λ op. option_map op_view op
        ≡ option_map (λ b. message sid (with_block (message_view text.now) b)) (block_of block.now)) }
{
    match read_block(alloc, block) {
        Ok(block) => {
            let message = message(alloc, text)?;
            Ok(Some(headed(sid, message, block)))
        }
        Err(BlockError::Malformed) => Ok(None),
        Err(BlockError::NoMemory) => Err(NoMemory),
    }
}

/// The operation of a text; `None` where it turns out to be none. It shares nothing.
#[inline(never)]
pub fn operation(alloc: Global, text: &OpText<'_>) -> Result<Option<ServerOp>, NoMemory>
    ensures { IfOk result (λ op. option_map op_view op ≡ op_of (op_text_view text.now)) }
{
    Ok(Some(match text {
        OpText::Ok => ServerOp::Ok,
        OpText::Ping => ServerOp::Ping,
        OpText::Pong => ServerOp::Pong,
        OpText::Error(text) => ServerOp::Error(error(alloc, text)?),
        OpText::Message { sid, message: text } => ServerOp::Message {
            sid: *sid,
            message: message(alloc, text)?,
        },
        OpText::Info(text) => return info(alloc, text),
        OpText::HeaderMessage {
            sid,
            message: text,
            block,
        } => return header_message(alloc, *sid, text, block),
    }))
}

// The same as `header_message`, of a text that takes the first `len` of some bytes, which the message shares.
#[inline(never)]
fn header_message_in(
    alloc: Global,
    bytes: &Bytes,
    sid: u64,
    text: &MessageText<'_>,
    block: &[u8],
    len: usize,
) -> Result<Option<ServerOp>, NoMemory>
    requires { EndsAt bytes.now len text.now.payload.now }
    ensures { IfOk result (λ op. option_map op_view op
        ≡ option_map (λ b. message sid (with_block (message_view text.now) b)) (block_of block.now)) }
{
    match read_block(alloc, block) {
        Ok(block) => {
            let message = message_in(alloc, bytes, text, len, HEADED)?;
            Ok(Some(headed(sid, message, block)))
        }
        Err(BlockError::Malformed) => Ok(None),
        Err(BlockError::NoMemory) => Err(NoMemory),
    }
}

// The operation of a text that takes the first `len` of some bytes, which it shares; `None` where it turns out to
// be none.
fn operation_in(
    alloc: Global,
    bytes: &Bytes,
    text: &OpText<'_>,
    len: usize,
) -> Result<Option<ServerOp>, NoMemory>
    requires { whole (op_text_view text.now) len ≡ sight bytes.now }
    ensures { IfOk result (λ op. option_map op_view op ≡ op_of (op_text_view text.now)) }
{
    match text {
        OpText::Message { sid, message: text } => {
            let message = message_in(alloc, bytes, text, len, PLAIN)?;
            Ok(Some(ServerOp::Message { sid: *sid, message }))
        }
        OpText::HeaderMessage {
            sid,
            message: text,
            block,
        } => header_message_in(alloc, bytes, *sid, text, block, len),
        OpText::Ok | OpText::Ping | OpText::Pong | OpText::Error(_) | OpText::Info(_) => operation(
            alloc, text,
        ),
    }
}

/// The operation of a text that takes the first `len` of kept bytes, which it shares where they can be shared;
/// `None` where it turns out to be none.
#[inline(never)]
pub fn operation_kept(
    alloc: Global,
    buf: &InBuf,
    text: &OpText<'_>,
    len: usize,
) -> Result<Option<ServerOp>, NoMemory>
    requires { whole (op_text_view text.now) len ≡ sight buf.now }
    ensures { IfOk result (λ op. option_map op_view op ≡ op_of (op_text_view text.now)) }
{
    match buf.shared() {
        Some(bytes) => operation_in(alloc, bytes, text, len),
        None => operation(alloc, text),
    }
}

// `message_in` of a text without headers, put straight into its box.
fn boxed_in(
    alloc: Global,
    bytes: &Bytes,
    text: &MessageText<'_>,
    len: usize,
) -> Result<Box<Message>, NoMemory>
    requires { EndsAt bytes.now len text.now.payload.now }
    ensures { IfOk result (λ copy. copy.value ≡ message_view text.now) }
{
    let payload = payload_in(bytes, text.payload, len)?;
    let subject = subject_in(alloc, bytes, PLAIN, text.subject)?;
    let reply = optional(alloc, text.reply)?;
    Ok(Box::new(alloc, plain_message(subject, reply, payload, text.length))?)
}

// The message of a text that takes the first `len` of kept bytes, which it shares where they can be shared, in its
// box.
fn boxed_kept(
    alloc: Global,
    buf: &InBuf,
    text: &MessageText<'_>,
    len: usize,
) -> Result<Box<Message>, NoMemory>
    requires { EndsAt buf.now len text.now.payload.now }
    ensures { IfOk result (λ copy. copy.value ≡ message_view text.now) }
{
    match buf.shared() {
        Some(bytes) => boxed_in(alloc, bytes, text, len),
        None => Ok(Box::new(alloc, message(alloc, text)?)?),
    }
}

// The same as it is handed on before it is consumed.
fn message_boxed(
    alloc: Global,
    buf: &InBuf,
    sid: u64,
    text: &MessageText<'_>,
    len: usize,
) -> Result<PeekedOp, NoMemory>
    requires { EndsAt buf.now len text.now.payload.now }
    ensures { IfOk result (λ op. peeked_view op ≡ message sid (message_view text.now)) }
{
    let message = boxed_kept(alloc, buf, text, len)?;
    Ok(PeekedOp::Message { sid, message })
}

/// `operation_kept` for whoever hands the operation on before it is consumed.
pub fn peeked_kept(
    alloc: Global,
    buf: &InBuf,
    text: &OpText<'_>,
    len: usize,
) -> Result<Option<PeekedOp>, NoMemory>
    requires { whole (op_text_view text.now) len ≡ sight buf.now }
    ensures { IfOk result (λ op. option_map peeked_view op ≡ op_of (op_text_view text.now)) }
{
    if let OpText::Message { sid, message } = text {
        return Ok(Some(message_boxed(alloc, buf, *sid, message, len)?));
    }
    match operation_kept(alloc, buf, text, len)? {
        Some(op) => Ok(Some(PeekedOp::boxed(alloc, op)?)),
        None => Ok(None),
    }
}
