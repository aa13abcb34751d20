//! Finds what stands at the front of a text: the grammar of server operations, in code. It takes no memory.
ghost use Rattle.std.specs.Prelude.{◌≡◌, ◌+◌, ◌^◌, ◌<◌, ◌≤◌, length, take, drop, Some, None, IfSome, option_map, nat_lt, if◌then◌else◌};
ghost use Rattle.nats_lines.specs.Operations.{cut_line, word_of, head_of, header_head_of, length_or_0, message_of, message_or_bad, headed_or_bad, error_of, error_or_bad, sight_of_word, sight, lost_at};
ghost use Rattle.nats_lines.specs.Scan.{cut_at, Needs, Awaits};
ghost use Rattle.nats_lines.specs.Heads.{word_len, head_view};
ghost use Rattle.nats_decode.specs.Decoder.{sight_view, op_text_view, message_view, line_view};

use memchr::memmem;
use nats_lines::error_line::{ErrorText, read_error};
use nats_lines::head::{Head, HeaderHead, read_head, read_header_head};
use nats_lines::word::{Word, first_word};

/// What stands at the front of a text: less than an operation, the text of one and the number of its bytes, or a
/// fault that takes some bytes.
#[derive(Clone, Copy)]
pub enum Sight<'a> {
    Unfinished,
    Whole(OpText<'a>, usize),
    Fault(usize),
}

/// A `ServerOp` in the text that it is read from.
#[derive(Clone, Copy)]
pub enum OpText<'a> {
    Ok,
    Ping,
    Pong,
    /// What is still to be read as an INFO.
    Info(&'a [u8]),
    Error(ErrorText<'a>),
    Message {
        sid: u64,
        message: MessageText<'a>,
    },
    /// A message whose header block is still to be read.
    HeaderMessage {
        sid: u64,
        message: MessageText<'a>,
        block: &'a [u8],
    },
}

impl<'a> OpText<'a> {
    /// How many of its `len` bytes the text takes where it turns out to be no operation: a message goes whole, an
    /// INFO stays.
    pub fn lost_at(&self, len: usize) -> usize
        ensures { result ≡ lost_at (op_text_view self.now) len }
    {
        match self {
            OpText::HeaderMessage { .. } => len,
            OpText::Info(_)
            | OpText::Error(_)
            | OpText::Message { .. }
            | OpText::Ok
            | OpText::Ping
            | OpText::Pong => 0,
        }
    }
}

/// A `Message` in the text that it is read from.
#[derive(Clone, Copy)]
pub struct MessageText<'a> {
    pub subject: &'a str,
    pub reply: Option<&'a str>,
    pub payload: &'a [u8],
    pub length: usize,
}

/// A text cut behind its first line.
#[derive(Clone, Copy)]
pub struct Line<'a> {
    /// The first line, without its CR LF.
    pub text: &'a [u8],
    /// What follows that.
    pub rest: &'a [u8],
}

// A text cut where its first line ends.
#[inline(always)]
fn line_at(bytes: &[u8], end: usize) -> Line<'_>
    requires { end + 2 ≤ length bytes.now }
    ensures cut { line_view result ≡ cut_at bytes.now end }
    ensures whole { length result.text.now + 2 + length result.rest.now ≡ length bytes.now }
{
    Line {
        text: &bytes[..end],
        rest: &bytes[end + 2..],
    }
}

// The payload at the front of `rest`, where the two bytes behind it are there too.
#[inline(always)]
fn payload_of(rest: &[u8], count: usize) -> Option<&[u8]>
    ensures payload { option_map (λ payload. payload.now) result
        ≡ (if nat_lt (length rest.now) (count + 2) then None else Some (take count rest.now)) }
    ensures fits { IfSome result (λ _. count + 2 ≤ length rest.now) }
{
    let room = rest.len().checked_sub(2)?;
    if count <= room {
        Some(&rest[..count])
    } else {
        None
    }
}

#[inline(always)]
fn message_text<'a>(head: &Head<'a>, payload: &'a [u8]) -> MessageText<'a>
    requires { head.now.count + length_or_0 (head_view head.now).reply + length head.now.subject.now < 2 ^ 64 }
    ensures { message_view result ≡ message_of (head_view head.now) payload.now }
{
    let reply_len = head.reply.map_or(0, |reply| reply.len());
    MessageText {
        subject: head.subject,
        reply: head.reply,
        payload,
        length: head.count + reply_len + head.subject.len(),
    }
}

#[inline(always)]
fn sight_of_message<'a>(line: &Line<'a>) -> Sight<'a>
    requires long { 4 ≤ length line.now.text.now }
    requires fits { length line.now.text.now + 2 + length line.now.rest.now < 2 ^ 63 }
    ensures { sight_view result
        ≡ message_or_bad (length line.now.text.now) line.now.rest.now (head_of (drop 4 line.now.text.now)) }
{
    let Some(head) = read_head(&line.text[4..]) else {
        return Sight::Fault(0);
    };
    let Some(payload) = payload_of(line.rest, head.count) else {
        return Sight::Unfinished;
    };
    let message = message_text(&head, payload);
    let op = OpText::Message {
        sid: head.sid,
        message,
    };
    Sight::Whole(op, line.text.len() + head.count + 4)
}

#[inline(never)]
fn sight_of_header_message<'a>(line: &Line<'a>) -> Sight<'a>
    requires long { 5 ≤ length line.now.text.now }
    requires fits { length line.now.text.now + 2 + length line.now.rest.now < 2 ^ 63 }
    ensures { sight_view result
        ≡ headed_or_bad (length line.now.text.now) line.now.rest.now (header_head_of (drop 5 line.now.text.now)) }
{
    let Some(HeaderHead { head, block_len }) = read_header_head(&line.text[5..]) else {
        return Sight::Fault(0);
    };
    let Some(body) = payload_of(line.rest, head.count) else {
        return Sight::Unfinished;
    };
    let message = message_text(&head, &body[block_len..]);
    let op = OpText::HeaderMessage {
        sid: head.sid,
        message,
        block: &body[..block_len],
    };
    Sight::Whole(op, line.text.len() + head.count + 4)
}

#[inline(never)]
fn sight_of_error(line: &[u8]) -> Sight<'_>
    requires { length line.now + 2 < 2 ^ 63 }
    ensures { sight_view result ≡ error_or_bad (length line.now + 2) (error_of line.now) }
{
    match read_error(line) {
        Some(error) => Sight::Whole(OpText::Error(error), line.len() + 2),
        None => Sight::Fault(0),
    }
}

#[inline(always)]
fn sight_of_line<'a>(line: &Line<'a>) -> Sight<'a>
    requires { length line.now.text.now + 2 + length line.now.rest.now < 2 ^ 63 }
    ensures { sight_view result
        ≡ sight_of_word (word_of line.now.text.now) line.now.text.now line.now.rest.now }
{
    match first_word(line.text) {
        Word::Message => sight_of_message(line),
        Word::HeaderMessage => sight_of_header_message(line),
        Word::Info => Sight::Whole(OpText::Info(&line.text[4..]), line.text.len() + 2),
        Word::Error => sight_of_error(line.text),
        Word::Ok => Sight::Whole(OpText::Ok, line.text.len() + 2),
        Word::Ping => Sight::Whole(OpText::Ping, line.text.len() + 2),
        Word::Pong => Sight::Whole(OpText::Pong, line.text.len() + 2),
        Word::Other => Sight::Fault(line.text.len() + 2),
    }
}

// How many bytes a line announces behind it, apart from the two that end them.
fn announced(line: &[u8]) -> Option<usize>
    ensures { IfSome result (λ count. Awaits line.now count) }
{
    match first_word(line) {
        Word::Message => Some(read_head(&line[4..])?.count),
        Word::HeaderMessage => Some(read_header_head(&line[5..])?.head.count),
        Word::Info | Word::Error | Word::Ok | Word::Ping | Word::Pong | Word::Other => None,
    }
}

/// How many bytes the operation at the front of `bytes`, whose first line ends at `end`, needs by that line; 0
/// where the line tells no number.
pub fn needed(bytes: &[u8], end: usize) -> usize
    requires fits { end + 2 ≤ length bytes.now }
    requires cut { cut_line bytes.now ≡ Some (cut_at bytes.now end) }
    ensures { Needs bytes.now result }
{
    match announced(line_at(bytes, end).text) {
        Some(count) => (end + 4).saturating_add(count),
        None => 0,
    }
}

/// What stands at the front of `bytes`, whose first line ends at `end`.
#[inline(always)]
pub fn sight_at(bytes: &[u8], end: usize) -> Sight<'_>
    requires fits { end + 2 ≤ length bytes.now }
    requires cut { cut_line bytes.now ≡ Some (cut_at bytes.now end) }
    ensures { sight_view result ≡ sight bytes.now }
{
    sight_of_line(&line_at(bytes, end))
}

/// What stands at the front of `bytes`.
pub fn sight_of(bytes: &[u8]) -> Sight<'_>
    ensures { sight_view result ≡ sight bytes.now }
{
    match memmem::find(bytes, b"\r\n") {
        Some(end) => sight_at(bytes, end),
        None => Sight::Unfinished,
    }
}
