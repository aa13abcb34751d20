//! Messages without headers as nearly all come: their words are visible ASCII, with one space between them. Such a
//! line is read in one pass.
ghost use Rattle.std.specs.Prelude.{◌≡◌, ◌+◌, ◌-◌, ◌^◌, ◌<◌, ◌≤◌, ◌++◌, ◌∷◌, length, take, drop, slice_range, IfOk, IfSome, IsTrue, OnErr, Some, false, option_map};
ghost use Rattle.memchr.specs.Find.{Nowhere, Passes};
ghost use Rattle.nats_lines.specs.Operations.{number_of, length_or_0, message_of, front, got, message, takes_memory};
ghost use Rattle.nats_lines.specs.Scan.{Looked, untested};
ghost use Rattle.nats_plain.specs.Plain.{is_odd, IsWord, AreWords, Parts, line_text, plain_head};

use nats_lines::head::short_number;
use nats_lines::search::{Found, line_end};
use nats_message::{Message, plain_message};
use nats_names::{Bytes, NoMemory, Subject};
use nats_outbuf::{InBuf, Steps};
use std::sync::ledger::Ledger;

/// A word, and what follows it.
#[derive(Clone, Copy)]
pub struct PlainWord<'a> {
    pub text: &'a [u8],
    pub rest: &'a [u8],
}

/// The line of such a message by its words, and what follows the line.
#[derive(Clone, Copy)]
pub struct PlainLine<'a> {
    pub subject: &'a [u8],
    pub sid: &'a [u8],
    pub reply: Option<&'a [u8]>,
    pub count: &'a [u8],
    pub rest: &'a [u8],
}

/// The text of such a message, which is there whole if its line ends behind the last word.
#[derive(Clone, Copy)]
pub struct PlainText<'a> {
    pub line: PlainLine<'a>,
    /// The number of the subscription.
    pub sid: u64,
    /// How many bytes follow the line, but the last two.
    pub count: usize,
}

/// Such a message at the front of bytes, and how many of them it takes.
#[derive(Drop)]
pub struct Plain {
    pub sid: u64,
    pub message: Message,
    pub len: usize,
}

#[inline(always)]
fn is_odd(byte: u8) -> bool
    ensures { result ≡ is_odd byte }
{
    byte < b'!' || byte > b'~'
}

#[inline(always)]
fn word_len(text: &[u8]) -> usize
    ensures within { result ≤ length text.now }
    ensures visible { Nowhere (Passes is_odd text.now) 0 result }
{
    for i in 0..text.len() {
        if is_odd(text[i]) {
            return i;
        }
    }
    text.len()
}

#[inline(always)]
fn next_word(text: &[u8]) -> Option<PlainWord<'_>>
    ensures cut { IfSome result (λ w. text.now ≡ w.text.now ++ w.rest.now) }
    ensures word { IfSome result (λ w. IsWord w.text.now) }
{
    let len = word_len(text);
    if len == 0 {
        return None;
    }
    Some(PlainWord {
        text: &text[..len],
        rest: &text[len..],
    })
}

#[inline(always)]
fn behind_space(text: &[u8]) -> Option<&[u8]>
    ensures { IfSome result (λ rest. text.now ≡ 32 ∷ rest.now) }
{
    match text.split_first() {
        Some((b' ', rest)) => Some(rest),
        _ => None,
    }
}

#[inline(always)]
fn behind_msg(bytes: &[u8]) -> Option<&[u8]>
    ensures { IfSome result (λ rest. bytes.now ≡ 77 ∷ 83 ∷ 71 ∷ 32 ∷ rest.now) }
{
    if bytes.starts_with(b"MSG ") {
        Some(&bytes[4..])
    } else {
        None
    }
}

// The line at the front of some bytes, where it is that of such a message, up to the end of its last word.
#[inline(always)]
fn plain_line(bytes: &[u8]) -> Option<PlainLine<'_>>
    ensures cut { IfSome result (λ l. bytes.now ≡ line_text l ++ l.rest.now) }
    ensures words { IfSome result (λ l. AreWords l) }
{
    let subject = next_word(behind_msg(bytes)?)?;
    let sid = next_word(behind_space(subject.rest)?)?;
    let third = next_word(behind_space(sid.rest)?)?;
    let Some(more) = behind_space(third.rest) else {
        return Some(PlainLine {
            subject: subject.text,
            sid: sid.text,
            reply: None,
            count: third.text,
            rest: third.rest,
        });
    };
    let count = next_word(more)?;
    Some(PlainLine {
        subject: subject.text,
        sid: sid.text,
        reply: Some(third.text),
        count: count.text,
        rest: count.rest,
    })
}

// The text of such a message at the front of some bytes, where its numbers have few digits and the bytes that it
// counts are there with the four about them: CR LF, if the line ends there, and two behind.
#[inline(always)]
fn plain_text(bytes: &[u8]) -> Option<PlainText<'_>>
    ensures { IfSome result (λ t. Parts t bytes.now) }
{
    let line = plain_line(bytes)?;
    let room = line.rest.len().checked_sub(4)?;
    let sid = short_number(line.sid)?;
    let count = short_number(line.count)? as usize;
    if count > room {
        return None;
    }
    Some(PlainText { line, sid, count })
}

#[inline(always)]
fn word_in(bytes: &Bytes, at: usize, word: &[u8]) -> Result<Subject, NoMemory>
    requires small { length bytes.now < 2 ^ 63 }
    requires within { at + length word.now ≤ length bytes.now }
    requires there { slice_range bytes.now at (at + length word.now) ≡ word.now }
    requires word { IsWord word.now }
    ensures { IfOk result (λ s. s ≡ word.now) }
{
    let part = bytes.slice(at..at + word.len())?;
    Ok(Subject::from_bytes_unchecked(part))
}

#[inline(always)]
fn reply_in(bytes: &Bytes, text: &PlainText<'_>) -> Result<Option<Subject>, NoMemory>
    requires small { length bytes.now < 2 ^ 63 }
    requires parts { Parts text.now bytes.now }
    ensures { IfOk result (λ copy. copy ≡ option_map (λ t. t.now) text.now.line.reply) }
{
    match text.line.reply {
        Some(reply) => {
            let at = text.line.subject.len() + text.line.sid.len() + 6;
            Ok(Some(word_in(bytes, at, reply)?))
        }
        None => Ok(None),
    }
}

#[inline(always)]
fn payload_in(bytes: &Bytes, text: &PlainText<'_>) -> Result<Bytes, NoMemory>
    requires { Parts text.now bytes.now }
    ensures { IfOk result (λ part. part ≡ take text.now.count (drop 2 text.now.line.rest.now)) }
{
    let body = bytes.len() - text.line.rest.len() + 2;
    Ok(bytes.slice(body..body + text.count)?)
}

// How long the server counts it.
#[inline(always)]
fn length_of(text: &PlainText<'_>) -> usize
    requires { text.now.count + length_or_0 (option_map (λ t. t.now) text.now.line.reply)
        + length text.now.line.subject.now < 2 ^ 64 }
    ensures { result ≡ text.now.count + length_or_0 (option_map (λ t. t.now) text.now.line.reply)
        + length text.now.line.subject.now }
{
    let reply_len = text.line.reply.map_or(0, |reply| reply.len());
    text.count + reply_len + text.line.subject.len()
}

// The message of such a text, whose parts share the bytes.
#[inline(always)]
fn message_in(bytes: &Bytes, text: &PlainText<'_>) -> Result<Message, NoMemory>
    requires small { length bytes.now < 2 ^ 63 }
    requires parts { Parts text.now bytes.now }
    ensures { IfOk result (λ m. m
        ≡ message_of (plain_head text.now) (take text.now.count (drop 2 text.now.line.rest.now))) }
{
    let payload = payload_in(bytes, text)?;
    let subject = word_in(bytes, 4, text.line.subject)?;
    let reply = reply_in(bytes, text)?;
    Ok(plain_message(subject, reply, payload, length_of(text)))
}

/// The message at the front of kept bytes of which none was tested for the end of a line, where it is such a one,
/// stands there whole and can share the bytes; and how far the end of the first line was looked for then.
#[inline(always)]
pub fn read_plain<L: Ledger>(
    buf: &InBuf,
    found: &mut Found,
    steps: &mut Steps<L>,
) -> Result<Option<Plain>, NoMemory>
    requires fresh { (found.old.place ≡ 0) × (found.old.ended ≡ false) }
    ensures looked { Looked found.new.place found.new.ended buf.now }
    ensures paid { steps.new + untested found.new.place found.new.ended buf.now ≤ steps.old + length buf.now }
    ensures counts { steps.old ≤ steps.new }
    ensures plain { IfOk result (λ r. IfSome r (λ p. front buf.now ≡ got (message p.sid p.message) p.len)) }
    ensures fits { IfOk result (λ r. IfSome r (λ p. p.len ≤ length buf.now)) }
    ensures memory { OnErr result (IsTrue (takes_memory buf.now)) }
{
    let Some(bytes) = buf.shared() else {
        return Ok(None);
    };
    let Some(text) = plain_text(bytes.as_slice()) else {
        return Ok(None);
    };
    let end = line_end(buf, bytes.len() - text.line.rest.len(), steps);
    *found = end;
    if !end.ended {
        return Ok(None);
    }
    let message = message_in(bytes, &text)?;
    let len = end.place + text.count + 4;
    Ok(Some(Plain {
        sid: text.sid,
        message,
        len,
    }))
}
