//! What a peer is told of a message, as text.
ghost use Rattle.std.specs.Prelude.{◌≡◌, ◌++◌, Some, None, IfOk, OnOk, []};
ghost use Rattle.nats_routing.specs.Texts.{crlf, word_and_space, message_text, joined};

use crate::publication::Publication;
use itoa::Buffer as Digits;
use nats_names::{NoMemory, Seq, Subject};
use std::alloc::Global;

/// The most bytes of the other words of a line: a verb, three numbers, their spaces and two line ends.
const WORDS: usize = 80;

fn append_all(out: &mut Vec<u8>, parts: &[&[u8]]) -> Result<(), NoMemory>
    ensures { OnOk result (out.new.items ≡ out.old.items ++ joined parts.now) }
{
    for part in parts {
        out.extend_from_slice(part)?;
    }
    Ok(())
}

fn word_and_space(word: &Option<Subject>) -> (&[u8], &[u8])
    ensures { result.0.now ++ result.1.now ≡ word_and_space word.now }
{
    match word {
        Some(word) => (word.as_str().as_bytes(), b" "),
        None => (b"", b""),
    }
}

fn append_plain(out: &mut Vec<u8>, sid: u64, m: &Publication) -> Result<(), NoMemory>
    ensures { OnOk result (out.new.items
        ≡ out.old.items ++ message_text sid m.now.subject m.now.respond None m.now.payload) }
{
    let (respond, space) = word_and_space(&m.respond);
    let mut number = Digits::new();
    let number = number.format(sid).as_bytes();
    let mut count = Digits::new();
    let count = count.format(m.payload.as_slice().len()).as_bytes();
    append_all(
        out,
        &[
            b"MSG ",
            m.subject.as_str().as_bytes(),
            b" ",
            number,
            b" ",
            respond,
            space,
            count,
            b"\r\n",
            m.payload.as_slice(),
            b"\r\n",
        ],
    )
}

fn append_headed(out: &mut Vec<u8>, sid: u64, m: &Publication, block: &[u8]) -> Result<(), NoMemory>
    ensures { OnOk result (out.new.items
        ≡ out.old.items ++ message_text sid m.now.subject m.now.respond (Some block.now) m.now.payload) }
{
    let (respond, space) = word_and_space(&m.respond);
    let mut number = Digits::new();
    let number = number.format(sid).as_bytes();
    let mut header_len = Digits::new();
    let header_len = header_len.format(block.len()).as_bytes();
    let payload = m.payload.as_slice();
    let mut total = Digits::new();
    let total = total.format(block.len() + payload.len()).as_bytes();
    append_all(
        out,
        &[
            b"HMSG ",
            m.subject.as_str().as_bytes(),
            b" ",
            number,
            b" ",
            respond,
            space,
            header_len,
            b" ",
            total,
            b"\r\n",
            block,
            payload,
            b"\r\n",
        ],
    )
}

// How many bytes a text may take, at most unless it is very long; the numbers and words of its line have few.
fn room_of(m: &Publication) -> usize {
    let respond = match &m.respond {
        Some(respond) => respond.as_str().len(),
        None => 0,
    };
    let block = match &m.block {
        Some(block) => block.as_slice().len(),
        None => 0,
    };
    let words = m
        .subject
        .as_str()
        .len()
        .saturating_add(respond)
        .saturating_add(WORDS);
    words
        .saturating_add(block)
        .saturating_add(m.payload.as_slice().len())
}

/// The text of a message for the interest with the number `sid`.
///
/// # Errors
///
/// `NoMemory` for want of memory.
pub fn message_text(alloc: Global, sid: u64, m: &Publication) -> Result<Seq<u8>, NoMemory>
    ensures { IfOk result (λ t. t ≡ message_text sid m.now.subject m.now.respond m.now.block m.now.payload) }
{
    let mut text = Vec::new(alloc);
    text.reserve(room_of(m))?;
    match &m.block {
        Some(block) => append_headed(&mut text, sid, m, block.as_slice())?,
        None => append_plain(&mut text, sid, m)?,
    }
    Ok(Seq::from_vec(text))
}
