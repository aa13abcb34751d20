//! What the line of a message says.
ghost use Rattle.std.specs.Prelude.{◌≡◌, ◌≤◌, IfSome, option_map};
ghost use Rattle.std.specs.Str.Iter.{split_whitespace_rest};
ghost use Rattle.memchr.specs.Find.{IsFirstByte, is_byte};
ghost use Rattle.nats_lines.specs.Operations.{number_of, pieces_of, head_with, head_of_pieces, head_of, words_of, with_block_len, header_head_of_words, header_head_of};
ghost use Rattle.nats_lines.specs.Heads.{head_view, header_head_view, pieces_from, words_from};

use memchr::memchr;
use std::str;
use std::str::SplitWhitespace;

/// Up to this length a text is searched byte by byte. Own choice.
const SHORT: usize = 24;

/// Below this a number has room for one more digit.
const SHORT_NUMBER: u64 = 1_000_000_000_000_000_000;

/// A text cut behind its first piece that isn't empty, where pieces stand between spaces.
#[derive(Clone, Copy)]
pub struct Piece<'a> {
    pub text: &'a str,
    /// What follows the piece, and the space behind it.
    pub rest: &'a str,
}

/// What the line of a message says.
#[derive(Clone, Copy)]
pub struct Head<'a> {
    pub subject: &'a str,
    pub sid: u64,
    pub reply: Option<&'a str>,
    /// The number of bytes that follow the line, but the last two.
    pub count: usize,
}

/// What the line of a message with headers says.
#[derive(Clone, Copy)]
pub struct HeaderHead<'a> {
    /// Its head, which counts the header block with the payload.
    pub head: Head<'a>,
    /// The length of the header block in bytes, at most that count.
    pub block_len: usize,
}

// The number of a text of digits, where it fits whatever the next digit is; `None` tells nothing.
#[inline(always)]
pub fn short_number(text: &[u8]) -> Option<u64>
    ensures { IfSome result (λ n. number_of text.now ≡ Some n) }
{
    if text.is_empty() {
        return None;
    }
    let mut n = 0;
    for i in 0..text.len() {
        let byte = text[i];
        if byte < b'0' || b'9' < byte || SHORT_NUMBER <= n {
            return None;
        }
        n = n * 10 + (byte - b'0') as u64;
    }
    Some(n)
}

#[inline(always)]
fn number(text: &str) -> Option<u64>
    ensures { result ≡ number_of text.now }
{
    match short_number(text.as_bytes()) {
        Some(n) => Some(n),
        None => text.parse().ok(),
    }
}

// Where the first space stands. A long text is searched many bytes at a time, a short one byte by byte.
#[inline(always)]
fn first_space(text: &[u8]) -> Option<usize>
    ensures { IsFirstByte (is_byte 32) text.now result }
{
    if text.len() > SHORT {
        return memchr(b' ', text);
    }
    for i in 0..text.len() {
        if text[i] == b' ' {
            return Some(i);
        }
    }
    None
}

#[inline(always)]
fn next_piece(text: &str) -> Option<Piece<'_>>
    ensures { pieces_from result ≡ pieces_of text.now }
{
    let mut left = text;
    while let Some(at) = first_space(left.as_bytes()) {
        let rest = &left[at + 1..];
        if at > 0 {
            return Some(Piece {
                text: &left[..at],
                rest,
            });
        }
        left = rest;
    }
    if left.is_empty() {
        None
    } else {
        Some(Piece {
            text: left,
            rest: "",
        })
    }
}

#[inline(always)]
fn head_with<'a>(
    subject: &'a str,
    reply: Option<&'a str>,
    sid: &str,
    count: &str,
) -> Option<Head<'a>>
    ensures { option_map head_view result
        ≡ head_with subject.now (option_map (λ text. text.now) reply.entry) (number_of sid.now) (number_of count.now) }
{
    Some(Head {
        subject,
        sid: number(sid)?,
        reply,
        count: number(count)? as usize,
    })
}

#[inline(always)]
fn head_of_text(text: &str) -> Option<Head<'_>>
    ensures { option_map head_view result ≡ head_of_pieces (pieces_of text.now) }
{
    let subject = next_piece(text)?;
    let sid = next_piece(subject.rest)?;
    let third = next_piece(sid.rest)?;
    let Some(fourth) = next_piece(third.rest) else {
        return head_with(subject.text, None, sid.text, third.text);
    };
    if next_piece(fourth.rest).is_some() {
        return None;
    }
    head_with(subject.text, Some(third.text), sid.text, fourth.text)
}

/// What the line of a message says behind its first word, in pieces between spaces.
#[inline(always)]
pub fn read_head(text: &[u8]) -> Option<Head<'_>>
    ensures { option_map head_view result ≡ head_of text.now }
{
    match str::from_utf8(text) {
        Ok(text) => head_of_text(text),
        Err(_) => None,
    }
}

fn next_word<'a>(words: &mut SplitWhitespace<'a>) -> Option<&'a str>
    ensures { words_from result (split_whitespace_rest words.new) ≡ words_of (split_whitespace_rest words.old) }
{
    words.next()
}

fn with_block_len<'a>(block_len: &str, head: Option<Head<'a>>) -> Option<HeaderHead<'a>>
    ensures head { option_map header_head_view result
        ≡ with_block_len (number_of block_len.now) (option_map head_view head.entry) }
    ensures within { IfSome result (λ h. h.block_len ≤ h.head.count) }
{
    let block_len = number(block_len)? as usize;
    let head = head?;
    if head.count < block_len {
        return None;
    }
    Some(HeaderHead { head, block_len })
}

fn header_head_of_text(text: &str) -> Option<HeaderHead<'_>>
    ensures head { option_map header_head_view result ≡ header_head_of_words (words_of text.now) }
    ensures within { IfSome result (λ h. h.block_len ≤ h.head.count) }
{
    let mut words = text.split_whitespace();
    let subject = next_word(&mut words)?;
    let sid = next_word(&mut words)?;
    let third = next_word(&mut words)?;
    let fourth = next_word(&mut words)?;
    let Some(fifth) = next_word(&mut words) else {
        return with_block_len(third, head_with(subject, None, sid, fourth));
    };
    if next_word(&mut words).is_some() {
        return None;
    }
    with_block_len(fourth, head_with(subject, Some(third), sid, fifth))
}

/// What the line of a message with headers says behind its first word, in words between white space.
pub fn read_header_head(text: &[u8]) -> Option<HeaderHead<'_>>
    ensures head { option_map header_head_view result ≡ header_head_of text.now }
    ensures within { IfSome result (λ h. h.block_len ≤ h.head.count) }
{
    match str::from_utf8(text) {
        Ok(text) => header_head_of_text(text),
        Err(_) => None,
    }
}
