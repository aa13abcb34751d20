//! What the line of a command says.
ghost use Rattle.std.specs.Prelude.{◌≡◌, IfSome, None, Some, option_map, if◌then◌else◌};
ghost use Rattle.std.specs.List.{list_all};
ghost use Rattle.nats_names.specs.Names.{is_publishable};
ghost use Rattle.nats_client_text.specs.Pieces.{pieces_of, plain_number};
ghost use Rattle.nats_client_text.specs.Grammar.{bare, unsubscription, subscribed, subscription, with_payload, publication, with_block, header_publication, line_of_word, line_of_pieces, line_of};
ghost use Rattle.nats_client_text.specs.Code.{now_of, pieces_left, op_text_view, line_view, BlockWithin};

use crate::pieces::{Word, are_pieces, next_piece, number, word_of};
use std::str;

/// A `ClientOp` in the text that it is read from.
#[derive(Clone, Copy)]
pub enum OpText<'a> {
    Ping,
    Pong,
    Unsubscribe {
        sid: u64,
        max: Option<u64>,
    },
    Subscribe {
        sid: u64,
        subject: &'a str,
        queue_group: Option<&'a str>,
    },
    Publish {
        subject: &'a str,
        respond: Option<&'a str>,
        /// With headers, what is still to be read as their block.
        block: Option<&'a [u8]>,
        payload: &'a [u8],
    },
}

/// What the line of a publish says.
#[derive(Clone, Copy)]
pub struct Publishes<'a> {
    pub subject: &'a str,
    pub respond: Option<&'a str>,
    /// With headers, the length of their block in bytes, at most the body's.
    pub block_len: Option<usize>,
    /// The length of the body in bytes.
    pub count: usize,
}

/// What a line says: a command of its own, or one with a body.
#[derive(Clone, Copy)]
pub enum Line<'a> {
    Alone(OpText<'a>),
    Counted(Publishes<'a>),
}

fn bare<'a>(op: OpText<'a>, left: Option<&str>) -> Option<Line<'a>>
    ensures { option_map line_view result ≡ bare (op_text_view op.entry) (pieces_left left.entry) }
{
    match next_piece(left) {
        Some(_) => None,
        None => Some(Line::Alone(op)),
    }
}

fn unsubscription(left: Option<&str>) -> Option<Line<'_>>
    ensures { option_map line_view result ≡ unsubscription (pieces_left left.entry) }
{
    let sid = next_piece(left)?;
    let Some(max) = next_piece(sid.left) else {
        let sid = number(sid.text)?;
        return Some(Line::Alone(OpText::Unsubscribe { sid, max: None }));
    };
    if next_piece(max.left).is_some() {
        return None;
    }
    let sid = number(sid.text)?;
    let max = Some(number(max.text)?);
    Some(Line::Alone(OpText::Unsubscribe { sid, max }))
}

fn subscribed<'a>(subject: &'a str, queue_group: Option<&'a str>, sid: &str) -> Option<Line<'a>>
    ensures { option_map line_view result ≡ subscribed subject.now (now_of queue_group.entry) (plain_number sid.now) }
{
    Some(Line::Alone(OpText::Subscribe {
        sid: number(sid)?,
        subject,
        queue_group,
    }))
}

fn subscription(left: Option<&str>) -> Option<Line<'_>>
    ensures { option_map line_view result ≡ subscription (pieces_left left.entry) }
{
    let subject = next_piece(left)?;
    let second = next_piece(subject.left)?;
    let Some(third) = next_piece(second.left) else {
        return subscribed(subject.text, None, second.text);
    };
    if next_piece(third.left).is_some() {
        return None;
    }
    subscribed(subject.text, Some(second.text), third.text)
}

fn with_payload<'a>(subject: &'a str, respond: Option<&'a str>, count: &str) -> Option<Line<'a>>
    ensures line { option_map line_view result ≡ with_payload subject.now (now_of respond.entry) (plain_number count.now) }
    ensures within { IfSome result BlockWithin }
{
    Some(Line::Counted(Publishes {
        subject,
        respond,
        block_len: None,
        count: number(count)? as usize,
    }))
}

fn publication(left: Option<&str>) -> Option<Line<'_>>
    ensures line { option_map line_view result ≡ publication (pieces_left left.entry) }
    ensures within { IfSome result BlockWithin }
{
    let subject = next_piece(left)?;
    let second = next_piece(subject.left)?;
    let Some(third) = next_piece(second.left) else {
        return with_payload(subject.text, None, second.text);
    };
    if next_piece(third.left).is_some() {
        return None;
    }
    with_payload(subject.text, Some(second.text), third.text)
}

fn with_block<'a>(
    subject: &'a str,
    respond: Option<&'a str>,
    block_len: &str,
    total: &str,
) -> Option<Line<'a>>
    ensures line { option_map line_view result
        ≡ with_block subject.now (now_of respond.entry) (plain_number block_len.now) (plain_number total.now) }
    ensures within { IfSome result BlockWithin }
{
    let block_len = number(block_len)? as usize;
    let count = number(total)? as usize;
    if count < block_len {
        return None;
    }
    Some(Line::Counted(Publishes {
        subject,
        respond,
        block_len: Some(block_len),
        count,
    }))
}

fn header_publication(left: Option<&str>) -> Option<Line<'_>>
    ensures line { option_map line_view result ≡ header_publication (pieces_left left.entry) }
    ensures within { IfSome result BlockWithin }
{
    let subject = next_piece(left)?;
    let second = next_piece(subject.left)?;
    let third = next_piece(second.left)?;
    let Some(fourth) = next_piece(third.left) else {
        return with_block(subject.text, None, second.text, third.text);
    };
    if next_piece(fourth.left).is_some() {
        return None;
    }
    with_block(subject.text, Some(second.text), third.text, fourth.text)
}

fn line_of_word(word: Word, left: Option<&str>) -> Option<Line<'_>>
    ensures line { option_map line_view result ≡ line_of_word word (pieces_left left.entry) }
    ensures within { IfSome result BlockWithin }
{
    match word {
        Word::Ping => bare(OpText::Ping, left),
        Word::Pong => bare(OpText::Pong, left),
        Word::Unsubscribe => unsubscription(left),
        Word::Subscribe => subscription(left),
        Word::Publish => publication(left),
        Word::HeaderPublish => header_publication(left),
        Word::Other => None,
    }
}

fn line_of_pieces(line: &str) -> Option<Line<'_>>
    ensures line { option_map line_view result ≡ line_of_pieces (pieces_of line.now) }
    ensures within { IfSome result BlockWithin }
{
    let first = next_piece(Some(line))?;
    line_of_word(word_of(first.text), first.left)
}

fn line_of_text(line: &str) -> Option<Line<'_>>
    ensures line { option_map line_view result
        ≡ (if list_all is_publishable (pieces_of line.now) then line_of_pieces (pieces_of line.now) else None) }
    ensures within { IfSome result BlockWithin }
{
    if are_pieces(line) {
        line_of_pieces(line)
    } else {
        None
    }
}

/// What a line says.
pub fn line_of(line: &[u8]) -> Option<Line<'_>>
    ensures line { option_map line_view result ≡ line_of line.now }
    ensures within { IfSome result BlockWithin }
{
    match str::from_utf8(line) {
        Ok(line) => line_of_text(line),
        Err(_) => None,
    }
}
