//! Finds what stands at the front of a text. It takes no memory.
ghost use Rattle.std.specs.Prelude.{◌≡◌, ◌+◌, ◌^◌, ◌<◌, ◌≤◌, length};
ghost use Rattle.nats_client_text.specs.Grammar.{line_of, body_of, text_of, sight_of_body, sight_of_line, sight};
ghost use Rattle.nats_client_text.specs.Code.{now_of, op_text_view, publishes_view, body_view, sight_view, BlockFits, BodyCounts};

use crate::cut::{CutText, cut};
use crate::line::{Line, OpText, Publishes, line_of};

/// A counted body: not there whole, there without the CR LF that belongs behind it, or there.
#[derive(Clone, Copy)]
pub enum Body<'a> {
    Short,
    Torn,
    Whole(&'a [u8]),
}

/// What stands at the front of a text: less than a command, the text of one and how many bytes it takes, or what is
/// none.
#[derive(Clone, Copy)]
pub enum Sight<'a> {
    Unfinished,
    Whole(OpText<'a>, usize),
    Bad,
}

fn body_of(rest: &[u8], count: usize) -> Body<'_>
    ensures body { body_view result ≡ body_of count rest.now }
    ensures counted { BodyCounts result count (length rest.now) }
{
    let Some(room) = rest.len().checked_sub(2) else {
        return Body::Short;
    };
    if room < count {
        return Body::Short;
    }
    if rest[count..].starts_with(b"\r\n") {
        Body::Whole(&rest[..count])
    } else {
        Body::Torn
    }
}

fn text_of<'a>(p: &Publishes<'a>, body: &'a [u8]) -> OpText<'a>
    requires { BlockFits p.now.block_len (length body.now) }
    ensures { op_text_view result ≡ text_of p.now.subject.now (now_of p.now.respond) p.now.block_len body.now }
{
    match p.block_len {
        Some(block_len) => OpText::Publish {
            subject: p.subject,
            respond: p.respond,
            block: Some(&body[..block_len]),
            payload: &body[block_len..],
        },
        None => OpText::Publish {
            subject: p.subject,
            respond: p.respond,
            block: None,
            payload: body,
        },
    }
}

fn sight_of_body<'a>(p: &Publishes<'a>, end: usize, rest: &'a [u8]) -> Sight<'a>
    requires block { BlockFits p.now.block_len p.now.count }
    requires fits { end + length rest.now < 2 ^ 63 }
    ensures { sight_view result ≡ sight_of_body (publishes_view p.now) end (body_of p.now.count rest.now) }
{
    match body_of(rest, p.count) {
        Body::Short => Sight::Unfinished,
        Body::Torn => Sight::Bad,
        Body::Whole(body) => Sight::Whole(text_of(p, body), end + p.count + 2),
    }
}

fn sight_of_line<'a>(text: &CutText<'a>) -> Sight<'a>
    requires { length text.now.line.now + 2 + length text.now.rest.now < 2 ^ 63 }
    ensures { sight_view result
        ≡ sight_of_line (length text.now.line.now + 2) text.now.rest.now (line_of text.now.line.now) }
{
    let end = text.line.len() + 2;
    match line_of(text.line) {
        Some(Line::Alone(op)) => Sight::Whole(op, end),
        Some(Line::Counted(p)) => sight_of_body(&p, end, text.rest),
        None => Sight::Bad,
    }
}

/// What stands at the front of `text`.
pub fn sight_of(text: &[u8]) -> Sight<'_>
    ensures { sight_view result ≡ sight text.now }
{
    match cut(text) {
        Some(cut) => sight_of_line(&cut),
        None => Sight::Unfinished,
    }
}
