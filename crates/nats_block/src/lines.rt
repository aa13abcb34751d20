//! Cuts a text into lines, and joins those that go on with a value.
ghost use Rattle.std.specs.Prelude.{◌≡◌, ◌<◌, ◌++◌, option_map, IfOk, string_bytes};
ghost use Rattle.std.specs.Str.Lines.{lines, strip_carriage_return};
ghost use Rattle.nats_block.specs.Lines.{cut_at, goes_on, joined};
ghost use Rattle.nats_block.specs.Code.{lines_from, past_joined, JoinedFrom};

use memchr::memchr;
use nats_names::NoMemory;
use std::alloc::Global;

// A text is cut behind its lines one by one, so that no list of them is made.

/// A text cut behind its first line.
#[derive(Clone, Copy)]
pub struct Line<'a> {
    /// The first line, without the LF that ends it and a CR before that.
    pub text: &'a str,
    /// What follows it.
    pub rest: &'a str,
}

/// A value that goes on in further lines.
#[derive(Drop)]
pub struct Joined<'a> {
    pub text: String,
    /// What follows the last of its lines.
    pub rest: &'a str,
}

/// A text cut at its first `mark`, which is in neither part, `None` where it has none.
#[inline(always)]
pub fn cut_at(text: &str, mark: u8) -> Option<(&str, &str)>
    requires { mark < 128 }
    ensures { option_map (λ cut. (cut.0.now, cut.1.now)) result ≡ cut_at mark text.now }
{
    match memchr(mark, text.as_bytes()) {
        Some(at) => Some((&text[..at], &text[at + 1..])),
        None => None,
    }
}

#[inline(always)]
fn without_cr(line: &str) -> &str
    ensures { result.now ≡ strip_carriage_return line.now }
{
    match line.strip_suffix('\r') {
        Some(line) => line,
        None => line,
    }
}

/// The first line of a text and what follows it, `None` where the text is empty.
#[inline(always)]
pub fn next_line(text: &str) -> Option<Line<'_>>
    ensures { lines_from result ≡ lines text.now }
{
    match memchr(b'\n', text.as_bytes()) {
        Some(at) => Some(Line {
            text: without_cr(&text[..at]),
            rest: &text[at + 1..],
        }),
        None if text.is_empty() => None,
        None => Some(Line { text, rest: "" }),
    }
}

/// Whether a line goes on with the value before it.
#[inline(always)]
fn goes_on(line: &str) -> bool
    ensures { result ≡ goes_on line.now }
{
    match line.chars().next() {
        Some(first) => first.is_whitespace(),
        None => false,
    }
}

/// The first line of a text and what follows it, where that line goes on with the value before it.
#[inline(always)]
pub fn next_joined(text: &str) -> Option<Line<'_>>
    ensures { JoinedFrom result (lines text.now) }
{
    let line = next_line(text)?;
    if goes_on(line.text) { Some(line) } else { None }
}

/// The text `start` and the lines at the front of `text` that go on with it.
#[inline(never)]
pub fn join<'a>(alloc: Global, start: &str, text: &'a str) -> Result<Joined<'a>, NoMemory>
    ensures text { IfOk result (λ all. string_bytes all.text ≡ start.now ++ joined (lines text.now)) }
    ensures rest { IfOk result (λ all. lines all.rest.now ≡ past_joined (lines text.now)) }
{
    let mut all = String::new(alloc);
    all.push_str(start)?;
    let mut rest = text;
    while let Some(line) = next_joined(rest) {
        all.push_str(line.text)?;
        rest = line.rest;
    }
    Ok(Joined { text: all, rest })
}
