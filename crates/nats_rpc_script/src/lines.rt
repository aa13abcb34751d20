//! The lines of a script. Those that ask and poll have the forms of lines that publish and limit, so the whole is read
//! as a script of those, and beside it stands what each line asks for.
ghost use Rattle.std.specs.Prelude.{◌≡◌, ◌∷◌, ◌++◌, ◌<◌, [], length, map, IfSome, OnOk, IfOk, MatchOption};
ghost use Rattle.std.specs.List.{flat_map};
ghost use Rattle.std.specs.Option.{IfNone, option_copied};
ghost use Rattle.nats_spelling.specs.Cut.{parts_behind, IsFirstLine, parts_at, lines_of};
ghost use Rattle.nats_spelling.specs.Lines.{lf};
ghost use Rattle.nats_rpc_script.specs.declared.lines.Kind.TheVariants as kinds;
ghost use Rattle.nats_rpc_script.specs.Lines.{before, behind, is_callers_own, kind_of_word, kind_of, fields_in, turned_as, turned, text_of, kinds_of};

use memchr::memchr;
use nats_names::NoMemory;
use std::alloc::Global;

/// What a line asks for.
#[derive(Clone, Copy, Debug, Drop, PartialEq, Eq)]
pub enum Kind {
    /// A turn of the core.
    Turn,
    /// `ask S B`: a call to a subject with a payload.
    Ask,
    /// `poll c NOW`: a poll of the call of a number, at a time in milliseconds.
    Poll,
}

/// A script whose lines are those of turns alone, and what each of its lines behind the first asks for.
#[derive(Drop)]
pub struct Lines {
    pub text: Vec<u8>,
    pub kinds: Vec<Kind>,
}

/// What stands before the first `byte` of a text, and what stands behind it where one comes.
fn cut(text: &[u8], byte: u8) -> (&[u8], Option<&[u8]>)
    ensures parts { parts_at byte text.now ≡ result.0.now ∷ parts_behind byte (option_copied result.1) }
    ensures front { result.0.now ≡ before byte text.now }
    ensures rest { option_copied result.1 ≡ behind byte text.now }
    ensures whole { IfNone result.1 (result.0.now ≡ text.now) }
    ensures shorter { IfSome result.1 (λ rest. length rest.now < length text.now) }
{
    match memchr(byte, text) {
        Some(end) => (&text[..end], Some(&text[end + 1..])),
        None => (text, None),
    }
}

/// The first line of a text, and the lines behind it; `None` where the text is empty.
fn first_line(text: &[u8]) -> Option<(&[u8], &[u8])>
    ensures { MatchOption result (lines_of text.now ≡ []) (λ found. IsFirstLine text.now found.0.now found.1.now) }
{
    if text.is_empty() {
        return None;
    }
    let (line, rest) = cut(text, b'\n');
    match rest {
        Some(rest) => Some((line, rest)),
        None => Some((line, &[])),
    }
}

/// The lines of requests and deadlines are the caller's own, and none of a script's.
fn is_callers_own(word: &[u8]) -> bool
    ensures { result ≡ is_callers_own word.now }
{
    word == b"request".as_slice()
        || word == b"hrequest".as_slice()
        || word == b"deadline".as_slice()
}

fn kind_of_word(word: &[u8]) -> Kind
    ensures { result ≡ kind_of_word word.now }
{
    if word == b"ask".as_slice() {
        Kind::Ask
    } else if word == b"poll".as_slice() {
        Kind::Poll
    } else {
        Kind::Turn
    }
}

/// What a line asks for.
fn kind_of(line: &[u8]) -> Kind
    ensures { result ≡ kind_of line.now }
{
    let (word, fields) = cut(line, b' ');
    match fields {
        Some(_) => kind_of_word(word),
        None => Kind::Turn,
    }
}

/// What stands behind a line's first space.
fn fields_in(line: &[u8]) -> &[u8]
    ensures { result.now ≡ fields_in line.now }
{
    let (_, fields) = cut(line, b' ');
    match fields {
        Some(fields) => fields,
        None => &[],
    }
}

/// A text behind another.
fn push_two(out: &mut Vec<u8>, first: &[u8], second: &[u8]) -> Result<(), NoMemory>
    ensures { OnOk result (out.new.items ≡ out.old.items ++ (first.now ++ second.now)) }
{
    out.extend_from_slice(first)?;
    out.extend_from_slice(second)?;
    Ok(())
}

/// `ask S B` as `pub S ~ B`.
fn push_ask(out: &mut Vec<u8>, line: &[u8]) -> Result<(), NoMemory>
    ensures { OnOk result (out.new.items ≡ out.old.items ++ turned_as kinds.Ask line.now) }
{
    let (subject, payload) = cut(fields_in(line), b' ');
    push_two(out, b"pub ", subject)?;
    match payload {
        Some(payload) => push_two(out, b" ~ ", payload),
        None => Ok(()),
    }
}

/// `poll c NOW` as `limit c NOW`.
fn push_poll(out: &mut Vec<u8>, line: &[u8]) -> Result<(), NoMemory>
    ensures { OnOk result (out.new.items ≡ out.old.items ++ turned_as kinds.Poll line.now) }
{
    push_two(out, b"limit ", fields_in(line))
}

/// A line of a turn stays as it is; one that is none of a script is left empty, which cannot be read.
fn push_turn(out: &mut Vec<u8>, line: &[u8]) -> Result<(), NoMemory>
    ensures { OnOk result (out.new.items ≡ out.old.items ++ turned_as kinds.Turn line.now) }
{
    let (word, _) = cut(line, b' ');
    if is_callers_own(word) {
        return Ok(());
    }
    out.extend_from_slice(line)?;
    Ok(())
}

fn push_as(out: &mut Vec<u8>, kind: Kind, line: &[u8]) -> Result<(), NoMemory>
    ensures { OnOk result (out.new.items ≡ out.old.items ++ turned_as kind line.now) }
{
    match kind {
        Kind::Turn => push_turn(out, line),
        Kind::Ask => push_ask(out, line),
        Kind::Poll => push_poll(out, line),
    }
}

/// A line as a script of turns has it, and what it asks for.
fn push_line(out: &mut Vec<u8>, kinds: &mut Vec<Kind>, line: &[u8]) -> Result<(), NoMemory>
    ensures text { OnOk result (out.new.items ≡ out.old.items ++ turned line.now) }
    ensures kinds { OnOk result (kinds.new.items ≡ kinds.old.items ++ kind_of line.now ∷ []) }
{
    let kind = kind_of(line);
    push_as(out, kind, line)?;
    out.push(b'\n')?;
    kinds.push(kind)?;
    Ok(())
}

fn push_lines(out: &mut Vec<u8>, kinds: &mut Vec<Kind>, lines: &[u8]) -> Result<(), NoMemory>
    ensures text { OnOk result (out.new.items ≡ out.old.items ++ flat_map turned (lines_of lines.now)) }
    ensures kinds { OnOk result (kinds.new.items ≡ kinds.old.items ++ map kind_of (lines_of lines.now)) }
{
    let mut rest = lines;
    'lines: while let Some((line, more)) = first_line(rest) {
        push_line(out, kinds, line)?;
        rest = more;
    }
    Ok(())
}

/// The lines of a script.
pub fn read_lines(alloc: Global, bytes: &[u8]) -> Result<Lines, NoMemory>
    ensures text { IfOk result (λ lines. lines.text.items ≡ text_of bytes.now) }
    ensures kinds { IfOk result (λ lines. lines.kinds.items ≡ kinds_of bytes.now) }
{
    let mut text = Vec::new(alloc);
    let mut kinds = Vec::new(alloc);
    if let Some((settings, turns)) = first_line(bytes) {
        text.extend_from_slice(settings)?;
        text.push(b'\n')?;
        push_lines(&mut text, &mut kinds, turns)?;
    }
    Ok(Lines { text, kinds })
}
