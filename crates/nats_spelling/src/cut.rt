//! Cutting text at a byte.
ghost use Rattle.std.specs.Prelude.{◌≡◌, ◌∷◌, ◌<◌, [], length, IfSome, MatchOption};
ghost use Rattle.std.specs.Option.{IfNone};
ghost use Rattle.std.specs.Option.{option_copied};
ghost use Rattle.nats_spelling.specs.Cut.{parts_at, lines_of, fields_of, only, parts_behind, IsFirstLine};

use memchr::memchr;

/// What stands before the first `byte` of a text, and what stands behind it; no second part where no such byte comes.
pub fn cut(text: &[u8], byte: u8) -> (&[u8], Option<&[u8]>)
    ensures parts { parts_at byte text.now ≡ result.0.now ∷ parts_behind byte (option_copied result.1) }
    ensures whole { IfNone result.1 (result.0.now ≡ text.now) }
    ensures shorter { IfSome result.1 (λ rest. length rest.now < length text.now) }
{
    match memchr(byte, text) {
        Some(end) => (&text[..end], Some(&text[end + 1..])),
        None => (text, None),
    }
}

/// The first line of a text without its line feed, and the text of the lines behind it; `None` where the text is empty.
pub fn first_line(text: &[u8]) -> Option<(&[u8], &[u8])>
    ensures { MatchOption result (lines_of text.now ≡ []) (λ found. IsFirstLine text.now found.0.now found.1.now) }
{
    if text.is_empty() {
        return None;
    }
    let (line, rest) = cut(text, b'\n');
    match rest {
        Some(rest) => Some((line, rest)),
        None => Some((line, &[])),
    }
}

/// The one field that is left of a line, where it is the only one: `fields` is what is left, its fields between single
/// spaces.
pub fn only(fields: Option<&[u8]>) -> Option<&[u8]>
    ensures { option_copied result ≡ only (parts_behind 32 (option_copied fields.entry)) }
{
    let (field, more) = cut(fields?, b' ');
    match more {
        None => Some(field),
        Some(_) => None,
    }
}
