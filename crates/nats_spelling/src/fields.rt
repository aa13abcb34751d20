//! Reading the fields of a line.
ghost use Rattle.std.specs.Prelude.{◌≡◌, ◌<◌, length, IfOk, MatchOption};
ghost use Rattle.std.specs.Option.{option_map};
ghost use Rattle.std.specs.List.{list_all};
ghost use Rattle.std.specs.Char.{is_ascii_digit};
ghost use Rattle.nats_spelling.specs.Spelling.{hex_value, escaped, letters, field_bytes, utf8_text, field_text, field_optional, field_token, has_leading_zero, is_numeral, field_number};
ghost use Rattle.nats_spelling.specs.Cut.{IsLetter};

use crate::spelling::is_plain;
use nats_names::{Bytes, NoMemory, Subject, Token};
use std::alloc::Global;
use std::str;

fn hex_value(d: u8) -> Option<u8>
    ensures { result ≡ hex_value d }
{
    match d {
        b'0'..=b'9' => Some(d - b'0'),
        b'A'..=b'F' => Some(d - b'A' + 10),
        _ => None,
    }
}

fn escaped(high: u8, low: u8) -> Option<u8>
    ensures { result ≡ escaped high low }
{
    let b = hex_value(high)? * 16 + hex_value(low)?;
    if is_plain(b) { None } else { Some(b) }
}

/// The byte that the front of a field spells, and what is left behind it; `None` where the front spells none.
fn first_letter(field: &[u8]) -> Option<(u8, &[u8])>
    requires { 0 < length field.now }
    ensures { MatchOption result (letters field.now ≡ None) (λ found. IsLetter field.now found.0 found.1.now) }
{
    match field {
        [b'%', high, low, more @ ..] => Some((escaped(*high, *low)?, more)),
        [b, more @ ..] if is_plain(*b) => Some((*b, more)),
        _ => None,
    }
}

fn letters(alloc: Global, field: &[u8]) -> Result<Option<Vec<u8>>, NoMemory>
    ensures { IfOk result (λ b. option_map (λ v. v.items) b ≡ letters field.now) }
{
    let mut bytes = Vec::new(alloc);
    let mut rest = field;
    while !rest.is_empty() {
        let Some((b, more)) = first_letter(rest) else {
            return Ok(None);
        };
        bytes.push(b)?;
        rest = more;
    }
    Ok(Some(bytes))
}

/// The bytes that a field spells; `None` where it spells none.
pub fn field_bytes(alloc: Global, field: &[u8]) -> Result<Option<Vec<u8>>, NoMemory>
    ensures { IfOk result (λ b. option_map (λ v. v.items) b ≡ field_bytes field.now) }
{
    match field {
        [] => Ok(None),
        [b'%'] => Ok(Some(Vec::new(alloc))),
        _ => letters(alloc, field),
    }
}

/// The bytes that a field of a line spells, in a buffer that copies share; `None` where it spells none. Each text has
/// one spelling: bytes from `!` to `}` but `%` stand for themselves, another is `%` and two hexadecimal digits in upper
/// case, and the empty text is `%` alone.
///
/// # Errors
///
/// `NoMemory` for want of memory.
pub fn bytes_field(alloc: Global, field: &[u8]) -> Result<Option<Bytes>, NoMemory>
    ensures { IfOk result (λ b. b ≡ field_bytes field.now) }
{
    match field_bytes(alloc, field)? {
        Some(bytes) => Ok(Some(Bytes::from_vec(bytes)?)),
        None => Ok(None),
    }
}

fn utf8_text(alloc: Global, bytes: &[u8]) -> Result<Option<Subject>, NoMemory>
    ensures { IfOk result (λ s. s ≡ utf8_text bytes.now) }
{
    match str::from_utf8(bytes) {
        Ok(text) => Ok(Some(Subject::from_text(alloc, text)?)),
        Err(_) => Ok(None),
    }
}

/// The text that a field spells, as a subject; `None` where it spells no UTF-8 text.
pub fn field_text(alloc: Global, field: &[u8]) -> Result<Option<Subject>, NoMemory>
    ensures { IfOk result (λ s. s ≡ field_text field.now) }
{
    match field_bytes(alloc, field)? {
        Some(bytes) => utf8_text(alloc, bytes.as_slice()),
        None => Ok(None),
    }
}

/// The text that a field spells, as a subject, or none where the field is `~`; `None` where it spells no UTF-8 text.
pub fn field_optional(alloc: Global, field: &[u8]) -> Result<Option<Option<Subject>>, NoMemory>
    ensures { IfOk result (λ s. s ≡ field_optional field.now) }
{
    if field == b"~".as_slice() {
        return Ok(Some(None));
    }
    Ok(field_text(alloc, field)?.map(Some))
}

/// The token that a field spells; `None` where it spells none.
pub fn field_token(alloc: Global, field: &[u8]) -> Result<Option<Token>, NoMemory>
    ensures { IfOk result (λ t. t ≡ field_token field.now) }
{
    let Some(text) = field_text(alloc, field)? else {
        return Ok(None);
    };
    Ok(Token::new(text.as_str()))
}

fn has_leading_zero(field: &[u8]) -> bool
    ensures { result ≡ has_leading_zero field.now }
{
    matches!(field, [b'0', _, ..])
}

fn are_digits(field: &[u8]) -> bool
    ensures { result ≡ list_all is_ascii_digit field.now }
{
    field.iter().all(|b| b.is_ascii_digit())
}

fn is_numeral(field: &[u8]) -> bool
    ensures { result ≡ is_numeral field.now }
{
    !field.is_empty() && !has_leading_zero(field) && are_digits(field)
}

/// The number that a field spells: decimal without a leading zero, below 2^64.
pub fn field_number(field: &[u8]) -> Option<u64>
    ensures { result ≡ field_number field.now }
{
    if !is_numeral(field) {
        return None;
    }
    match str::from_utf8(field) {
        Ok(text) => text.parse().ok(),
        Err(_) => None,
    }
}
