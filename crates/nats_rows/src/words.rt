//! Bytes as one word of a line: 0x21 to 0x7D but `%` stand for themselves, any other is `%` and two digits, the
//! empty text is `%`, and `~` is an absent one.
use crate::fault::Bad;
use bytes::Bytes;
use percent_encoding::{AsciiSet, CONTROLS, percent_decode, percent_encode};
use std::alloc::{AllocError, Global};

/// The word of no bytes.
const NOTHING: &str = "%";

/// The bytes below 0x80 that are spelled by their number.
fn spelled() -> AsciiSet {
    CONTROLS.add(b' ').add(b'%').add(b'~')
}

/// Appends the bytes as a word.
pub fn push_bytes(out: &mut String, bytes: &[u8]) -> Result<(), AllocError> {
    if bytes.is_empty() {
        out.push_str(NOTHING)?;
    }
    percent_encode(bytes, spelled()).append_to(out)
}

/// Appends a space and the bytes as a word.
pub fn push_word(out: &mut String, bytes: &[u8]) -> Result<(), AllocError> {
    out.push(' ')?;
    push_bytes(out, bytes)
}

/// Appends the text as a word, where it is there, and else `~`.
pub fn push_optional(out: &mut String, text: Option<&str>) -> Result<(), AllocError> {
    match text {
        Some(text) => push_bytes(out, text.as_bytes()),
        None => out.push('~'),
    }
}

/// The bytes that a word spells.
pub fn spelled_bytes(alloc: Global, word: &str) -> Result<Vec<u8>, AllocError> {
    let mut bytes = Vec::new(alloc);
    if word != NOTHING {
        percent_decode(word.as_bytes()).append_to(&mut bytes)?;
    }
    Ok(bytes)
}

/// The bytes that a word spells, to be shared.
pub fn payload_of(alloc: Global, word: &str) -> Result<Bytes, Bad> {
    let bytes = spelled_bytes(alloc, word)?;
    Ok(Bytes::from_vec(bytes)?)
}

/// The text that a word spells.
pub fn string_of(alloc: Global, word: &str) -> Result<String, Bad> {
    let bytes = spelled_bytes(alloc, word)?;
    let text = str::from_utf8(bytes.as_slice()).map_err(|_| Bad::Form)?;
    Ok(String::from_str(alloc, text)?)
}

/// The number that a word is in decimal.
pub fn number_of(word: &str) -> Result<u64, Bad> {
    word.parse().map_err(|_| Bad::Form)
}

/// Whether a word is `true`, where it is `true` or `false`.
pub fn switch_of(word: &str) -> Result<bool, Bad> {
    word.parse().map_err(|_| Bad::Form)
}
