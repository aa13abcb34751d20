//! What the line of an error says.
ghost use Rattle.std.specs.Prelude.{◌≡◌, reverse, option_map};
ghost use Rattle.nats_lines.specs.Operations.{without_first_quotes, without_quotes, error_by, error_of_text, error_of};
ghost use Rattle.nats_lines.specs.Heads.{error_view};

use std::str;

/// A `ServerError` in the text that it is read from.
#[derive(Clone, Copy)]
pub enum ErrorText<'a> {
    AuthorizationViolation,
    Other(&'a str),
}

fn without_first_quotes(text: &str) -> &str
    ensures { result.now ≡ without_first_quotes text.now }
{
    let mut left = text;
    while let Some(rest) = left.strip_prefix('\'') {
        left = rest;
    }
    left
}

fn without_last_quotes(text: &str) -> &str
    ensures { result.now ≡ reverse (without_first_quotes (reverse text.now)) }
{
    let mut left = text;
    while let Some(rest) = left.strip_suffix('\'') {
        left = rest;
    }
    left
}

fn error_by(text: &str) -> ErrorText<'_>
    ensures { error_view result ≡ error_by text.now }
{
    if text.eq_ignore_ascii_case("authorization violation") {
        ErrorText::AuthorizationViolation
    } else {
        ErrorText::Other(text)
    }
}

fn error_of_text(text: &[u8]) -> Option<ErrorText<'_>>
    ensures { option_map error_view result ≡ error_of_text text.now }
{
    match str::from_utf8(text) {
        Ok(text) => Some(error_by(without_last_quotes(without_first_quotes(text)))),
        Err(_) => None,
    }
}

/// The error that a line tells behind its first five bytes, where it has them and they are UTF-8.
pub fn read_error(line: &[u8]) -> Option<ErrorText<'_>>
    ensures { option_map error_view result ≡ error_of line.now }
{
    if line.len() < 5 {
        None
    } else {
        error_of_text(&line[5..])
    }
}
