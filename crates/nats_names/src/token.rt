//! Tokens: short names without dots.
ghost use Rattle.std.specs.Prelude.{◌≡◌, ◌^◌, ◌≤◌, ◌<◌, length, nat_eq, is_some, IfSome, IsTrue, Some};
ghost use Rattle.std.specs.Cmp.{partial_equiv_from_equiv};
ghost use Rattle.std.specs.Cmp.Lexicographic.{pointwise, nat_list_eq_equiv};
ghost use Rattle.std.specs.List.{list_all};
ghost use Rattle.nats_names.specs.Names.{is_token, is_letter_or_digit};

use std::convert::AsStr;
use std::marker::Model;
use std::{fmt, str};

/// The greatest length of a token, in bytes. Own choice.
pub const TOKEN_LIMIT: usize = 64;

/// 1 to 64 ASCII letters or digits, as the last part of an inbox subject. Own type: the Rust takes any text there.
#[derive(Debug, Drop)]
pub struct Token {
    bytes: [u8; TOKEN_LIMIT],
    len: usize,
}

impl Model for Token {
    ghost use Rattle.std.specs.Prelude.{◌≡◌, ◌≤◌, List, ℕ, take, true, IsUtf8};
    ghost use Rattle.nats_names.specs.Names.{is_token, is_letter_or_digit};

    ghost Value = { List ℕ };

    ghost view = { λ t. take t.len t.bytes };

    ghost invariant = { λ t. (t.len ≤ 64) × (is_token (take t.len t.bytes) ≡ true)
        × IsUtf8 (take t.len t.bytes) };
}

fn are_letters_or_digits(bytes: &[u8]) -> bool
    ensures { result ≡ list_all is_letter_or_digit bytes.now }
{
    bytes.iter().all(|b| b.is_ascii_alphanumeric())
}

impl Token {
    /// The token with this text: `None` exactly where `s` is no token. It takes no memory.
    pub fn new(s: &str) -> Option<Token>
        ensures some { IfSome result (λ t. t ≡ s.now) }
        ensures exact { is_some result ≡ is_token s.now }
    {
        let text = s.as_bytes();
        if text.is_empty() || text.len() > TOKEN_LIMIT || !are_letters_or_digits(text) {
            return None;
        }
        let mut bytes = [0; TOKEN_LIMIT];
        let len = text.len();
        bytes[..len].copy_from_slice(text);
        Some(Token { bytes, len })
    }

    /// The text.
    pub fn as_str(&self) -> &str
        ensures text { result.now ≡ self.now }
        ensures token { IsTrue (is_token result.now) }
    {
        match str::from_utf8(&self.bytes[..self.len]) {
            Ok(text) => text,
            Err(_) => unreachable!(),
        }
    }

    /// An equal token. It takes no memory.
    pub fn copy(&self) -> Token
        ensures { result ≡ self.now }
    {
        Token {
            bytes: self.bytes,
            len: self.len,
        }
    }
}

/// Tokens are equal where their texts are.
impl PartialEq for Token {
    ghost eq = { pointwise nat_eq };

    ghost laws = { partial_equiv_from_equiv nat_list_eq_equiv };

    fn eq(&self, other: &Token) -> bool {
        Token::as_str(self) == Token::as_str(other)
    }
}

impl Eq for Token {
    ghost laws = { nat_list_eq_equiv };
}

/// Prints the text.
impl fmt::Display for Token {
    ghost output = { λ t. Some t };

    fn fmt<W: fmt::Write>(&self, f: &mut fmt::Formatter<W>) -> fmt::Result {
        fmt::Display::fmt(Token::as_str(self), f)
    }
}

/// Lends the text.
impl AsStr for Token {
    ghost text = { λ t. t };

    fn as_str(&self) -> &str {
        Token::as_str(self)
    }
}
