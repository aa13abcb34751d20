//! Values of headers.
ghost use Rattle.std.specs.Prelude.{◌≡◌, [], nat_eq, pos, IfOk, IsTrue, Some, string_bytes};
ghost use Rattle.std.specs.Fmt.{decimal, signed_decimal};
ghost use Rattle.std.specs.Cmp.Lexicographic.{pointwise, nat_list_eq_equiv};
ghost use Rattle.std.specs.Cmp.{partial_equiv_from_equiv};
ghost use Rattle.serde.specs.Event.{Logs, text};
ghost use Rattle.nats_header.specs.Names.{is_header_value};
ghost use Rattle.nats_header.specs.Answers.{ValueAnswer};

use crate::HeaderError;
use bytes::ByteStr;
use memchr::memchr2;
use nats_names::NoMemory;
use serde::{Described, Serialize, Serializer};
use std::alloc::{AllocError, Global};
use std::convert::AsStr;
use std::fmt;
use std::marker::Model;

/// The value of a header: any UTF-8 text without CR and LF. Contracts see it as its text, by which values are
/// equal. The crate's `HeaderValue`.
#[derive(Drop)]
pub struct HeaderValue {
    text: ByteStr,
}

impl Model for HeaderValue {
    ghost use Rattle.std.specs.Prelude.{List, ℕ, IsTrue};
    ghost use Rattle.nats_header.specs.Names.{is_header_value};

    ghost Value = { List ℕ };

    ghost view = { λ v. v.text };

    ghost invariant = { λ v. IsTrue (is_header_value v.text) };

    ghost inverse = { λ bytes. record { text = bytes } };
}

fn is_value(text: &str) -> bool
    ensures { result ≡ is_header_value text.now }
{
    memchr2(b'\r', b'\n', text.as_bytes()).is_none()
}

fn value_of_text(text: String) -> Result<HeaderValue, NoMemory>
    requires { IsTrue (is_header_value (string_bytes text)) }
    ensures { IfOk result (λ v. v ≡ string_bytes text) }
{
    Ok(HeaderValue {
        text: ByteStr::from_string(text)?,
    })
}

impl HeaderValue {
    /// The empty value. It takes no memory. The crate's call.
    pub fn new(_alloc: Global) -> HeaderValue
        ensures { result ≡ [] }
    {
        HeaderValue {
            text: ByteStr::new(),
        }
    }

    /// The text.
    pub fn as_str(&self) -> &str
        ensures text { result.now ≡ self.now }
        ensures valid { IsTrue (is_header_value self.now) }
    {
        self.text.as_str()
    }

    /// A value with a copy of the text `s`: `Value` exactly where it has a CR or an LF, before any memory is taken.
    /// The crate's `FromStr`.
    pub fn parse(alloc: Global, s: &str) -> Result<HeaderValue, HeaderError>
        ensures { ValueAnswer s.now result }
    {
        if !is_value(s) {
            return Err(HeaderError::Value);
        }
        match ByteStr::copy_from_str(alloc, s) {
            Ok(text) => Ok(HeaderValue { text }),
            Err(_refused) => Err(HeaderError::NoMemory),
        }
    }

    /// The number in decimal, with a `-` where it is below 0. The crate's `From<i16>`.
    pub fn from_i16(alloc: Global, v: i16) -> Result<HeaderValue, NoMemory>
        ensures { IfOk result (λ t. t ≡ signed_decimal v) }
    {
        HeaderValue::from_i64(alloc, i64::from(v))
    }

    /// The number in decimal, with a `-` where it is below 0. The crate's `From<i32>`.
    pub fn from_i32(alloc: Global, v: i32) -> Result<HeaderValue, NoMemory>
        ensures { IfOk result (λ t. t ≡ signed_decimal v) }
    {
        HeaderValue::from_i64(alloc, i64::from(v))
    }

    /// The number in decimal, with a `-` where it is below 0. The crate's `From<i64>`.
    pub fn from_i64(alloc: Global, v: i64) -> Result<HeaderValue, NoMemory>
        ensures { IfOk result (λ t. t ≡ signed_decimal v) }
    {
        value_of_text(v.to_string(alloc)?)
    }

    /// The number in decimal, with a `-` where it is below 0. The crate's `From<isize>`.
    pub fn from_isize(alloc: Global, v: isize) -> Result<HeaderValue, NoMemory>
        ensures { IfOk result (λ t. t ≡ signed_decimal v) }
    {
        HeaderValue::from_i64(alloc, v as i64)
    }

    /// The number in decimal. The crate's `From<u16>`.
    pub fn from_u16(alloc: Global, v: u16) -> Result<HeaderValue, NoMemory>
        ensures { IfOk result (λ t. t ≡ decimal v) }
    {
        HeaderValue::from_u64(alloc, u64::from(v))
    }

    /// The number in decimal. The crate's `From<u32>`.
    pub fn from_u32(alloc: Global, v: u32) -> Result<HeaderValue, NoMemory>
        ensures { IfOk result (λ t. t ≡ decimal v) }
    {
        HeaderValue::from_u64(alloc, u64::from(v))
    }

    /// The number in decimal. The crate's `From<u64>`.
    pub fn from_u64(alloc: Global, v: u64) -> Result<HeaderValue, NoMemory>
        ensures { IfOk result (λ t. t ≡ decimal v) }
    {
        value_of_text(v.to_string(alloc)?)
    }

    /// The number in decimal. The crate's `From<usize>`.
    pub fn from_usize(alloc: Global, v: usize) -> Result<HeaderValue, NoMemory>
        ensures { IfOk result (λ t. t ≡ decimal v) }
    {
        HeaderValue::from_u64(alloc, v as u64)
    }

    /// An equal value, which shares the bytes. Own call of this library, for the Rust's `Clone`.
    pub fn copy(&self, _alloc: Global) -> Result<HeaderValue, NoMemory>
        ensures { IfOk result (λ t. t ≡ self.now) }
    {
        Ok(HeaderValue {
            text: self.text.clone()?,
        })
    }
}

impl Clone for HeaderValue {
    ghost is_clone = { λ v copy. copy ≡ v };

    fn clone(&self) -> Result<HeaderValue, AllocError> {
        Ok(HeaderValue {
            text: self.text.clone()?,
        })
    }
}

impl PartialEq for HeaderValue {
    ghost eq = { pointwise nat_eq };

    ghost laws = { partial_equiv_from_equiv nat_list_eq_equiv };

    fn eq(&self, other: &HeaderValue) -> bool {
        HeaderValue::as_str(self) == HeaderValue::as_str(other)
    }
}

impl Eq for HeaderValue {
    ghost laws = { nat_list_eq_equiv };
}

/// Prints the text. The crate's `Display`.
impl fmt::Display for HeaderValue {
    ghost output = { λ v. Some v };

    fn fmt<W: fmt::Write>(&self, f: &mut fmt::Formatter<W>) -> fmt::Result {
        fmt::Display::fmt(HeaderValue::as_str(self), f)
    }
}

impl fmt::Debug for HeaderValue {
    fn fmt<W: fmt::Write>(&self, f: &mut fmt::Formatter<W>) -> fmt::Result {
        fmt::Debug::fmt(HeaderValue::as_str(self), f)
    }
}

/// Lends the text. The crate's `AsRef<str>`.
impl AsStr for HeaderValue {
    ghost text = { λ v. v };

    fn as_str(&self) -> &str {
        HeaderValue::as_str(self)
    }
}

impl Described for HeaderValue {
    ghost writes = { λ v old new. Logs old new (text v) };
}

/// Sends the text as one string. The crate's `Serialize`.
impl Serialize for HeaderValue {
    fn serialize<S: Serializer>(&self, out: &mut S) -> Result<(), S::Error> {
        out.str(self.as_str())
    }
}

/// What a header's value can be made of. Its meaning is a text, and it answers the value with that text, or `Value`
/// exactly where the text has a CR or an LF. The crate's `IntoHeaderValue`, which panics there.
pub trait IntoHeaderValue: Drop {
    ghost use Rattle.std.specs.Prelude.{List, ℕ};

    ghost value_text: { Self → List ℕ };

    /// The value with this text. It can answer want of memory.
    fn into_header_value(self, alloc: Global) -> Result<HeaderValue, HeaderError>
        ensures { ValueAnswer (value_text self) result };
}

/// A value with a copy of the text.
impl IntoHeaderValue for &str {
    ghost value_text = { λ s. s.now };

    fn into_header_value(self, alloc: Global) -> Result<HeaderValue, HeaderError> {
        HeaderValue::parse(alloc, self)
    }
}

/// A value that keeps the text's bytes.
impl IntoHeaderValue for String {
    ghost value_text = { string_bytes };

    fn into_header_value(self, _alloc: Global) -> Result<HeaderValue, HeaderError> {
        if !is_value(self.as_str()) {
            return Err(HeaderError::Value);
        }
        Ok(value_of_text(self)?)
    }
}

/// The value itself.
impl IntoHeaderValue for HeaderValue {
    ghost value_text = { λ v. v };

    fn into_header_value(self, _alloc: Global) -> Result<HeaderValue, HeaderError> {
        // Tells the proof that the text is a value.
        let _ = HeaderValue::as_str(&self);
        Ok(self)
    }
}
