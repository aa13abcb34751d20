//! Names of headers.
ghost use Rattle.std.specs.Prelude.{◌≡◌, nat_eq, IfOk, IsTrue, Some, string_bytes};
ghost use Rattle.std.specs.List.{list_all};
ghost use Rattle.std.specs.Hash as fed;
ghost use Rattle.std.specs.Cmp.Lexicographic.{pointwise, nat_list_eq_equiv};
ghost use Rattle.std.specs.Cmp.{partial_equiv_from_equiv};
ghost use Rattle.std.specs.Cmp.Rules.{hashing};
ghost use Rattle.std.proofs.Common.{rules};
ghost use Rattle.serde.specs.Event.{Logs, text};
ghost use Rattle.nats_header.specs.Names.{is_name_byte, is_header_name};
ghost use Rattle.nats_header.specs.Answers.{NameAnswer};

use crate::HeaderError;
use bytes::ByteStr;
use nats_names::NoMemory;
use serde::{Described, Serialize, Serializer};
use std::alloc::{AllocError, Global};
use std::convert::AsStr;
use std::fmt;
use std::hash::{Hash, Hasher};
use std::marker::Model;

/// The name of a header, as `Nats-Msg-Id`: any visible ASCII characters but the colon, or none at all. Contracts
/// see it as its text. Names are equal where their texts are, so upper and lower case differ. The crate's
/// `HeaderName`.
#[derive(Drop)]
pub struct HeaderName {
    text: ByteStr,
}

impl Model for HeaderName {
    ghost use Rattle.std.specs.Prelude.{List, ℕ, IsTrue};
    ghost use Rattle.nats_header.specs.Names.{is_header_name};

    ghost Value = { List ℕ };

    ghost view = { λ n. n.text };

    ghost invariant = { λ n. IsTrue (is_header_name n.text) };

    ghost inverse = { λ bytes. record { text = bytes } };
}

fn is_name_byte(b: u8) -> bool
    ensures { result ≡ is_name_byte b }
{
    matches!(b, b'!'..=b'~') && b != b':'
}

fn is_name(text: &str) -> bool
    ensures { result ≡ is_header_name text.now }
{
    text.as_bytes().iter().all(|b| is_name_byte(*b))
}

impl HeaderName {
    /// The name with the text `v`, which the caller has proved to be one. It copies nothing and takes no memory.
    /// The crate's call, which stops the build or the program at another text.
    pub fn from_static(v: &'static str) -> HeaderName
        requires { IsTrue (is_header_name v.now) }
        ensures { result ≡ v.now }
    {
        HeaderName {
            text: ByteStr::from_static(v),
        }
    }

    /// A name with a copy of the text `s`: `Name` exactly where it is none, before any memory is taken. The crate's
    /// `FromStr` and `TryFrom<&str>`.
    pub fn parse(alloc: Global, s: &str) -> Result<HeaderName, HeaderError>
        ensures { NameAnswer s.now result }
    {
        if !is_name(s) {
            return Err(HeaderError::Name);
        }
        match ByteStr::copy_from_str(alloc, s) {
            Ok(text) => Ok(HeaderName { text }),
            Err(_refused) => Err(HeaderError::NoMemory),
        }
    }

    /// The name with the text `s`, whose bytes it keeps: `Name` exactly where it is none. The crate's
    /// `TryFrom<String>`.
    pub fn try_from_string(_alloc: Global, s: String) -> Result<HeaderName, HeaderError>
        ensures { NameAnswer (string_bytes s) result }
    {
        if !is_name(s.as_str()) {
            return Err(HeaderError::Name);
        }
        match ByteStr::from_string(s) {
            Ok(text) => Ok(HeaderName { text }),
            Err(_refused) => Err(HeaderError::NoMemory),
        }
    }

    /// The text.
    pub fn as_str(&self) -> &str
        ensures text { result.now ≡ self.now }
        ensures valid { IsTrue (is_header_name self.now) }
    {
        self.text.as_str()
    }

    /// An equal name, which shares the bytes. Own call of this library, for the Rust's `Clone`.
    pub fn copy(&self, _alloc: Global) -> Result<HeaderName, NoMemory>
        ensures { IfOk result (λ n. n ≡ self.now) }
    {
        Ok(HeaderName {
            text: self.text.clone()?,
        })
    }
}

impl Clone for HeaderName {
    ghost is_clone = { λ n copy. copy ≡ n };

    fn clone(&self) -> Result<HeaderName, AllocError> {
        Ok(HeaderName {
            text: self.text.clone()?,
        })
    }
}

impl PartialEq for HeaderName {
    ghost eq = { pointwise nat_eq };

    ghost laws = { partial_equiv_from_equiv nat_list_eq_equiv };

    fn eq(&self, other: &HeaderName) -> bool {
        HeaderName::as_str(self) == HeaderName::as_str(other)
    }
}

impl Eq for HeaderName {
    ghost laws = { nat_list_eq_equiv };
}

/// Equal names hash equally.
impl Hash for HeaderName {
    ghost hash_input = { fed.str };

    ghost respects_eq = { Prim.search (hashing, rules) };

    fn hash<H: Hasher>(&self, state: &mut H) {
        HeaderName::as_str(self).hash(state);
    }
}

/// Prints the text. The crate's `Display`.
impl fmt::Display for HeaderName {
    ghost output = { λ n. Some n };

    fn fmt<W: fmt::Write>(&self, f: &mut fmt::Formatter<W>) -> fmt::Result {
        fmt::Display::fmt(HeaderName::as_str(self), f)
    }
}

impl fmt::Debug for HeaderName {
    fn fmt<W: fmt::Write>(&self, f: &mut fmt::Formatter<W>) -> fmt::Result {
        fmt::Debug::fmt(HeaderName::as_str(self), f)
    }
}

/// Lends the text.
impl AsStr for HeaderName {
    ghost text = { λ n. n };

    fn as_str(&self) -> &str {
        HeaderName::as_str(self)
    }
}

impl Described for HeaderName {
    ghost writes = { λ n old new. Logs old new (text n) };
}

/// Sends the text as one string. The crate's `Serialize`.
impl Serialize for HeaderName {
    fn serialize<S: Serializer>(&self, out: &mut S) -> Result<(), S::Error> {
        out.str(self.as_str())
    }
}

/// What a header's name can be made of. Its meaning is a text, and it answers the name with that text, or `Name`
/// exactly where the text is none. The crate's `IntoHeaderName`, which panics there.
pub trait IntoHeaderName: Drop {
    ghost use Rattle.std.specs.Prelude.{List, ℕ};

    ghost name_text: { Self → List ℕ };

    /// The name with this text. It can answer want of memory.
    fn into_header_name(self, alloc: Global) -> Result<HeaderName, HeaderError>
        ensures { NameAnswer (name_text self) result };
}

/// A name with a copy of the text.
impl IntoHeaderName for &str {
    ghost name_text = { λ s. s.now };

    fn into_header_name(self, alloc: Global) -> Result<HeaderName, HeaderError> {
        HeaderName::parse(alloc, self)
    }
}

/// A name that keeps the text's bytes.
impl IntoHeaderName for String {
    ghost name_text = { string_bytes };

    fn into_header_name(self, alloc: Global) -> Result<HeaderName, HeaderError> {
        HeaderName::try_from_string(alloc, self)
    }
}

/// The name itself.
impl IntoHeaderName for HeaderName {
    ghost name_text = { λ n. n };

    fn into_header_name(self, _alloc: Global) -> Result<HeaderName, HeaderError> {
        // Tells the proof that the text is a name.
        let _ = HeaderName::as_str(&self);
        Ok(self)
    }
}
