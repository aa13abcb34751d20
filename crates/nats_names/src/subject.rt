//! Subjects: the names that messages are published to and subscribed by.
ghost use Rattle.std.specs.Prelude.{◌≡◌, ◌↔◌, false, drop, not, string_bytes, IfErr, IfOk, IsErrOf, IsOk, IsTrue, IsUtf8, Some};
ghost use Rattle.std.specs.List.{list_all, slice_split};
ghost use Rattle.std.specs.Str.{valid_up_to, error_len};
ghost use Rattle.std.specs.Str.Lossy.{utf8_valid_len, utf8_error_len};
ghost use Rattle.serde.specs.Event.{Logs, text};
ghost use Rattle.nats_names.specs.Names.{is_separator, is_dot, is_nonempty, is_publishable, is_valid};

use crate::{NoMemory, SubjectError};
use bytes::{ByteStr, Bytes};
use serde::{Described, Serialize, Serializer};
use std::alloc::Global;
use std::convert::AsStr;
use std::fmt;
use std::marker::Model;
use std::str::Utf8Error;

/// The name of what a message is about, as `orders.eu.new`; a subscription's may have wildcards, as `orders.*.new` or
/// `orders.>`. Any UTF-8 text can be held, and `is_valid` and `is_publishable` tell which names the protocol takes.
/// Subjects are equal where their texts are, and their order is that of the texts' bytes. The crate's `Subject`.
#[derive(Debug, Drop, PartialEq, Eq, PartialOrd, Ord)]
pub struct Subject {
    text: ByteStr,
}

impl Model for Subject {
    ghost use Rattle.std.specs.Prelude.{List, ℕ};

    ghost Value = { List ℕ };

    ghost view = { λ s. s.text };

    ghost inverse = { λ bytes. record { text = bytes } };
}

fn is_separator(b: u8) -> bool
    ensures { result ≡ is_separator b }
{
    matches!(b, b' ' | b'\t' | b'\r' | b'\n')
}

fn is_one_word(bytes: &[u8]) -> bool
    ensures { result ≡ list_all (λ b. not (is_separator b)) bytes.now }
{
    bytes.iter().all(|b| !is_separator(*b))
}

fn has_no_empty_token(bytes: &[u8]) -> bool
    ensures { result ≡ list_all is_nonempty (slice_split is_dot bytes.now) }
{
    bytes.split(|b| *b == b'.').all(|token| !token.is_empty())
}

fn are_publishable(bytes: &[u8]) -> bool
    ensures { result ≡ is_publishable bytes.now }
{
    !bytes.is_empty() && is_one_word(bytes)
}

fn are_valid(bytes: &[u8]) -> bool
    ensures { result ≡ is_valid bytes.now }
{
    are_publishable(bytes) && has_no_empty_token(bytes)
}

impl Subject {
    /// The subject with the text `input`, which is not tested. It copies nothing and takes no memory. The crate's call.
    pub fn from_static(input: &'static str) -> Subject
        ensures { result ≡ input.now }
    {
        Subject {
            text: ByteStr::from_static(input),
        }
    }

    /// The subject with a text that may be subscribed to: the caller has proved it. The crate's call, which stops the
    /// build or the program at another text.
    pub fn from_static_validated(subject: &'static str) -> Subject
        requires { IsTrue (is_valid subject.now) }
        ensures text { result ≡ subject.now }
        ensures valid { IsTrue (is_valid result) }
    {
        Subject::from_static(subject)
    }

    /// The subject whose text is `bytes`, which the caller has proved to be UTF-8; nothing is copied. The crate's call,
    /// there an unsafe one.
    pub fn from_bytes_unchecked(bytes: Bytes) -> Subject
        requires { IsUtf8 bytes }
        ensures { result ≡ bytes }
    {
        Subject {
            text: ByteStr::from_known_utf8(bytes),
        }
    }

    /// The subject whose text is `input`, with nothing copied, or where the bytes stop being UTF-8: `Err` exactly
    /// where they are not UTF-8 whole. The crate's call.
    pub fn from_utf8(input: Bytes) -> Result<Subject, Utf8Error>
        ensures ok { IfOk result (λ t. t ≡ input) }
        ensures exact { IsOk result ↔ IsUtf8 input }
        ensures valid_len { IfErr result (λ e. valid_up_to e ≡ utf8_valid_len input) }
        ensures fault { IfErr result
            (λ e. error_len e ≡ utf8_error_len (drop (valid_up_to e) input)) }
    {
        match ByteStr::from_utf8(input) {
            Ok(text) => Ok(Subject { text }),
            Err(refused) => Err(refused.error),
        }
    }

    /// A subject with a copy of the text `s`, which is not tested. Own call of this library, for the Rust's
    /// `From<&str>`.
    pub fn from_text(alloc: Global, s: &str) -> Result<Subject, NoMemory>
        ensures { IfOk result (λ t. t ≡ s.now) }
    {
        Ok(Subject {
            text: ByteStr::copy_from_str(alloc, s)?,
        })
    }

    /// A subject with a copy of the text `s`, where it may be subscribed to: `InvalidFormat` exactly where it may
    /// not, before any memory is taken. The crate's call.
    pub fn validated(alloc: Global, s: &str) -> Result<Subject, SubjectError>
        ensures ok { IfOk result (λ t. t ≡ s.now) }
        ensures invalid { IsErrOf result SubjectError.InvalidFormat ↔ (is_valid s.now ≡ false) }
    {
        if !are_valid(s.as_bytes()) {
            return Err(SubjectError::InvalidFormat);
        }
        Ok(Subject::from_text(alloc, s)?)
    }

    /// The text.
    pub fn as_str(&self) -> &str
        ensures { result.now ≡ self.now }
    {
        self.text.as_str()
    }

    /// A `String` with the text. The crate's call.
    pub fn into_string(self, alloc: Global) -> Result<String, NoMemory>
        ensures { IfOk result (λ s. string_bytes s ≡ self) }
    {
        Ok(String::from_str(alloc, self.as_str())?)
    }

    /// An equal subject, which shares the bytes. Own call of this library, for the Rust's `Clone`.
    pub fn copy(&self, _alloc: Global) -> Result<Subject, NoMemory>
        ensures { IfOk result (λ t. t ≡ self.now) }
    {
        Ok(Subject {
            text: self.text.clone()?,
        })
    }

    /// Whether a message may be published to it: it is nonempty and has no space, tab, CR or LF. Rule of the protocol.
    pub fn is_publishable(&self) -> bool
        ensures { result ≡ is_publishable self.now }
    {
        are_publishable(self.as_str().as_bytes())
    }

    /// Whether it may be subscribed to: it is publishable, and no token between its dots is empty. Rule of the
    /// protocol, the crate's `Subject::is_valid`.
    pub fn is_valid(&self) -> bool
        ensures { result ≡ is_valid self.now }
    {
        are_valid(self.as_str().as_bytes())
    }
}

/// Prints the text. The crate's `Display`.
impl fmt::Display for Subject {
    ghost output = { λ s. Some s };

    fn fmt<W: fmt::Write>(&self, f: &mut fmt::Formatter<W>) -> fmt::Result {
        fmt::Display::fmt(self.as_str(), f)
    }
}

/// Lends the text. The crate's `AsRef<str>`.
impl AsStr for Subject {
    ghost text = { λ s. s };

    fn as_str(&self) -> &str {
        Subject::as_str(self)
    }
}

impl Described for Subject {
    ghost writes = { λ s old new. Logs old new (text s) };
}

/// Sends the text as one string. The crate's `Serialize`.
impl Serialize for Subject {
    fn serialize<S: Serializer>(&self, out: &mut S) -> Result<(), S::Error> {
        out.str(self.as_str())
    }
}

/// What a subject can be made of. Its meaning is a text, which the subject answered has. The crate's `ToSubject`.
pub trait ToSubject {
    ghost use Rattle.std.specs.Prelude.{List, ℕ};

    ghost subject_text: { Self → List ℕ };

    /// The subject with this text, which is not tested. It can answer want of memory.
    fn to_subject(&self, alloc: Global) -> Result<Subject, NoMemory>
        ensures { IfOk result (λ s. s ≡ subject_text self.now) };
}

/// An equal subject, which shares the bytes.
impl ToSubject for Subject {
    ghost subject_text = { λ s. s };

    fn to_subject(&self, alloc: Global) -> Result<Subject, NoMemory> {
        self.copy(alloc)
    }
}

/// A subject that lends the text, and takes no memory.
impl ToSubject for &'static str {
    ghost subject_text = { λ s. s.now };

    fn to_subject(&self, _alloc: Global) -> Result<Subject, NoMemory> {
        Ok(Subject::from_static(*self))
    }
}

/// A subject with a copy of the text.
impl ToSubject for String {
    ghost subject_text = { string_bytes };

    fn to_subject(&self, alloc: Global) -> Result<Subject, NoMemory> {
        Subject::from_text(alloc, self.as_str())
    }
}
