//! What a peer says of itself as it connects.
ghost use Rattle.std.specs.Prelude.{◌≡◌, option_and_then, Some};
ghost use Rattle.std.specs.Result.{result_map_both};
ghost use Rattle.serde_json.specs.Read.{read};
ghost use Rattle.serde_json.specs.View.{view};
ghost use Rattle.nats_broker_text.specs.Connect.{wish, wishes_with, wishes_of, wishes_at, Gives, connect_error_text};

use serde_json::{Category, Value};
use std::alloc::Global;
use std::error::Error;
use std::{fmt, str};

/// What a peer says of itself; what isn't a boolean isn't said. Fields of the NATS protocol's `CONNECT`.
#[derive(Clone, Copy, Debug, PartialEq, Eq)]
pub struct Wishes {
    /// Whether it wants its own messages back.
    pub echo: Option<bool>,
    /// Whether it wants to be told where nobody matched.
    pub no_responders: Option<bool>,
}

/// Why a text says nothing of a peer.
#[derive(Clone, Copy, Debug, PartialEq, Eq)]
pub enum ConnectError {
    /// It is no JSON object in UTF-8.
    Unreadable,
    /// Want of memory.
    NoMemory,
}

impl fmt::Display for ConnectError {
    ghost output = { λ error. Some (connect_error_text error) };

    fn fmt<W: fmt::Write>(&self, f: &mut fmt::Formatter<W>) -> fmt::Result {
        match self {
            ConnectError::Unreadable => write!(f, "no JSON object"),
            ConnectError::NoMemory => write!(f, "out of memory"),
        }
    }
}

impl Error for ConnectError {}

fn wish(value: &Value, key: &str) -> Option<bool>
    ensures { result ≡ wish key.now (view value.now) }
{
    match value.get(key) {
        Some(value) => value.as_bool(),
        None => None,
    }
}

fn wishes_with(value: &Value) -> Wishes
    ensures { result ≡ wishes_with (view value.now) }
{
    Wishes {
        echo: wish(value, "echo"),
        no_responders: wish(value, "no_responders"),
    }
}

fn wishes_of(value: &Value) -> Result<Wishes, ConnectError>
    ensures { Gives (wishes_of (view value.now)) result }
{
    match value {
        Value::Object(_) => Ok(wishes_with(value)),
        _ => Err(ConnectError::Unreadable),
    }
}

// The value that `serde_json` reads from a text.
fn value_of(alloc: Global, text: &str) -> Result<Value, ConnectError>
    ensures { Gives (read text.now) (result_map_both view (λ error. error) result) }
{
    Value::from_str(alloc, text).map_err(|error| match error.classify() {
        Category::Memory => ConnectError::NoMemory,
        _ => ConnectError::Unreadable,
    })
}

fn read_text(alloc: Global, text: &str) -> Result<Wishes, ConnectError>
    ensures { Gives (option_and_then wishes_of (read text.now)) result }
{
    let value = value_of(alloc, text)?;
    wishes_of(&value)
}

/// What a peer says of itself in `text`, the part of a `CONNECT` line behind the word: a JSON object in UTF-8, read as
/// `serde_json` reads it. Its `echo` and `no_responders` count where they are booleans; other fields don't.
///
/// # Errors
///
/// `Unreadable` exactly where the text is no such object, `NoMemory` for want of memory.
pub fn read_wishes(alloc: Global, text: &[u8]) -> Result<Wishes, ConnectError>
    ensures { Gives (wishes_at text.now) result }
{
    match str::from_utf8(text) {
        Ok(text) => read_text(alloc, text),
        Err(_) => Err(ConnectError::Unreadable),
    }
}
