//! The kinds of an INFO's fields: a text, a list of texts, a number, a switch, each with its default.
ghost use Rattle.std.specs.Prelude.{◌≡◌, false, [], None, pos, ◌^◌};
ghost use Rattle.serde_json.specs.Find.{get, as_str, as_bool};
ghost use Rattle.serde_json.specs.View.{view, items_view};
ghost use Rattle.nats_info.specs.Fields.{field, port, whole, small_whole, text_or_null, texts, texts_of};
ghost use Rattle.nats_info.specs.Errors.{Gives};

use crate::InfoError;
use nats_names::{Seq, Text};
use serde_json::Value;
use std::alloc::Global;

/// The text under a key, empty where the key is missing.
pub fn text(alloc: Global, object: &Value, key: &str) -> Result<Text, InfoError>
    ensures { Gives (field as_str [] (get key.now (view object.now))) result }
{
    let Some(value) = object.get(key) else {
        return Ok(Text::new());
    };
    let text = value.as_str().ok_or(InfoError::Unreadable)?;
    Ok(Text::from_text(alloc, text)?)
}

/// The text under a key, `None` where the key is missing or has null.
pub fn text_or_null(alloc: Global, object: &Value, key: &str) -> Result<Option<Text>, InfoError>
    ensures { Gives (field text_or_null None (get key.now (view object.now))) result }
{
    match object.get(key) {
        None | Some(Value::Null) => Ok(None),
        Some(Value::String(text)) => Ok(Some(Text::from_text(alloc, text.as_str())?)),
        Some(_) => Err(InfoError::Unreadable),
    }
}

/// The list of texts under a key, empty where the key is missing.
pub fn texts(alloc: Global, object: &Value, key: &str) -> Result<Seq<Text>, InfoError>
    ensures { Gives (field texts [] (get key.now (view object.now))) result }
{
    let Some(value) = object.get(key) else {
        return Ok(Seq::new(alloc));
    };
    let values = value.as_array().ok_or(InfoError::Unreadable)?;
    texts_of(alloc, values.as_slice())
}

fn texts_of(alloc: Global, values: &[Value]) -> Result<Seq<Text>, InfoError>
    ensures { Gives (texts_of (items_view values.now)) result }
{
    let mut texts = Seq::new(alloc);
    for value in values {
        let Some(text) = value.as_str() else {
            return Err(InfoError::Unreadable);
        };
        texts.push(alloc, Text::from_text(alloc, text)?)?;
    }
    Ok(texts)
}

/// The whole number under a key, 0 where the key is missing.
pub fn whole(object: &Value, key: &str) -> Result<u64, InfoError>
    ensures { Gives (field whole 0 (get key.now (view object.now))) result }
{
    match object.get(key) {
        Some(value) => value.as_u64().ok_or(InfoError::Unreadable),
        None => Ok(0),
    }
}

/// The port under a key, 0 where the key is missing.
pub fn port(object: &Value, key: &str) -> Result<u16, InfoError>
    ensures { Gives (field port 0 (get key.now (view object.now))) result }
{
    let Some(value) = object.get(key) else {
        return Ok(0);
    };
    let number = value.as_u64().ok_or(InfoError::Unreadable)?;
    u16::try_from(number).map_err(|_| InfoError::Unreadable)
}

/// The whole number from -128 to 127 under a key, 0 where the key is missing.
pub fn small_whole(object: &Value, key: &str) -> Result<i8, InfoError>
    ensures { Gives (field small_whole (pos 0) (get key.now (view object.now))) result }
{
    let Some(value) = object.get(key) else {
        return Ok(0);
    };
    let number = value.as_i64().ok_or(InfoError::Unreadable)?;
    i8::try_from(number).map_err(|_| InfoError::Unreadable)
}

/// The switch under a key, off where the key is missing.
pub fn switch(object: &Value, key: &str) -> Result<bool, InfoError>
    ensures { Gives (field as_bool false (get key.now (view object.now))) result }
{
    match object.get(key) {
        Some(value) => value.as_bool().ok_or(InfoError::Unreadable),
        None => Ok(false),
    }
}
