//! JSON of a message's status and payload.
ghost use Rattle.std.specs.Prelude.{◌≡◌, [], ◌∷◌, ◌++◌, map, option_map, IfOk, OnOk, None, Some, codes};
ghost use Rattle.std.specs.Result.{result_map_both};
ghost use Rattle.serde_json.specs.Find.{get};
ghost use Rattle.serde_json.specs.Data.{number, unsigned};
ghost use Rattle.serde_json.specs.View.{view, items_view};
ghost use Rattle.nats_header.specs.Json.{Gives, Puts};
ghost use Rattle.nats_info.specs.Fields.{field};
ghost use Rattle.nats_message_json.specs.Fields.{if_status, byte_in, bytes_in, all_pushed, payload_in, or_null, status_in, needed, bytes_json, json_or_null};

use nats_header::JsonError;
use nats_names::{Bytes, NoMemory, StatusCode};
use serde_json::Value;
use std::alloc::Global;

fn status_number(number: u64) -> Result<StatusCode, JsonError>
    ensures { Gives (if_status number) result }
{
    match u16::try_from(number).map(StatusCode::from_u16) {
        Ok(Ok(status)) => Ok(status),
        _ => Err(JsonError::NoMatch),
    }
}

fn status_or_null(value: &Value) -> Result<Option<StatusCode>, JsonError>
    ensures { Gives (or_null status_in (view value.now)) result }
{
    if value.is_null() {
        return Ok(None);
    }
    let number = value.as_u64().ok_or(JsonError::NoMatch)?;
    Ok(Some(status_number(number)?))
}

/// The status of a message, in the object that stands for it: a number from 100 to 999; none where the field is missing
/// or null.
///
/// # Errors
///
/// `NoMatch` exactly where the field is something else.
pub fn status_of(object: &Value) -> Result<Option<StatusCode>, JsonError>
    ensures { Gives (field (or_null status_in) None (get (codes "status") (view object.now))) result }
{
    match object.get("status") {
        Some(value) => status_or_null(value),
        None => Ok(None),
    }
}

fn byte_of(value: &Value) -> Result<u8, JsonError>
    ensures { Gives (byte_in (view value.now)) result }
{
    let number = value.as_u64().ok_or(JsonError::NoMatch)?;
    u8::try_from(number).map_err(|_| JsonError::NoMatch)
}

fn push_byte(bytes: &mut Vec<u8>, byte: u8) -> Result<(), NoMemory>
    ensures ok { OnOk result (bytes.new.items ≡ bytes.old.items ++ byte ∷ []) }
{
    bytes.push(byte)?;
    Ok(())
}

fn push_bytes(bytes: &mut Vec<u8>, items: &[Value]) -> Result<(), JsonError>
    ensures { Puts (option_map (all_pushed bytes.old.items) (bytes_in (items_view items.now)))
        result bytes.new.items }
{
    for item in items {
        let byte = byte_of(item)?;
        push_byte(bytes, byte)?;
    }
    Ok(())
}

fn bytes_of(alloc: Global, items: &[Value]) -> Result<Vec<u8>, JsonError>
    ensures { Gives (bytes_in (items_view items.now)) (result_map_both (λ bytes. bytes.items) (λ error. error) result) }
{
    let mut bytes = Vec::new(alloc);
    match push_bytes(&mut bytes, items) {
        Ok(()) => Ok(bytes),
        Err(error) => Err(error),
    }
}

fn list_of_bytes(alloc: Global, items: &[Value]) -> Result<Bytes, JsonError>
    ensures { Gives (bytes_in (items_view items.now)) result }
{
    match bytes_of(alloc, items) {
        Ok(bytes) => match Bytes::from_vec(bytes) {
            Ok(bytes) => Ok(bytes),
            Err(_) => Err(JsonError::NoMemory),
        },
        Err(error) => Err(error),
    }
}

fn text_bytes(alloc: Global, text: &str) -> Result<Bytes, NoMemory>
    ensures { IfOk result (λ bytes. bytes ≡ text.now) }
{
    Ok(Bytes::copy_from_slice(alloc, text.as_bytes())?)
}

/// The payload of a message, in the object that stands for it: a list of numbers from 0 to 255, or a string, which
/// means its bytes.
///
/// # Errors
///
/// `NoMatch` exactly where the field is missing or something else; `NoMemory` for want of memory.
pub fn payload_of(alloc: Global, object: &Value) -> Result<Bytes, JsonError>
    ensures { Gives (needed payload_in (get (codes "payload") (view object.now))) result }
{
    match object.get("payload") {
        Some(Value::Array(items)) => list_of_bytes(alloc, items.as_slice()),
        Some(Value::String(text)) => Ok(text_bytes(alloc, text.as_str())?),
        _ => Err(JsonError::NoMatch),
    }
}

/// A status as JSON: its number, or null where there is none. It is read back.
pub fn json_of_status(status: Option<StatusCode>) -> Value
    ensures json { view result ≡ json_or_null (λ n. number (unsigned n)) status }
    ensures reads_back { or_null status_in (view result) ≡ Some status }
{
    match status {
        Some(status) => Value::from(status.as_u16()),
        None => Value::Null,
    }
}

fn json_of_byte(byte: u8) -> Value
    ensures json { view result ≡ number (unsigned byte) }
    ensures reads_back { byte_in (view result) ≡ Some byte }
{
    Value::from(byte)
}

fn items_of_bytes(alloc: Global, bytes: &[u8]) -> Result<Vec<Value>, NoMemory>
    ensures json { IfOk result (λ items. map view items.items
        ≡ map (λ byte. number (unsigned byte)) bytes.now) }
    ensures reads_back { IfOk result (λ items. map byte_in (map view items.items) ≡ map Some bytes.now) }
{
    let mut items = Vec::new(alloc);
    for byte in bytes {
        items.push(json_of_byte(*byte))?;
    }
    Ok(items)
}

/// Bytes as JSON: a list of their numbers. They are read back.
///
/// # Errors
///
/// `NoMemory` for want of memory.
pub fn json_of_bytes(alloc: Global, bytes: &[u8]) -> Result<Value, NoMemory>
    ensures json { IfOk result (λ v. view v ≡ bytes_json bytes.now) }
    ensures reads_back { IfOk result (λ v. payload_in (view v) ≡ Some bytes.now) }
{
    let items = items_of_bytes(alloc, bytes)?;
    Ok(Value::Array(items))
}
