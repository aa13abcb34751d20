//! JSON of messages.
ghost use Rattle.std.specs.Prelude.{◌≡◌, IfOk, None, codes};
ghost use Rattle.serde_json.specs.Find.{get, as_str};
ghost use Rattle.serde_json.specs.Data.{string};
ghost use Rattle.serde_json.specs.View.{view};
ghost use Rattle.nats_header.specs.Json.{Gives, Puts, headers_in, headers_json};
ghost use Rattle.nats_info.specs.Fields.{field, whole, text_or_null};
ghost use Rattle.nats_message_json.specs.Fields.{or_null, needed, json_or_null};
ghost use Rattle.nats_message.specs.Json.{with_texts, with_numbers, with_headers, with_fields, blank_message, message_in, message_json, HeadersReadAs, ReadsAs};

use crate::message::Message;
use nats_header::{HeaderMap, JsonError};
use nats_message_json::{json_of_bytes, json_of_status, payload_of, status_of};
use nats_names::{Bytes, NoMemory, Subject, Text};
use serde_json::{Map, Value, put};
use std::alloc::Global;

fn subject_of(alloc: Global, object: &Value) -> Result<Subject, JsonError>
    ensures { Gives (needed as_str (get (codes "subject") (view object.now))) result }
{
    let Some(value) = object.get("subject") else {
        return Err(JsonError::NoMatch);
    };
    let text = value.as_str().ok_or(JsonError::NoMatch)?;
    Ok(Subject::from_text(alloc, text)?)
}

fn reply_of(alloc: Global, object: &Value) -> Result<Option<Subject>, JsonError>
    ensures { Gives (field text_or_null None (get (codes "reply") (view object.now))) result }
{
    match object.get("reply") {
        None | Some(Value::Null) => Ok(None),
        Some(Value::String(text)) => Ok(Some(Subject::from_text(alloc, text.as_str())?)),
        Some(_) => Err(JsonError::NoMatch),
    }
}

fn description_of(alloc: Global, object: &Value) -> Result<Option<Text>, JsonError>
    ensures { Gives (field text_or_null None (get (codes "description") (view object.now))) result }
{
    match object.get("description") {
        None | Some(Value::Null) => Ok(None),
        Some(Value::String(text)) => Ok(Some(Text::from_text(alloc, text.as_str())?)),
        Some(_) => Err(JsonError::NoMatch),
    }
}

fn length_of(object: &Value) -> Result<usize, JsonError>
    ensures { Gives (needed whole (get (codes "length") (view object.now))) result }
{
    let Some(value) = object.get("length") else {
        return Err(JsonError::NoMatch);
    };
    let number = value.as_u64().ok_or(JsonError::NoMatch)?;
    Ok(number as usize)
}

fn headers_or_null(alloc: Global, value: &Value) -> Result<Option<HeaderMap>, JsonError>
    ensures { Gives (or_null headers_in (view value.now)) result }
{
    if value.is_null() {
        return Ok(None);
    }
    match HeaderMap::from_json(alloc, value) {
        Ok(headers) => Ok(Some(headers)),
        Err(error) => Err(error),
    }
}

fn headers_of(alloc: Global, object: &Value) -> Result<Option<HeaderMap>, JsonError>
    ensures { Gives (field (or_null headers_in) None (get (codes "headers") (view object.now))) result }
{
    match object.get("headers") {
        Some(value) => headers_or_null(alloc, value),
        None => Ok(None),
    }
}

fn put_texts(alloc: Global, object: &Value, message: &mut Message) -> Result<(), JsonError>
    ensures { Puts (with_texts (view object.now) message.old) result message.new }
{
    message.subject = subject_of(alloc, object)?;
    message.reply = reply_of(alloc, object)?;
    message.description = description_of(alloc, object)?;
    Ok(())
}

fn put_numbers(alloc: Global, object: &Value, message: &mut Message) -> Result<(), JsonError>
    ensures { Puts (with_numbers (view object.now) message.old) result message.new }
{
    message.length = length_of(object)?;
    message.status = status_of(object)?;
    message.payload = payload_of(alloc, object)?;
    Ok(())
}

fn put_headers(alloc: Global, object: &Value, message: &mut Message) -> Result<(), JsonError>
    ensures { Puts (with_headers (view object.now) message.old) result message.new }
{
    message.headers = headers_of(alloc, object)?;
    Ok(())
}

fn put_fields(alloc: Global, object: &Value, message: &mut Message) -> Result<(), JsonError>
    ensures { Puts (with_fields (view object.now) message.old) result message.new }
{
    put_texts(alloc, object, message)?;
    put_numbers(alloc, object, message)?;
    put_headers(alloc, object, message)
}

fn blank() -> Message
    ensures { result ≡ blank_message }
{
    Message {
        subject: Subject::from_static(""),
        reply: None,
        payload: Bytes::new(),
        headers: None,
        status: None,
        description: None,
        length: 0,
    }
}

fn json_of_subject(alloc: Global, subject: &Option<Subject>) -> Result<Value, NoMemory>
    ensures { IfOk result (λ v. view v ≡ json_or_null string subject.now) }
{
    match subject {
        Some(subject) => Ok(Value::try_from_str(alloc, subject.as_str())?),
        None => Ok(Value::Null),
    }
}

fn json_of_text(alloc: Global, text: &Option<Text>) -> Result<Value, NoMemory>
    ensures { IfOk result (λ v. view v ≡ json_or_null string text.now) }
{
    match text {
        Some(text) => Ok(Value::try_from_str(alloc, text.as_str())?),
        None => Ok(Value::Null),
    }
}

fn json_of_headers(alloc: Global, headers: &Option<HeaderMap>) -> Result<Value, NoMemory>
    ensures json { IfOk result (λ v. view v ≡ json_or_null headers_json headers.now) }
    ensures reads_back { IfOk result (λ v. HeadersReadAs (or_null headers_in (view v)) headers.now) }
{
    match headers {
        Some(headers) => headers.to_json(alloc),
        None => Ok(Value::Null),
    }
}

impl Message {
    /// The message as JSON: an object with `subject`, `reply` (a string or null), `payload` (a list of numbers 0 to
    /// 255), `headers` (an object or null), `status` (a number or null), `description` (a string or null) and
    /// `length`, a number of bytes. `from_json` reads an equal message from it. The crate's `Serialize`.
    pub fn to_json(&self, alloc: Global) -> Result<Value, NoMemory>
        ensures json { IfOk result (λ v. view v ≡ message_json self.now) }
        ensures reads_back { IfOk result (λ v. ReadsAs (message_in (view v)) self.now) }
    {
        let mut members = Map::new(alloc);
        let description = json_of_text(alloc, &self.description)?;
        put(&mut members, alloc, "description", description)?;
        let headers = json_of_headers(alloc, &self.headers)?;
        put(&mut members, alloc, "headers", headers)?;
        put(&mut members, alloc, "length", Value::from(self.length))?;
        let payload = json_of_bytes(alloc, self.payload.as_slice())?;
        put(&mut members, alloc, "payload", payload)?;
        let reply = json_of_subject(alloc, &self.reply)?;
        put(&mut members, alloc, "reply", reply)?;
        put(&mut members, alloc, "status", json_of_status(self.status))?;
        let subject = Value::try_from_str(alloc, self.subject.as_str())?;
        put(&mut members, alloc, "subject", subject)?;
        Ok(Value::Object(members))
    }

    /// The message that a JSON value is: an object with a `subject`, a `payload` and a `length` as `to_json` gives
    /// them. The payload may also be a string, which means its bytes; the other fields may be missing or null, and
    /// other keys are ignored.
    ///
    /// # Errors
    ///
    /// `NoMatch` exactly where the value is no such object, as where the status is outside 100 to 999 or a number
    /// of the payload above 255; `NoMemory` for want of memory. The crate's `Deserialize`, which takes any number
    /// up to 65535 as a status.
    pub fn from_json(alloc: Global, v: &Value) -> Result<Message, JsonError>
        ensures { Gives (message_in (view v.now)) result }
    {
        let mut message = blank();
        match put_fields(alloc, v, &mut message) {
            Ok(()) => Ok(message),
            Err(error) => Err(error),
        }
    }
}
