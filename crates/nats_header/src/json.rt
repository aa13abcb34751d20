//! JSON of header names, values and maps.
ghost use Rattle.std.specs.Prelude.{◌≡◌, option_map, IfOk};
ghost use Rattle.serde_json.specs.View.{view, items_view, members_view};
ghost use Rattle.nats_header.specs.Headers.{with_values};
ghost use Rattle.nats_header.specs.Json.{Gives, Puts, if_name, if_value, name_in, value_in, values_in, some_values_in, field_in, fields_in, direct_in, inner_in, headers_in, all_appended, with_field, values_json, headers_json, ReadsAs, NamesAscend};

use crate::{HeaderError, HeaderMap, HeaderName, HeaderValue, JsonError};
use nats_names::NoMemory;
use serde_json::{Map, Value, put};
use std::alloc::Global;

fn name_of(alloc: Global, text: &str) -> Result<HeaderName, JsonError>
    ensures { Gives (if_name text.now) result }
{
    match HeaderName::parse(alloc, text) {
        Ok(name) => Ok(name),
        Err(HeaderError::NoMemory) => Err(JsonError::NoMemory),
        Err(_) => Err(JsonError::NoMatch),
    }
}

fn value_of(alloc: Global, text: &str) -> Result<HeaderValue, JsonError>
    ensures { Gives (if_value text.now) result }
{
    match HeaderValue::parse(alloc, text) {
        Ok(value) => Ok(value),
        Err(HeaderError::NoMemory) => Err(JsonError::NoMemory),
        Err(_) => Err(JsonError::NoMatch),
    }
}

impl HeaderName {
    /// The name that a JSON value is, a string that is a name.
    ///
    /// # Errors
    ///
    /// `NoMatch` exactly where it is no such string, as `A:` is none; `NoMemory` for want of memory. The crate's
    /// `Deserialize`.
    pub fn from_json(alloc: Global, v: &Value) -> Result<HeaderName, JsonError>
        ensures { Gives (name_in (view v.now)) result }
    {
        match v.as_str() {
            Some(text) => name_of(alloc, text),
            None => Err(JsonError::NoMatch),
        }
    }
}

impl HeaderValue {
    /// The header's value that a JSON value is, a string without CR and LF.
    ///
    /// # Errors
    ///
    /// `NoMatch` exactly where it is no such string; `NoMemory` for want of memory. The crate's `Deserialize`,
    /// which takes any string.
    pub fn from_json(alloc: Global, v: &Value) -> Result<HeaderValue, JsonError>
        ensures { Gives (value_in (view v.now)) result }
    {
        match v.as_str() {
            Some(text) => value_of(alloc, text),
            None => Err(JsonError::NoMatch),
        }
    }
}

// Puts each value last among those of the name in turn.
fn append_values(
    map: &mut HeaderMap,
    alloc: Global,
    name: &HeaderName,
    values: &[Value],
) -> Result<(), JsonError>
    ensures { Puts (option_map (all_appended map.old name.now) (values_in (items_view values.now)))
        result map.new }
{
    for value in values {
        let value = HeaderValue::from_json(alloc, value)?;
        map.append_field(alloc, name.copy(alloc)?, value)?;
    }
    Ok(())
}

// Gives the name these values, of which there is one or more.
fn put_values(
    map: &mut HeaderMap,
    alloc: Global,
    name: &HeaderName,
    values: &[Value],
) -> Result<(), JsonError>
    ensures { Puts (option_map (with_values map.old name.now) (some_values_in (items_view values.now)))
        result map.new }
{
    let Some((first, rest)) = values.split_first() else {
        return Err(JsonError::NoMatch);
    };
    let first = HeaderValue::from_json(alloc, first)?;
    map.insert_field(alloc, name.copy(alloc)?, first)?;
    append_values(map, alloc, name, rest)
}

// Puts what a member of an object is.
fn put_member(map: &mut HeaderMap, alloc: Global, key: &str, value: &Value) -> Result<(), JsonError>
    ensures { Puts (with_field map.old (field_in key.now (view value.now))) result map.new }
{
    let name = name_of(alloc, key)?;
    match value.as_array() {
        Some(values) => put_values(map, alloc, &name, values.as_slice()),
        None => Err(JsonError::NoMatch),
    }
}

fn fields_of(alloc: Global, members: &Map<String, Value>) -> Result<HeaderMap, JsonError>
    ensures map { Gives (fields_in (members_view members.now.entries)) result }
    ensures order { IfOk result NamesAscend }
{
    let mut map = HeaderMap::new(alloc);
    for (key, value) in members.iter() {
        if let Err(error) = put_member(&mut map, alloc, key.as_str(), value) {
            return Err(error);
        }
    }
    Ok(map)
}

fn direct(alloc: Global, v: &Value) -> Result<HeaderMap, JsonError>
    ensures map { Gives (direct_in (view v.now)) result }
    ensures order { IfOk result NamesAscend }
{
    match v.as_object() {
        Some(members) => fields_of(alloc, members),
        None => Err(JsonError::NoMatch),
    }
}

fn inner(alloc: Global, v: &Value) -> Result<HeaderMap, JsonError>
    ensures map { Gives (inner_in (view v.now)) result }
    ensures order { IfOk result NamesAscend }
{
    match v.get("inner") {
        Some(v) => direct(alloc, v),
        None => Err(JsonError::NoMatch),
    }
}

// The list of the values as strings.
fn json_of_values(alloc: Global, values: &[HeaderValue]) -> Result<Value, NoMemory>
    ensures { IfOk result (λ v. view v ≡ values_json values.now) }
{
    let mut items = Vec::new(alloc);
    for value in values {
        items.push(Value::try_from_str(alloc, value.as_str())?)?;
    }
    Ok(Value::Array(items))
}

impl HeaderMap {
    /// The map as JSON: an object with a list of strings under each name, its values in order. An object of
    /// `serde_json` has its keys in the order of their bytes. `from_json` reads an equal map from it. The crate's
    /// `Serialize`.
    pub fn to_json(&self, alloc: Global) -> Result<Value, NoMemory>
        ensures json { IfOk result (λ v. view v ≡ headers_json self.now) }
        ensures reads_back { IfOk result (λ v. ReadsAs (headers_in (view v)) self.now) }
    {
        let mut members = Map::new(alloc);
        for (name, values) in self.iter() {
            let values = json_of_values(alloc, values)?;
            put(&mut members, alloc, name.as_str(), values)?;
        }
        Ok(Value::Object(members))
    }

    /// The map that a JSON value is. An object is one where each key is a name and each value a list of one or more
    /// strings that are values of headers; the names come in the ascending order of their bytes. Where the value
    /// has such an object under the key `inner`, the map is that one, and other keys are ignored; else it is the
    /// value itself.
    ///
    /// # Errors
    ///
    /// `NoMatch` exactly where neither is such an object; `NoMemory` for want of memory. The crate's `Deserialize`,
    /// which takes any strings as values and empty lists too.
    pub fn from_json(alloc: Global, v: &Value) -> Result<HeaderMap, JsonError>
        ensures map { Gives (headers_in (view v.now)) result }
        ensures order { IfOk result NamesAscend }
    {
        match inner(alloc, v) {
            Err(JsonError::NoMatch) => direct(alloc, v),
            answer => answer,
        }
    }
}
