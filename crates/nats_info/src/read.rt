//! Reads an INFO from its text.
ghost use Rattle.std.specs.Prelude.{◌≡◌, option_and_then};
ghost use Rattle.std.specs.Result.{result_map_both};
ghost use Rattle.serde_json.specs.Read.{read};
ghost use Rattle.serde_json.specs.View.{view};
ghost use Rattle.nats_info.specs.Fields.{with_names, with_places, with_client, with_switches, with_fields, info_of, info_at};
ghost use Rattle.nats_info.specs.Errors.{Gives, Puts};

use crate::fields::{port, small_whole, switch, text, text_or_null, texts, whole};
use crate::{InfoError, ServerInfo};
use serde_json::{Category, Value};
use std::alloc::Global;
use std::str;

fn put_names(alloc: Global, object: &Value, info: &mut ServerInfo) -> Result<(), InfoError>
    ensures { Puts (with_names (view object.now) info.old) result info.new }
{
    info.server_id = text(alloc, object, "server_id")?;
    info.server_name = text(alloc, object, "server_name")?;
    info.version = text(alloc, object, "version")?;
    info.go = text(alloc, object, "go")?;
    Ok(())
}

fn put_places(alloc: Global, object: &Value, info: &mut ServerInfo) -> Result<(), InfoError>
    ensures { Puts (with_places (view object.now) info.old) result info.new }
{
    info.host = text(alloc, object, "host")?;
    info.port = port(object, "port")?;
    info.connect_urls = texts(alloc, object, "connect_urls")?;
    info.cluster = text_or_null(alloc, object, "cluster")?;
    info.domain = text_or_null(alloc, object, "domain")?;
    Ok(())
}

fn put_client(alloc: Global, object: &Value, info: &mut ServerInfo) -> Result<(), InfoError>
    ensures { Puts (with_client (view object.now) info.old) result info.new }
{
    info.nonce = text(alloc, object, "nonce")?;
    info.client_ip = text(alloc, object, "client_ip")?;
    info.client_id = whole(object, "client_id")?;
    info.max_payload = whole(object, "max_payload")?;
    info.proto = small_whole(object, "proto")?;
    Ok(())
}

fn put_switches(object: &Value, info: &mut ServerInfo) -> Result<(), InfoError>
    ensures { Puts (with_switches (view object.now) info.old) result info.new }
{
    info.auth_required = switch(object, "auth_required")?;
    info.tls_required = switch(object, "tls_required")?;
    info.headers = switch(object, "headers")?;
    info.jetstream = switch(object, "jetstream")?;
    info.lame_duck_mode = switch(object, "ldm")?;
    Ok(())
}

fn put_fields(alloc: Global, object: &Value, info: &mut ServerInfo) -> Result<(), InfoError>
    ensures { Puts (with_fields (view object.now) info.old) result info.new }
{
    put_names(alloc, object, info)?;
    put_places(alloc, object, info)?;
    put_client(alloc, object, info)?;
    put_switches(object, info)
}

// The INFO of a JSON value.
fn info_of(alloc: Global, value: &Value) -> Result<ServerInfo, InfoError>
    ensures { Gives (info_of (view value.now)) result }
{
    if !value.is_object() {
        return Err(InfoError::Unreadable);
    }
    let mut info = ServerInfo::default(alloc);
    match put_fields(alloc, value, &mut info) {
        Ok(()) => Ok(info),
        Err(error) => Err(error),
    }
}

// The value that `serde_json` reads from a text.
fn value_of(alloc: Global, text: &str) -> Result<Value, InfoError>
    ensures { Gives (read text.now) (result_map_both view (λ error. error) result) }
{
    Value::from_str(alloc, text).map_err(|error| match error.classify() {
        Category::Memory => InfoError::NoMemory,
        _ => InfoError::Unreadable,
    })
}

fn read_text(alloc: Global, text: &str) -> Result<ServerInfo, InfoError>
    ensures { Gives (option_and_then info_of (read text.now)) result }
{
    let value = value_of(alloc, text)?;
    info_of(alloc, &value)
}

/// The INFO that a text spells: a JSON object in UTF-8 whose fields are as the NATS protocol has them. A missing
/// field has its default, an unknown one may be anything, and of a repeated one the last counts. For what follows
/// `INFO ` in a server's line.
///
/// # Errors
///
/// `Unreadable` exactly where the text is no such object: it is no JSON, or no object, or a field is of another
/// kind, out of range, or a number with a fraction or an exponent. `NoMemory` for want of memory.
pub fn read_info(alloc: Global, text: &[u8]) -> Result<ServerInfo, InfoError>
    ensures { Gives (info_at text.now) result }
{
    match str::from_utf8(text) {
        Ok(text) => read_text(alloc, text),
        Err(_) => Err(InfoError::Unreadable),
    }
}
