//! The text of CONNECT, by the NATS client protocol.
ghost use Rattle.std.specs.Prelude.{◌≡◌, codes, decimal, IfOk};
ghost use Rattle.json.specs.Token.{boolean, number, string};
ghost use Rattle.nats_connect.specs.Connect.{Adds, field, text_or_null, protocol_number, first_fields, last_fields, connect_text};

use crate::{ConnectInfo, Protocol};
use json::Writer;
use nats_names::{NoMemory, Text};
use std::alloc::Global;

fn put_switch(json: &mut Writer, name: &str, is_on: bool) -> Result<(), NoMemory>
    ensures { Adds result json.old json.new (field name.now (boolean is_on)) }
{
    json.key(name)?;
    json.boolean(is_on)?;
    Ok(())
}

fn put_protocol(json: &mut Writer, name: &str, protocol: Protocol) -> Result<(), NoMemory>
    ensures { Adds result json.old json.new (field name.now (number (decimal (protocol_number protocol)))) }
{
    let n = match protocol {
        Protocol::Original => 0,
        Protocol::Dynamic => 1,
    };
    json.key(name)?;
    json.u64(n)?;
    Ok(())
}

fn put_text(json: &mut Writer, name: &str, text: &Text) -> Result<(), NoMemory>
    ensures { Adds result json.old json.new (field name.now (string text.now)) }
{
    json.key(name)?;
    json.string(text.as_str())?;
    Ok(())
}

// A text that may be absent, and is `null` then.
fn put_optional(json: &mut Writer, name: &str, text: &Option<Text>) -> Result<(), NoMemory>
    ensures { Adds result json.old json.new (field name.now (text_or_null text.now)) }
{
    json.key(name)?;
    match text {
        Some(text) => json.string(text.as_str())?,
        None => json.null()?,
    }
    Ok(())
}

fn put_first(json: &mut Writer, info: &ConnectInfo) -> Result<(), NoMemory>
    ensures { Adds result json.old json.new (first_fields info.now) }
{
    put_switch(json, "verbose", info.verbose)?;
    put_switch(json, "pedantic", info.pedantic)?;
    put_optional(json, "jwt", &info.user_jwt)?;
    put_optional(json, "nkey", &info.nkey)?;
    put_optional(json, "sig", &info.signature)?;
    put_optional(json, "name", &info.name)?;
    put_switch(json, "echo", info.echo)?;
    put_text(json, "lang", &info.lang)?;
    Ok(())
}

fn put_last(json: &mut Writer, info: &ConnectInfo) -> Result<(), NoMemory>
    ensures { Adds result json.old json.new (last_fields info.now) }
{
    put_text(json, "version", &info.version)?;
    put_protocol(json, "protocol", info.protocol)?;
    put_switch(json, "tls_required", info.tls_required)?;
    put_optional(json, "user", &info.user)?;
    put_optional(json, "pass", &info.pass)?;
    put_optional(json, "auth_token", &info.auth_token)?;
    put_switch(json, "headers", info.headers)?;
    put_switch(json, "no_responders", info.no_responders)?;
    Ok(())
}

/// The text of CONNECT: `CONNECT `, a JSON object without spaces whose fields stand in the protocol's order, and
/// the end of the line. The NATS protocol.
pub fn connect_text(alloc: Global, info: &ConnectInfo) -> Result<Vec<u8>, NoMemory>
    ensures { IfOk result (λ text. text.items ≡ connect_text info.now) }
{
    let mut text = Vec::new(alloc);
    text.extend_from_slice(b"CONNECT ")?;
    let mut json = Writer::new(text);
    json.begin_object()?;
    put_first(&mut json, info)?;
    put_last(&mut json, info)?;
    json.end_object()?;
    let mut text = json.into_inner();
    text.extend_from_slice(b"\r\n")?;
    Ok(text)
}
