//! CONNECT as a line: each field that is not as by default is `KEY=WORD`, by its name in the protocol.
use nats_rows::{Bad, string_of, switch_of};
use nats_wire::{ConnectInfo, Protocol, Text};
use std::alloc::Global;

/// The text of a word.
fn text_of(alloc: Global, word: &str) -> Result<Text, Bad> {
    let text = string_of(alloc, word)?;
    Ok(Text::from_text(alloc, text.as_str())?)
}

/// The text of a word, or none.
fn optional_text_of(alloc: Global, word: &str) -> Result<Option<Text>, Bad> {
    match word {
        "~" => Ok(None),
        word => Ok(Some(text_of(alloc, word)?)),
    }
}

fn plain_of(lang: Text, version: Text) -> ConnectInfo {
    ConnectInfo {
        verbose: false,
        pedantic: false,
        user_jwt: None,
        nkey: None,
        signature: None,
        name: None,
        echo: true,
        lang,
        version,
        protocol: Protocol::Dynamic,
        tls_required: false,
        user: None,
        pass: None,
        auth_token: None,
        headers: true,
        no_responders: true,
    }
}

/// What a client tells where its options say nothing.
fn plain(alloc: Global) -> Result<ConnectInfo, Bad> {
    let lang = Text::from_text(alloc, "rust")?;
    let version = Text::from_text(alloc, "0.51.0")?;
    Ok(plain_of(lang, version))
}

fn protocol_of(word: &str) -> Result<Protocol, Bad> {
    match word {
        "0" => Ok(Protocol::Original),
        "1" => Ok(Protocol::Dynamic),
        _ => Err(Bad::Form),
    }
}

/// Gives a field that is no text its value.
fn set_switch(info: &mut ConnectInfo, key: &str, word: &str) -> Result<(), Bad> {
    match key {
        "verbose" => info.verbose = switch_of(word)?,
        "pedantic" => info.pedantic = switch_of(word)?,
        "echo" => info.echo = switch_of(word)?,
        "protocol" => info.protocol = protocol_of(word)?,
        "tls_required" => info.tls_required = switch_of(word)?,
        "headers" => info.headers = switch_of(word)?,
        "no_responders" => info.no_responders = switch_of(word)?,
        _ => return Err(Bad::Form),
    }
    Ok(())
}

/// Gives a text that may be left out to its field; the token is what is left of the keys.
fn set_optional(info: &mut ConnectInfo, key: &str, text: Option<Text>) {
    match key {
        "jwt" => info.user_jwt = text,
        "nkey" => info.nkey = text,
        "sig" => info.signature = text,
        "name" => info.name = text,
        "user" => info.user = text,
        "pass" => info.pass = text,
        _ => info.auth_token = text,
    }
}

/// Gives a field its value.
fn set(alloc: Global, info: &mut ConnectInfo, key: &str, word: &str) -> Result<(), Bad> {
    match key {
        "jwt" | "nkey" | "sig" | "name" | "user" | "pass" | "auth_token" => {
            set_optional(info, key, optional_text_of(alloc, word)?);
        }
        "lang" => info.lang = text_of(alloc, word)?,
        "version" => info.version = text_of(alloc, word)?,
        key => set_switch(info, key, word)?,
    }
    Ok(())
}

/// Gives the fields of a line their values.
fn set_all(alloc: Global, info: &mut ConnectInfo, fields: &str) -> Result<(), Bad> {
    for field in fields.split(' ') {
        if field.is_empty() {
            continue;
        }
        let (key, word) = field.split_once('=').ok_or(Bad::Form)?;
        set(alloc, info, key, word)?;
    }
    Ok(())
}

/// What a client tells, by the fields of a line.
pub fn connect_of(alloc: Global, fields: &str) -> Result<ConnectInfo, Bad> {
    let mut info = plain(alloc)?;
    let done = set_all(alloc, &mut info, fields);
    match done {
        Ok(()) => Ok(info),
        Err(bad) => Err(bad),
    }
}
