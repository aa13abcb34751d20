//! CONNECT lines, and what is printed of one that has secrets.
use crate::says::push;
use nats_connect::{ConnectInfo, Protocol, Text, connect_text};
use nats_rows::{Bad, push_bytes};
use nats_wire::{ClientOp, Connection};
use std::alloc::Global;

fn plain_of(lang: Text, version: Text) -> ConnectInfo {
    ConnectInfo {
        verbose: false,
        pedantic: false,
        user_jwt: None,
        nkey: None,
        signature: None,
        name: None,
        echo: false,
        lang,
        version,
        protocol: Protocol::Dynamic,
        tls_required: false,
        user: None,
        pass: None,
        auth_token: None,
        headers: false,
        no_responders: false,
    }
}

/// One that says nothing but the language and the version.
fn plain(alloc: Global) -> Result<ConnectInfo, Bad> {
    let lang = Text::from_text(alloc, "Rust")?;
    let version = Text::from_text(alloc, "1.0.0")?;
    Ok(plain_of(lang, version))
}

fn some(alloc: Global, text: &str) -> Result<Option<Text>, Bad> {
    Ok(Some(Text::from_text(alloc, text)?))
}

/// Appends the line of what a client tells, and whether its copy is equal.
fn push_info(alloc: Global, info: &ConnectInfo, out: &mut String) -> Result<(), Bad> {
    out.push('\n')?;
    push_bytes(out, connect_text(alloc, info)?.as_slice())?;
    let copy = info.copy(alloc);
    let is_same = matches!(&copy, Ok(copy) if *copy == *info);
    drop(copy);
    push(out, if is_same { " copied" } else { " changed" })
}

fn push_plain(alloc: Global, out: &mut String) -> Result<(), Bad> {
    let info = plain(alloc)?;
    push_info(alloc, &info, out)
}

fn push_waiting(
    alloc: Global,
    connection: &mut Connection,
    op: &ClientOp,
    out: &mut String,
) -> Result<(), Bad> {
    connection.enqueue_write_op(alloc, op)?;
    let text = connection.copy_waiting(alloc, connection.pending())?;
    Ok(push_bytes(out, text.as_slice())?)
}

fn push_op(alloc: Global, op: &ClientOp, out: &mut String) -> Result<(), Bad> {
    let mut connection = Connection::new(alloc);
    push_waiting(alloc, &mut connection, op, out)
}

fn push_connect(alloc: Global, info: ConnectInfo, out: &mut String) -> Result<(), Bad> {
    let op = ClientOp::Connect(info);
    let pushed = push_op(alloc, &op, out);
    drop(op);
    pushed
}

/// Appends the line that a connection writes of a plain one.
fn push_written(alloc: Global, out: &mut String) -> Result<(), Bad> {
    out.push('\n')?;
    push_connect(alloc, plain(alloc)?, out)
}

fn renamed(mut info: ConnectInfo, name: Option<Text>) -> ConnectInfo {
    info.name = name;
    info.protocol = Protocol::Original;
    info.echo = true;
    info
}

fn push_escaped(alloc: Global, out: &mut String) -> Result<(), Bad> {
    let name = some(alloc, "a\"b\\\n\u{1}ü")?;
    let info = renamed(plain(alloc)?, name);
    push_info(alloc, &info, out)
}

fn with_tokens(
    mut info: ConnectInfo,
    user_jwt: Option<Text>,
    auth_token: Option<Text>,
) -> ConnectInfo {
    info.user_jwt = user_jwt;
    info.auth_token = auth_token;
    info
}

fn with_proofs(mut info: ConnectInfo, signature: Option<Text>, pass: Option<Text>) -> ConnectInfo {
    info.signature = signature;
    info.pass = pass;
    info
}

fn secret_tokens(alloc: Global, secret: &str) -> Result<ConnectInfo, Bad> {
    let user_jwt = some(alloc, secret)?;
    let auth_token = some(alloc, secret)?;
    Ok(with_tokens(plain(alloc)?, user_jwt, auth_token))
}

fn with_secrets(alloc: Global, secret: &str) -> Result<ConnectInfo, Bad> {
    let signature = some(alloc, secret)?;
    let pass = some(alloc, secret)?;
    Ok(with_proofs(secret_tokens(alloc, secret)?, signature, pass))
}

/// Appends what is printed of one whose secrets are this text.
fn push_printed(alloc: Global, secret: &str, out: &mut String) -> Result<(), Bad> {
    let info = with_secrets(alloc, secret)?;
    let text = format!(in alloc; "{info:?}");
    drop(info);
    out.push('\n')?;
    push(out, text?.as_str())
}

/// Appends the lines of a plain one, of one with a name that is escaped, and what is printed of two with secrets.
pub fn push_all(alloc: Global, out: &mut String) -> Result<(), Bad> {
    out.push_str("lines")?;
    push_plain(alloc, out)?;
    push_written(alloc, out)?;
    push_escaped(alloc, out)?;
    out.push_str("\nprinted")?;
    push_printed(alloc, "one", out)?;
    push_printed(alloc, "other", out)
}
