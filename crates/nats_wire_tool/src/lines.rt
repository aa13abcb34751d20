//! An operation as a line.
use nats_rows::{push_bytes, push_optional, push_word};
use nats_wire::{HeaderMap, Message, ServerError, ServerInfo, ServerOp, StatusCode, Text};
use std::alloc::{AllocError, Global};

/// Appends a space, the name of a field and `=`.
fn push_key(out: &mut String, key: &str) -> Result<(), AllocError> {
    out.push(' ')?;
    out.push_str(key)?;
    out.push('=')
}

/// Appends a text as a word, where it is there.
fn push_text(out: &mut String, text: &Option<Text>) -> Result<(), AllocError> {
    push_optional(out, text.as_ref().map(|text| text.as_str()))
}

/// Appends fields that are texts.
fn push_texts(out: &mut String, fields: &[(&str, &str)]) -> Result<(), AllocError> {
    for (key, text) in fields {
        push_key(out, key)?;
        push_bytes(out, text.as_bytes())?;
    }
    Ok(())
}

/// Appends who a server is: its names, its address and its version.
fn push_server(alloc: Global, out: &mut String, info: &ServerInfo) -> Result<(), AllocError> {
    push_texts(
        out,
        &[
            ("server_id", info.server_id.as_str()),
            ("server_name", info.server_name.as_str()),
            ("host", info.host.as_str()),
        ],
    )?;
    let port = format!(in alloc; " port={}", info.port)?;
    out.push_str(port.as_str())?;
    push_texts(out, &[("version", info.version.as_str())])
}

/// Appends what a server demands and allows, and what it tells of the client and of this link.
fn push_limits(alloc: Global, out: &mut String, info: &ServerInfo) -> Result<(), AllocError> {
    let limits = format!(in alloc;
        " auth_required={} tls_required={} max_payload={} proto={} client_id={}",
        info.auth_required, info.tls_required, info.max_payload, info.proto, info.client_id
    )?;
    out.push_str(limits.as_str())?;
    push_texts(
        out,
        &[
            ("go", info.go.as_str()),
            ("nonce", info.nonce.as_str()),
            ("client_ip", info.client_ip.as_str()),
        ],
    )
}

/// Appends what a server can do.
fn push_switches(alloc: Global, out: &mut String, info: &ServerInfo) -> Result<(), AllocError> {
    let switches = format!(in alloc;
        " headers={} ldm={} jetstream={}",
        info.headers, info.lame_duck_mode, info.jetstream
    )?;
    out.push_str(switches.as_str())
}

/// Appends what a server stands in, and the URLs of others.
fn push_others(out: &mut String, info: &ServerInfo) -> Result<(), AllocError> {
    push_key(out, "cluster")?;
    push_text(out, &info.cluster)?;
    push_key(out, "domain")?;
    push_text(out, &info.domain)?;
    for url in info.connect_urls.as_slice() {
        push_texts(out, &[("connect_url", url.as_str())])?;
    }
    Ok(())
}

fn push_info(alloc: Global, out: &mut String, info: &ServerInfo) -> Result<(), AllocError> {
    out.push_str("info")?;
    push_server(alloc, out, info)?;
    push_limits(alloc, out, info)?;
    push_switches(alloc, out, info)?;
    push_others(out, info)
}

/// Appends a name and a value for each value, and answers how many there are.
fn push_values(words: &mut String, headers: &HeaderMap) -> Result<u64, AllocError> {
    let mut count = 0u64;
    for (name, values) in headers.iter() {
        for value in values {
            push_word(words, name.as_str().as_bytes())?;
            push_word(words, value.as_str().as_bytes())?;
            count = count.saturating_add(1);
        }
    }
    Ok(count)
}

/// Appends the number of values, and a name and a value for each, or `~` where there is no map.
fn push_headers(
    alloc: Global,
    out: &mut String,
    headers: &Option<HeaderMap>,
) -> Result<(), AllocError> {
    let Some(headers) = headers else {
        return out.push('~');
    };
    let mut words = String::new(alloc);
    let count = push_values(&mut words, headers)?;
    let line = format!(in alloc; "{count}{words}")?;
    out.push_str(line.as_str())
}

/// Appends the status of a message between spaces, or `~`.
fn push_status(
    alloc: Global,
    out: &mut String,
    status: Option<StatusCode>,
) -> Result<(), AllocError> {
    match status {
        Some(status) => out.push_str(format!(in alloc; " {status} ")?.as_str()),
        None => out.push_str(" ~ "),
    }
}

/// Appends where a message goes and what it carries.
fn push_sent(out: &mut String, message: &Message) -> Result<(), AllocError> {
    push_word(out, message.subject.as_str().as_bytes())?;
    out.push(' ')?;
    push_optional(out, message.reply.as_ref().map(|reply| reply.as_str()))?;
    push_word(out, message.payload.as_slice())
}

fn push_message(
    alloc: Global,
    out: &mut String,
    sid: u64,
    message: &Message,
) -> Result<(), AllocError> {
    out.push_str(format!(in alloc; "msg {sid}")?.as_str())?;
    push_sent(out, message)?;
    push_status(alloc, out, message.status)?;
    push_text(out, &message.description)?;
    out.push_str(format!(in alloc; " {} ", message.length)?.as_str())?;
    push_headers(alloc, out, &message.headers)
}

fn push_error(alloc: Global, out: &mut String, error: &ServerError) -> Result<(), AllocError> {
    match error {
        ServerError::AuthorizationViolation => out.push_str("err authorization-violation"),
        ServerError::SlowConsumer(number) => {
            let text = format!(in alloc; "err slow-consumer {number}")?;
            out.push_str(text.as_str())
        }
        ServerError::Other(text) => {
            out.push_str("err other")?;
            push_word(out, text.as_str().as_bytes())
        }
    }
}

/// Appends the operation's line.
pub fn push_op(alloc: Global, out: &mut String, op: &ServerOp) -> Result<(), AllocError> {
    match op {
        ServerOp::Ok => out.push_str("ok")?,
        ServerOp::Ping => out.push_str("ping")?,
        ServerOp::Pong => out.push_str("pong")?,
        ServerOp::Error(error) => push_error(alloc, out, error)?,
        ServerOp::Info(info) => push_info(alloc, out, info)?,
        ServerOp::Message { sid, message } => push_message(alloc, out, *sid, message)?,
    }
    out.push('\n')
}
