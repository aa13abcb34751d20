//! A connection by its calls: each word is a call with its texts behind commas, and is answered by a word.
use crate::says::{push, push_number, push_truth};
use nats_rows::{Bad, number_of, push_bytes, push_optional, push_word};
use nats_wire::{
    Bytes, ClientOp, Connection, HeaderMap, Message, OutboundMessage, Peeked, ServerError,
    ServerOp, ShouldFlush, Subject, WireError,
};
use serde_json::Value;
use std::alloc::Global;

/// What a reading gives.
type Read = Result<Option<ServerOp>, WireError>;

/// A connection, and a reading that is told of later.
#[derive(Drop)]
struct Driven {
    connection: Connection,
    kept: Read,
}

// ---- what is read

/// Appends each name with its values as JSON.
fn push_headers(alloc: Global, headers: &Option<HeaderMap>, out: &mut String) -> Result<(), Bad> {
    match headers {
        Some(headers) => push(out, headers.to_json(alloc)?.to_string(alloc)?.as_str()),
        None => push(out, "~"),
    }
}

/// Appends where a message goes and what it carries.
fn push_sent(message: &Message, out: &mut String) -> Result<(), Bad> {
    push_word(out, message.subject.as_str().as_bytes())?;
    out.push(' ')?;
    push_optional(out, message.reply.as_ref().map(|reply| reply.as_str()))?;
    Ok(push_word(out, message.payload.as_slice())?)
}

/// Appends the length, the status and the description of a message.
fn push_marks(alloc: Global, message: &Message, out: &mut String) -> Result<(), Bad> {
    let status = message.status.map_or(0, |status| status.as_u16());
    let length = message.length;
    out.push_str(format!(in alloc; " {length} {status} ")?.as_str())?;
    let description = message.description.as_ref();
    Ok(push_optional(out, description.map(|text| text.as_str()))?)
}

/// Appends a message: its number, subject, reply, payload, length, status, description and headers.
fn push_message(alloc: Global, sid: u64, message: &Message, out: &mut String) -> Result<(), Bad> {
    push_number(alloc, sid, out)?;
    push_sent(message, out)?;
    push_marks(alloc, message, out)?;
    out.push(' ')?;
    push_headers(alloc, &message.headers, out)
}

fn push_port(alloc: Global, port: u16, out: &mut String) -> Result<(), Bad> {
    push(out, "info ")?;
    push_number(alloc, u64::from(port), out)
}

fn push_error(alloc: Global, error: &ServerError, out: &mut String) -> Result<(), Bad> {
    push(out, error.to_string(alloc)?.as_str())
}

fn push_op(alloc: Global, op: &ServerOp, out: &mut String) -> Result<(), Bad> {
    match op {
        ServerOp::Ok => push(out, "ok"),
        ServerOp::Ping => push(out, "ping"),
        ServerOp::Pong => push(out, "pong"),
        ServerOp::Info(info) => push_port(alloc, info.port, out),
        ServerOp::Error(error) => push_error(alloc, error, out),
        ServerOp::Message { sid, message } => push_message(alloc, *sid, message, out),
    }
}

fn push_found(alloc: Global, read: &Read, out: &mut String) -> Result<(), Bad> {
    match read {
        Ok(Some(op)) => push_op(alloc, op, out),
        Ok(None) => push(out, "unfinished"),
        Err(WireError::ReadFault) => push(out, "fault"),
        Err(WireError::NoMemory) => Err(Bad::NoMemory),
    }
}

/// Reads an operation and appends it.
fn push_read(alloc: Global, connection: &mut Connection, out: &mut String) -> Result<(), Bad> {
    let read = connection.read_op(alloc);
    let pushed = push_found(alloc, &read, out);
    drop(read);
    pushed
}

fn len_of(peeked: &Result<Option<Peeked>, WireError>) -> Result<usize, Bad> {
    match peeked {
        Ok(Some(peeked)) => Ok(peeked.len),
        Ok(None) => Ok(0),
        Err(WireError::ReadFault) => Err(Bad::Form),
        Err(WireError::NoMemory) => Err(Bad::NoMemory),
    }
}

fn peeked_len(alloc: Global, connection: &Connection) -> Result<usize, Bad> {
    let peeked = connection.peek_op(alloc);
    let len = len_of(&peeked);
    drop(peeked);
    len
}

/// Looks at the operation at the front, takes it away, and appends how long it was.
fn push_peeked(alloc: Global, connection: &mut Connection, out: &mut String) -> Result<(), Bad> {
    let len = peeked_len(alloc, connection)?;
    connection.consume(len.min(connection.unread()));
    push_number(alloc, len as u64, out)
}

/// Feeds each byte by itself, and appends whether all the time nothing was whole.
fn push_by_bytes(
    alloc: Global,
    connection: &mut Connection,
    text: &[u8],
    out: &mut String,
) -> Result<(), Bad> {
    let mut is_unfinished = true;
    for byte in text {
        connection.feed(alloc, &[*byte])?;
        is_unfinished = is_unfinished && connection.is_unfinished();
    }
    push_truth(is_unfinished, out)
}

fn is_again(alloc: Global, message: &Message, json: &Value) -> bool {
    let read = Message::from_json(alloc, json);
    let is_same = matches!(&read, Ok(read) if *read == *message);
    drop(read);
    is_same
}

/// Appends whether a message is again what its JSON says.
fn push_again(alloc: Global, message: &Message, out: &mut String) -> Result<(), Bad> {
    let json = message.to_json(alloc)?;
    let is_same = is_again(alloc, message, &json);
    drop(json);
    push_truth(is_same, out)
}

fn push_message_again(alloc: Global, read: &Read, out: &mut String) -> Result<(), Bad> {
    match read {
        Ok(Some(ServerOp::Message { message, .. })) => push_again(alloc, message, out),
        _ => Err(Bad::Form),
    }
}

/// Reads a message, and appends whether it is again what its JSON says.
fn push_read_back(alloc: Global, connection: &mut Connection, out: &mut String) -> Result<(), Bad> {
    let read = connection.read_op(alloc);
    let pushed = push_message_again(alloc, &read, out);
    drop(read);
    pushed
}

// ---- what is written

fn flush_word(flush: ShouldFlush) -> &'static str {
    match flush {
        ShouldFlush::Yes => "yes",
        ShouldFlush::May => "may",
        ShouldFlush::No => "no",
    }
}

/// Appends what the first of the pieces has, and how many there are.
fn push_pieces(alloc: Global, connection: &mut Connection, out: &mut String) -> Result<(), Bad> {
    let pieces = connection.pending_pieces(alloc)?;
    push_number(alloc, pieces.len() as u64, out)
}

fn push_first(alloc: Global, connection: &mut Connection, out: &mut String) -> Result<(), Bad> {
    let pieces = connection.pending_pieces(alloc)?;
    match pieces.as_slice().first() {
        Some(piece) => Ok(push_bytes(out, piece.as_slice())?),
        None => push(out, "~"),
    }
}

fn group_of(alloc: Global, text: &str) -> Result<Option<Subject>, Bad> {
    match text {
        "~" => Ok(None),
        text => Subject::from_text(alloc, text).map(Some).map_err(Bad::from),
    }
}

/// A map of these texts, a name and a value by turns.
fn map_of(alloc: Global, texts: &[&str]) -> Result<HeaderMap, Bad> {
    let mut headers = HeaderMap::new(alloc);
    for pair in texts.chunks(2) {
        if let [name, value] = pair {
            headers.append(alloc, *name, *value).map_err(|_| Bad::Form)?;
        }
    }
    Ok(headers)
}

fn add(ops: &mut Vec<ClientOp>, op: ClientOp) -> Result<(), Bad> {
    Ok(ops.push(op)?)
}

/// The subject, the subject of replies and the payload of a publication.
type Said = (Subject, Option<Subject>, Bytes);

fn said(alloc: Global, [subject, respond, payload]: [&str; 3]) -> Result<Said, Bad> {
    let subject = Subject::from_text(alloc, subject)?;
    let respond = group_of(alloc, respond)?;
    let payload = Bytes::copy_from_slice(alloc, payload.as_bytes())?;
    Ok((subject, respond, payload))
}

fn published((subject, respond, payload): Said, headers: Option<HeaderMap>) -> ClientOp {
    ClientOp::Publish {
        subject,
        payload,
        respond,
        headers,
    }
}

fn publish(alloc: Global, ops: &mut Vec<ClientOp>, texts: [&str; 3]) -> Result<(), Bad> {
    let said = said(alloc, texts)?;
    add(ops, published(said, None))
}

fn publish_with(
    alloc: Global,
    ops: &mut Vec<ClientOp>,
    texts: [&str; 3],
    headers: &[&str],
) -> Result<(), Bad> {
    let said = said(alloc, texts)?;
    let headers = map_of(alloc, headers)?;
    add(ops, published(said, Some(headers)))
}

fn subscribe(
    alloc: Global,
    ops: &mut Vec<ClientOp>,
    [sid, subject, group]: [&str; 3],
) -> Result<(), Bad> {
    let sid = number_of(sid)?;
    let queue_group = group_of(alloc, group)?;
    let subject = Subject::from_text(alloc, subject)?;
    add(
        ops,
        ClientOp::Subscribe {
            sid,
            subject,
            queue_group,
        },
    )
}

fn unsubscribe(ops: &mut Vec<ClientOp>, sid: &str, max: Option<u64>) -> Result<(), Bad> {
    let sid = number_of(sid)?;
    add(ops, ClientOp::Unsubscribe { sid, max })
}

/// Adds the operation of a call's texts.
fn add_op(alloc: Global, ops: &mut Vec<ClientOp>, texts: &[&str]) -> Result<(), Bad> {
    match texts {
        ["ping"] => add(ops, ClientOp::Ping),
        ["pong"] => add(ops, ClientOp::Pong),
        ["sub", sid, subject, group] => subscribe(alloc, ops, [sid, subject, group]),
        ["unsub", sid] => unsubscribe(ops, sid, None),
        ["unsub", sid, max] => unsubscribe(ops, sid, Some(number_of(max)?)),
        ["pub", subject, respond, payload] => publish(alloc, ops, [subject, respond, payload]),
        ["hpub", subject, respond, payload, headers @ ..] => {
            publish_with(alloc, ops, [subject, respond, payload], headers)
        }
        _ => Err(Bad::Form),
    }
}

/// The operations of texts with bars between them.
fn ops_of(alloc: Global, text: &str) -> Result<Vec<ClientOp>, Bad> {
    let mut ops = Vec::new(alloc);
    for op in text.split('|') {
        let texts: Vec<&str> = op.split(',').collect(alloc)?;
        add_op(alloc, &mut ops, texts.as_slice())?;
    }
    Ok(ops)
}

/// A publication with this payload.
fn plain(payload: Bytes) -> ClientOp {
    ClientOp::Publish {
        subject: Subject::from_static("FOO"),
        payload,
        respond: None,
        headers: None,
    }
}

/// Writes each of the operations by itself.
fn write(alloc: Global, connection: &mut Connection, text: &str) -> Result<(), Bad> {
    let ops = ops_of(alloc, text)?;
    for op in ops.as_slice() {
        connection.enqueue_write_op(alloc, op)?;
    }
    Ok(())
}

/// Writes a publication with a payload of so many bytes.
fn write_large(alloc: Global, connection: &mut Connection, text: &str) -> Result<(), Bad> {
    let count = text.parse().map_err(|_| Bad::Form)?;
    let op = plain(Bytes::from_vec(vec![in alloc; b'x'; count]?)?);
    let done = connection.enqueue_write_op(alloc, &op);
    drop(op);
    Ok(done?)
}

/// Writes the operations at once.
fn write_all(alloc: Global, connection: &mut Connection, text: &str) -> Result<(), Bad> {
    let ops = ops_of(alloc, text)?;
    Ok(connection.enqueue_write_ops(alloc, ops.as_slice())?)
}

/// Takes so many of the bytes that wait, or all, and appends whether the writer is to be flushed.
fn push_taken(connection: &mut Connection, text: &str, out: &mut String) -> Result<(), Bad> {
    let count: usize = text.parse().map_err(|_| Bad::Form)?;
    connection.written(count.min(connection.pending()));
    push(out, flush_word(connection.should_flush()))
}

// ---- calls

/// Appends what a connection tells of itself, or of what stands first.
fn push_told(alloc: Global, driven: &mut Driven, call: &str, out: &mut String) -> Result<(), Bad> {
    let connection = &mut driven.connection;
    match call {
        "read" => push_read(alloc, connection, out),
        "peek" => push_peeked(alloc, connection, out),
        "unread" => push_number(alloc, connection.unread() as u64, out),
        "unfinished" => push_truth(connection.is_unfinished(), out),
        "readback" => push_read_back(alloc, connection, out),
        "pending" => push_number(alloc, connection.pending() as u64, out),
        "pieces" => push_pieces(alloc, connection, out),
        "first" => push_first(alloc, connection, out),
        _ => push_more(alloc, driven, call, out),
    }
}

fn push_waiting(alloc: Global, connection: &Connection, out: &mut String) -> Result<(), Bad> {
    let text = connection.copy_waiting(alloc, connection.pending())?;
    Ok(push_bytes(out, text.as_slice())?)
}

fn push_kept(alloc: Global, driven: &Driven, out: &mut String) -> Result<(), Bad> {
    match &driven.kept {
        Ok(Some(op)) => push_op(alloc, op, out),
        Ok(None) | Err(_) => push(out, "none"),
    }
}

fn keep(alloc: Global, driven: &mut Driven) {
    driven.kept = driven.connection.read_op(alloc);
}

fn push_more(alloc: Global, driven: &mut Driven, call: &str, out: &mut String) -> Result<(), Bad> {
    match call {
        "keep" => {
            keep(alloc, driven);
            push_number(alloc, driven.connection.unread() as u64, out)
        }
        "kept" => push_kept(alloc, driven, out),
        "full" => push_truth(driven.connection.is_write_buf_full(), out),
        "flush" => push(out, flush_word(driven.connection.should_flush())),
        "waiting" => push_waiting(alloc, &driven.connection, out),
        "flushed" => {
            driven.connection.flushed();
            push(out, flush_word(driven.connection.should_flush()))
        }
        _ => Err(Bad::Form),
    }
}

fn feed_shared(alloc: Global, connection: &mut Connection, text: &[u8]) -> Result<(), Bad> {
    let piece = Bytes::copy_from_slice(alloc, text)?;
    Ok(connection.feed_shared(alloc, &piece)?)
}

/// Calls a connection and appends the answer, where there is one.
fn push_call(alloc: Global, driven: &mut Driven, call: &str, out: &mut String) -> Result<(), Bad> {
    let Some((verb, word)) = call.split_once(',') else {
        return push_told(alloc, driven, call, out);
    };
    let connection = &mut driven.connection;
    let text = nats_rows::spelled_bytes(alloc, word)?;
    match verb {
        "feed" => connection.feed(alloc, text.as_slice())?,
        "shared" => feed_shared(alloc, connection, text.as_slice())?,
        "bytes" => push_by_bytes(alloc, connection, text.as_slice(), out)?,
        "write" => write(alloc, connection, word)?,
        "large" => write_large(alloc, connection, word)?,
        "writes" => write_all(alloc, connection, word)?,
        "taken" => push_taken(connection, word, out)?,
        _ => return Err(Bad::Form),
    }
    Ok(())
}

fn push_each(alloc: Global, driven: &mut Driven, calls: &str, out: &mut String) -> Result<(), Bad> {
    for call in calls.split(' ') {
        let start = out.len();
        push_call(alloc, driven, call, out)?;
        if out.len() > start {
            out.push_str(", ")?;
        }
    }
    Ok(())
}

fn push_calls(alloc: Global, calls: &str, out: &mut String) -> Result<(), Bad> {
    let mut driven = Driven {
        connection: Connection::new(alloc),
        kept: Ok(None),
    };
    push_each(alloc, &mut driven, calls, out)
}

fn is_copied(alloc: Global, message: &OutboundMessage) -> bool {
    let copy = message.copy(alloc);
    let is_same = matches!(&copy, Ok(copy) if *copy == *message);
    drop(copy);
    is_same
}

fn outbound(headers: HeaderMap) -> OutboundMessage {
    OutboundMessage {
        subject: Subject::from_static("FOO.BAR"),
        reply: None,
        payload: Bytes::from_static(b"hi"),
        headers: Some(headers),
    }
}

/// Appends whether a message that is to be sent is equal to its copy.
fn push_copied(alloc: Global, out: &mut String) -> Result<(), Bad> {
    let message = outbound(map_of(alloc, &["Header", "X"])?);
    let is_same = is_copied(alloc, &message);
    drop(message);
    push_truth(is_same, out)
}

/// Answers a question on a connection, and tells whether it is one.
pub fn answer(alloc: Global, word: &str, rest: &str, out: &mut String) -> Result<bool, Bad> {
    match word {
        "connection" => push_calls(alloc, rest, out)?,
        "copied" => push_copied(alloc, out)?,
        _ => return Ok(false),
    }
    Ok(true)
}
