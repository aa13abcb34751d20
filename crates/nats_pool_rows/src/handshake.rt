//! A handshake as a machine by its calls: `handshake`, an address and the calls, each answered by a word; and what
//! the words of a server in a handshake come to.
use crate::says::{push, push_number};
use nats_handshake::{
    ConnectError, ConnectErrorKind, ConnectOptions, Course, Greeting, HANDSHAKE_OPERATIONS,
    Handshake, Shake, Verdict, read_course, read_greeting,
};
use nats_names::{AuthError, NoMemory, Text};
use nats_pool::{Auth, AuthBox, ServerAddr, ServerInfo, ServerList};
use nats_rows::{Bad, number_of, push_bytes, push_word, spelled_bytes};
use std::alloc::Global;

/// When each handshake of these rows begins.
const START: u64 = 100;

/// The word of what kind an error has.
pub fn kind_word(kind: ConnectErrorKind) -> &'static str {
    match kind {
        ConnectErrorKind::ServerParse => "parse",
        ConnectErrorKind::Dns => "dns",
        ConnectErrorKind::Authentication => "signing",
        ConnectErrorKind::AuthorizationViolation => "violation",
        ConnectErrorKind::TimedOut => "late",
        ConnectErrorKind::Tls => "tls",
        ConnectErrorKind::Io => "io",
        ConnectErrorKind::MaxReconnects => "attempts",
        ConnectErrorKind::NoMemory => "memory",
    }
}

fn error_word(error: ConnectError) -> &'static str {
    kind_word(error.kind())
}

/// Takes no server in: it skips each text.
#[derive(Drop)]
pub struct NoServers;

impl ServerList for NoServers {
    ghost Takes = { λ before after urls skipped. Unit {0} };

    fn take_in(&mut self, alloc: Global, urls: &[Text]) -> Result<Vec<Text>, NoMemory> {
        let mut skipped = Vec::new(alloc);
        for url in urls {
            skipped.push(url.copy(alloc)?)?;
        }
        Ok(skipped)
    }
}

fn begun_at(alloc: Global, addr: &ServerAddr, start: u64) -> Result<Handshake, &'static str> {
    let options = ConnectOptions::new();
    let begun = Handshake::new(alloc, addr, &options, start).map_err(error_word);
    drop(options);
    begun
}

/// A handshake on default options at this address, or the word of its refusal.
pub fn begun(alloc: Global, addr: &str, start: u64) -> Result<Handshake, &'static str> {
    match ServerAddr::parse(alloc, addr) {
        Ok(addr) => begun_at(alloc, &addr, start),
        Err(_) => Err("addr"),
    }
}

// ---- calls

fn fed_word(fed: Result<Shake, &'static str>) -> &'static str {
    match fed {
        Ok(Shake::More) => "more",
        Ok(Shake::Done) => "done",
        Err(word) => word,
    }
}

/// A callback that signs a nonce by itself.
fn signing(nonce: Vec<u8>) -> Result<Auth, AuthError> {
    let mut auth = Auth::new();
    auth.signature = Some(nonce);
    Ok(auth)
}

fn fed_with(
    alloc: Global,
    shaking: &mut Handshake,
    bytes: &[u8],
    options: &ConnectOptions,
) -> &'static str {
    let fed = shaking.feed(alloc, bytes, options, &mut NoServers);
    fed_word(fed.map_err(error_word))
}

/// What a handshake answers to one piece.
fn fed(alloc: Global, shaking: &mut Handshake, bytes: &[u8]) -> &'static str {
    let options = ConnectOptions::new();
    let word = fed_with(alloc, shaking, bytes, &options);
    drop(options);
    word
}

/// What a handshake answers to one piece where a callback signs the nonce.
fn fed_signed(alloc: Global, shaking: &mut Handshake, bytes: &[u8]) -> Result<&'static str, Bad> {
    let callback: AuthBox = Box::new(alloc, signing)?;
    let options = ConnectOptions::with_auth_callback(callback);
    let word = fed_with(alloc, shaking, bytes, &options);
    drop(options);
    Ok(word)
}

fn expired(shaking: &mut Handshake, now: u64) -> &'static str {
    match shaking.expire(now).map_err(error_word) {
        Ok(()) => "in-time",
        Err(word) => word,
    }
}

/// An INFO and so many `+OK` behind it.
fn oks(alloc: Global, count: u64) -> Result<Vec<u8>, Bad> {
    let mut text = b"INFO {}\r\n".to_vec(alloc)?;
    for _ in 0..count {
        text.extend_from_slice(b"+OK\r\n")?;
    }
    Ok(text)
}

fn called(
    alloc: Global,
    shaking: &mut Handshake,
    verb: &str,
    word: &str,
) -> Result<&'static str, Bad> {
    match verb {
        "feed" => Ok(fed(alloc, shaking, spelled_bytes(alloc, word)?.as_slice())),
        "sign" => fed_signed(alloc, shaking, spelled_bytes(alloc, word)?.as_slice()),
        "oks" => Ok(fed(alloc, shaking, oks(alloc, number_of(word)?)?.as_slice())),
        "expire" => Ok(expired(shaking, number_of(word)?)),
        _ => Err(Bad::Form),
    }
}

/// Appends texts, each behind `!`.
pub fn push_texts(texts: &[Text], out: &mut String) -> Result<(), Bad> {
    for text in texts {
        out.push('!')?;
        out.push_str(text.as_str())?;
    }
    Ok(())
}

fn push_call(
    alloc: Global,
    shaking: &mut Handshake,
    call: &str,
    out: &mut String,
) -> Result<(), Bad> {
    if call == "out" {
        return Ok(push_bytes(out, shaking.out())?);
    }
    if call == "skipped" {
        return push_texts(shaking.skipped(), out);
    }
    let (verb, word) = call.split_once(',').ok_or(Bad::Form)?;
    push(out, called(alloc, shaking, verb, word)?)
}

fn push_calls(
    alloc: Global,
    shaking: &mut Handshake,
    calls: &str,
    out: &mut String,
) -> Result<(), Bad> {
    for call in calls.split(' ') {
        if call != "~" {
            push_call(alloc, shaking, call, out)?;
            out.push(' ')?;
        }
    }
    Ok(())
}

fn push_ended(
    alloc: Global,
    ended: &Option<(ServerInfo, Vec<u8>)>,
    out: &mut String,
) -> Result<(), Bad> {
    match ended {
        Some((info, rest)) => {
            let most = info.max_payload;
            push(out, "ended ")?;
            push_number(alloc, most, out)?;
            Ok(push_word(out, rest.as_slice())?)
        }
        None => push(out, "unfinished"),
    }
}

/// Appends the payload's limit that the server said, and what came behind the handshake.
pub fn push_finished(alloc: Global, shaking: Handshake, out: &mut String) -> Result<(), Bad> {
    let ended = shaking.finish();
    let pushed = push_ended(alloc, &ended, out);
    drop(ended);
    pushed
}

fn push_handshake(alloc: Global, rest: &str, out: &mut String) -> Result<(), Bad> {
    let (addr, calls) = rest.split_once(' ').ok_or(Bad::Form)?;
    match begun(alloc, addr, START) {
        Ok(mut shaking) => {
            let pushed = push_calls(alloc, &mut shaking, calls, out);
            let ended = push_finished(alloc, shaking, out);
            pushed.and(ended)
        }
        Err(word) => push(out, word),
    }
}

// ---- whole texts

fn greeting_word(greeting: &Greeting) -> &'static str {
    match greeting {
        Greeting::Waits => "waits",
        Greeting::Greets(_, _) => "greets",
        Greeting::Refuses(_) => "refuses",
    }
}

fn push_greeting(alloc: Global, text: &[u8], out: &mut String) -> Result<(), Bad> {
    let greeting = read_greeting(alloc, text)?;
    let word = greeting_word(&greeting);
    drop(greeting);
    push(out, word)
}

fn verdict_word(verdict: &Verdict) -> &'static str {
    match verdict {
        Verdict::Waits => "waits",
        Verdict::Succeeds => "succeeds",
        Verdict::Refuses(refusal) => kind_word(refusal.kind),
    }
}

fn push_told(alloc: Global, course: &Course, out: &mut String) -> Result<(), Bad> {
    let (word, taken) = (verdict_word(&course.verdict), course.taken);
    push(out, word)?;
    push(out, " ")?;
    push_number(alloc, taken as u64, out)?;
    Ok(push_word(out, course.out.as_slice())?)
}

/// Appends what a text comes to, how many bytes of it were read, and what is written.
fn push_course(alloc: Global, text: &[u8], out: &mut String) -> Result<(), Bad> {
    let course = read_course(alloc, text, HANDSHAKE_OPERATIONS, Vec::new(alloc))?;
    let pushed = push_told(alloc, &course, out);
    drop(course);
    pushed
}

/// Answers a question on a handshake, and tells whether it is one.
pub fn answer(alloc: Global, word: &str, rest: &str, out: &mut String) -> Result<bool, Bad> {
    match word {
        "handshake" => push_handshake(alloc, rest, out)?,
        "greeting" => push_greeting(alloc, spelled_bytes(alloc, rest)?.as_slice(), out)?,
        "course" => push_course(alloc, spelled_bytes(alloc, rest)?.as_slice(), out)?,
        _ => return Ok(false),
    }
    Ok(true)
}
