//! How a client asks, and what it is told.
ghost use Rattle.std.specs.Prelude.{◌≡◌, ◌^◌};

use crate::hand;
use crate::peer::{Peer, Plan};
use anyhow::{Result, anyhow};
use nats_client::{Bytes, Client, Message, Request, RequestError, Tallies};
use nats_header::HeaderMap;
use nats_outside::FakeClock;
use std::alloc::Global;
use std::sync::Wait;
use std::thread::Threads;
use std::{str, thread};

/// A request by its call, its body and its headers.
#[derive(Clone, Copy)]
pub(crate) enum Way {
    /// `request` with this body.
    Plain(&'static str),
    /// `request_with_headers` with this body, and this value of the name `K`.
    Headers(&'static str, &'static str),
    /// `send_request` with this body, at this inbox.
    Inbox(&'static str, &'static str),
}

/// Headers with this value of the name `K`.
pub(crate) fn headers(alloc: Global, value: &str) -> Result<HeaderMap> {
    let mut headers = HeaderMap::new(alloc);
    match headers.insert(alloc, "K", value) {
        Ok(()) => Ok(headers),
        Err(error) => Err(anyhow!("{error}")),
    }
}

/// Adds the values of the names `K` and `L`, where they are there.
fn add_headers(alloc: Global, out: &mut String, headers: &HeaderMap) -> Result<()> {
    for name in ["K", "L"] {
        if let Some(value) = headers.get(name) {
            out.push_str(format!(in alloc; " {name}: {}", value.as_str())?.as_str())?;
        }
    }
    Ok(())
}

/// Adds the status of a message and its words, where they are there.
fn add_status(alloc: Global, out: &mut String, message: &Message) -> Result<()> {
    if let Some(status) = message.status {
        out.push_str(format!(in alloc; " {}", status.as_u16())?.as_str())?;
    }
    if let Some(words) = &message.description {
        out.push_str(format!(in alloc; " {}", words.as_str())?.as_str())?;
    }
    Ok(())
}

/// A message: its payload, its headers and its status.
fn message_text(alloc: Global, message: &Message) -> Result<String> {
    let payload = str::from_utf8(message.payload.as_slice()).unwrap_or("(bytes)");
    let mut out = format!(in alloc; "'{payload}'")?;
    if let Some(headers) = &message.headers {
        add_headers(alloc, &mut out, headers)?;
    }
    add_status(alloc, &mut out, message)?;
    Ok(out)
}

/// What a request came to.
pub(crate) fn told(alloc: Global, answer: &Result<Message, RequestError>) -> Result<String> {
    match answer {
        Ok(message) => message_text(alloc, message),
        Err(error) => Ok(format!(in alloc; "{error}")?),
    }
}

/// A body.
pub(crate) fn body(text: &'static str) -> Bytes {
    Bytes::from_static(text.as_bytes())
}

/// Asks without headers.
pub(crate) fn plainly<G: Tallies, R: Wait>(
    rt: &R,
    alloc: Global,
    client: &mut Client<G>,
    subject: &'static str,
    text: &'static str,
    clock: &mut FakeClock,
) -> Result<String> {
    let answer = client.request(rt, alloc, subject, body(text), clock);
    told(alloc, &answer)
}

/// Asks with headers.
pub(crate) fn with_headers<G: Tallies, R: Wait>(
    rt: &R,
    alloc: Global,
    client: &mut Client<G>,
    text: &'static str,
    headers: HeaderMap,
    clock: &mut FakeClock,
) -> Result<String> {
    let answer = client.request_with_headers(rt, alloc, "svc", headers, body(text), clock);
    told(alloc, &answer)
}

/// Asks as a request says.
pub(crate) fn as_said<G: Tallies, R: Wait>(
    rt: &R,
    alloc: Global,
    client: &mut Client<G>,
    subject: &'static str,
    request: Request,
    clock: &mut FakeClock,
) -> Result<String>
    requires { G.parts ≡ 2 ^ 63 }
{
    let answer = client.send_request(rt, alloc, subject, request, clock);
    told(alloc, &answer)
}

/// A request with this body and this inbox.
pub(crate) fn at(alloc: Global, text: &'static str, inbox: &str) -> Result<Request> {
    let inbox = String::from_str(alloc, inbox)?;
    Ok(Request::new().payload(body(text)).inbox(inbox))
}

/// Asks in this way.
fn ask<G: Tallies, R: Wait>(
    rt: &R,
    alloc: Global,
    client: &mut Client<G>,
    way: Way,
) -> Result<String>
    requires { G.parts ≡ 2 ^ 63 }
{
    let mut clock = hand::still(alloc)?;
    match way {
        Way::Plain(text) => plainly(rt, alloc, client, "svc", text, &mut clock),
        Way::Headers(text, value) => {
            let headers = headers(alloc, value)?;
            with_headers(rt, alloc, client, text, headers, &mut clock)
        }
        Way::Inbox(text, inbox) => {
            let request = at(alloc, text, inbox)?;
            as_said(rt, alloc, client, "svc", request, &mut clock)
        }
    }
}

/// A client asks on one thread, while the peer hears it on another and does what is planned: what the request came to.
pub(crate) fn meet<G: Tallies + Send + Sync, R: Threads + Wait + Sync>(
    rt: &R,
    alloc: Global,
    client: &mut Client<G>,
    peer: &mut Peer,
    way: Way,
    plan: Plan,
) -> Result<String>
    requires { G.parts ≡ 2 ^ 63 }
{
    let other = client.clone()?;
    let hub = other.hub();
    let (told, played) = thread::join(
        rt,
        || -> Result<String>
            requires { G.parts ≡ 2 ^ 63 }
        { ask(rt, alloc, client, way) },
        || -> Result<()> { peer.hear_and_act(rt, alloc, hub, plan) },
    );
    client.settle(other);
    played?;
    told
}

/// Prints what was heard of a request, and what it came to.
pub(crate) fn print<R: Print>(
    rt: &R,
    alloc: Global,
    peer: &mut Peer,
    name: &str,
    told: &str,
) -> Result<()> {
    let shown = peer.show(alloc)?;
    Ok(println!(rt; "{name}:{} => {told}", shown.as_str())?)
}

/// A client and the peer meet, and what came of it is printed.
pub(crate) fn play<G: Tallies + Send + Sync, R: Threads + Wait + Print + Sync>(
    rt: &R,
    alloc: Global,
    client: &mut Client<G>,
    peer: &mut Peer,
    row: (&str, Way, Plan),
) -> Result<()>
    requires { G.parts ≡ 2 ^ 63 }
{
    let (name, way, plan) = row;
    let told = meet(rt, alloc, client, peer, way, plan)?;
    peer.take(rt, alloc, client.hub())?;
    print(rt, alloc, peer, name, told.as_str())
}
