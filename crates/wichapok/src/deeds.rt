//! What is done over a connection.

use crate::asked::Deed;
use crate::stop::Stop;
use crate::{bench, shown};
use nats_client::{
    Bytes, Client, Message, NoMemory, RequestError, RequestErrorKind, Subject, Subscriber, Tallies,
};
use nats_header::HeaderMap;
use nats_outside::Clock;
use std::alloc::Global;
use std::fmt;
use std::sync::Wait;
use std::thread::Threads;

/// Tells why a call was refused.
pub(crate) fn refused<R: Eprint, E: fmt::Display>(rt: &R, error: &E) -> Stop {
    let _ = eprintln!(rt; "{error}");
    Stop::Refused
}

/// The headers of words, each a name, a colon and a value; none where there are no words.
fn headers_of<R: Eprint>(
    rt: &R,
    alloc: Global,
    words: &[String],
) -> Result<Option<HeaderMap>, Stop> {
    if words.is_empty() {
        return Ok(None);
    }
    let mut headers = HeaderMap::new(alloc);
    'words: for word in words {
        let Some((name, value)) = word.as_str().split_once(':') else {
            let _ = eprintln!(rt; "a header is NAME:VALUE, which `{word}` is not");
            return Err(Stop::Words);
        };
        if let Err(error) = headers.append(alloc, name.trim(), value.trim()) {
            return Err(refused(rt, &error));
        }
    }
    Ok(Some(headers))
}

/// The bytes of a payload.
fn payload_of(alloc: Global, payload: &[u8]) -> Result<Bytes, NoMemory> {
    Ok(Bytes::copy_from_slice(alloc, payload)?)
}

/// Waits until all that was published is with the server.
fn flush<G: Tallies, R: Wait + Eprint>(
    rt: &R,
    alloc: Global,
    client: &mut Client<G>,
) -> Result<(), Stop> {
    let flushed = client.flush(rt, alloc);
    match &flushed {
        Ok(()) => Ok(()),
        Err(error) => Err(refused(rt, error)),
    }
}

/// Tells why a message was not published, where it was not.
fn settled<R: Eprint, E: fmt::Display>(rt: &R, sent: &Result<(), E>) -> Result<(), Stop> {
    match sent {
        Ok(()) => Ok(()),
        Err(error) => Err(refused(rt, error)),
    }
}

/// Publishes a message with headers where there are some.
fn publish_once<G: Tallies, R: Wait + Eprint>(
    rt: &R,
    alloc: Global,
    client: &mut Client<G>,
    subject: &str,
    payload: &[u8],
    reply: Option<&str>,
    headers: Option<HeaderMap>,
) -> Result<(), Stop> {
    let payload = payload_of(alloc, payload)?;
    let to = Subject::from_text(alloc, subject)?;
    let sent = match (reply, headers) {
        (None, None) => client.publish(rt, alloc, to, payload),
        (None, Some(with)) => client.publish_with_headers(rt, alloc, to, with, payload),
        (Some(reply), None) => {
            let back = Subject::from_text(alloc, reply)?;
            client.publish_with_reply(rt, alloc, to, back, payload)
        }
        (Some(reply), Some(with)) => {
            let back = Subject::from_text(alloc, reply)?;
            client.publish_with_reply_and_headers(rt, alloc, to, back, with, payload)
        }
    };
    let told = settled(rt, &sent);
    drop(sent);
    told
}

/// Tells where another link came up since so many did: what waited for the one before was lost.
pub(crate) fn still_on<G: Tallies, R: Wait + Eprint>(
    rt: &R,
    client: &Client<G>,
    links: u64,
) -> Result<(), Stop> {
    if client.statistics(rt).connects == links {
        Ok(())
    } else {
        Err(refused(rt, &"the link was lost before all was sent"))
    }
}

/// Publishes a message `count` times, and waits until it is with the server.
fn publish<G: Tallies, R: Wait + Print + Eprint>(
    rt: &R,
    alloc: Global,
    client: &mut Client<G>,
    subject: &str,
    payload: &[u8],
    headers: &[String],
    reply: Option<&str>,
    count: u64,
) -> Result<(), Stop> {
    let links = client.statistics(rt).connects;
    'messages: for _ in 0..count {
        let with = headers_of(rt, alloc, headers)?;
        publish_once(rt, alloc, client, subject, payload, reply, with)?;
        shown::published(rt, payload.len(), subject)?;
    }
    flush(rt, alloc, client)?;
    still_on(rt, client, links)
}

/// A subscription, in a queue group where one is named.
fn subscribe<G: Tallies, R: Wait + Eprint>(
    rt: &R,
    alloc: Global,
    client: &mut Client<G>,
    subject: &str,
    queue: Option<&str>,
) -> Result<Subscriber<G>, Stop> {
    let subject = Subject::from_text(alloc, subject)?;
    let subscribed = match queue {
        None => client.subscribe(rt, alloc, subject),
        Some(queue) => {
            let group = Subject::from_text(alloc, queue)?;
            client.queue_subscribe(rt, alloc, subject, group)
        }
    };
    match subscribed {
        Ok(subscriber) => Ok(subscriber),
        Err(error) => Err(refused(rt, &error)),
    }
}

/// What becomes of what a subscription gave: it is shown, or it is answered.
#[derive(Clone, Copy)]
enum Use<'a> {
    Show,
    Answer(&'a [u8]),
}

/// Shows a message, or answers it where it asks for an answer.
fn use_message<G: Tallies, R: Wait + Print + Eprint>(
    rt: &R,
    alloc: Global,
    client: &mut Client<G>,
    number: u64,
    message: &Message,
    what: Use<'_>,
) -> Result<(), Stop> {
    match what {
        Use::Show => shown::received(rt, number, message),
        Use::Answer(payload) => match &message.reply {
            Some(to) => publish_once(rt, alloc, client, to.as_str(), payload, None, None),
            None => Ok(()),
        },
    }
}

/// Uses what a subscription gave: whether it goes on.
fn use_taken<G: Tallies, R: Wait + Print + Eprint>(
    rt: &R,
    alloc: Global,
    client: &mut Client<G>,
    number: u64,
    taken: &Result<Option<Message>, NoMemory>,
    what: Use<'_>,
) -> Result<bool, Stop> {
    match taken {
        Ok(Some(message)) => {
            use_message(rt, alloc, client, number, message, what)?;
            Ok(true)
        }
        Ok(None) => Ok(false),
        Err(NoMemory) => Err(Stop::NoMemory),
    }
}

/// Takes messages until `count` came, or without end, and uses each.
fn receive<G: Tallies, R: Wait + Print + Eprint>(
    rt: &R,
    alloc: Global,
    client: &mut Client<G>,
    subscriber: &mut Subscriber<G>,
    count: Option<u64>,
    what: Use<'_>,
) -> Result<(), Stop> {
    let most = count.unwrap_or(u64::MAX);
    'messages: for number in 0..most {
        let taken = subscriber.next(rt, alloc);
        let used = use_taken(rt, alloc, client, number.saturating_add(1), &taken, what);
        drop(taken);
        if !used? {
            return Err(Stop::Refused);
        }
    }
    flush(rt, alloc, client)
}

/// Subscribes, and uses what comes.
fn listen<G: Tallies, R: Wait + Print + Eprint>(
    rt: &R,
    alloc: Global,
    client: &mut Client<G>,
    subject: &str,
    queue: Option<&str>,
    count: Option<u64>,
    what: Use<'_>,
) -> Result<(), Stop> {
    let mut subscriber = subscribe(rt, alloc, client, subject, queue)?;
    let received = receive(rt, alloc, client, &mut subscriber, count, what);
    drop(subscriber);
    received
}

/// Tells why a request got no reply.
fn unanswered<R: Eprint>(rt: &R, error: &RequestError) -> Stop {
    let _ = eprintln!(rt; "{error}");
    match error.kind() {
        RequestErrorKind::TimedOut => Stop::TimedOut,
        RequestErrorKind::NoResponders => Stop::NoResponders,
        RequestErrorKind::NoMemory => Stop::NoMemory,
        _ => Stop::Refused,
    }
}

/// Shows the reply, or tells why there is none.
fn show_reply<R: Print + Eprint>(
    rt: &R,
    replied: &Result<Message, RequestError>,
) -> Result<(), Stop> {
    match replied {
        Ok(message) => shown::content(rt, message),
        Err(error) => Err(unanswered(rt, error)),
    }
}

/// Makes a request, and shows its reply.
fn request<G: Tallies, R: Wait + Print + Eprint, C: Clock>(
    rt: &R,
    alloc: Global,
    client: &mut Client<G>,
    clock: &mut C,
    subject: &str,
    payload: &[u8],
) -> Result<(), Stop> {
    let subject = Subject::from_text(alloc, subject)?;
    let payload = payload_of(alloc, payload)?;
    let replied = client.request(rt, alloc, subject, payload, clock);
    let told = show_reply(rt, &replied);
    drop(replied);
    told
}

/// Does what is asked over a client.
pub fn do_deed<
    G: Tallies + Send + Sync,
    R: Threads + Wait + Print + Eprint + Sync,
    C: Clock + Copy + Drop + Send + Sync,
>(rt: &R, alloc: Global, client: &mut Client<G>, clock: &mut C, deed: &Deed) -> Result<(), Stop> {
    match deed {
        Deed::Publish {
            subject,
            payload,
            headers,
            reply,
            count,
        } => {
            let (to, back) = (subject.as_str(), reply.as_deref());
            publish(
                rt,
                alloc,
                client,
                to,
                payload.as_slice(),
                headers.as_slice(),
                back,
                *count,
            )
        }
        Deed::Subscribe {
            subject,
            queue,
            count,
        } => listen(
            rt,
            alloc,
            client,
            subject.as_str(),
            queue.as_deref(),
            *count,
            Use::Show,
        ),
        Deed::Request { subject, payload } => {
            request(
                rt,
                alloc,
                client,
                clock,
                subject.as_str(),
                payload.as_slice(),
            )
        }
        Deed::Reply {
            subject,
            payload,
            queue,
            count,
        } => {
            let answer = Use::Answer(payload.as_slice());
            listen(
                rt,
                alloc,
                client,
                subject.as_str(),
                queue.as_deref(),
                *count,
                answer,
            )
        }
        Deed::Bench(what) => bench::run(rt, alloc, client, clock, *what),
    }
}
