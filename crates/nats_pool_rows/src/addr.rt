//! Addresses, lists of them, and who is asked for them.
use crate::outside::home;
use crate::says::push;
use nats_addr::{AddrError, FakeResolver, ResolveError, ServerAddr, ToServerAddrs, addrs_of_texts};
use nats_rows::{Bad, push_bytes, push_optional, push_word, string_of};
use std::alloc::Global;

/// How an address is refused, or that memory was wanting.
pub fn refusal(error: AddrError) -> Result<&'static str, Bad> {
    match error {
        AddrError::Scheme => Ok("!scheme"),
        AddrError::Url => Ok("!url"),
        AddrError::NoMemory => Err(Bad::NoMemory),
    }
}

/// Appends the scheme, host and port of an address.
fn push_parts(alloc: Global, addr: &ServerAddr, out: &mut String) -> Result<(), Bad> {
    let (scheme, host, port) = (addr.scheme(), addr.host(), addr.port());
    push(out, format!(in alloc; "{scheme} {host} {port}")?.as_str())
}

fn push_addr(alloc: Global, text: &str, out: &mut String) -> Result<(), Bad> {
    match ServerAddr::parse(alloc, text) {
        Ok(addr) => push_parts(alloc, &addr, out),
        Err(error) => push(out, refusal(error)?),
    }
}

fn parsed(alloc: Global, text: &str) -> Result<ServerAddr, Bad> {
    ServerAddr::parse(alloc, text).map_err(|_| Bad::Form)
}

fn is_copied(alloc: Global, addr: &ServerAddr) -> Result<bool, Bad> {
    let copy = addr.copy(alloc)?;
    let is_same = copy == *addr;
    drop(copy);
    Ok(is_same)
}

/// Appends what an address tells: its user and password, what is printed of it, whether its copy is equal, and its
/// kinds.
fn push_told(alloc: Global, addr: &ServerAddr, out: &mut String) -> Result<(), Bad> {
    push_optional(out, addr.username())?;
    out.push(' ')?;
    push_optional(out, addr.password())?;
    let (both, same) = (addr.has_user_pass(), is_copied(alloc, addr)?);
    let (tls, ws) = (addr.tls_required(), addr.is_websocket());
    let told = format!(in alloc; " both={both} {addr:?} copied={same} tls={tls} ws={ws}")?;
    push(out, told.as_str())
}

/// The address that the URL of an address is made into.
fn again(addr: ServerAddr) -> Result<ServerAddr, Bad> {
    ServerAddr::from_url(addr.into_inner()).map_err(|_| Bad::Form)
}

fn push_url(addr: ServerAddr, out: &mut String) -> Result<(), Bad> {
    let url = addr.into_inner();
    let pushed = push_word(out, url.as_str().as_bytes());
    drop(url);
    Ok(pushed?)
}

/// Appends what an address tells, and its text.
fn push_text(alloc: Global, addr: &ServerAddr, out: &mut String) -> Result<(), Bad> {
    push_told(alloc, addr, out)?;
    Ok(push_word(out, addr.as_url_str().as_bytes())?)
}

/// Appends what an address tells, its text, and again that of the address that its URL is made into.
fn push_secret(alloc: Global, text: &str, out: &mut String) -> Result<(), Bad> {
    let addr = parsed(alloc, text)?;
    let pushed = push_text(alloc, &addr, out);
    let again = again(addr)?;
    let url = push_url(again, out);
    pushed.and(url)
}

fn count<A: ToServerAddrs>(alloc: Global, source: &A) -> usize {
    match source.to_server_addrs(alloc) {
        Ok(addrs) => addrs.len(),
        Err(_) => 0,
    }
}

/// The texts between spaces as addresses.
fn push_list(alloc: Global, texts: &str, out: &mut String) -> Result<(), Bad> {
    let texts: Vec<&str> = texts.split(' ').collect(alloc)?;
    match addrs_of_texts(alloc, texts.as_slice()) {
        Ok(addrs) => {
            let (len, counted) = (addrs.len(), count(alloc, &addrs));
            push(out, format!(in alloc; "{len} {counted}")?.as_str())
        }
        Err(error) => push(out, refusal(error)?),
    }
}

/// Appends how many addresses a text, an address and a list of texts are.
fn push_counts(alloc: Global, out: &mut String) -> Result<(), Bad> {
    let text = String::from_str(alloc, "a")?;
    let (of_text, of_addr) = (count(alloc, &text), count(alloc, &parsed(alloc, "a")?));
    let of_list = count(alloc, &vec![in alloc; text]?);
    push(
        out,
        format!(in alloc; "{of_text} {of_addr} {of_list}")?.as_str(),
    )
}

/// Appends what a resolver gives first for the host and the port of an address.
fn push_first(
    alloc: Global,
    addr: &ServerAddr,
    resolver: &mut FakeResolver,
    out: &mut String,
) -> Result<(), Bad> {
    let word = match addr.socket_addrs(alloc, resolver) {
        Ok(mut addresses) => match addresses.next() {
            Some(found) if found == home() => "home ",
            Some(_) => "elsewhere ",
            None => "none ",
        },
        Err(ResolveError::Failed) => "failed ",
        Err(ResolveError::NoMemory) => "no memory ",
    };
    push(out, word)
}

/// Asks a resolver twice, and another one once.
fn push_asked(
    alloc: Global,
    addr: &ServerAddr,
    twice: &mut FakeResolver,
    once: &mut FakeResolver,
    out: &mut String,
) -> Result<(), Bad> {
    push_first(alloc, addr, twice, out)?;
    push_first(alloc, addr, twice, out)?;
    push_first(alloc, addr, once, out)
}

fn push_failed(alloc: Global, out: &mut String) -> Result<(), Bad> {
    let text = ResolveError::Failed.to_string(alloc)?;
    Ok(push_bytes(out, text.as_bytes())?)
}

/// Asks a resolver that fails at the second asking twice, and one that refuses once.
fn push_resolved(alloc: Global, out: &mut String) -> Result<(), Bad> {
    let homes = vec![in alloc; home()]?;
    let failing = vec![in alloc; 2]?;
    let addr = parsed(alloc, "h")?;
    let mut failing = FakeResolver::failing(homes, failing);
    let mut refusing = FakeResolver::refusing(alloc);
    let pushed = push_asked(alloc, &addr, &mut failing, &mut refusing, out);
    let failed = push_failed(alloc, out);
    pushed.and(failed)
}

/// Answers a question on addresses, and tells whether it is one.
pub fn answer(alloc: Global, word: &str, rest: &str, out: &mut String) -> Result<bool, Bad> {
    match word {
        "addr" => push_addr(alloc, string_of(alloc, rest)?.as_str(), out)?,
        "secret" => push_secret(alloc, rest, out)?,
        "list" => push_list(alloc, rest, out)?,
        "counts" => push_counts(alloc, out)?,
        "resolver" => push_resolved(alloc, out)?,
        _ => return Ok(false),
    }
    Ok(true)
}
