//! The calls of a client on its pool.

use anyhow::Result;
use nats_drive::Servers;
use nats_hub::Tallies;
use nats_pool::{ServerPool, SetServerPoolErrorKind};
use std::alloc::Global;
use std::sync::Wait;

/// The texts of addresses.
fn texts(alloc: Global, addrs: &[&str]) -> Result<Vec<String>> {
    let mut texts = Vec::new(alloc);
    for addr in addrs {
        texts.push(String::from_str(alloc, addr)?)?;
    }
    Ok(texts)
}

/// What became of a list that was to replace the servers.
fn told(alloc: Global, set: Result<(), SetServerPoolErrorKind>) -> Result<String> {
    match set {
        Ok(()) => Ok(String::from_str(alloc, "replaced")?),
        Err(kind) => Ok(format!(in alloc; "{kind}")?),
    }
}

/// Replaces the servers by these, and tells what became of it.
fn set<G: Tallies, Q: ServerPool, R: Wait>(
    rt: &R,
    alloc: Global,
    servers: &Servers<G, Q>,
    addrs: &[&str],
    out: &mut String,
) -> Result<()> {
    let texts = texts(alloc, addrs)?;
    let told = told(alloc, servers.set_server_pool(rt, alloc, texts))?;
    Ok(out.push_str(format!(in alloc; "{} servers: {told}\n", addrs.len())?.as_str())?)
}

/// Tells how many servers there are, or why that is not told.
fn count<G: Tallies, Q: ServerPool, R: Wait>(
    rt: &R,
    alloc: Global,
    servers: &Servers<G, Q>,
    out: &mut String,
) -> Result<()> {
    let known = servers.server_pool(rt, alloc);
    let told = match &known {
        Ok(all) => format!(in alloc; "known: {}\n", all.len()),
        Err(error) => format!(in alloc; "known: {error}\n"),
    };
    drop(known);
    Ok(out.push_str(told?.as_str())?)
}

/// Lists that are refused while the session is open, and the servers that are known.
pub fn while_open<G: Tallies, Q: ServerPool, R: Wait>(
    rt: &R,
    alloc: Global,
    servers: &Servers<G, Q>,
    out: &mut String,
) -> Result<()> {
    set(rt, alloc, servers, &["http://a"], out)?;
    set(rt, alloc, servers, &[], out)?;
    set(rt, alloc, servers, &["ws://a", "nats://b"], out)?;
    count(rt, alloc, servers, out)
}

/// The same calls once the session is closed.
pub fn once_closed<G: Tallies, Q: ServerPool, R: Wait>(
    rt: &R,
    alloc: Global,
    servers: &Servers<G, Q>,
    out: &mut String,
) -> Result<()> {
    set(rt, alloc, servers, &["nats://a"], out)?;
    set(rt, alloc, servers, &[], out)?;
    count(rt, alloc, servers, out)
}
