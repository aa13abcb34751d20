//! What a client tells of the server and of itself.

use anyhow::{Result, anyhow};
use nats_client::{Client, State, Tallies};
use std::alloc::Global;
use std::sync::Wait;

/// The word of a state.
fn state_word(state: State) -> &'static str {
    match state {
        State::Pending => "pending",
        State::Connected => "connected",
        State::Disconnected => "disconnected",
    }
}

/// Prints the server, if one spoke, and which versions it has.
fn server<G: Tallies, R: Wait + Print>(rt: &R, alloc: Global, client: &Client<G>) -> Result<()> {
    match client.try_server_info(rt, alloc) {
        Ok(Some(info)) => println!(rt; "server {}", info.version.as_str())?,
        Ok(None) => println!(rt; "no server")?,
        Err(_) => return Err(anyhow!("no memory")),
    }
    match client.server_info(rt, alloc) {
        Ok(info) => println!(rt; "port {}", info.port)?,
        Err(_) => return Err(anyhow!("no memory")),
    }
    let has_same = client.is_server_compatible(rt, 2, 10, 18);
    let has_older = client.is_server_compatible(rt, 2, 9, 99);
    let has_newer = client.is_server_compatible(rt, 2, 11, 0);
    println!(rt; "2.10.18 {has_same}, 2.9.99 {has_older}, 2.11.0 {has_newer}")?;
    Ok(())
}

/// Prints what a client tells under a name.
pub(crate) fn told<G: Tallies, R: Wait + Print>(
    rt: &R,
    alloc: Global,
    client: &Client<G>,
    name: &str,
) -> Result<()> {
    println!(rt;
        "{name}: {}, messages of {} bytes",
        state_word(client.connection_state(rt)),
        client.max_payload(rt)
    )?;
    let counts = client.statistics(rt);
    println!(rt;
        "in {} of {} bytes, out {} of {} bytes, links {}",
        counts.in_messages, counts.in_bytes, counts.out_messages, counts.out_bytes, counts.connects
    )?;
    server(rt, alloc, client)
}

/// Prints the events that wait, at most eight.
pub(crate) fn events<G: Tallies, R: Wait + Print>(
    rt: &R,
    alloc: Global,
    client: &Client<G>,
) -> Result<()> {
    for _ in 0..8u64 {
        match client.poll_event(rt) {
            Some(event) => println!(rt; "event: {}", event.to_string(alloc)?)?,
            None => break,
        }
    }
    Ok(())
}
