//! A server that says nothing, and one that stops in the midst of its INFO: they hold no one for longer than was said,
//! and once more comes, it is read.

use crate::links::{DIAL_MS, listen, push_read};
use anyhow::{Result, anyhow};
use nats_system::{Dialer, LinkRead, NetDialer};
use std::alloc::Global;
use std::io::Write;
use std::net::{SocketAddr, TcpListener};

/// How long a read may wait, in milliseconds.
const WAIT_MS: u64 = 20;

/// One link to a server that says no more than this at first, and `PING` later.
fn push_link(
    alloc: Global,
    dialer: &mut NetDialer<HostRuntime>,
    listener: &TcpListener,
    home: &SocketAddr,
    begun: &str,
    out: &mut String,
) -> Result<()> {
    let Ok((mut read, write)) = dialer.dial(home, DIAL_MS) else {
        return Err(anyhow!("no link"));
    };
    let (mut peer, _) = listener.accept()?;
    peer.write_all(begun.as_bytes())?;
    read.wait_at_most(Some(WAIT_MS));
    if !begun.is_empty() {
        push_read(alloc, &mut read, "a read of what was begun", out)?;
    }
    push_read(alloc, &mut read, "a read that waits in vain", out)?;
    push_read(alloc, &mut read, "a second read that waits in vain", out)?;
    let (faults, ends) = (read.faults(), read.ends());
    out.push_str(format!(in alloc; "faults {faults}, ends {ends}\n")?.as_str())?;
    peer.write_all(b"PING")?;
    read.wait_at_most(None);
    push_read(alloc, &mut read, "a read of what came later", out)?;
    dialer.hang_up(read, write);
    Ok(())
}

/// Both servers.
pub fn answer(rt: &HostRuntime, alloc: Global, out: &mut String) -> Result<()> {
    let (listener, home) = listen(rt)?;
    let mut dialer = NetDialer::new(*rt);
    out.push_str("a server that says nothing\n")?;
    push_link(alloc, &mut dialer, &listener, &home, "", out)?;
    out.push_str("a server that stops in the midst of its INFO\n")?;
    push_link(alloc, &mut dialer, &listener, &home, "INFO {\"a", out)
}
