//! A peer, from when it comes to when it is gone.

use crate::Served;
use nats_serve::{BrokerHub, LinkRead, LinkWrite, serve_read, serve_write};
use std::alloc::Global;
use std::sync::Wait;
use std::thread;
use std::thread::Threads;

/// Writes to the link of a peer until link or peer is over, and shuts it: who reads from it meets its end then.
fn write_on<R: Wait, H: LinkWrite>(rt: &R, alloc: Global, hub: &BrokerHub, peer: u64, out: &mut H) {
    let _ = serve_write(rt, alloc, hub, peer, out);
    out.shut();
}

/// Serves a peer that joined: one thread writes to its link, and this one reads from it.
fn serve_both<R: Threads + Wait + Sync, L: LinkRead, H: LinkWrite + Send>(
    rt: &R,
    alloc: Global,
    hub: &BrokerHub,
    peer: u64,
    from: &mut L,
    out: &mut H,
) {
    let _ = thread::join(
        rt,
        move || write_on(rt, alloc, hub, peer, out),
        move || serve_read(rt, alloc, hub, peer, from),
    );
}

/// Serves a peer over the two halves of its link, until link or peer is over: it joins, one thread writes what waits
/// for it, and this one reads what it says. Then the link is shut. A peer for which there is no number or no memory is
/// shut out at once. Own call.
pub fn serve_peer<R: Threads + Wait + Sync, L: LinkRead, H: LinkWrite + Send>(
    rt: &R,
    alloc: Global,
    hub: &BrokerHub,
    from: &mut L,
    out: &mut H,
) {
    match hub.join(rt, alloc) {
        Ok(Some(peer)) => serve_both(rt, alloc, hub, peer, from, out),
        Ok(None) | Err(_) => out.shut(),
    }
}
