//! Writing to a peer's link.
ghost use Rattle.std.specs.Prelude.{◌≡◌, ◌<◌, ◌≤◌, length, true, IfSome};
ghost use Rattle.nats_outside.specs.Counts.{Rose, RoseBy};
ghost use Rattle.nats_serve.specs.Serving.{Takes};
ghost use Rattle.nats_serve.specs.declared.hub.PeerEnd.TheVariants as ends;

use crate::{BrokerHub, PeerEnd};
use nats_broker::Bytes;
use nats_names::NoMemory;
use nats_outside::{Failed, LinkWrite};
use std::alloc::Global;
use std::sync::Wait;

/// One write: how many of the bytes the link took; none where it failed.
fn write_some<L: LinkWrite>(out: &mut L, bytes: Bytes) -> Option<usize>
    requires { 0 < length bytes }
    ensures { Takes result bytes (L.write_told out.old) (L.write_told out.new) }
{
    match out.write_pieces(&[bytes]) {
        Ok(count) => Some(count),
        Err(Failed) => None,
    }
}

/// Writes to the link of the peer of this number what waits for it, and waits while nothing does, until link or peer
/// is over: `Lost` only where the link's faults rose. `Ended` where at a hold of the lock the peer had ended or had
/// never joined, and nothing waited: then the link is shut. The lock is free while it writes. Own call.
///
/// # Errors
///
/// `NoMemory` for want of memory: what waits stays.
pub fn serve_write<R: Wait, L: LinkWrite>(
    rt: &R,
    alloc: Global,
    hub: &BrokerHub,
    peer: u64,
    out: &mut L,
) -> PeerEnd
    ensures lost { result ≡ ends.Lost → Rose (L.write_told out.old).faults (L.write_told out.new).faults }
    ensures shut { result ≡ ends.Ended → (L.write_told out.new).is_shut ≡ true }
{
    for _ in rt.forever() {
        match hub.next(rt, alloc, peer) {
            Ok(Some(bytes)) => match write_some(out, bytes) {
                Some(count) => hub.taken(rt, peer, count),
                None => return PeerEnd::Lost,
            },
            Ok(None) => {
                out.shut();
                return PeerEnd::Ended;
            }
            Err(NoMemory) => return PeerEnd::NoMemory,
        }
    }
    unreachable!()
}
