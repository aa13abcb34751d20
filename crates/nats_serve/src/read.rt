//! Reading from a peer's link.
ghost use Rattle.std.specs.Prelude.{◌≡◌, ◌⊎◌, ◌<◌, length, IfOk};
ghost use Rattle.nats_outside.specs.Counts.{Rose, RoseBy};
ghost use Rattle.nats_serve.specs.Serving.{Gives, FedOnce, IsNoFed};
ghost use Rattle.nats_serve.specs.declared.hub.PeerEnd.TheVariants as ends;

use crate::held::Fed;
use crate::{BrokerHub, PeerEnd};
use nats_names::NoMemory;
use nats_outside::{Failed, LinkRead};
use std::alloc::Global;
use std::sync::Wait;

/// How many bytes one read of `serve_read` may give.
pub const READ_BUFFER: usize = 65_536;

/// What one read came to.
#[derive(Clone, Copy, Debug, PartialEq, Eq)]
pub(crate) enum ReadOnce {
    /// The peer was fed so many bytes.
    Fed(usize),
    /// The link failed or ended, and the peer left.
    Lost,
    /// The peer had ended, or never joined.
    Ended,
}

/// One read: how many bytes the link gave, or 0 where it ended or failed.
fn read_some<L: LinkRead>(from: &mut L, buf: &mut [u8]) -> usize
    requires { 0 < length buf.old }
    ensures given { Gives result buf.new (L.read_told from.old) (L.read_told from.new) }
    ensures room { length buf.new ≡ length buf.old }
{
    match from.read(buf) {
        Ok(count) => count,
        Err(Failed) => 0,
    }
}

/// A peer whose link is over leaves.
fn lose<R: Wait>(rt: &R, alloc: Global, hub: &BrokerHub, peer: u64) -> Result<ReadOnce, NoMemory>
    ensures { IfOk result IsNoFed }
{
    if hub.leave(rt, alloc, peer)? {
        Ok(ReadOnce::Lost)
    } else {
        Ok(ReadOnce::Ended)
    }
}

/// Reads once, and feeds the peer all that the link gave; where it gave nothing the peer leaves. The hub's lock is
/// free while it reads.
fn read_once<R: Wait, L: LinkRead>(
    rt: &R,
    alloc: Global,
    hub: &BrokerHub,
    peer: u64,
    from: &mut L,
    buf: &mut [u8],
) -> Result<ReadOnce, NoMemory>
    requires { 0 < length buf.old }
    ensures once { IfOk result (λ once. FedOnce once buf.new (L.read_told from.old) (L.read_told from.new)) }
    ensures faults { RoseBy 0 (L.read_told from.old).faults (L.read_told from.new).faults }
    ensures ends { RoseBy 0 (L.read_told from.old).ends (L.read_told from.new).ends }
    ensures room { length buf.new ≡ length buf.old }
{
    let count = read_some(from, buf);
    if count == 0 {
        return lose(rt, alloc, hub, peer);
    }
    match hub.feed(rt, alloc, peer, &buf[..count])? {
        Fed::Bytes(fed) => Ok(ReadOnce::Fed(fed)),
        Fed::Ended => Ok(ReadOnce::Ended),
    }
}

/// A peer for which memory was wanting leaves, if it may.
fn give_up<R: Wait>(rt: &R, alloc: Global, hub: &BrokerHub, peer: u64) -> PeerEnd
    ensures { result ≡ ends.NoMemory }
{
    let _ = hub.leave(rt, alloc, peer);
    PeerEnd::NoMemory
}

/// Reads into a buffer until the link or the peer is over.
fn read_into<R: Wait, L: LinkRead>(
    rt: &R,
    alloc: Global,
    hub: &BrokerHub,
    peer: u64,
    from: &mut L,
    buf: &mut [u8],
) -> PeerEnd
    requires { 0 < length buf.old }
    ensures { result ≡ ends.Lost → Rose (L.read_told from.old).faults (L.read_told from.new).faults
        ⊎ Rose (L.read_told from.old).ends (L.read_told from.new).ends }
{
    for _ in rt.forever() {
        match read_once(rt, alloc, hub, peer, from, buf) {
            Ok(ReadOnce::Fed(_)) => {}
            Ok(ReadOnce::Lost) => return PeerEnd::Lost,
            Ok(ReadOnce::Ended) => return PeerEnd::Ended,
            Err(NoMemory) => return give_up(rt, alloc, hub, peer),
        }
    }
    unreachable!()
}

/// Reads from the link of the peer of this number, feeds the broker what it gives, and does what is due, until link
/// or peer is over: `Lost` only where the link's faults or ends rose; then the peer left. `Ended` where at a hold of
/// the lock the peer had ended or had never joined. Each piece that the link gives is fed whole and at once, behind
/// all that is due. The lock is free while it reads, and each hold wakes all who write. Own call.
///
/// # Errors
///
/// `NoMemory` for want of memory: the peer left, if memory was not wanting for that too; else a command is due
/// still, which the next hold does, and the peer stays.
pub fn serve_read<R: Wait, L: LinkRead>(
    rt: &R,
    alloc: Global,
    hub: &BrokerHub,
    peer: u64,
    from: &mut L,
) -> PeerEnd
    ensures { result ≡ ends.Lost → Rose (L.read_told from.old).faults (L.read_told from.new).faults
        ⊎ Rose (L.read_told from.old).ends (L.read_told from.new).ends }
{
    match vec![in alloc; 0u8; READ_BUFFER] {
        Ok(mut buf) => read_into(rt, alloc, hub, peer, from, buf.as_mut_slice()),
        Err(_) => give_up(rt, alloc, hub, peer),
    }
}
