//! What is done to a broker at one hold of its lock. Nothing here waits.
ghost use Rattle.std.specs.Prelude.{◌≡◌, ◌<◌, length, take, IfOk};
ghost use Rattle.nats_serve.specs.Serving.{is_up, Joins, Feeds, Leaves, Sees};

use nats_broker::laws::due_is_done;
use nats_broker::{Broker, Bytes, PeerWord};
use nats_names::NoMemory;
use std::alloc::Global;

/// How many bytes are handed to one write at most.
pub(crate) const MOST_WRITTEN: usize = 65_536;

/// What became of bytes that a link gave.
#[derive(Clone, Copy, Debug, PartialEq, Eq)]
pub(crate) enum Fed {
    /// The peer was fed so many.
    Bytes(usize),
    /// The peer had ended, or never joined.
    Ended,
}

/// What waits for a peer.
#[derive(Drop)]
pub(crate) enum Waiting {
    /// These bytes wait first.
    Text(Bytes),
    /// None, and the peer is up.
    Nothing,
    /// None, and the peer ended, or never joined.
    Over,
}

/// Whether the peer of this number joined and did not end.
fn is_up(broker: &Broker, peer: u64) -> bool
    ensures { result ≡ is_up peer broker.now }
{
    if peer == 0 {
        return false;
    }
    match broker.peers().get(peer as usize - 1) {
        Some(found) => match found.word {
            PeerWord::Up => true,
            PeerWord::Left | PeerWord::Bad | PeerWord::Size => false,
        },
        None => false,
    }
}

/// A peer joins, behind all that is due. Its number; none where the last one was given.
pub(crate) fn join(broker: &mut Broker, alloc: Global) -> Result<Option<u64>, NoMemory>
    ensures { IfOk result (λ number. Joins broker.old number broker.new) }
{
    broker.settle(alloc)?;
    due_is_done();
    if broker.peers().len() as u64 == u64::MAX {
        return Ok(None);
    }
    Ok(Some(broker.join(alloc)?))
}

/// Feeds a peer these bytes, behind all that is due, and does what is due then.
pub(crate) fn feed(
    broker: &mut Broker,
    alloc: Global,
    peer: u64,
    bytes: &[u8],
) -> Result<Fed, NoMemory>
    ensures { IfOk result (λ fed. Feeds peer bytes.now broker.old fed broker.new) }
{
    broker.settle(alloc)?;
    due_is_done();
    if !is_up(broker, peer) {
        return Ok(Fed::Ended);
    }
    broker.feed(alloc, peer, bytes)?;
    broker.settle(alloc)?;
    Ok(Fed::Bytes(bytes.len()))
}

/// A peer leaves, behind all that is due. Whether it was up.
pub(crate) fn leave(broker: &mut Broker, alloc: Global, peer: u64) -> Result<bool, NoMemory>
    ensures { IfOk result (λ left. Leaves peer broker.old left broker.new) }
{
    broker.settle(alloc)?;
    due_is_done();
    if !is_up(broker, peer) {
        return Ok(false);
    }
    broker.leave(peer);
    Ok(true)
}

/// The first bytes of a text, at most so many.
fn front(text: &[u8], most: usize) -> &[u8]
    requires { 0 < most }
    ensures front { result.now ≡ take most text.now }
    ensures some { 0 < length text.now → 0 < length result.now }
{
    if text.len() <= most {
        text
    } else {
        &text[..most]
    }
}

/// What waits for a peer.
pub(crate) fn look(broker: &Broker, alloc: Global, peer: u64) -> Result<Waiting, NoMemory>
    ensures { IfOk result (λ look. Sees MOST_WRITTEN peer broker.now look) }
{
    let text = broker.waiting(peer);
    if text.is_empty() {
        return Ok(if is_up(broker, peer) {
            Waiting::Nothing
        } else {
            Waiting::Over
        });
    }
    let first = front(text, MOST_WRITTEN);
    Ok(Waiting::Text(Bytes::copy_from_slice(alloc, first)?))
}
