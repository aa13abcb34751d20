//! The broker of some clients.
ghost use Rattle.std.specs.Prelude.{◌≡◌, false, is_some, IsTrue, OnOk};
ghost use Rattle.nats_outboxes.specs.Outboxes.{item_of};
ghost use Rattle.nats_broker.specs.declared.turn.BrokerTurn.TheVariants as turns;
ghost use Rattle.nats_broker.specs.Peers.{up_by};
ghost use Rattle.nats_broker.specs.Playing.{is_due, after_turn, is_valid_turn};
ghost use Rattle.nats_moves.specs.Mesh.{told_behind, is_up_at};

use nats_broker::laws::due_is_done;
use nats_broker::{Broker, Peer, PeerWord};
use nats_names::NoMemory;
use std::alloc::Global;

/// Whether a peer is up.
fn is_up(peer: &Peer) -> bool
    ensures { result ≡ is_some (up_by peer.now.word peer.now) }
{
    match peer.word {
        PeerWord::Up => true,
        PeerWord::Left | PeerWord::Bad | PeerWord::Size => false,
    }
}

/// Whether the peer of a number is up.
pub(crate) fn is_up_at(broker: &Broker, i: u64) -> bool
    ensures { result ≡ is_up_at i broker.now }
{
    if i == 0 {
        return false;
    }
    match broker.peers().get(i as usize - 1) {
        Some(peer) => is_up(peer),
        None => false,
    }
}

/// What the broker told a peer behind its first line.
pub(crate) fn told_behind(broker: &Broker, i: u64) -> &[u8]
    ensures { result.now ≡ told_behind i broker.now }
{
    let text = broker.waiting(i);
    let line = broker.info_len();
    if line < text.len() {
        &text[line..]
    } else {
        &[]
    }
}

/// Bytes of a peer that is up come to the broker, and all that is due is done.
pub(crate) fn feed(alloc: Global, broker: &mut Broker, i: u64, bytes: &[u8]) -> Result<(), NoMemory>
    requires { IsTrue (is_valid_turn (turns.Feed i bytes.now) broker.old) }
    ensures fed { OnOk result (broker.new ≡ after_turn (turns.Feed i bytes.now) broker.old) }
    ensures quiet { OnOk result (is_due broker.new ≡ false) }
{
    due_is_done();
    broker.feed(alloc, i, bytes)?;
    broker.settle(alloc)
}
