//! The peers of a broker, by number from 1.
ghost use Rattle.std.specs.Prelude.{◌≡◌, OnErr, OnOk};
ghost use Rattle.std.specs.Option.{option_copied};
ghost use Rattle.nats_outboxes.specs.Outboxes.{item_of, at_number};
ghost use Rattle.nats_broker.specs.Peers.{ended, with_wish, past, fed_by, up_peer};

use crate::peer::{Peer, PeerWord, end_one, feed_one, take_one, wish_one};
use nats_broker_text::Wishes;
use nats_names::NoMemory;
use std::alloc::Global;

/// The peer with a number.
pub fn peer_of(peers: &[Peer], p: u64) -> Option<&Peer>
    ensures { option_copied result ≡ item_of p peers.now }
{
    if p == 0 {
        return None;
    }
    peers.get(p as usize - 1)
}

/// The peer with a number, where it is up.
pub fn up_peer(peers: &[Peer], p: u64) -> Option<&Peer>
    ensures { option_copied result ≡ up_peer (item_of p peers.now) }
{
    let peer = peer_of(peers, p)?;
    match peer.word {
        PeerWord::Up => Some(peer),
        PeerWord::Left | PeerWord::Bad | PeerWord::Size => None,
    }
}

/// A peer ends.
pub fn end_at(peers: &mut [Peer], p: u64, word: PeerWord)
    ensures { peers.new ≡ at_number p (ended word) peers.old }
{
    if p == 0 {
        return;
    }
    if peers.len() < p as usize {
        return;
    }
    end_one(&mut peers[p as usize - 1], word);
}

/// A peer says what it wants.
pub fn wish_at(peers: &mut [Peer], p: u64, wishes: Wishes)
    ensures { peers.new ≡ at_number p (with_wish wishes) peers.old }
{
    if p == 0 {
        return;
    }
    if peers.len() < p as usize {
        return;
    }
    wish_one(&mut peers[p as usize - 1], wishes);
}

/// The first `n` bytes of a peer are taken.
pub fn take_at(peers: &mut [Peer], alloc: Global, p: u64, n: usize)
    ensures { peers.new ≡ at_number p (past n) peers.old }
{
    if p == 0 {
        return;
    }
    if peers.len() < p as usize {
        return;
    }
    take_one(&mut peers[p as usize - 1], alloc, n);
}

/// Bytes of a peer came.
pub fn feed_at(peers: &mut [Peer], alloc: Global, p: u64, bytes: &[u8]) -> Result<(), NoMemory>
    ensures ok { OnOk result (peers.new ≡ at_number p (fed_by bytes.now) peers.old) }
    ensures err { OnErr result (peers.new ≡ peers.old) }
{
    if p == 0 {
        return Ok(());
    }
    if peers.len() < p as usize {
        return Ok(());
    }
    feed_one(&mut peers[p as usize - 1], alloc, bytes)
}
