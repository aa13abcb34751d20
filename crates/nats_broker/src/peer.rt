//! A peer of a broker.
ghost use Rattle.std.specs.Prelude.{◌≡◌, OnErr, OnOk, Some};
ghost use Rattle.nats_broker.specs.Peers.{ended, wished, with_wish, past, fed_by, end_text, word_text};

use nats_broker_text::{Unread, Wishes};
use nats_names::NoMemory;
use std::alloc::Global;
use std::fmt;

/// How a peer stands. Own type.
#[derive(Clone, Copy, Debug, PartialEq, Eq)]
pub enum PeerWord {
    /// It is there.
    Up,
    /// It left.
    Left,
    /// It wrote what is no command, and was ended.
    Bad,
    /// It published more bytes than a message may have, and was ended.
    Size,
}

impl fmt::Display for PeerWord {
    ghost output = { λ word. Some (word_text word) };

    fn fmt<W: fmt::Write>(&self, f: &mut fmt::Formatter<W>) -> fmt::Result {
        match self {
            PeerWord::Up => write!(f, "up"),
            PeerWord::Left => write!(f, "left"),
            PeerWord::Bad => write!(f, "bad"),
            PeerWord::Size => write!(f, "size"),
        }
    }
}

/// A peer. Own type.
#[derive(Drop)]
pub struct Peer {
    /// How it stands.
    pub word: PeerWord,
    /// Its bytes that no command took yet.
    pub unread: Unread,
    /// Whether it wants its own messages back.
    pub echo: bool,
    /// Whether it wants to be told where nobody matched.
    pub no_responders: bool,
}

/// The peer ends, with this word; its bytes go.
pub fn end_one(peer: &mut Peer, word: PeerWord)
    ensures { peer.new ≡ ended word peer.old }
{
    peer.word = word;
    peer.unread.clear();
}

fn wish(given: Option<bool>, kept: bool) -> bool
    ensures { result ≡ wished given kept }
{
    match given {
        Some(given) => given,
        None => kept,
    }
}

/// What the peer says of itself counts from now on.
pub fn wish_one(peer: &mut Peer, wishes: Wishes)
    ensures { peer.new ≡ with_wish wishes peer.old }
{
    peer.echo = wish(wishes.echo, peer.echo);
    peer.no_responders = wish(wishes.no_responders, peer.no_responders);
}

/// The peer's first `n` bytes are taken.
pub fn take_one(peer: &mut Peer, alloc: Global, n: usize)
    ensures { peer.new ≡ past n peer.old }
{
    peer.unread.take(alloc, n);
}

/// Bytes of the peer came.
pub fn feed_one(peer: &mut Peer, alloc: Global, bytes: &[u8]) -> Result<(), NoMemory>
    ensures ok { OnOk result (peer.new ≡ fed_by bytes.now peer.old) }
    ensures err { OnErr result (peer.new ≡ peer.old) }
{
    peer.unread.feed(alloc, bytes)
}

/// What a peer is told as it ends with this word.
pub fn end_text(word: PeerWord) -> &'static [u8]
    ensures { result.now ≡ end_text word }
{
    match word {
        PeerWord::Bad => b"-ERR 'Unknown Protocol Operation'\r\n",
        PeerWord::Size => b"-ERR 'Maximum Payload Violation'\r\n",
        PeerWord::Up | PeerWord::Left => b"",
    }
}
