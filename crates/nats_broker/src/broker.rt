//! The broker: peers, what they want to hear, and what waits for them.
ghost use Rattle.std.specs.Prelude.{◌≡◌, ◌+◌, ◌++◌, [], true, false, length, drop, IfOk, OnOk, OnErr, IsTrue, MatchOption};
ghost use Rattle.nats_names.specs.Names.{is_valid};
ghost use Rattle.std.specs.Option.{option_copied, unwrap_or};
ghost use Rattle.nats_outboxes.specs.Outboxes.{item_of, at_number};
ghost use Rattle.nats_broker.specs.Peers.{up_peer};
ghost use Rattle.nats_broker.specs.Playing.{told, peer_ended, subscribed_by, publish_by, publish_of, command_done, fed_peer, due, is_due, Advances, unread_len, settled, new_broker, joined, fed_to, peer_left, may_come, is_valid_turn};
ghost use Rattle.nats_broker.specs.Routes.{text_of};
ghost use Rattle.nats_broker.specs.declared.turn.BrokerTurn.TheVariants as turn;

use crate::info::{BrokerInfo, info_line};
use crate::peer::{Peer, PeerWord, end_text};
use crate::peers::{end_at, feed_at, peer_of, take_at, up_peer, wish_at};
use crate::turn::BrokerTurn;
use nats_broker_text::{Command, PeerFront, Publication, Unread, read_command};
use nats_names::{NoMemory, Subject};
use nats_routing::Router;
use std::alloc::Global;
use std::marker::Model;

/// Peers, what they want to hear, and what waits for them. Contracts see it as `BrokerSeen`. Own type.
#[derive(Drop)]
pub struct Broker {
    info: Vec<u8>,
    max_payload: u64,
    peers: Vec<Peer>,
    router: Router,
    /// The peer that was fed last, 0 for none.
    fed: u64,
}

impl Model for Broker {
    ghost use Rattle.nats_broker.specs.Playing.{BrokerSeen};

    ghost Value = { BrokerSeen };

    ghost view = { λ b. record {
      info = b.info.items;
      max_payload = b.max_payload;
      peers = b.peers.items;
      router = b.router;
      fed = b.fed;
    } };
}

// The subject and the group of an interest, `None` where the subject may not be subscribed to.
fn valid_of(pattern: Subject, group: Option<Subject>) -> Option<(Subject, Option<Subject>)>
    ensures { MatchOption result (is_valid pattern ≡ false)
        (λ made. (is_valid pattern ≡ true) × (made.0 ≡ pattern) × (made.1 ≡ group)) }
{
    if pattern.is_valid() {
        Some((pattern, group))
    } else {
        None
    }
}

impl Broker {
    /// A broker without a peer. Own call.
    ///
    /// # Errors
    ///
    /// `NoMemory` for want of memory.
    pub fn new(alloc: Global, info: BrokerInfo) -> Result<Broker, NoMemory>
        ensures { IfOk result (λ b. b ≡ new_broker info) }
    {
        Ok(Broker {
            info: info_line(alloc, &info)?,
            max_payload: info.max_payload,
            peers: Vec::new(alloc),
            router: Router::new(alloc),
            fed: 0,
        })
    }

    fn end_peer(&mut self, p: u64, word: PeerWord) -> Result<(), NoMemory>
        ensures ok { OnOk result (self.new ≡ peer_ended p word self.old) }
        ensures err { OnErr result (self.new ≡ self.old) }
    {
        self.router.say(p, end_text(word))?;
        end_at(self.peers.as_mut_slice(), p, word);
        self.router.close_all(p);
        Ok(())
    }

    fn subscribe(
        &mut self,
        p: u64,
        sid: u64,
        pattern: Subject,
        group: Option<Subject>,
    ) -> Result<(), NoMemory>
        ensures ok { OnOk result (self.new ≡ subscribed_by p sid pattern group self.old) }
        ensures err { OnErr result (self.new ≡ self.old) }
    {
        match valid_of(pattern, group) {
            Some((pattern, group)) => self.router.subscribe(p, sid, pattern, group),
            None => self.router.say(p, b"-ERR 'Invalid Subject'\r\n"),
        }
    }

    fn publish(&mut self, alloc: Global, p: u64, m: &Publication, size: u64) -> Result<(), NoMemory>
        ensures ok { OnOk result (self.new ≡ publish_of p m.now size self.old) }
        ensures err { OnErr result (self.new ≡ self.old) }
    {
        if self.max_payload < size {
            return self.end_peer(p, PeerWord::Size);
        }
        let (echo, wanted) = match peer_of(self.peers.as_slice(), p) {
            Some(peer) => (peer.echo, peer.no_responders),
            None => return Ok(()),
        };
        self.router.publish(alloc, p, echo, wanted, m)
    }

    fn command(&mut self, alloc: Global, p: u64, command: Command) -> Result<(), NoMemory>
        ensures ok { OnOk result (self.new ≡ command_done p command self.old) }
        ensures err { OnErr result (self.new ≡ self.old) }
    {
        match command {
            Command::Subscribe {
                sid,
                pattern,
                group,
            } => self.subscribe(p, sid, pattern, group),
            Command::Unsubscribe { sid, most } => {
                self.router.unsubscribe(p, sid, most);
                Ok(())
            }
            Command::Publish { message, size } => self.publish(alloc, p, &message, size),
            Command::Ping => self.router.say(p, b"PONG\r\n"),
            Command::Pong => Ok(()),
            Command::Connect(wishes) => {
                wish_at(self.peers.as_mut_slice(), p, wishes);
                Ok(())
            }
        }
    }

    // The peer that was fed last, where it is up.
    fn fed_peer(&self) -> Option<&Peer>
        ensures { option_copied result ≡ fed_peer self.now }
    {
        up_peer(self.peers.as_slice(), self.fed)
    }

    /// Whether a command is due: one that stands whole at the front of the bytes of the peer that was fed last, or
    /// what is no command there. It takes no memory. Own call.
    pub fn is_due(&self) -> bool
        ensures { result ≡ is_due self.now }
    {
        match self.fed_peer() {
            Some(peer) => peer.unread.is_ready(),
            None => false,
        }
    }

    /// Whether a turn may come: no command is due; for `Join` also where there are fewer than 2^64 - 1 peers, for
    /// `Feed` and `Leave` where the peer is up. It takes no memory. Own call.
    pub fn check(&self, turn: &BrokerTurn) -> bool
        ensures { result ≡ is_valid_turn turn.now self.now }
    {
        !self.is_due() && self.may_come(turn)
    }

    fn may_come(&self, turn: &BrokerTurn) -> bool
        ensures { result ≡ may_come turn.now self.now }
    {
        match turn {
            BrokerTurn::Join => (self.peers.len() as u64) < u64::MAX,
            BrokerTurn::Feed(p, _) => up_peer(self.peers.as_slice(), *p).is_some(),
            BrokerTurn::Leave(p) => up_peer(self.peers.as_slice(), *p).is_some(),
        }
    }

    /// A peer joins, and is told what the broker is by the protocol's `INFO`. Its number is answered: the first
    /// peer's is 1, and each next one's is greater by one. It wants an echo of its own messages, and no word where
    /// nobody matched. Own call.
    ///
    /// # Errors
    ///
    /// `NoMemory` for want of memory: nothing changed.
    pub fn join(&mut self, alloc: Global) -> Result<u64, NoMemory>
        requires { IsTrue (is_valid_turn turn.Join self.old) }
        ensures number { IfOk result (λ p. p ≡ length self.old.peers + 1) }
        ensures ok { OnOk result (self.new ≡ joined self.old) }
        ensures err { OnErr result (self.new ≡ self.old) }
    {
        self.peers.reserve(1)?;
        self.router.join(alloc, self.info.as_slice())?;
        self.peers.push_reserved(Peer {
            word: PeerWord::Up,
            unread: Unread::new(alloc),
            echo: true,
            no_responders: false,
        });
        Ok(self.peers.len() as u64)
    }

    /// Bytes of a peer came: they join those that no command took. No command is done yet. Own call.
    ///
    /// # Errors
    ///
    /// `NoMemory` for want of memory: nothing changed.
    pub fn feed(&mut self, alloc: Global, p: u64, bytes: &[u8]) -> Result<(), NoMemory>
        requires { IsTrue (is_valid_turn (turn.Feed p bytes.now) self.old) }
        ensures ok { OnOk result (self.new ≡ fed_to p bytes.now self.old) }
        ensures err { OnErr result (self.new ≡ self.old) }
    {
        feed_at(self.peers.as_mut_slice(), alloc, p, bytes)?;
        self.fed = p;
        Ok(())
    }

    /// A peer leaves: its bytes go, and its interests close. What waits for it stays. It takes no memory. Own call.
    pub fn leave(&mut self, p: u64)
        requires { IsTrue (is_valid_turn (turn.Leave p) self.old) }
        ensures { self.new ≡ peer_left p self.old }
    {
        end_at(self.peers.as_mut_slice(), p, PeerWord::Left);
        self.router.close_all(p);
    }

    /// Does the command that is due, and answers whether one was. What is no command ends its peer, which is told so.
    /// Own call.
    ///
    /// # Errors
    ///
    /// `NoMemory` for want of memory: nothing changed, nobody was told anything, and the command is still due.
    #[tactic(auto, using(crate::proofs::Settling::idle))]
    pub fn advance(&mut self, alloc: Global) -> Result<bool, NoMemory>
        ensures ok { IfOk result (λ done. Advances (due self.old) done self.old self.new) }
        ensures err { OnErr result (self.new ≡ self.old) }
    {
        if !self.is_due() {
            return Ok(false);
        }
        let p = self.fed;
        let Some(peer) = self.fed_peer() else {
            return Ok(false);
        };
        match read_command(alloc, peer.unread.as_slice())? {
            PeerFront::Unfinished => Ok(false),
            PeerFront::Bad => {
                self.end_peer(p, PeerWord::Bad)?;
                Ok(true)
            }
            PeerFront::Got(command, n) => {
                self.command(alloc, p, command)?;
                take_at(self.peers.as_mut_slice(), alloc, p, n);
                Ok(true)
            }
        }
    }

    fn unread_len(&self) -> usize
        ensures { result ≡ unread_len (fed_peer self.now) }
    {
        match self.fed_peer() {
            Some(peer) => peer.unread.len(),
            None => 0,
        }
    }

    /// Does all that is due, one command after another. Own call.
    ///
    /// # Errors
    ///
    /// `NoMemory` for want of memory: some commands are done, and the others are still due.
    pub fn settle(&mut self, alloc: Global) -> Result<(), NoMemory>
        ensures { OnOk result (self.new ≡ settled self.old) }
    {
        let mut left = self.unread_len();
        'due: while left > 0 {
            if !self.advance(alloc)? {
                return Ok(());
            }
            left -= 1;
        }
        Ok(())
    }

    /// The bytes that wait for a peer: what it was told and that were not taken, none where no peer has that number.
    /// The broker's `INFO` is the first of all. It takes no memory. Own call.
    pub fn waiting(&self, p: u64) -> &[u8]
        ensures { result.now ≡ text_of p self.now }
    {
        match self.router.waiting(p) {
            Some(text) => text,
            None => &[],
        }
    }

    /// The first `n` bytes that wait for a peer are taken, or all where there are fewer. It takes no memory. Own call.
    pub fn taken(&mut self, p: u64, n: usize)
        ensures { self.new ≡ record self.old {
          router = record self.old.router { outs = at_number p (drop n) self.old.router.outs };
        } }
    {
        self.router.taken(p, n);
    }

    /// The peers, by number from 1. Own call.
    pub fn peers(&self) -> &[Peer]
        ensures { result.now ≡ self.now.peers }
    {
        self.peers.as_slice()
    }

    /// The length of the line that a peer gets first, in bytes. Own call.
    pub fn info_len(&self) -> usize
        ensures { result ≡ length self.now.info }
    {
        self.info.len()
    }
}
