//! What a publish does: who gets it, and what waits for them.
ghost use Rattle.std.specs.Prelude.{◌≡◌, ◌∷◌, ◌++◌, map, drop, option_map, IfOk, OnOk, OnErr, []};
ghost use Rattle.nats_interests.specs.Interests.{subscribed, unsubscribed};
ghost use Rattle.nats_picking.specs.Hearing.{heard};
ghost use Rattle.nats_picking.specs.Picking.{nows, target_of, targets_by};
ghost use Rattle.nats_outboxes.specs.Outboxes.{item_of, at_number};
ghost use Rattle.nats_routing.specs.Router.{letter_of, letters_of, counted_all, sent_to, no_answer, unheard, published, said_to, closed_by};

use crate::publication::Publication;
use crate::texts::message_text;
use nats_interests::{Change, Interests};
use nats_names::{Bytes, NoMemory, Subject};
use nats_outboxes::{Letter, Outboxes, tell_all};
use nats_picking::{Target, heard, targets, told_of};
use std::alloc::Global;
use std::marker::Model;

/// The header block which tells that nobody answers. Format of the NATS protocol.
const NO_RESPONDERS: &[u8] = b"NATS/1.0 503\r\n\r\n";

fn letter(alloc: Global, target: Target, m: &Publication) -> Result<Letter, NoMemory>
    ensures { IfOk result (λ l. l ≡ letter_of m.now target) }
{
    Ok(Letter {
        peer: target.peer,
        text: message_text(alloc, target.sid, m)?,
    })
}

fn letters(alloc: Global, targets: &[Target], m: &Publication) -> Result<Vec<Letter>, NoMemory>
    ensures { IfOk result (λ all. all.items ≡ letters_of m.now targets.now) }
{
    let mut all = Vec::new(alloc);
    all.reserve(targets.len())?;
    for target in targets {
        all.push(letter(alloc, *target, m)?)?;
    }
    Ok(all)
}

fn count_all(interests: &mut Interests, targets: &[Target])
    ensures { interests.new ≡ counted_all targets.now interests.old }
{
    for target in targets {
        interests.alter(target.peer, target.sid, Change::Count);
    }
}

fn targets_in(
    alloc: Global,
    interests: &Interests,
    peer: u64,
    echo: bool,
    subject: &str,
) -> Result<Vec<Target>, NoMemory>
    ensures { IfOk result (λ all. all.items ≡ targets_by (heard peer echo subject.now interests.now)) }
{
    let found = heard(alloc, interests, peer, echo, subject)?;
    targets(alloc, found.as_slice())
}

fn no_answer(alloc: Global, reply: &Subject) -> Result<Publication, NoMemory>
    ensures { IfOk result (λ m. m ≡ no_answer reply.now) }
{
    Ok(Publication {
        subject: reply.copy(alloc)?,
        respond: None,
        block: Some(Bytes::from_static(NO_RESPONDERS)),
        payload: Bytes::new(),
    })
}

/// The interests that are open, and what waits for each peer. Contracts see both as lists. Own type.
#[derive(Drop)]
pub struct Router {
    interests: Interests,
    outs: Outboxes,
}

impl Model for Router {
    ghost use Rattle.nats_routing.specs.Router.{RouterSeen};

    ghost Value = { RouterSeen };

    ghost view = { λ r. record { interests = r.interests; outs = r.outs } };
}

impl Router {
    /// No interest, and no peer. It takes no memory.
    pub fn new(alloc: Global) -> Router
        ensures { result ≡ record { interests = []; outs = [] } }
    {
        Router {
            interests: Interests::new(alloc),
            outs: Outboxes::new(alloc),
        }
    }

    /// One more peer, which is told `text`.
    ///
    /// # Errors
    ///
    /// `NoMemory` for want of memory: nothing changed.
    pub fn join(&mut self, alloc: Global, text: &[u8]) -> Result<(), NoMemory>
        ensures ok { OnOk result (self.new ≡ record self.old { outs = self.old.outs ++ text.now ∷ [] }) }
        ensures err { OnErr result (self.new ≡ self.old) }
    {
        self.outs.join(alloc, text)
    }

    /// A peer is told `text`.
    ///
    /// # Errors
    ///
    /// `NoMemory` for want of memory: nothing changed.
    pub fn say(&mut self, peer: u64, text: &[u8]) -> Result<(), NoMemory>
        ensures ok { OnOk result (self.new ≡ said_to peer text.now self.old) }
        ensures err { OnErr result (self.new ≡ self.old) }
    {
        self.outs.push(peer, text)
    }

    /// What waits for a peer, `None` where no peer has that number.
    pub fn waiting(&self, peer: u64) -> Option<&[u8]>
        ensures { option_map (λ text. text.now) result ≡ item_of peer self.now.outs }
    {
        self.outs.get(peer)
    }

    /// The first `n` bytes that wait for a peer are taken, or all where there are fewer. It takes no memory.
    pub fn taken(&mut self, peer: u64, n: usize)
        ensures { self.new ≡ record self.old { outs = at_number peer (drop n) self.old.outs } }
    {
        self.outs.advance(peer, n);
    }

    /// All interests of a peer close. It takes no memory.
    pub fn close_all(&mut self, peer: u64)
        ensures { self.new ≡ closed_by peer self.old }
    {
        self.interests.close_all(peer);
    }

    /// A peer makes an interest, unless it has one open under that number.
    ///
    /// # Errors
    ///
    /// `NoMemory` for want of memory: nothing changed.
    pub fn subscribe(
        &mut self,
        peer: u64,
        sid: u64,
        pattern: Subject,
        group: Option<Subject>,
    ) -> Result<(), NoMemory>
        ensures ok { OnOk result (self.new
            ≡ record self.old { interests = subscribed peer sid pattern group self.old.interests }) }
        ensures err { OnErr result (self.new ≡ self.old) }
    {
        self.interests.subscribe(peer, sid, pattern, group)
    }

    /// An interest closes, at once without a maximum, else once it got so many messages. A later maximum replaces an
    /// earlier one. It takes no memory.
    pub fn unsubscribe(&mut self, peer: u64, sid: u64, most: Option<u64>)
        ensures { self.new ≡ record self.old { interests = unsubscribed peer sid most self.old.interests } }
    {
        let most = match most {
            Some(most) => most,
            None => 0,
        };
        self.interests.alter(peer, sid, Change::Limit(most));
    }

    // A message goes to these interests, which count it: to all of them, or to none for want of memory.
    fn send(&mut self, alloc: Global, targets: &[Target], m: &Publication) -> Result<(), NoMemory>
        ensures ok { OnOk result (self.new ≡ sent_to m.now targets.now self.old) }
        ensures err { OnErr result (self.new ≡ self.old) }
    {
        let letters = letters(alloc, targets, m)?;
        tell_all(&mut self.outs, letters.as_slice())?;
        count_all(&mut self.interests, targets);
        Ok(())
    }

    fn tell_unheard(
        &mut self,
        alloc: Global,
        wanted: bool,
        peer: u64,
        respond: &Option<Subject>,
    ) -> Result<(), NoMemory>
        ensures ok { OnOk result (self.new ≡ unheard wanted peer respond.now self.old) }
        ensures err { OnErr result (self.new ≡ self.old) }
    {
        let Some(reply) = respond else {
            return Ok(());
        };
        if !wanted {
            return Ok(());
        }
        let Some(target) = told_of(self.interests.as_slice(), peer, reply.as_str()) else {
            return Ok(());
        };
        let m = no_answer(alloc, reply)?;
        self.send(alloc, &[target], &m)
    }

    /// `peer` publishes a message, which goes to all who are to get it: first to each matching interest without a
    /// group, in order of making, then for each group name in byte order to one matching member, the one with the
    /// least count, of several such the oldest. Interests of `peer` itself match only where it wants an `echo`. Where
    /// nothing matched, a reply is there and `wanted` says that the peer wants to know, its oldest interest that
    /// matches the reply gets a message with the status 503 and no payload. Rules of the NATS protocol.
    ///
    /// # Errors
    ///
    /// `NoMemory` for want of memory: nobody was told and nothing changed.
    pub fn publish(
        &mut self,
        alloc: Global,
        peer: u64,
        echo: bool,
        wanted: bool,
        m: &Publication,
    ) -> Result<(), NoMemory>
        ensures ok { OnOk result (self.new ≡ published peer echo wanted m.now self.old) }
        ensures err { OnErr result (self.new ≡ self.old) }
    {
        self.interests.learn(alloc);
        let targets = targets_in(alloc, &self.interests, peer, echo, m.subject.as_str())?;
        match targets.as_slice() {
            [] => self.tell_unheard(alloc, wanted, peer, &m.respond),
            some => self.send(alloc, some, m),
        }
    }
}
