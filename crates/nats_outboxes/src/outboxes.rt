//! The texts that wait for peers: this file alone knows how they are kept.
ghost use Rattle.std.specs.Prelude.{◌≡◌, [], ◌∷◌, ◌++◌, ◌-◌, ◌≤◌, ◌<◌, length, take, drop, OnOk, OnErr, IfOk, option_map};
ghost use Rattle.nats_outboxes.specs.Outboxes.{item_of, at_number, said, all_said, grown, shortened};

use crate::outbox::Outbox;
use nats_names::{NoMemory, Seq};
use std::alloc::Global;
use std::marker::Model;

/// What a peer is to be told. Own type.
#[derive(Drop)]
pub struct Letter {
    /// The number of the peer, from 1.
    pub peer: u64,
    /// The bytes.
    pub text: Seq<u8>,
}

/// The texts that wait, by peer from 1. Contracts see them as a list. Own type.
#[derive(Drop)]
pub struct Outboxes {
    outs: Vec<Outbox>,
}

impl Model for Outboxes {
    ghost use Rattle.std.specs.Prelude.{List, ℕ};

    ghost Value = { List (List ℕ) };

    ghost view = { λ t. t.outs.items };
}

fn out_of(outs: &[Outbox], peer: u64) -> Option<&[u8]>
    ensures { option_map (λ text. text.now) result ≡ item_of peer outs.now }
{
    if peer == 0 {
        return None;
    }
    match outs.get(peer as usize - 1) {
        Some(out) => Some(out.as_slice()),
        None => None,
    }
}

fn push_at(outs: &mut [Outbox], peer: u64, text: &[u8]) -> Result<(), NoMemory>
    ensures ok { OnOk result (outs.new ≡ at_number peer (grown text.now) outs.old) }
    ensures err { OnErr result (outs.new ≡ outs.old) }
{
    if peer == 0 {
        return Ok(());
    }
    if outs.len() < peer as usize {
        return Ok(());
    }
    outs[peer as usize - 1].push(text)
}

fn shorten_at(outs: &mut [Outbox], peer: u64, n: usize)
    ensures { outs.new ≡ at_number peer (shortened n) outs.old }
{
    if peer == 0 {
        return;
    }
    if outs.len() < peer as usize {
        return;
    }
    outs[peer as usize - 1].shorten(n);
}

fn advance_at(outs: &mut [Outbox], peer: u64, n: usize)
    ensures { outs.new ≡ at_number peer (drop n) outs.old }
{
    if peer == 0 {
        return;
    }
    if outs.len() < peer as usize {
        return;
    }
    outs[peer as usize - 1].advance(n);
}

// The outbox of a peer that joins, with its first text.
fn first_outbox(alloc: Global, text: &[u8]) -> Result<Outbox, NoMemory>
    ensures { IfOk result (λ out. out ≡ text.now) }
{
    let mut out = Outbox::new(alloc);
    out.push(text)?;
    Ok(out)
}

impl Outboxes {
    /// No peer. It takes no memory.
    pub fn new(alloc: Global) -> Outboxes
        ensures { result ≡ [] }
    {
        Outboxes {
            outs: Vec::new(alloc),
        }
    }

    /// One more peer, which is told `text`.
    ///
    /// # Errors
    ///
    /// `NoMemory` for want of memory: nothing changed.
    pub fn join(&mut self, alloc: Global, text: &[u8]) -> Result<(), NoMemory>
        ensures ok { OnOk result (self.new ≡ self.old ++ text.now ∷ []) }
        ensures err { OnErr result (self.new ≡ self.old) }
    {
        let out = first_outbox(alloc, text)?;
        self.outs.push(out)?;
        Ok(())
    }

    /// What waits for a peer, `None` where it has no number of a peer.
    pub fn get(&self, peer: u64) -> Option<&[u8]>
        ensures { option_map (λ text. text.now) result ≡ item_of peer self.now }
    {
        out_of(self.outs.as_slice(), peer)
    }

    /// A peer is told `text`, which waits behind all that did. Where no peer has that number nothing happens.
    ///
    /// # Errors
    ///
    /// `NoMemory` for want of memory: nothing changed.
    pub fn push(&mut self, peer: u64, text: &[u8]) -> Result<(), NoMemory>
        ensures ok { OnOk result (self.new ≡ at_number peer (grown text.now) self.old) }
        ensures err { OnErr result (self.new ≡ self.old) }
    {
        push_at(self.outs.as_mut_slice(), peer, text)
    }

    /// The first `n` bytes that wait for a peer are taken, or all where there are fewer. It takes no memory.
    pub fn advance(&mut self, peer: u64, n: usize)
        ensures { self.new ≡ at_number peer (drop n) self.old }
    {
        advance_at(self.outs.as_mut_slice(), peer, n);
    }

    /// The last `n` bytes that wait for a peer are taken back. It takes no memory.
    fn shorten(&mut self, peer: u64, n: usize)
        ensures { self.new ≡ at_number peer (shortened n) self.old }
    {
        shorten_at(self.outs.as_mut_slice(), peer, n);
    }
}

fn take_back(outs: &mut Outboxes, letters: &[Letter], told: usize)
    requires within { told ≤ length letters.now }
    ensures { (before : _) → outs.old ≡ all_said (take told letters.now) before → outs.new ≡ before }
{
    let mut k = told;
    'letters: while k > 0 {
        k -= 1;
        let letter = &letters[k];
        outs.shorten(letter.peer, letter.text.as_slice().len());
    }
}

/// All are told, each in turn, or nobody is.
///
/// # Errors
///
/// `NoMemory` for want of memory: what some were told already is taken back, so nothing changed.
pub fn tell_all(outs: &mut Outboxes, letters: &[Letter]) -> Result<(), NoMemory>
    ensures ok { OnOk result (outs.new ≡ all_said letters.now outs.old) }
    ensures err { OnErr result (outs.new ≡ outs.old) }
{
    let mut k = 0;
    'letters: while k < letters.len() {
        let letter = &letters[k];
        if let Err(refused) = outs.push(letter.peer, letter.text.as_slice()) {
            take_back(outs, letters, k);
            return Err(refused);
        }
        k += 1;
    }
    Ok(())
}
