//! Where the interests stand that may match a subject: those whose pattern has no byte of a wildcard are found by a
//! number of its text.
ghost use Rattle.std.specs.Prelude.{◌≡◌, ◌<◌, ◌≤◌, ◌+◌, ◌∷◌, ◌++◌, [], length, take, drop, IfOk, OnOk, OnErr};
ghost use Rattle.std.specs.List.{list_any};
ghost use Rattle.nats_interests.specs.Index.{is_mark, has_mark, mixed, mix_of, slot_of, slot_at, below, above, merged, candidates, put_in, AreEmpty, learned, IsFresh};

use nats_names::{NoMemory, Subject};
use std::alloc::Global;
use std::marker::Model;

/// Numbers of texts stay small before the next byte: a prime below 2^32.
const PRIME: u64 = 4_294_967_291;

fn is_mark(b: u8) -> bool
    ensures { result ≡ is_mark b }
{
    b == b'*' || b == b'>'
}

fn has_mark(text: &[u8]) -> bool
    ensures { result ≡ has_mark text.now }
{
    text.iter().any(|b| is_mark(*b))
}

fn mixed(n: u64, b: u8) -> u64
    ensures { result ≡ mixed n b }
{
    n % PRIME * 31 + b as u64
}

fn mix_of(text: &[u8]) -> u64
    ensures { result ≡ mix_of text.now }
{
    let mut n = 0;
    for b in text {
        n = mixed(n, *b);
    }
    n
}

fn slot_of(slots: usize, text: &[u8]) -> usize
    requires { 0 < slots }
    ensures slot { result ≡ slot_of slots text.now }
    ensures within { result < slots }
{
    (mix_of(text) % slots as u64) as usize
}

/// The places of the interests of one slot.
#[derive(Drop)]
pub struct Slot {
    places: Vec<usize>,
}

impl Model for Slot {
    ghost use Rattle.std.specs.Prelude.{List, ℕ};

    ghost Value = { List ℕ };

    ghost view = { λ s. s.places.items };
}

impl Slot {
    fn new(alloc: Global) -> Slot
        ensures { result ≡ [] }
    {
        Slot {
            places: Vec::new(alloc),
        }
    }

    fn as_slice(&self) -> &[usize]
        ensures { result.now ≡ self.now }
    {
        self.places.as_slice()
    }

    fn push(&mut self, place: usize) -> Result<(), NoMemory>
        ensures ok { OnOk result (self.new ≡ self.old ++ place ∷ []) }
        ensures err { OnErr result (self.new ≡ self.old) }
    {
        self.places.push(place)?;
        Ok(())
    }
}

// Puts those of `others` that stand before `place`, and answers how many they are.
fn push_below(all: &mut Vec<usize>, others: &[usize], place: usize) -> Result<usize, NoMemory>
    ensures all { OnOk result (all.new.items ≡ all.old.items ++ below place others.now) }
    ensures left { IfOk result (λ n. (n ≤ length others.now) × (drop n others.now ≡ above place others.now)) }
{
    let mut j = 0;
    'below: while j < others.len() {
        let other = others[j];
        if place <= other {
            return Ok(j);
        }
        all.push(other)?;
        j += 1;
    }
    Ok(j)
}

// Places in ascending order, of two lists that are so.
fn merged(alloc: Global, some: &[usize], others: &[usize]) -> Result<Vec<usize>, NoMemory>
    ensures { IfOk result (λ all. all.items ≡ merged some.now others.now) }
{
    let mut all = Vec::new(alloc);
    all.reserve(some.len().saturating_add(others.len()))?;
    let mut left = others;
    for place in some {
        let n = push_below(&mut all, left, *place)?;
        all.push(*place)?;
        (_, left) = left.split_at(n);
    }
    all.extend_from_slice(left)?;
    Ok(all)
}

fn push_slot(slots: &mut [Slot], slot: usize, place: usize) -> Result<(), NoMemory>
    ensures ok { OnOk result (slots.new ≡ put_in slot place slots.old) }
    ensures err { OnErr result (slots.new ≡ slots.old) }
{
    if slots.len() <= slot {
        return Ok(());
    }
    slots[slot].push(place)
}

fn push_empty(slots: &mut Vec<Slot>, alloc: Global) -> Result<(), NoMemory>
    ensures { OnOk result (slots.new.items ≡ slots.old.items ++ [] ∷ []) }
{
    slots.push(Slot::new(alloc))?;
    Ok(())
}

// So many empty slots.
fn slots_of(alloc: Global, n: usize) -> Result<Vec<Slot>, NoMemory>
    ensures { IfOk result (λ slots. AreEmpty slots.items) }
{
    let mut slots = Vec::new(alloc);
    slots.reserve(n)?;
    for _ in 0..n {
        push_empty(&mut slots, alloc)?;
    }
    Ok(slots)
}

/// What is remembered of the first interests.
#[derive(Drop)]
pub struct Index {
    marked: Slot,
    slots: Vec<Slot>,
    seen: usize,
}

impl Model for Index {
    ghost use Rattle.nats_interests.specs.Index.{IndexSeen};

    ghost Value = { IndexSeen };

    ghost view = { λ x. record { marked = x.marked; slots = x.slots.items; seen = x.seen } };
}

impl Index {
    /// Nothing is remembered. It takes no memory.
    pub fn new(alloc: Global) -> Index
        ensures { result ≡ record { marked = []; slots = []; seen = 0 } }
    {
        Index {
            marked: Slot::new(alloc),
            slots: Vec::new(alloc),
            seen: 0,
        }
    }

    /// Of how many interests something is remembered.
    pub fn seen(&self) -> usize
        ensures { result ≡ self.now.seen }
    {
        self.seen
    }

    /// How many slots there are.
    pub fn slots(&self) -> usize
        ensures { result ≡ length self.now.slots }
    {
        self.slots.len()
    }

    /// All is forgotten. It takes no memory.
    pub fn forget(&mut self)
        ensures { IsFresh self.new }
    {
        self.marked.places.clear();
        self.slots.clear();
        self.seen = 0;
    }

    fn slot_at(&self, subject: &[u8]) -> &[usize]
        ensures { result.now ≡ slot_at subject.now self.now.slots }
    {
        if self.slots.is_empty() {
            return &[];
        }
        let slot = slot_of(self.slots.len(), subject);
        match self.slots.as_slice().get(slot) {
            Some(slot) => slot.as_slice(),
            None => &[],
        }
    }

    /// Where the first interests stand that may match a subject.
    ///
    /// # Errors
    ///
    /// `NoMemory` for want of memory.
    pub fn candidates(&self, alloc: Global, subject: &[u8]) -> Result<Vec<usize>, NoMemory>
        ensures { IfOk result (λ all. all.items ≡ candidates subject.now self.now) }
    {
        merged(alloc, self.slot_at(subject), self.marked.as_slice())
    }

    /// All is forgotten, and there are so many slots from now on, or none for want of memory.
    pub fn restart(&mut self, alloc: Global, slots: usize)
        ensures { IsFresh self.new }
    {
        self.forget();
        if let Ok(slots) = slots_of(alloc, slots) {
            self.slots = slots;
        }
    }

    /// One more interest is remembered, the next in order, behind which `next` are.
    ///
    /// # Errors
    ///
    /// `NoMemory` for want of memory, and where there is no slot: nothing changed.
    pub fn learn(&mut self, pattern: &[u8], next: usize) -> Result<(), NoMemory>
        ensures some { OnOk result (0 < length self.old.slots) }
        ensures ok { OnOk result (self.new ≡ learned pattern.now next self.old) }
        ensures err { OnErr result (self.new ≡ self.old) }
    {
        if self.slots.is_empty() {
            return Err(NoMemory);
        }
        if has_mark(pattern) {
            self.marked.push(self.seen)?;
        } else {
            let slot = slot_of(self.slots.len(), pattern);
            push_slot(self.slots.as_mut_slice(), slot, self.seen)?;
        }
        self.seen = next;
        Ok(())
    }
}
