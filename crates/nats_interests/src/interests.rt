//! The interests that are open: this file alone knows how they are kept.
ghost use Rattle.std.specs.Prelude.{◌≡◌, ◌∷◌, ◌++◌, [], true, false, filter, map, IfOk, IfSome, OnOk, OnErr, if◌then◌else◌};
ghost use Rattle.std.specs.List.{list_any};
ghost use Rattle.nats_interests.specs.Index.{nows, pattern_of, is_match, gathered, Remembers};
ghost use Rattle.nats_interests.specs.Interests.{AreKept, StandsAt, Finds, is_of, reached, is_open, altered, subscribed, most_of, limit_to, unsubscribed, count_one, counted, without_peer, new_interest};
ghost use Rattle.nats_interests.specs.Changes.{changed};

use crate::index::Index;
use crate::interest::Interest;
use nats_matching::matches;
use nats_names::{NoMemory, Subject};
use std::alloc::Global;
use std::collections::HashMap;
use std::marker::Model;

/// How many slots there are at least.
const SLOTS: usize = 16;

/// What may happen to one interest. Own type.
#[derive(Clone, Copy, Debug, PartialEq, Eq)]
pub enum Change {
    /// It gets a message.
    Count,
    /// It is to close once it got so many messages, at once where it did already. A later limit replaces it.
    Limit(u64),
}

fn is_of(i: &Interest, peer: u64, sid: u64) -> bool
    ensures { result ≡ is_of peer sid i.now }
{
    i.peer == peer && i.sid == sid
}

fn reached(most: Option<u64>, count: u64) -> bool
    ensures { result ≡ reached most count }
{
    match most {
        Some(most) => most <= count,
        None => false,
    }
}

fn is_open(i: &Interest) -> bool
    ensures { result ≡ is_open i.now }
{
    !reached(i.most, i.count)
}

fn alter_one(i: &mut Interest, change: Change)
    ensures { i.new ≡ changed change i.old }
{
    match change {
        Change::Count => i.count = i.count.saturating_add(1),
        Change::Limit(most) => i.most = Some(most),
    }
}

// Where the interest of `peer` under the number `sid` stands.
fn find_place(rows: &[Interest], peer: u64, sid: u64) -> Option<usize>
    ensures { Finds peer sid rows.now result }
{
    let mut k = 0;
    'rows: while k < rows.len() {
        if is_of(&rows[k], peer, sid) {
            return Some(k);
        }
        k += 1;
    }
    None
}

// A place at which it may stand, where it does.
fn stands_at(rows: &[Interest], place: usize, peer: u64, sid: u64) -> bool
    ensures { result ≡ true → StandsAt peer sid rows.now place }
{
    match rows.get(place) {
        Some(i) => is_of(i, peer, sid),
        None => false,
    }
}

// Something happens to the interest at a place; answers whether it closed.
fn alter_at(rows: &mut Vec<Interest>, place: usize, peer: u64, sid: u64, what: Change) -> bool
    requires kept { AreKept rows.old.items }
    requires stands { StandsAt peer sid rows.old.items place }
    ensures rows { rows.new.items ≡ altered peer sid (changed what) rows.old.items }
    ensures patterns { result ≡ false → map pattern_of rows.new.items ≡ map pattern_of rows.old.items }
{
    if rows.len() <= place {
        return true;
    }
    alter_one(&mut rows[place], what);
    if is_open(&rows[place]) {
        return false;
    }
    rows.remove(place);
    true
}

// Something happens to the interest that was found, if one was; answers whether it closed.
fn alter_found(
    rows: &mut Vec<Interest>,
    found: Option<usize>,
    peer: u64,
    sid: u64,
    what: Change,
) -> bool
    requires kept { AreKept rows.old.items }
    requires found { Finds peer sid rows.old.items found }
    ensures rows { rows.new.items ≡ altered peer sid (changed what) rows.old.items }
    ensures patterns { result ≡ false → map pattern_of rows.new.items ≡ map pattern_of rows.old.items }
{
    match found {
        Some(place) => alter_at(rows, place, peer, sid, what),
        None => false,
    }
}

fn has(rows: &[Interest], peer: u64, sid: u64) -> bool
    ensures { result ≡ list_any (is_of peer sid) rows.now }
{
    rows.iter().any(|i| is_of(i, peer, sid))
}

fn drop_peer(rows: &mut Vec<Interest>, peer: u64)
    ensures { rows.new.items ≡ without_peer peer rows.old.items }
{
    rows.retain(|i| !(i.peer == peer));
}

// A text matches itself, which costs one comparison.
#[tactic(auto, using(crate::proofs::Literal::same_matches))]
fn is_match(i: &Interest, subject: &str) -> bool
    ensures { result ≡ is_match subject.now i.now }
{
    i.pattern.as_str() == subject || matches(i.pattern.as_str(), subject)
}

// Puts an interest last, where it matches.
fn push_matching<'a>(
    found: &mut Vec<&'a Interest>,
    i: &'a Interest,
    subject: &str,
) -> Result<(), NoMemory>
    ensures { OnOk result (nows found.new.items ≡ nows found.old.items ++ filter (is_match subject.now) (i.now ∷ [])) }
{
    if is_match(i, subject) {
        found.push(i)?;
    }
    Ok(())
}

// Puts the interest at a place last, where one stands there that matches.
fn push_place<'a>(
    found: &mut Vec<&'a Interest>,
    rows: &'a [Interest],
    place: usize,
    subject: &str,
) -> Result<(), NoMemory>
    ensures { OnOk result (nows found.new.items
        ≡ nows found.old.items ++ gathered (is_match subject.now) rows.now (place ∷ [])) }
{
    match rows.get(place) {
        Some(i) => push_matching(found, i, subject),
        None => Ok(()),
    }
}

fn push_gathered<'a>(
    found: &mut Vec<&'a Interest>,
    rows: &'a [Interest],
    places: &[usize],
    subject: &str,
) -> Result<(), NoMemory>
    ensures { OnOk result (nows found.new.items
        ≡ nows found.old.items ++ gathered (is_match subject.now) rows.now places.now) }
{
    for place in places {
        push_place(found, rows, *place, subject)?;
    }
    Ok(())
}

fn push_all<'a>(
    found: &mut Vec<&'a Interest>,
    rows: &'a [Interest],
    subject: &str,
) -> Result<(), NoMemory>
    ensures { OnOk result (nows found.new.items ≡ nows found.old.items ++ filter (is_match subject.now) rows.now) }
{
    for i in rows {
        push_matching(found, i, subject)?;
    }
    Ok(())
}

// There is a slot for each interest, as far as there is memory for it.
fn fit_slots(index: &mut Index, alloc: Global, rows: &[Interest])
    requires { Remembers (map pattern_of rows.now) index.old }
    ensures { Remembers (map pattern_of rows.now) index.new }
{
    let wanted = rows.len();
    if index.slots() < wanted {
        index.restart(alloc, wanted.saturating_add(wanted).saturating_add(SLOTS));
    }
}

// More interests are remembered, as far as there is memory for it.
fn learn_rows(index: &mut Index, rows: &[Interest])
    requires { Remembers (map pattern_of rows.now) index.old }
    ensures { Remembers (map pattern_of rows.now) index.new }
{
    let mut k = index.seen();
    'rows: while k < rows.len() {
        let next = k + 1;
        match index.learn(rows[k].pattern.as_str().as_bytes(), next) {
            Ok(()) => k = next,
            Err(NoMemory) => return,
        }
    }
}

/// The interests that are open, in order of making. The peer and the number name one. Contracts see them as a list.
/// Own type.
#[derive(Drop)]
pub struct Interests {
    rows: Vec<Interest>,
    index: Index,
    /// Where the interest of a peer and its number stood: it is looked at before it is believed.
    spots: HashMap<(u64, u64), usize>,
}

impl Model for Interests {
    ghost use Rattle.std.specs.Prelude.{List, map};
    ghost use Rattle.nats_interests.specs.declared.interest.Interest.{Interest};
    ghost use Rattle.nats_interests.specs.Interests.{AreKept};
    ghost use Rattle.nats_interests.specs.Index.{pattern_of, Remembers};

    ghost Value = { List Interest };

    ghost view = { λ t. t.rows.items };

    ghost invariant = { λ t. AreKept t.rows.items × Remembers (map pattern_of t.rows.items) t.index };
}

impl Interests {
    /// No interest. It takes no memory.
    pub fn new(alloc: Global) -> Interests
        ensures { result ≡ [] }
    {
        Interests {
            rows: Vec::new(alloc),
            index: Index::new(alloc),
            spots: HashMap::new(alloc),
        }
    }

    /// The interests in order of making.
    pub fn as_slice(&self) -> &[Interest]
        ensures { result.now ≡ self.now }
    {
        self.rows.as_slice()
    }

    /// Remembers where interests stand that were made since the last call, so that `matching` need not look at all of
    /// them. Where memory is wanting it remembers fewer.
    pub fn learn(&mut self, alloc: Global)
        ensures { self.new ≡ self.old }
    {
        fit_slots(&mut self.index, alloc, self.rows.as_slice());
        learn_rows(&mut self.index, self.rows.as_slice());
    }

    /// The interests whose pattern matches `subject`, in order of making. It looks at those that have the pattern's
    /// own text, at those with a wildcard, and at those that are not remembered yet.
    ///
    /// # Errors
    ///
    /// `NoMemory` for want of memory.
    pub fn matching(&self, alloc: Global, subject: &str) -> Result<Vec<&Interest>, NoMemory>
        ensures { IfOk result (λ found. nows found.items ≡ filter (is_match subject.now) self.now) }
    {
        let places = self.index.candidates(alloc, subject.as_bytes())?;
        let mut found = Vec::new(alloc);
        found.reserve(places.len())?;
        push_gathered(&mut found, self.rows.as_slice(), places.as_slice(), subject)?;
        let (_, rest) = self.rows.as_slice().split_at(self.index.seen());
        push_all(&mut found, rest, subject)?;
        Ok(found)
    }

    fn hinted(&self, peer: u64, sid: u64) -> Option<usize>
        ensures { IfSome result (StandsAt peer sid self.now) }
    {
        let place = *self.spots.get(&(peer, sid))?;
        if stands_at(self.rows.as_slice(), place, peer, sid) {
            Some(place)
        } else {
            None
        }
    }

    fn place_of(&self, peer: u64, sid: u64) -> Option<usize>
        ensures { Finds peer sid self.now result }
    {
        match self.hinted(peer, sid) {
            Some(place) => Some(place),
            None => find_place(self.rows.as_slice(), peer, sid),
        }
    }

    /// Something happens to the interest of `peer` under the number `sid`, if it has one. One that got as many
    /// messages as it may closes. It fails for no want of memory. Rule of the protocol's `UNSUB`: without a maximum an
    /// interest closes, as one that may get none.
    pub fn alter(&mut self, peer: u64, sid: u64, what: Change)
        ensures { self.new ≡ altered peer sid (changed what) self.old }
    {
        let found = self.place_of(peer, sid);
        if alter_found(&mut self.rows, found, peer, sid, what) {
            self.index.forget();
            self.spots.clear();
        } else if let Some(place) = found {
            let _ = self.spots.insert((peer, sid), place);
        }
    }

    /// All interests of `peer` close: it left, or was ended. It takes no memory.
    pub fn close_all(&mut self, peer: u64)
        ensures { self.new ≡ without_peer peer self.old }
    {
        drop_peer(&mut self.rows, peer);
        self.index.forget();
        self.spots.clear();
    }

    /// `peer` makes an interest with count 0, which is the last in order. Where it has one open under the number `sid`
    /// nothing happens. Rule of the protocol's `SUB`.
    ///
    /// # Errors
    ///
    /// `NoMemory` for want of memory: nothing changed.
    pub fn subscribe(
        &mut self,
        peer: u64,
        sid: u64,
        pattern: Subject,
        group: Option<Subject>,
    ) -> Result<(), NoMemory>
        ensures ok { OnOk result (self.new ≡ subscribed peer sid pattern group self.old) }
        ensures err { OnErr result (self.new ≡ self.old) }
    {
        if has(self.rows.as_slice(), peer, sid) {
            return Ok(());
        }
        self.rows.push(Interest {
            peer,
            sid,
            pattern,
            group,
            count: 0,
            most: None,
        })?;
        Ok(())
    }
}
