//! Who gets a message.
ghost use Rattle.std.specs.Prelude.{◌≡◌, ◌++◌, map, filter, fold, IfOk, OnOk, [], not, ◌&&◌, ◌||◌, ◌==◌};
ghost use Rattle.std.specs.Ordering.{nat_cmp};
ghost use Rattle.std.specs.Cmp.Lexicographic.{slice_cmp};
ghost use Rattle.std.specs.Prelude.{option_map};
ghost use Rattle.std.specs.List.{find};
ghost use Rattle.nats_picking.specs.Hearing.{is_other, heard, is_plain, has_less, answers};
ghost use Rattle.nats_picking.specs.Picking.{nows, target_of, group_name, better, onto_pick, pick, picks, BelongsAt, plain_targets, targets_by};

use nats_interests::{Interest, Interests};
use nats_matching::matches;
use nats_names::NoMemory;
use std::alloc::Global;
use std::cmp::Ordering;

/// An interest that gets a message. Own type.
#[derive(Clone, Copy, Debug, PartialEq, Eq)]
pub struct Target {
    /// The number of the peer, from 1.
    pub peer: u64,
    /// The number that the peer gave the interest.
    pub sid: u64,
}

/// Where a member belongs among the best of the groups.
#[derive(Clone, Copy)]
pub enum Spot {
    Before(usize),
    Same(usize),
}

fn is_plain(i: &Interest) -> bool
    ensures { result ≡ is_plain i.now }
{
    match i.group {
        Some(_) => false,
        None => true,
    }
}

fn group_name(i: &Interest) -> &str
    ensures { result.now ≡ group_name i.now }
{
    match &i.group {
        Some(group) => group.as_str(),
        None => "",
    }
}

fn compare_names(i: &Interest, best: &Interest) -> Ordering
    ensures { result ≡ slice_cmp nat_cmp (group_name i.now) (group_name best.now) }
{
    group_name(i).cmp(group_name(best))
}

fn better<'a>(i: &'a Interest, best: &'a Interest) -> &'a Interest
    ensures { result.now ≡ better i.now best.now }
{
    if i.count < best.count { i } else { best }
}

fn spot_of(all: &[&Interest], i: &Interest) -> Spot
    ensures { BelongsAt i.now (nows all.now) result }
{
    let mut k = 0;
    'all: while k < all.len() {
        match compare_names(i, all[k]) {
            Ordering::Less => return Spot::Before(k),
            Ordering::Equal => return Spot::Same(k),
            Ordering::Greater => k += 1,
        }
    }
    Spot::Before(k)
}

fn target_of(i: &Interest) -> Target
    ensures { result ≡ target_of i.now }
{
    Target {
        peer: i.peer,
        sid: i.sid,
    }
}

// Those that aren't of `peer`.
fn others<'a>(
    alloc: Global,
    matching: &[&'a Interest],
    peer: u64,
) -> Result<Vec<&'a Interest>, NoMemory>
    ensures { IfOk result (λ found. nows found.items ≡ filter (is_other peer) (nows matching.now)) }
{
    let mut found = Vec::new(alloc);
    for i in matching {
        if !(i.peer == peer) {
            found.push(*i)?;
        }
    }
    Ok(found)
}

/// The interests that match `subject`, which `peer` publishes to, in their order: those of `peer` itself only where it
/// wants an echo. It costs by those that match, as `Interests::matching` says.
///
/// # Errors
///
/// `NoMemory` for want of memory.
pub fn heard<'a>(
    alloc: Global,
    interests: &'a Interests,
    peer: u64,
    echo: bool,
    subject: &str,
) -> Result<Vec<&'a Interest>, NoMemory>
    ensures { IfOk result (λ found. nows found.items ≡ heard peer echo subject.now interests.now) }
{
    let matching = interests.matching(alloc, subject)?;
    if echo {
        return Ok(matching);
    }
    others(alloc, matching.as_slice(), peer)
}

fn push_pick<'a>(all: &mut Vec<&'a Interest>, i: &'a Interest) -> Result<(), NoMemory>
    ensures { OnOk result (nows all.new.items ≡ pick (nows all.old.items) i.now) }
{
    if is_plain(i) {
        return Ok(());
    }
    match spot_of(all.as_slice(), i) {
        Spot::Before(k) => all.insert(k, i)?,
        Spot::Same(k) => all[k] = better(i, all[k]),
    }
    Ok(())
}

// The best of each group, by name.
fn picks<'a>(alloc: Global, heard: &[&'a Interest]) -> Result<Vec<&'a Interest>, NoMemory>
    ensures { IfOk result (λ all. nows all.items ≡ picks (nows heard.now)) }
{
    let mut all = Vec::new(alloc);
    for i in heard {
        push_pick(&mut all, i)?;
    }
    Ok(all)
}

fn push_plain(all: &mut Vec<Target>, heard: &[&Interest]) -> Result<(), NoMemory>
    ensures { OnOk result (all.new.items ≡ all.old.items ++ plain_targets (nows heard.now)) }
{
    for i in heard {
        if is_plain(i) {
            all.push(target_of(i))?;
        }
    }
    Ok(())
}

fn push_each(all: &mut Vec<Target>, picks: &[&Interest]) -> Result<(), NoMemory>
    ensures { OnOk result (all.new.items ≡ all.old.items ++ map target_of (nows picks.now)) }
{
    for i in picks {
        all.push(target_of(i))?;
    }
    Ok(())
}

/// Who gets a message, of the interests that match it: first each that is in no group, in their order; then one
/// member of each group, by the bytes of the groups' names: the member with the least count, of several such the
/// oldest. Rule of the protocol's queue groups, which leaves the choice to the server; by the least count is this
/// library's.
///
/// # Errors
///
/// `NoMemory` for want of memory.
pub fn targets(alloc: Global, heard: &[&Interest]) -> Result<Vec<Target>, NoMemory>
    ensures { IfOk result (λ all. all.items ≡ targets_by (nows heard.now)) }
{
    let best = picks(alloc, heard)?;
    let mut all = Vec::new(alloc);
    all.reserve(heard.len())?;
    push_plain(&mut all, heard)?;
    push_each(&mut all, best.as_slice())?;
    Ok(all)
}

fn answers(i: &Interest, peer: u64, reply: &str) -> bool
    ensures { result ≡ answers peer reply.now i.now }
{
    i.peer == peer && matches(i.pattern.as_str(), reply)
}

/// Whom to tell that nobody matched: the oldest interest of `peer` that matches the reply which it published. It
/// takes no memory. Rule of the protocol's `no_responders`.
pub fn told_of(interests: &[Interest], peer: u64, reply: &str) -> Option<Target>
    ensures { result ≡ option_map target_of (find (answers peer reply.now) interests.now) }
{
    for i in interests {
        if answers(i, peer, reply) {
            return Some(target_of(i));
        }
    }
    None
}
