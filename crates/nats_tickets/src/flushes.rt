//! Flushes that were handled, in the order of the places that settle them.
ghost use Rattle.std.specs.Prelude.{◌≡◌, ◌≤◌, ◌+◌, suc, [], ◌++◌, map, OnOk, OnErr};
ghost use Rattle.std.specs.VecDeque.{deque_len, deque_capacity};
ghost use Rattle.nats_history.specs.declared.call.CallReply.TheVariants as replies;
ghost use Rattle.nats_history.specs.Tickets.{awaiting, flushed_at_once, flushed_by, left_by, replied};
ghost use Rattle.nats_tickets.specs.Kept.{awaits, tickets_of};

use nats_history::{CallReply, NoMemory};
use std::collections::VecDeque;

/// A flush that was handled: its ticket, and the place in what its link takes that settles it.
#[derive(Clone, Copy, Drop)]
pub(crate) struct Mark {
    pub ticket: u64,
    pub end: u64,
}

impl Mark {
    fn end(&self) -> u64
        ensures { result ≡ self.now.end }
    {
        self.end
    }
}

/// Settles the flushes that the link reaches with `n` more bytes. The result is what it took then, as the marks
/// that are left count it.
pub fn settle_reached(
    marks: &mut VecDeque<Mark>,
    ready: &mut VecDeque<(u64, CallReply)>,
    taken: u64,
    n: u64,
) -> u64
    requires { deque_len ready.old + deque_len marks.old ≤ deque_capacity ready.old }
    ensures left { map (awaits result) marks.new.items ≡ left_by n (map (awaits taken) marks.old.items) }
    ensures ready { ready.new.items
        ≡ ready.old.items ++ replied replies.Flushed (flushed_by n (map (awaits taken) marks.old.items)) }
    ensures room { (others : _) → deque_len ready.old + (deque_len marks.old + others) ≤ deque_capacity ready.old
        → deque_len ready.new + (deque_len marks.new + others) ≤ deque_capacity ready.new }
{
    'marks: while let Some(mark) = marks.front() {
        let ticket = mark.ticket;
        let end = mark.end();
        if end.saturating_sub(taken) > n {
            return taken + n;
        }
        let _ = marks.pop_front();
        ready.push_back_reserved((ticket, CallReply::Flushed));
    }
    0
}

/// Settles all flushes that await bytes as failed.
pub fn fail_all(marks: &mut VecDeque<Mark>, ready: &mut VecDeque<(u64, CallReply)>)
    requires { deque_len ready.old + deque_len marks.old ≤ deque_capacity ready.old }
    ensures none { marks.new.items ≡ [] }
    ensures ready { ready.new.items ≡ ready.old.items ++ replied replies.FlushFailed (tickets_of marks.old.items) }
    ensures room { (others : _) → deque_len ready.old + (deque_len marks.old + others) ≤ deque_capacity ready.old
        → deque_len ready.new + (deque_len marks.new + others) ≤ deque_capacity ready.new }
{
    'marks: while let Some(mark) = marks.pop_front() {
        ready.push_back_reserved((mark.ticket, CallReply::FlushFailed));
    }
}

/// A flush that is handled while `waiting` bytes wait awaits them, or settles where none does.
pub fn await_bytes(
    marks: &mut VecDeque<Mark>,
    ready: &mut VecDeque<(u64, CallReply)>,
    taken: u64,
    ticket: u64,
    waiting: u64,
) -> Result<(), NoMemory>
    requires { deque_len ready.old + 1 ≤ deque_capacity ready.old }
    ensures marks { OnOk result
        (map (awaits taken) marks.new.items ≡ map (awaits taken) marks.old.items ++ awaiting ticket waiting) }
    ensures ready { OnOk result
        (ready.new.items ≡ ready.old.items ++ replied replies.Flushed (flushed_at_once ticket waiting)) }
    ensures room { OnOk result
        ((deque_len ready.new + deque_len marks.new ≡ suc (deque_len ready.old + deque_len marks.old))
        × (deque_capacity ready.new ≡ deque_capacity ready.old)) }
    ensures err { OnErr result ((marks.new.items ≡ marks.old.items) × (ready.new.items ≡ ready.old.items)
        × (deque_len marks.new ≡ deque_len marks.old) × (deque_len ready.new ≡ deque_len ready.old)
        × (deque_capacity ready.new ≡ deque_capacity ready.old)) }
{
    if waiting == 0 {
        ready.push_back_reserved((ticket, CallReply::Flushed));
        return Ok(());
    }
    let Some(end) = taken.checked_add(waiting) else {
        return Err(NoMemory);
    };
    marks.push_back(Mark { ticket, end })?;
    Ok(())
}
