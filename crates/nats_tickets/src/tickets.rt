//! How tickets are kept: this file and those of its fields alone know.
ghost use Rattle.std.specs.Prelude.{◌≡◌, ◌==◌, ◌≤◌, ◌+◌, ◌-◌, ◌||◌, not, suc, [], ◌∷◌, ◌++◌, length, drop, map, Some, OnOk, OnErr, if◌then◌else◌};
ghost use Rattle.std.specs.VecDeque.{deque_len, deque_capacity};
ghost use Rattle.nats_tables.specs.Numbers.{item_of, at_number};
ghost use Rattle.nats_history.specs.declared.call.CallReply.TheVariants as replies;
ghost use Rattle.nats_history.specs.declared.waits.Waits.TheVariants as waits;
ghost use Rattle.nats_history.specs.Tickets.{ticket_in, replied, replied_if, waits_dropped, queue_dropped, waits_late, is_waiting_request, request_reply};
ghost use Rattle.nats_history.specs.Queue.{first};
ghost use Rattle.nats_history.specs.Schedule.{is_of_request};
ghost use Rattle.nats_tickets.specs.Kept.{nothing_kept, given_one, renewed, flush_one, request_one, arrived, timed_out, passed, failed, dropped, reply_in, without, one_if, bit, pending_of, pending};

use crate::asking::Asking;
use crate::flushes::{Mark, await_bytes, fail_all, settle_reached};
use crate::kinds::Kinds;
use crate::ready::place_in;
use nats_history::{CallReply, Message, NoMemory, Subject, Waits};
use std::alloc::Global;
use std::collections::VecDeque;
use std::marker::Model;

/// The status of a reply that says that nobody answers. The protocol's.
const NO_RESPONDERS: u16 = 503;

/// The tickets of flushes and requests, from 1, in memory that is in the order of those that are unsettled or were
/// not handed out, and of the runs of tickets of one kind. Each unsettled one has its room among those that are to
/// be handed out. Our own; the crate has a channel for each.
#[derive(Drop)]
pub struct Tickets {
    given: u64,
    handled: u64,
    kinds: Kinds,
    queued: VecDeque<Waits>,
    marks: VecDeque<Mark>,
    /// What the link took of its text, as the marks count it.
    taken: u64,
    asking: Asking,
    ready: VecDeque<(u64, CallReply)>,
}

impl Model for Tickets {
    ghost use Rattle.std.specs.Prelude.{◌≡◌, ◌+◌, ◌≤◌, length, map};
    ghost use Rattle.std.specs.VecDeque.{deque_len, deque_capacity};
    ghost use Rattle.nats_tickets.specs.Asking.{AllBelow};
    ghost use Rattle.nats_tickets.specs.Kept.{Kept, awaits, pending};

    ghost Value = { Kept };

    ghost view = { λ t. record {
      tickets = record {
        given = t.given;
        handled = t.handled;
        of_request = t.kinds;
        queued = t.queued.items;
        flushing = map (awaits t.taken) t.marks.items;
        asking = t.asking;
      };
      ready = t.ready.items;
    } };

    ghost invariant = { λ t. (t.handled + deque_len t.queued ≡ t.given) × AllBelow t.handled t.asking
        × (deque_len t.ready + (deque_len t.marks + (length t.asking + pending t.queued.items))
        ≤ deque_capacity t.ready) };
}

/// Drops all requests that wait for a reply.
fn drop_asking(asking: &mut Asking, ready: &mut VecDeque<(u64, CallReply)>)
    requires { deque_len ready.old + length asking.old ≤ deque_capacity ready.old }
    ensures none { asking.new ≡ [] }
    ensures ready { ready.new.items ≡ ready.old.items ++ replied replies.Dropped (map ticket_in asking.old) }
    ensures room { (others : _) → deque_len ready.old + (length asking.old + others) ≤ deque_capacity ready.old
        → deque_len ready.new + others ≤ deque_capacity ready.new }
{
    'asking: while let Some(ticket) = asking.pop() {
        ready.push_back_reserved((ticket, CallReply::Dropped));
    }
}

/// Settles a ticket whose call waits at the close, if it is unsettled.
fn drop_next(ready: &mut VecDeque<(u64, CallReply)>, ticket: u64, waits: Waits)
    requires { deque_len ready.old + pending_of waits ≤ deque_capacity ready.old }
    ensures ready { ready.new.items ≡ ready.old.items ++ waits_dropped ticket waits }
    ensures len { deque_len ready.new ≡ deque_len ready.old + pending_of waits }
    ensures capacity { deque_capacity ready.new ≡ deque_capacity ready.old }
{
    match waits {
        Waits::Flush => ready.push_back_reserved((ticket, CallReply::FlushFailed)),
        Waits::Request => ready.push_back_reserved((ticket, CallReply::Dropped)),
        Waits::Late => {}
    }
}

/// Settles the tickets whose call waits, which follow the first ones.
fn drop_queued(
    queued: &mut VecDeque<Waits>,
    ready: &mut VecDeque<(u64, CallReply)>,
    handled: u64,
    given: u64,
)
    requires numbers { handled + deque_len queued.old ≡ given }
    requires room { deque_len ready.old + pending queued.old.items ≤ deque_capacity ready.old }
    ensures none { queued.new.items ≡ [] }
    ensures ready { ready.new.items ≡ ready.old.items ++ queue_dropped (suc handled) queued.old.items }
    ensures len { deque_len queued.new ≡ 0 }
    ensures room { (others : _) → deque_len ready.old + (others + pending queued.old.items) ≤ deque_capacity ready.old
        → deque_len ready.new + others ≤ deque_capacity ready.new }
{
    let _given = given;
    let mut ticket = handled;
    'queued: while let Some(waits) = queued.pop_front() {
        ticket += 1;
        drop_next(ready, ticket, waits);
    }
}

/// A request waits no more as another waits for a reply to the same subject, if there is one.
fn push_dropped(ready: &mut VecDeque<(u64, CallReply)>, ticket: Option<u64>)
    requires { deque_len ready.old + one_if ticket ≤ deque_capacity ready.old }
    ensures ready { ready.new.items ≡ ready.old.items ++ replied_if replies.Dropped ticket }
    ensures len { deque_len ready.new ≡ deque_len ready.old + one_if ticket }
    ensures capacity { deque_capacity ready.new ≡ deque_capacity ready.old }
{
    if let Some(ticket) = ticket {
        ready.push_back_reserved((ticket, CallReply::Dropped));
    }
}

fn time_out_one(waits: &mut Waits) -> bool
    ensures asked { result ≡ is_waiting_request (Some waits.old) }
    ensures rest { waits.new ≡ waits_late waits.old }
{
    match waits {
        Waits::Request => {
            *waits = Waits::Late;
            true
        }
        Waits::Flush | Waits::Late => false,
    }
}

/// Marks the request of a place among those whose call waits as late, and tells whether it was not.
fn time_out_at(queued: &mut VecDeque<Waits>, place: u64) -> bool
    ensures asked { result ≡ is_waiting_request (item_of place queued.old.items) }
    ensures rest { queued.new.items ≡ at_number place waits_late queued.old.items }
    ensures len { deque_len queued.new ≡ deque_len queued.old }
{
    if place == 0 {
        return false;
    }
    let index = (place - 1) as usize;
    if index >= queued.len() {
        return false;
    }
    time_out_one(&mut queued[index])
}

fn is_either(asked: bool, waited: bool) -> bool
    ensures { result ≡ (asked || waited) }
{
    asked || waited
}

/// The oldest call that waits was handled.
fn pass_call(queued: &mut VecDeque<Waits>)
    ensures rest { queued.new.items ≡ drop 1 queued.old.items }
    ensures len { deque_len queued.new ≡ deque_len queued.old - 1 }
{
    let _next = queued.pop_front();
}

/// A request that waits for a reply settles by a message, if there is one.
fn push_replied(ready: &mut VecDeque<(u64, CallReply)>, ticket: Option<u64>, message: Message)
    requires { deque_len ready.old + one_if ticket ≤ deque_capacity ready.old }
    ensures ready { ready.new.items ≡ ready.old.items ++ replied_if (request_reply message) ticket }
    ensures len { deque_len ready.new ≡ deque_len ready.old + one_if ticket }
    ensures capacity { deque_capacity ready.new ≡ deque_capacity ready.old }
{
    if let Some(ticket) = ticket {
        ready.push_back_reserved((ticket, request_reply(message)));
    }
}

/// A request settles by its deadline, where it is unsettled.
fn push_timed_out(ready: &mut VecDeque<(u64, CallReply)>, ticket: u64, is_unsettled: bool)
    requires { deque_len ready.old + bit is_unsettled ≤ deque_capacity ready.old }
    ensures ready { ready.new.items
        ≡ ready.old.items ++ (if is_unsettled then (ticket, replies.TimedOut) ∷ [] else []) }
    ensures len { deque_len ready.new ≡ deque_len ready.old + bit is_unsettled }
    ensures capacity { deque_capacity ready.new ≡ deque_capacity ready.old }
{
    if is_unsettled {
        ready.push_back_reserved((ticket, CallReply::TimedOut));
    }
}

/// How a request settles by a message that came to the subject of its reply.
fn request_reply(message: Message) -> CallReply
    ensures { result ≡ request_reply message }
{
    match message.status {
        Some(status) if status.as_u16() == NO_RESPONDERS => CallReply::NoResponders,
        Some(_) | None => CallReply::Replied(message),
    }
}

impl Tickets {
    /// No ticket. It takes no memory.
    pub fn new(alloc: Global) -> Tickets
        ensures { result ≡ nothing_kept }
    {
        Tickets {
            given: 0,
            handled: 0,
            kinds: Kinds::new(alloc),
            queued: VecDeque::new(alloc),
            marks: VecDeque::new(alloc),
            taken: 0,
            asking: Asking::new(alloc),
            ready: VecDeque::new(alloc),
        }
    }

    /// How many tickets were given.
    pub fn given(&self) -> u64
        ensures { result ≡ self.now.tickets.given }
    {
        self.given
    }

    /// Whether a ticket was given to a request. It takes no memory.
    pub fn is_request(&self, ticket: u64) -> bool
        ensures { result ≡ is_of_request (item_of ticket self.now.tickets.of_request) }
    {
        self.kinds.is_request(ticket)
    }

    /// Gives the next ticket to a call that waits, with the room that its settling needs.
    pub fn give(&mut self, waits: Waits) -> Result<(), NoMemory>
        ensures ok { OnOk result (self.new ≡ given_one waits self.old) }
        ensures err { OnErr result (self.new ≡ self.old) }
    {
        let Some(given) = self.given.checked_add(1) else {
            return Err(NoMemory);
        };
        let Some(unsettled) = self.marks.len().checked_add(self.queued.len()) else {
            return Err(NoMemory);
        };
        let Some(unsettled) = unsettled.checked_add(self.asking.len()) else {
            return Err(NoMemory);
        };
        let Some(unsettled) = unsettled.checked_add(1) else {
            return Err(NoMemory);
        };
        self.ready.reserve(unsettled)?;
        self.queued.reserve(1)?;
        self.kinds
            .push(matches!(waits, Waits::Request | Waits::Late))?;
        self.queued.push_back_reserved(waits);
        self.given = given;
        Ok(())
    }

    /// The oldest call that waits is a flush, and is handled while so many bytes wait.
    pub fn handle_flush(&mut self, waiting: u64) -> Result<(), NoMemory>
        ensures ok { OnOk result (self.new ≡ flush_one waiting self.old) }
        ensures err { OnErr result (self.new ≡ self.old) }
    {
        match self.queued.front() {
            Some(Waits::Flush) => self.begin_flush(waiting),
            Some(Waits::Request | Waits::Late) | None => Ok(()),
        }
    }

    fn begin_flush(&mut self, waiting: u64) -> Result<(), NoMemory>
        requires { first self.old.tickets.queued ≡ Some waits.Flush }
        ensures ok { OnOk result (self.new ≡ flush_one waiting self.old) }
        ensures err { OnErr result (self.new ≡ self.old) }
    {
        let ticket = self.handled + 1;
        await_bytes(
            &mut self.marks,
            &mut self.ready,
            self.taken,
            ticket,
            waiting,
        )?;
        self.handled = ticket;
        pass_call(&mut self.queued);
        Ok(())
    }

    /// The oldest call that waits is a request, and is handled: its reply is to come to `subject`. Only where its
    /// deadline did not come yet it takes memory.
    pub fn handle_request(&mut self, alloc: Global, subject: &Subject) -> Result<(), NoMemory>
        ensures ok { OnOk result (self.new ≡ request_one subject.now self.old) }
        ensures err { OnErr result (self.new ≡ self.old) }
        ensures wants { OnErr result (first self.old.tickets.queued ≡ Some waits.Request) }
    {
        match self.queued.front() {
            Some(Waits::Request) => self.begin_asking(alloc, subject),
            Some(Waits::Late) => {
                self.end_late(subject);
                Ok(())
            }
            Some(Waits::Flush) | None => Ok(()),
        }
    }

    /// The oldest call that waits is a request, and from now on it waits for its reply.
    fn begin_asking(&mut self, alloc: Global, subject: &Subject) -> Result<(), NoMemory>
        requires { first self.old.tickets.queued ≡ Some waits.Request }
        ensures ok { OnOk result (self.new ≡ request_one subject.now self.old) }
        ensures err { OnErr result (self.new ≡ self.old) }
    {
        let ticket = self.handled + 1;
        let displaced = self.asking.ask(alloc, ticket, subject)?;
        push_dropped(&mut self.ready, displaced);
        self.handled = ticket;
        pass_call(&mut self.queued);
        Ok(())
    }

    /// The oldest call that waits is a request whose deadline came, and it waits no more.
    fn end_late(&mut self, subject: &Subject)
        requires { first self.old.tickets.queued ≡ Some waits.Late }
        ensures { self.new ≡ request_one subject.now self.old }
    {
        let displaced = self.asking.take_subject(subject);
        push_dropped(&mut self.ready, displaced);
        self.handled += 1;
        pass_call(&mut self.queued);
    }

    /// A message came to the inbox: where a request waits for a reply to its subject, it settles. It takes no memory.
    pub fn arrive(&mut self, message: Message)
        ensures { self.new ≡ arrived message self.old }
    {
        let ticket = self.asking.take_subject(&message.subject);
        push_replied(&mut self.ready, ticket, message);
    }

    /// The deadline of a ticket came: its request settles, if it is unsettled. It takes no memory.
    pub fn time_out(&mut self, ticket: u64)
        ensures { self.new ≡ timed_out ticket self.old }
    {
        let asked = self.asking.take_ticket(ticket);
        let place = ticket.saturating_sub(self.handled);
        let waited = time_out_at(&mut self.queued, place);
        let unsettled = is_either(asked, waited);
        push_timed_out(&mut self.ready, ticket, unsettled);
    }

    /// A new link came up, and no flush awaits bytes of it. It takes no memory.
    pub fn renew(&mut self)
        ensures { self.new ≡ renewed self.old }
    {
        self.marks.clear();
        self.taken = 0;
    }

    /// The link took `n` bytes. It takes no memory.
    pub fn pass(&mut self, n: u64)
        ensures { self.new ≡ passed n self.old }
    {
        self.taken = settle_reached(&mut self.marks, &mut self.ready, self.taken, n);
    }

    /// The link ended. It takes no memory.
    pub fn fail(&mut self)
        ensures { self.new ≡ failed self.old }
    {
        fail_all(&mut self.marks, &mut self.ready);
        self.taken = 0;
    }

    /// The session closed: flushes that await bytes fail, requests that wait for a reply are dropped, then the
    /// tickets whose call waits settle. It takes no memory.
    pub fn drop_waiting(&mut self)
        ensures { self.new ≡ dropped self.old }
    {
        fail_all(&mut self.marks, &mut self.ready);
        drop_asking(&mut self.asking, &mut self.ready);
        drop_queued(&mut self.queued, &mut self.ready, self.handled, self.given);
        self.taken = 0;
        self.handled = self.given;
    }

    /// Hands out the reply of a ticket, once; `None` exactly where it did not settle yet, was not given or was
    /// handed out. It takes no memory, and looks through the settled tickets that were not handed out.
    pub fn reply_of(&mut self, ticket: u64) -> Option<CallReply>
        ensures reply { result ≡ reply_in ticket self.old.ready }
        ensures rest { self.new ≡ record self.old { ready = without ticket self.old.ready } }
    {
        let place = place_in(&self.ready, ticket)?;
        let (_, reply) = self.ready.remove(place)?;
        Some(reply)
    }

    /// Whether a settled ticket waits to be handed out. It takes no memory.
    pub fn has_next(&self) -> bool
        ensures { result ≡ not (length self.now.ready == 0) }
    {
        !self.ready.is_empty()
    }

    /// Hands out the ticket that settled first, with its reply. It takes no memory.
    pub fn next(&mut self) -> Option<(u64, CallReply)>
        ensures ticket { result ≡ first self.old.ready }
        ensures rest { self.new ≡ record self.old { ready = drop 1 self.old.ready } }
    {
        self.ready.pop_front()
    }
}
