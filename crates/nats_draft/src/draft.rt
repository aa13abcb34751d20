//! A transcript as it is written.
ghost use Rattle.std.specs.Prelude.{◌≡◌, ◌+◌, [], ◌∷◌, ◌++◌, OnOk, IfOk, length, List, ℕ, if◌then◌else◌};
ghost use Rattle.nats_tables.specs.Numbers.{at_number};
ghost use Rattle.nats_history.specs.Tickets.{settle_once};
ghost use Rattle.nats_history.specs.declared.call.TakeReply.TheVariants as takes;
ghost use Rattle.nats_draft.specs.Sheet.{Sheet, empty_sheet, new_row, added, added_ticket, write_settled, write_put, write_drop, write_take, row_with, shown_of};

use crate::places::place_of;
use nats_history::{
    CallReply, Event, LinkRow, LinkWord, Message, NoMemory, Seq, SubRow, TakeReply, Transcript,
};
use std::alloc::Global;
use std::marker::Model;
use std::mem;

/// What was written so far. Contracts see it as its lists.
#[derive(Drop)]
pub struct Draft {
    links: Vec<LinkRow>,
    taken: Vec<u8>,
    subs: Vec<SubRow>,
    events: Vec<(u64, Event)>,
    calls: Vec<(u64, CallReply)>,
    tickets: Vec<Option<(u64, CallReply)>>,
}

impl Model for Draft {
    ghost use Rattle.nats_draft.specs.Sheet.{Sheet};

    ghost Value = { Sheet };

    ghost view = { λ d. record {
      links = d.links.items;
      taken = d.taken.items;
      subs = d.subs.items;
      events = d.events.items;
      calls = d.calls.items;
      tickets = d.tickets.items;
    } };
}

impl Draft {
    /// Nothing is written yet. It takes no memory.
    pub fn new(alloc: Global) -> Draft
        ensures { result ≡ empty_sheet }
    {
        Draft {
            links: Vec::new(alloc),
            taken: Vec::new(alloc),
            subs: Vec::new(alloc),
            events: Vec::new(alloc),
            calls: Vec::new(alloc),
            tickets: Vec::new(alloc),
        }
    }

    /// A link came up: it took nothing yet.
    pub fn begin_link(&mut self)
        ensures { self.new ≡ record self.old { taken = [] } }
    {
        self.taken.clear();
    }

    /// The link took these bytes.
    pub fn note_taken(&mut self, bytes: &[u8]) -> Result<(), NoMemory>
        ensures { OnOk result (self.new ≡ record self.old { taken = self.old.taken ++ bytes.now }) }
    {
        self.taken.extend_from_slice(bytes)?;
        Ok(())
    }

    /// The link ended, and left these bytes.
    pub fn end_link(&mut self, alloc: Global, end: LinkWord, left: &[u8]) -> Result<(), NoMemory>
        ensures { OnOk result (self.new
            ≡ record self.old { links = self.old.links ++ row_with end self.old.taken left.now ∷ []; taken = [] }) }
    {
        let left = Seq::from_vec(Vec::from_slice(alloc, left)?);
        let taken = Seq::from_vec(mem::replace(&mut self.taken, Vec::new(alloc)));
        self.links.push(LinkRow { end, taken, left })?;
        Ok(())
    }

    /// A subscription was given its number.
    fn add_sub(&mut self, alloc: Global) -> Result<(), NoMemory>
        ensures { OnOk result (self.new ≡ record self.old { subs = self.old.subs ++ new_row ∷ [] }) }
    {
        self.subs.push(SubRow {
            puts: Seq::new(alloc),
            drops: Seq::new(alloc),
            takes: Seq::new(alloc),
        })?;
        Ok(())
    }

    /// A message is put into the queue of subscription `sid`; its copy shares the bytes.
    pub fn note_put(
        &mut self,
        alloc: Global,
        place: u64,
        sid: u64,
        message: &Message,
    ) -> Result<(), NoMemory>
        ensures { OnOk result
            (self.new ≡ record self.old { subs = at_number sid (write_put place message.now) self.old.subs }) }
    {
        put_in(&mut self.subs, alloc, place, sid, message)
    }

    /// A message met the full queue of subscription `sid`.
    pub fn note_drop(
        &mut self,
        alloc: Global,
        place: u64,
        sid: u64,
        message: Box<Message>,
    ) -> Result<(), NoMemory>
        ensures { OnOk result
            (self.new ≡ record self.old { subs = at_number sid (write_drop place message.value) self.old.subs }) }
    {
        drop_in(&mut self.subs, alloc, place, sid, message)
    }

    /// A take of subscription `sid` was answered with a message.
    pub fn note_message_taken(
        &mut self,
        alloc: Global,
        place: u64,
        sid: u64,
        message: Box<Message>,
    ) -> Result<(), NoMemory>
        ensures { OnOk result (self.new
            ≡ record self.old { subs = at_number sid (write_take place (takes.Message message.value)) self.old.subs }) }
    {
        message_in(&mut self.subs, alloc, place, sid, message)
    }

    /// A take of subscription `sid` was answered so. Where it was with a message, `note_message_taken` costs less.
    pub fn note_take(
        &mut self,
        alloc: Global,
        place: u64,
        sid: u64,
        reply: TakeReply,
    ) -> Result<(), NoMemory>
        ensures { OnOk result
            (self.new ≡ record self.old { subs = at_number sid (write_take place reply) self.old.subs }) }
    {
        take_in(&mut self.subs, alloc, place, sid, reply)
    }

    fn add_numbered(&mut self, alloc: Global, reply: &CallReply) -> Result<(), NoMemory>
        ensures { OnOk result (self.new ≡ record self.old { subs = added reply.now self.old.subs }) }
    {
        match reply {
            CallReply::Numbered(_) => self.add_sub(alloc),
            CallReply::Accepted
            | CallReply::InvalidSubject
            | CallReply::InvalidQueueName
            | CallReply::MaxPayloadExceeded { .. }
            | CallReply::Closed
            | CallReply::NoNumber
            | CallReply::Full
            | CallReply::Flushed
            | CallReply::Replied(_)
            | CallReply::FlushFailed
            | CallReply::NoResponders
            | CallReply::TimedOut
            | CallReply::Dropped => Ok(()),
        }
    }

    fn add_call(&mut self, place: u64, reply: CallReply) -> Result<(), NoMemory>
        ensures { OnOk result (self.new ≡ record self.old { calls = self.old.calls ++ (place, reply) ∷ [] }) }
    {
        self.calls.push((place, reply))?;
        Ok(())
    }

    /// A call that asks for no ticket was answered; where the reply has a number, a subscription was given it.
    pub fn note_call(&mut self, alloc: Global, place: u64, reply: CallReply) -> Result<(), NoMemory>
        ensures { OnOk result (self.new
            ≡ record self.old { subs = added reply self.old.subs; calls = self.old.calls ++ (place, reply) ∷ [] }) }
    {
        self.add_numbered(alloc, &reply)?;
        self.add_call(place, reply)
    }

    fn add_ticket(&mut self, reply: &CallReply) -> Result<(), NoMemory>
        ensures { OnOk result (self.new ≡ record self.old { tickets = added_ticket reply.now self.old.tickets }) }
    {
        match reply {
            CallReply::Numbered(_) => {
                self.tickets.push(None)?;
                Ok(())
            }
            CallReply::Accepted
            | CallReply::InvalidSubject
            | CallReply::InvalidQueueName
            | CallReply::MaxPayloadExceeded { .. }
            | CallReply::Closed
            | CallReply::NoNumber
            | CallReply::Full
            | CallReply::Flushed
            | CallReply::Replied(_)
            | CallReply::FlushFailed
            | CallReply::NoResponders
            | CallReply::TimedOut
            | CallReply::Dropped => Ok(()),
        }
    }

    /// A flush or a request was answered; where the reply has a number, it is that of its ticket.
    pub fn note_ticket(&mut self, place: u64, reply: CallReply) -> Result<(), NoMemory>
        ensures { OnOk result (self.new ≡ record self.old {
          tickets = added_ticket reply self.old.tickets;
          calls = self.old.calls ++ (place, reply) ∷ [];
        }) }
    {
        self.add_ticket(&reply)?;
        self.add_call(place, reply)
    }

    /// A ticket settled; it stays as it settled first. It takes no memory.
    pub fn note_settled(&mut self, place: u64, ticket: u64, reply: CallReply)
        ensures { self.new ≡ write_settled place ticket reply self.old }
    {
        settle_in(&mut self.tickets, place, ticket, reply);
    }

    /// An event was handed out.
    pub fn note_event(&mut self, place: u64, event: Event) -> Result<(), NoMemory>
        ensures { OnOk result (self.new ≡ record self.old { events = self.old.events ++ (place, event) ∷ [] }) }
    {
        self.events.push((place, event))?;
        Ok(())
    }

    /// The transcript of all that was written. It takes no memory.
    pub fn finish(self) -> Transcript
        ensures { result ≡ shown_of self }
    {
        let Draft {
            links,
            taken: _,
            subs,
            events,
            calls,
            tickets,
        } = self;
        Transcript {
            links: Seq::from_vec(links),
            subs: Seq::from_vec(subs),
            events: Seq::from_vec(events),
            calls: Seq::from_vec(calls),
            tickets: Seq::from_vec(tickets),
        }
    }
}

fn drop_on(
    row: &mut SubRow,
    alloc: Global,
    place: u64,
    message: Box<Message>,
) -> Result<(), NoMemory>
    ensures { OnOk result (row.new ≡ write_drop place message.value row.old) }
{
    row.drops.push(alloc, (place, Box::into_inner(message)))
}

fn message_on(
    row: &mut SubRow,
    alloc: Global,
    place: u64,
    message: Box<Message>,
) -> Result<(), NoMemory>
    ensures { OnOk result (row.new ≡ write_take place (takes.Message message.value) row.old) }
{
    row.takes.push(alloc, (place, TakeReply::Message(Box::into_inner(message))))
}

fn take_on(row: &mut SubRow, alloc: Global, place: u64, reply: TakeReply) -> Result<(), NoMemory>
    ensures { OnOk result (row.new ≡ write_take place reply row.old) }
{
    row.takes.push(alloc, (place, reply))
}

fn put_on(row: &mut SubRow, alloc: Global, place: u64, message: &Message) -> Result<(), NoMemory>
    ensures { OnOk result (row.new ≡ write_put place message.now row.old) }
{
    row.puts.push(alloc, (place, message.copy(alloc)?))
}

fn put_in(
    rows: &mut [SubRow],
    alloc: Global,
    place: u64,
    sid: u64,
    message: &Message,
) -> Result<(), NoMemory>
    ensures { OnOk result (rows.new ≡ at_number sid (write_put place message.now) rows.old) }
{
    match place_of(sid, rows.len()) {
        Some(index) => put_on(&mut rows[index], alloc, place, message),
        None => Ok(()),
    }
}

fn drop_in(
    rows: &mut [SubRow],
    alloc: Global,
    place: u64,
    sid: u64,
    message: Box<Message>,
) -> Result<(), NoMemory>
    ensures { OnOk result (rows.new ≡ at_number sid (write_drop place message.value) rows.old) }
{
    match place_of(sid, rows.len()) {
        Some(index) => drop_on(&mut rows[index], alloc, place, message),
        None => Ok(()),
    }
}

fn message_in(
    rows: &mut [SubRow],
    alloc: Global,
    place: u64,
    sid: u64,
    message: Box<Message>,
) -> Result<(), NoMemory>
    ensures { OnOk result (rows.new ≡ at_number sid (write_take place (takes.Message message.value)) rows.old) }
{
    match place_of(sid, rows.len()) {
        Some(index) => message_on(&mut rows[index], alloc, place, message),
        None => Ok(()),
    }
}

fn take_in(
    rows: &mut [SubRow],
    alloc: Global,
    place: u64,
    sid: u64,
    reply: TakeReply,
) -> Result<(), NoMemory>
    ensures { OnOk result (rows.new ≡ at_number sid (write_take place reply) rows.old) }
{
    match place_of(sid, rows.len()) {
        Some(index) => take_on(&mut rows[index], alloc, place, reply),
        None => Ok(()),
    }
}

fn settle_one(row: &mut Option<(u64, CallReply)>, place: u64, reply: CallReply)
    ensures { row.new ≡ settle_once (place, reply) row.old }
{
    if row.is_none() {
        *row = Some((place, reply));
    }
}

fn settle_in(rows: &mut [Option<(u64, CallReply)>], place: u64, ticket: u64, reply: CallReply)
    ensures { rows.new ≡ at_number ticket (settle_once (place, reply)) rows.old }
{
    match place_of(ticket, rows.len()) {
        Some(index) => settle_one(&mut rows[index], place, reply),
        None => {}
    }
}
