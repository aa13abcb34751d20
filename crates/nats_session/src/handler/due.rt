//! Due steps.
ghost use Rattle.std.specs.Prelude.{◌≡◌, ◌≤◌, length, Some, OnOk, OnErr, IfOk, IsTrue, true, is_some};
ghost use Rattle.nats_lines.specs.Operations.{pong_op, front, unfinished, got, peeked_view};
ghost use Rattle.nats_history.specs.declared.turn.Due.TheVariants as due_names;
ghost use Rattle.nats_history.specs.Queue.{first};
ghost use Rattle.nats_history.specs.declared.transcript.LinkWord.TheVariants as word;
ghost use Rattle.nats_history.specs.History.{link_end, read, handled};
ghost use Rattle.nats_history.specs.Schedule.{due, due_chain, chain, read_end, pong_end};
ghost use Rattle.nats_session.specs.Handler.{Advances, is_at_rest, Sees, counted, read_past, message_past, command_end, seen_handled, is_nothing, handled_first, seen_all, name_of, coming, delivery_of, delivery_name, played_name, unwanted_seen, after_message, arrived_seen, come_seen, pong_read, end_in};

use super::ConnectionHandler;
use super::drains::{forget_draining, note_draining, write_unsubscribe};
use super::ends::note_end;
use super::played::Played;
use nats_history::refusals::{drains_all, ends_link, is_requested_with};
use nats_history::statistics::{with_call, with_message};
use nats_history::{Event, LinkWord, Message, NoMemory, Ping};
use nats_subs::{Alteration, Delivery};
use nats_wire::{ClientOp, Peeked, PeekedOp, WireError};
use std::alloc::Global;

/// The number under which replies to requests come. The crate's.
const INBOX: u64 = 0;

/// Which step is due.
#[derive(Drop)]
pub enum Look {
    /// None.
    Nothing,
    /// This operation is to be read; where it is a message for a subscription, this becomes of it.
    Read(Peeked, Delivery),
    /// The bytes at the front are no operation, so the link is to end.
    Fault,
    /// The oldest waiting call is to be handled.
    Command,
}

impl Look {
    /// Whether no step is due.
    pub fn is_nothing(&self) -> bool
        ensures { result ≡ is_nothing self.now }
    {
        matches!(self, Look::Nothing)
    }
}

impl ConnectionHandler {
    /// Whether no link is up, or no byte is unread and no call waits: no step is due then, which takes no look at what
    /// is unread to tell. A session that is not at rest may still have no step due. It takes no memory. Own call.
    #[inline]
    pub fn is_at_rest(&self) -> bool
        ensures { result ≡ is_at_rest self.now.parts }
    {
        !self.is_up || (self.exchange.connection.unread() == 0 && self.calls.is_empty())
    }

    /// Tells which step is due. Reading comes first, then the calls that wait.
    pub(crate) fn look(&self, alloc: Global) -> Result<Look, NoMemory>
        ensures sees { IfOk result (λ look. Sees self.now.parts look) }
        ensures wants { OnErr result (IsTrue (is_some (due self.now.parts))) }
    {
        if !self.is_up {
            return Ok(Look::Nothing);
        }
        if self.exchange.connection.unread() == 0 {
            return Ok(self.look_at_calls());
        }
        match self.exchange.connection.peek_op(alloc) {
            Ok(Some(peeked)) => {
                let delivery = self.coming(&peeked.op);
                Ok(Look::Read(peeked, delivery))
            }
            Ok(None) => Ok(self.look_at_calls()),
            Err(WireError::ReadFault) => Ok(Look::Fault),
            Err(WireError::NoMemory) => Err(NoMemory),
        }
    }

    /// What becomes of an operation that is a message for a subscription.
    fn coming(&self, op: &PeekedOp) -> Delivery
        ensures { result ≡ coming self.now.parts (peeked_view op.now) }
    {
        match op {
            PeekedOp::Message { sid, .. } => self.delivery(*sid),
            PeekedOp::Ok
            | PeekedOp::Info(_)
            | PeekedOp::Ping
            | PeekedOp::Pong
            | PeekedOp::Error(_) => Delivery::Ignored,
        }
    }

    fn look_at_calls(&self) -> Look
        requires up { IsTrue self.now.parts.link.is_up }
        requires nothing_to_read { front self.now.parts.link.wire.unread ≡ unfinished }
        ensures { Sees self.now.parts result }
    {
        if self.exchange.connection.is_write_buf_full() || self.calls.is_empty() {
            return Look::Nothing;
        }
        Look::Command
    }

    /// The word by which the link ends at the step that is due or at what follows it at once, if it does.
    pub(crate) fn end_by(&self, look: &Look) -> Option<LinkWord>
        requires { Sees self.now.parts look.now }
        ensures { result ≡ end_in (due_chain self.now.parts (due self.now.parts)) }
    {
        match look {
            Look::Fault => Some(LinkWord::Fault),
            Look::Command => self.command_end(),
            Look::Read(peeked, _) => self.read_end(&peeked.op),
            Look::Nothing => None,
        }
    }

    /// The word by which the link ends as an operation is read, if it does.
    fn read_end(&self, op: &PeekedOp) -> Option<LinkWord>
        ensures { result ≡ read_end self.now.parts.link.pings (peeked_view op.now) }
    {
        match op {
            PeekedOp::Pong => self.pong_end(),
            PeekedOp::Message { .. }
            | PeekedOp::Ok
            | PeekedOp::Info(_)
            | PeekedOp::Ping
            | PeekedOp::Error(_) => None,
        }
    }

    /// The word by which the link ends as a PONG comes, if it does.
    fn pong_end(&self) -> Option<LinkWord>
        ensures { result ≡ pong_end (first self.now.parts.link.pings) }
    {
        match self.exchange.pings.front() {
            Some(Ping::DrainAll) => Some(LinkWord::Drained),
            Some(Ping::Tick | Ping::Drain(_)) | None => None,
        }
    }

    /// The word by which the link ends as the oldest waiting call is handled, if it does.
    fn command_end(&self) -> Option<LinkWord>
        ensures { result ≡ command_end (first self.now.parts.calls) }
    {
        match self.calls.front() {
            Some(call) => ends_link(call),
            None => None,
        }
    }

    /// Plays the step that `look` told of, with what follows it at once, and names it.
    pub(crate) fn advance_by(&mut self, alloc: Global, look: Look) -> Result<Played, NoMemory>
        requires { Sees self.old.parts look }
        ensures ok { IfOk result (λ name. Advances (due self.old.parts) self.old (played_name name) self.new) }
        ensures err { OnErr result (self.new ≡ self.old) }
        ensures wants { OnErr result (IsTrue (is_some (due self.old.parts))) }
    {
        match look {
            Look::Nothing => Ok(Played::Nothing),
            Look::Read(peeked, delivery) => self.handle_server_op(alloc, peeked, delivery),
            Look::Fault => self.end_faulty(alloc),
            Look::Command => self.handle_command(alloc),
        }
    }

    /// Ends the link by a fault.
    fn end_faulty(&mut self, alloc: Global) -> Result<Played, NoMemory>
        ensures ok { OnOk result (self.new ≡ seen_all self.old (chain self.old.parts (link_end word.Fault))) }
        ensures name { IfOk result (λ name. played_name name ≡ due_names.Ended) }
        ensures err { OnErr result (self.new ≡ self.old) }
    {
        self.end_with(alloc, LinkWord::Fault)?;
        Ok(Played::Ended)
    }

    fn handle_server_op(
        &mut self,
        alloc: Global,
        peeked: Peeked,
        delivery: Delivery,
    ) -> Result<Played, NoMemory>
        requires fits { peeked.len ≤ length self.old.parts.link.wire.unread }
        requires up { IsTrue self.old.parts.link.is_up }
        requires front { front self.old.parts.link.wire.unread ≡ got (peeked_view peeked.op) peeked.len }
        requires coming { delivery ≡ coming self.old.parts (peeked_view peeked.op) }
        ensures ok { OnOk result
            (self.new ≡ seen_all self.old (chain self.old.parts (read (peeked_view peeked.op)))) }
        ensures name { IfOk result (λ name. played_name name ≡ name_of self.old.parts (read (peeked_view peeked.op))) }
        ensures err { OnErr result (self.new ≡ self.old) }
    {
        let Peeked { op, len } = peeked;
        match op {
            PeekedOp::Message { sid, message } => {
                let message_len = message.length;
                let name = self.read_message(alloc, sid, delivery, message);
                if name.is_ok() {
                    self.message_past(len, message_len);
                }
                name
            }
            PeekedOp::Ping => {
                self.exchange
                    .connection
                    .enqueue_write_op(alloc, &ClientOp::Pong)?;
                self.read_past(len);
                Ok(Played::Read)
            }
            PeekedOp::Error(error) => {
                self.events.push(Event::ServerError(error))?;
                self.read_past(len);
                Ok(Played::Read)
            }
            PeekedOp::Info(info) => self.read_info(info, len),
            PeekedOp::Pong => self.read_pong(alloc, len),
            PeekedOp::Ok => {
                self.read_past(len);
                Ok(Played::Read)
            }
        }
    }

    /// A PONG answers the oldest PING of the link that none answered.
    fn read_pong(&mut self, alloc: Global, len: usize) -> Result<Played, NoMemory>
        requires fits { len ≤ length self.old.parts.link.wire.unread }
        requires up { IsTrue self.old.parts.link.is_up }
        requires front { front self.old.parts.link.wire.unread ≡ got pong_op len }
        ensures ok { OnOk result (self.new ≡ seen_all self.old (chain self.old.parts (read pong_op))) }
        ensures name { IfOk result (λ name. played_name name ≡ name_of self.old.parts (read pong_op)) }
        ensures err { OnErr result (self.new ≡ self.old) }
    {
        match self.pong_end() {
            Some(end) => self.end_drained(alloc, end),
            None => {
                self.answer_ping();
                self.read_past(len);
                Ok(Played::Read)
            }
        }
    }

    /// The oldest PING is answered; where it is of a drain, its subscription ends.
    fn answer_ping(&mut self)
        ensures { self.new ≡ pong_read self.old }
    {
        if let Some(Ping::Drain(sid)) = self.exchange.pings.front() {
            self.exchange.subs.alter(sid, Alteration::End);
        }
        self.exchange.pings.discard();
    }

    /// The session was drained: the link ends.
    fn end_drained(&mut self, alloc: Global, end: LinkWord) -> Result<Played, NoMemory>
        requires { pong_end (first self.old.parts.link.pings) ≡ Some end }
        ensures ok { OnOk result (self.new ≡ seen_all self.old (chain self.old.parts (read pong_op))) }
        ensures name { IfOk result (λ name. played_name name ≡ name_of self.old.parts (read pong_op)) }
        ensures err { OnErr result (self.new ≡ self.old) }
    {
        self.end_with(alloc, end)?;
        self.count_read();
        Ok(Played::Ended)
    }

    fn count_read(&mut self)
        ensures { self.new ≡ counted self.old }
    {
        self.reads = self.reads.saturating_add(1);
    }

    /// One more operation was read, which took so many bytes.
    pub(super) fn read_past(&mut self, len: usize)
        requires { len ≤ length self.old.parts.link.wire.unread }
        ensures { self.new ≡ read_past len self.old }
    {
        self.count_read();
        self.exchange.connection.consume(len);
        self.exchange.connection.look();
    }

    /// One more message was read, of such a length; it took so many bytes.
    fn message_past(&mut self, len: usize, message_len: usize)
        requires { len ≤ length self.old.parts.link.wire.unread }
        ensures { self.new ≡ message_past len message_len self.old }
    {
        self.statistics = with_message(self.statistics, message_len);
        self.read_past(len);
    }

    /// Brings a message to the request that waits for it, or to its subscription.
    fn read_message(
        &mut self,
        alloc: Global,
        sid: u64,
        delivery: Delivery,
        message: Box<Message>,
    ) -> Result<Played, NoMemory>
        requires { delivery ≡ delivery_of self.old.parts sid }
        ensures ok { OnOk result (self.new ≡ come_seen sid message.value self.old) }
        ensures name { IfOk result
            (λ name. played_name name ≡ delivery_name sid message.value (delivery_of self.old.parts sid)) }
        ensures err { OnErr result (self.new ≡ self.old) }
    {
        if sid == INBOX {
            self.arrive(message);
            return Ok(Played::Read);
        }
        self.bring_message(alloc, sid, delivery, message)
    }

    fn arrive(&mut self, message: Box<Message>)
        ensures { self.new ≡ arrived_seen message.value self.old }
    {
        self.exchange.tickets.arrive(Box::into_inner(message));
    }

    /// Brings a message to its subscription.
    fn bring_message(
        &mut self,
        alloc: Global,
        sid: u64,
        delivery: Delivery,
        message: Box<Message>,
    ) -> Result<Played, NoMemory>
        requires { delivery ≡ delivery_of self.old.parts sid }
        ensures ok { OnOk result
            (self.new ≡ after_message sid message.value (delivery_of self.old.parts sid) self.old) }
        ensures name { IfOk result
            (λ name. played_name name ≡ delivery_name sid message.value (delivery_of self.old.parts sid)) }
        ensures err { OnErr result (self.new ≡ self.old) }
    {
        match delivery {
            Delivery::Put => {
                self.exchange.subs.deliver(&self.config, sid, message)?;
                Ok(Played::Put(sid))
            }
            Delivery::Dropped => {
                self.events.push(Event::SlowConsumer(sid))?;
                Ok(Played::Dropped(sid, message))
            }
            Delivery::Unwanted => {
                self.end_unwanted(alloc, sid)?;
                Ok(Played::Read)
            }
            Delivery::Ignored => {
                self.exchange.subs.deliver(&self.config, sid, message)?;
                Ok(Played::Read)
            }
        }
    }

    /// Ends a subscription that wants no more, and tells the server.
    fn end_unwanted(&mut self, alloc: Global, sid: u64) -> Result<(), NoMemory>
        ensures ok { OnOk result (self.new ≡ unwanted_seen sid self.old) }
        ensures err { OnErr result (self.new ≡ self.old) }
    {
        write_unsubscribe(&mut self.exchange.connection, alloc, true, sid, None)?;
        self.exchange.subs.alter(sid, Alteration::End);
        Ok(())
    }

    /// What becomes of a message that comes for the subscription of a number.
    fn delivery(&self, sid: u64) -> Delivery
        ensures { result ≡ delivery_of self.now.parts sid }
    {
        self.exchange.subs.delivery(&self.config, sid)
    }

    fn handle_command(&mut self, alloc: Global) -> Result<Played, NoMemory>
        requires up { IsTrue self.old.parts.link.is_up }
        requires some { IsTrue (is_some (first self.old.parts.calls)) }
        ensures ok { IfOk result
            (λ name. Advances (handled_first self.old.parts) self.old (played_name name) self.new) }
        ensures err { OnErr result (self.new ≡ self.old) }
    {
        match self.command_end() {
            Some(end) => self.handle_last(alloc, end),
            None => {
                self.handle_next(alloc)?;
                Ok(Played::Handled)
            }
        }
    }

    /// Handles a call by which the link ends.
    fn handle_last(&mut self, alloc: Global, end: LinkWord) -> Result<Played, NoMemory>
        requires { command_end (first self.old.parts.calls) ≡ Some end }
        ensures ok { IfOk result
            (λ name. Advances (handled_first self.old.parts) self.old (played_name name) self.new) }
        ensures err { OnErr result (self.new ≡ self.old) }
    {
        let closes = self.closes(end);
        note_end(&mut self.events, end, closes)?;
        self.calls.discard();
        self.leave(alloc, closes);
        Ok(Played::Ended)
    }

    fn handle_next(&mut self, alloc: Global) -> Result<(), NoMemory>
        requires { IsTrue self.old.parts.link.is_up }
        ensures ok { OnOk result (self.new ≡ seen_handled (first self.old.parts.calls) self.old) }
        ensures err { OnErr result (self.new ≡ self.old) }
    {
        let Some(call) = self.calls.front() else {
            return Ok(());
        };
        let is_whole = drains_all(call);
        let requested = is_requested_with(call, self.requested);
        let statistics = with_call(self.statistics, &self.config, call);
        note_draining(&mut self.events, is_whole)?;
        let handled = self
            .exchange
            .handle(alloc, &self.config, self.requested, call);
        match handled {
            Ok(()) => {
                self.drain_handled = is_whole || self.drain_handled;
                self.requested = requested;
                self.statistics = statistics;
                self.calls.discard();
                Ok(())
            }
            Err(NoMemory) => {
                forget_draining(&mut self.events, is_whole);
                Err(NoMemory)
            }
        }
    }
}
