//! What a session tells of itself.
ghost use Rattle.std.specs.Prelude.{◌≡◌, ◌==◌, ◌||◌, length, take, drop, min, is_some, not, IfOk};
ghost use Rattle.std.specs.Option.{option_copied};
ghost use Rattle.nats_history.specs.Queue.{first};
ghost use Rattle.nats_tables.specs.Numbers.{item_of};
ghost use Rattle.nats_history.specs.declared.turn.Turn.TheVariants as turns;
ghost use Rattle.nats_history.specs.History.{names};
ghost use Rattle.nats_tickets.specs.Kept.{reply_in, without};
ghost use Rattle.nats_history.specs.Schedule.{due, refusal, has_no_number, may_name, is_full, is_valid_turn, own_steps};
ghost use Rattle.nats_subs.specs.Delivery.{youngest, first_of};
ghost use Rattle.nats_session.specs.Handler.{can_play, HandsOut, HandsReply, end_in, state_of};

use super::{ConnectionHandler, TICK_LIMIT};
use nats_history::refusals::{has_group, has_subjects, names, size_of, subscribes, takes_ticket};
use nats_history::{
    Call, CallReply, Config, Event, LinkWord, Message, NoMemory, ServerInfo, Statistics, Turn,
};
use nats_names::State;
use std::alloc::Global;

impl ConnectionHandler {
    /// The number of the newest link, from 1; 0 before any. Our own count: the crate numbers no links.
    pub fn link(&self) -> u64
        ensures { result ≡ self.now.parts.link.number }
    {
        self.link
    }

    /// Whether a step is due, which `advance` plays: an operation or a fault is at the front of the unread bytes,
    /// or a call waits while fewer bytes than the soft limit of the write buffer do. It takes no memory. Our own
    /// name for what the crate's loop does next.
    pub fn is_due(&self) -> bool
        ensures { result ≡ is_some (due self.now.parts) }
    {
        if !self.is_up {
            return false;
        }
        if !self.exchange.connection.is_unfinished() {
            return true;
        }
        !self.exchange.connection.is_write_buf_full() && !self.calls.is_empty()
    }

    /// Whether a turn may be played: it may come here, and no step is due. It is the condition of the call of that
    /// turn; a `Do` may come where the subscription that it names, if it does, was given and not let go, a
    /// `Deadline` where its ticket was given to a request. It takes no memory.
    pub fn check(&self, turn: &Turn) -> bool
        ensures { result ≡ can_play self.now.parts turn.now }
    {
        self.is_valid(turn) && !self.is_due()
    }

    /// Whether a turn may come where the session stands.
    pub(crate) fn is_valid(&self, turn: &Turn) -> bool
        ensures { result ≡ is_valid_turn self.now.parts turn.now }
    {
        match turn {
            Turn::Piece(_) | Turn::Write(_) | Turn::Tick | Turn::Lost => self.is_up,
            Turn::Up(_) | Turn::GiveUp => !self.is_up && !self.is_closed,
            Turn::Hangup => !self.is_closed,
            Turn::Do(call) => self.may_name(call),
            Turn::Take(sid) => self.exchange.subs.has(*sid),
            Turn::Deadline(ticket) => self.exchange.tickets.is_request(*ticket),
        }
    }

    fn may_name(&self, call: &Call) -> bool
        ensures { result ≡ may_name self.now.parts (names call.now) }
    {
        match names(call) {
            Some(sid) => self.exchange.subs.has(sid),
            None => true,
        }
    }

    /// Whether a call would be given a number or a ticket and none is left.
    fn has_no_number(&self, call: &Call) -> bool
        ensures { result ≡ has_no_number self.now.parts call.now }
    {
        (subscribes(call) && self.exchange.subs.given() == u64::MAX)
            || (takes_ticket(call) && self.exchange.tickets.given() == u64::MAX)
    }

    /// The reply by which a call is refused, if it is.
    pub(crate) fn refusal(&self, call: &Call) -> Option<CallReply>
        ensures { result ≡ refusal self.now.parts call.now }
    {
        if !has_subjects(&self.config, call) {
            return Some(CallReply::InvalidSubject);
        }
        if !has_group(call) {
            return Some(CallReply::InvalidQueueName);
        }
        let limit = self.max_payload;
        let size = size_of(call);
        if size > limit {
            return Some(CallReply::MaxPayloadExceeded { limit, size });
        }
        if self.is_closed || self.drain_accepted {
            return Some(CallReply::Closed);
        }
        if self.has_no_number(call) {
            return Some(CallReply::NoNumber);
        }
        let is_full = self.calls.len() as u64 >= self.config.client_capacity;
        is_full.then_some(CallReply::Full)
    }

    /// Whether a link is up: it came up and has not ended.
    pub fn is_up(&self) -> bool
        ensures { result ≡ self.now.parts.link.is_up }
    {
        self.is_up
    }

    /// How the session stands: `Pending` before its first link, `Connected` while a link is up, else
    /// `Disconnected`. The crate's `connection_state`.
    pub fn state(&self) -> State
        ensures { result ≡ state_of self.now.parts }
    {
        if self.is_up {
            State::Connected
        } else if self.link == 0 {
            State::Pending
        } else {
            State::Disconnected
        }
    }

    /// Whether there is room for a call: fewer accepted ones wait than the client capacity. Own call.
    pub fn has_room(&self) -> bool
        ensures { result ≡ not (is_full self.now.parts) }
    {
        let is_full = self.calls.len() as u64 >= self.config.client_capacity;
        !is_full
    }

    /// The limit of a payload's size with its header block, in bytes: that of the INFO by which the newest link came
    /// up, or of the last one read since that tells a limit, one that isn't 0; 1,048,576 before any link.
    pub fn max_payload(&self) -> u64
        ensures { result ≡ self.now.parts.link.max_payload }
    {
        self.max_payload
    }

    /// What a server said of itself last, as a link came up or since; `None` before any link.
    pub fn server_info(&self) -> Option<&ServerInfo>
        ensures { option_copied result ≡ self.now.parts.link.info }
    {
        match &self.info {
            Some(info) => Some(info),
            None => None,
        }
    }

    /// How many INFOs were read over all links, those by which links came up left out; the count stops at 2^64 - 1. A
    /// number other than an earlier one says that `server_info` is a newer one. Own call.
    pub fn infos(&self) -> u64
        ensures { result ≡ self.now.parts.link.infos }
    {
        self.infos
    }

    /// How many operations were read over all links; the count stops at 2^64 - 1. Own call.
    pub fn reads(&self) -> u64
        ensures { result ≡ self.now.parts.link.reads }
    {
        self.reads
    }

    /// What was counted over all links, each count up to 2^64 - 1: the messages that were read and their lengths,
    /// whatever became of them; those of publishes and requests that were handled, with the bytes of subject,
    /// reply, header block and payload; the links that came up. It takes no memory. The crate's
    /// `Client::statistics`; the crate counts the bytes of the link.
    pub fn statistics(&self) -> Statistics
        ensures { result ≡ self.now.parts.statistics }
    {
        self.statistics
    }

    /// Whether the session closed.
    pub fn is_closed(&self) -> bool
        ensures { result ≡ self.now.parts.is_closed }
    {
        self.is_closed
    }

    /// The word by which a link that is up ends as the user hangs up; `None` where no link is up.
    pub(crate) fn hangup_word(&self) -> Option<LinkWord>
        ensures { result ≡ end_in (own_steps self.now.parts turns.Hangup) }
    {
        if self.is_up {
            return Some(LinkWord::Hangup);
        }
        None
    }

    /// The word by which the link ends at a tick, if it does.
    pub(crate) fn tick_word(&self) -> Option<LinkWord>
        ensures { result ≡ end_in (own_steps self.now.parts turns.Tick) }
    {
        if self.exchange.pings.ticks() >= TICK_LIMIT {
            return Some(LinkWord::Ticks);
        }
        None
    }

    /// How many bytes wait to be taken by the link; 0 while no link is up.
    pub fn pending(&self) -> u64
        ensures { result ≡ length self.now.parts.link.wire.waiting }
    {
        self.exchange.connection.pending() as u64
    }

    /// A copy of the first `n` bytes that wait to be taken, or of all where fewer wait.
    pub(crate) fn copy_waiting(&self, alloc: Global, n: u64) -> Result<Vec<u8>, NoMemory>
        ensures { IfOk result (λ copy. copy.items
            ≡ take (min n (length self.now.parts.link.wire.waiting)) self.now.parts.link.wire.waiting) }
    {
        let count = (n as usize).min(self.exchange.connection.pending());
        self.exchange.connection.copy_waiting(alloc, count)
    }

    /// A copy of all bytes that wait to be taken.
    pub(crate) fn copy_left(&self, alloc: Global) -> Result<Vec<u8>, NoMemory>
        ensures { IfOk result (λ copy. copy.items ≡ self.now.parts.link.wire.waiting) }
    {
        self.exchange
            .connection
            .copy_waiting(alloc, self.exchange.connection.pending())
    }

    /// The youngest waiting message of the subscription of number `s`, from 1; `None` where none waits, or the
    /// number was not given or was let go. After `Due::Put(s)` it is the message that was put.
    pub fn last_put(&self, s: u64) -> Option<&Message>
        ensures { option_copied result ≡ youngest (item_of s self.now.parts.subs.rows) }
    {
        self.exchange.subs.last(s)
    }

    /// The oldest waiting message of the subscription of number `s`, from 1, which is the one that `take` takes;
    /// `None` exactly where none waits. Own call.
    pub fn first_waiting(&self, s: u64) -> Option<&Message>
        ensures { option_copied result ≡ first_of (item_of s self.now.parts.subs.rows) }
    {
        self.exchange.subs.first(s)
    }

    /// The settings that the session was made with. Own call.
    pub fn config(&self) -> &Config
        ensures { result.now ≡ self.now.parts.config }
    {
        &self.config
    }

    /// Whether an event or a settled ticket waits to be handed out.
    pub(crate) fn has_news(&self) -> bool
        ensures { result ≡ (not (length self.now.events == 0) || not (length self.now.ready == 0)) }
    {
        !self.events.is_empty() || self.exchange.tickets.has_next()
    }

    fn take_event(&mut self) -> Option<Event>
        ensures event { result ≡ first self.old.events }
        ensures rest { self.new ≡ record self.old { events = drop 1 self.old.events } }
    {
        self.events.pop()
    }

    /// Hands out the oldest event that was not handed out yet, if there is one. It takes no memory. The crate's event
    /// callback.
    pub fn next_event(&mut self) -> Option<Event>
        ensures event { result ≡ first self.old.events }
        ensures rest { self.new ≡ record self.old { events = drop 1 self.old.events } }
        ensures stands { HandsOut self.old result self.new }
    {
        self.take_event()
    }

    /// Hands out the ticket that settled first of those that were not handed out, with its reply.
    pub(crate) fn next_settled(&mut self) -> Option<(u64, CallReply)>
        ensures ticket { result ≡ first self.old.ready }
        ensures rest { self.new ≡ record self.old { ready = drop 1 self.old.ready } }
    {
        self.exchange.tickets.next()
    }

    fn take_reply_of(&mut self, t: u64) -> Option<CallReply>
        ensures reply { result ≡ reply_in t self.old.ready }
        ensures rest { self.new ≡ record self.old { ready = without t self.old.ready } }
    {
        self.exchange.tickets.reply_of(t)
    }

    /// Hands out the reply by which ticket `t` settled. `None` exactly where it did not settle or its reply was
    /// handed out, as `laws::reply_once` says. It takes no memory, and looks through the settled tickets that were
    /// not handed out. Own call: the crate has a channel for each.
    pub fn reply_of(&mut self, t: u64) -> Option<CallReply>
        ensures reply { result ≡ reply_in t self.old.ready }
        ensures rest { self.new ≡ record self.old { ready = without t self.old.ready } }
        ensures stands { HandsReply t self.old result self.new }
    {
        self.take_reply_of(t)
    }
}
