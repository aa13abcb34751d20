//! The calls that play a session, turn by turn and step by step.
ghost use Rattle.std.specs.Prelude.{◌≡◌, ◌<◌, [], ◌∷◌, ◌++◌, OnOk, OnErr, IfOk, IsTrue, min, length, is_some, Some, None};
ghost use Rattle.nats_names.specs.declared.event.Event.TheVariants.{Connected};
ghost use Rattle.nats_outbuf.specs.Buffers.{IsFront};
ghost use Rattle.nats_history.specs.declared.turn.Turn.TheVariants as turns;
ghost use Rattle.nats_history.specs.History.{opened, fed, ticked, taken, took, all_again, waits_as, inbox_commands};
ghost use Rattle.nats_history.specs.After.{after, write_all};
ghost use Rattle.nats_history.specs.Schedule.{refusal, own_steps, due, due_chain, take_reply};
ghost use Rattle.nats_session.specs.Handler.{LeadTo, TakesIn, Submits, Advances, can_play, seen_after, seen_all, with_buffers};

use super::requests::push_inbox;
use super::{ConnectionHandler, TICK_LIMIT};
use nats_history::refusals::{interest_of, is_drained_with, lets_go, shuts, waits_as};
use nats_history::statistics::with_link;
use nats_history::{
    Bytes, Call, CallReply, Config, Due, Event, LinkWord, NoMemory, Ping, ServerInfo, TakeReply,
    Waits,
};
use nats_subs::{Alteration, Subscriptions, Taken};
use nats_wire::{ClientOp, Connection, PIECES_MOST};
use std::alloc::Global;

/// A new link's buffers, where the texts wait that subscribe again, those of the inbox where a request was handled.
fn subscribed_again(
    alloc: Global,
    config: &Config,
    requested: bool,
    subs: &Subscriptions,
) -> Result<Connection, NoMemory>
    ensures { IfOk result (λ connection. connection.wire ≡ record {
      unread = [];
      waiting = write_all (all_again 1 subs.now.rows ++ inbox_commands config.now requested) [];
    }) }
{
    let mut ops = subs.again(alloc)?;
    push_inbox(&mut ops, alloc, config, requested)?;
    let mut connection = Connection::new(alloc);
    connection.enqueue_write_ops(alloc, ops.as_slice())?;
    Ok(connection)
}

impl ConnectionHandler {
    /// What wants memory as a link comes up: its buffers, and its event.
    fn new_link(&mut self, alloc: Global) -> Result<Connection, NoMemory>
        ensures buffers { IfOk result
            (λ connection. connection.wire ≡ record {
              unread = [];
              waiting = write_all
                  (all_again 1 self.old.parts.subs.rows
                  ++ inbox_commands self.old.parts.config self.old.parts.requested) [];
            }) }
        ensures ok { OnOk result (self.new ≡ record self.old { events = self.old.events ++ Connected ∷ [] }) }
        ensures err { OnErr result (self.new ≡ self.old) }
    {
        let connection = subscribed_again(
            alloc,
            &self.config,
            self.requested,
            &self.exchange.subs,
        )?;
        self.events.push(Event::Connected)?;
        Ok(connection)
    }

    /// The link is up, with these buffers.
    fn use_link(&mut self, info: Box<ServerInfo>, connection: Connection)
        ensures { self.new
            ≡ with_buffers connection.wire (record self.old { parts = after self.old.parts (opened info.value) }) }
    {
        self.link = self.link.saturating_add(1);
        self.statistics = with_link(self.statistics);
        self.is_up = true;
        self.max_payload = info.max_payload;
        self.info = Some(info);
        self.exchange.pings.clear();
        self.exchange.connection = connection;
        self.exchange.tickets.renew();
        self.exchange.subs.renew();
    }

    fn open_link(&mut self, alloc: Global, info: ServerInfo) -> Result<(), NoMemory>
        ensures ok { OnOk result (self.new ≡ seen_after self.old (opened info)) }
        ensures err { OnErr result (self.new ≡ self.old) }
    {
        let info = Box::new(alloc, info)?;
        let connection = self.new_link(alloc)?;
        self.use_link(info, connection);
        Ok(())
    }

    /// A link came up, and its server said `info`. Each subscription that is open and not shut is subscribed again,
    /// by number, with what is left of its limit; one that is shut ends. The replies to requests are asked for
    /// again where a request was handled. Its condition is `check` of that turn: no link is up, and the session did
    /// not close. The crate's connector answers so.
    ///
    /// # Errors
    ///
    /// `NoMemory` leaves the session unchanged, and the same call may be made again.
    pub fn up(&mut self, alloc: Global, info: ServerInfo) -> Result<(), NoMemory>
        requires { IsTrue (can_play self.old.parts (turns.Up info)) }
        ensures ok { OnOk result (self.new ≡ seen_after self.old (opened info)) }
        ensures stands { OnOk result (LeadTo self.old (own_steps self.old.parts (turns.Up info)) self.new) }
        ensures err { OnErr result (self.new ≡ self.old) }
    {
        self.open_link(alloc, info)
    }

    fn feed(&mut self, alloc: Global, bytes: &[u8]) -> Result<(), NoMemory>
        requires { IsTrue self.old.parts.link.is_up }
        ensures ok { OnOk result (self.new ≡ seen_after self.old (fed bytes.now)) }
        ensures err { OnErr result (self.new ≡ self.old) }
    {
        self.exchange.connection.feed(alloc, bytes)?;
        self.exchange.connection.look();
        Ok(())
    }

    fn feed_shared(&mut self, alloc: Global, bytes: &Bytes) -> Result<(), NoMemory>
        requires { IsTrue self.old.parts.link.is_up }
        ensures ok { OnOk result (self.new ≡ seen_after self.old (fed bytes.now)) }
        ensures err { OnErr result (self.new ≡ self.old) }
    {
        self.exchange.connection.feed_shared(alloc, bytes)?;
        self.exchange.connection.look();
        Ok(())
    }

    /// The link gave these bytes. Its condition is `check` of that turn; `advance` then reads what they complete.
    ///
    /// # Errors
    ///
    /// `NoMemory` leaves the session unchanged, and the same call may be made again.
    pub fn piece(&mut self, alloc: Global, bytes: &[u8]) -> Result<(), NoMemory>
        requires { IsTrue (can_play self.old.parts (turns.Piece bytes.now)) }
        ensures ok { OnOk result (self.new ≡ seen_after self.old (fed bytes.now)) }
        ensures stands { OnOk result (LeadTo self.old (own_steps self.old.parts (turns.Piece bytes.now)) self.new) }
        ensures err { OnErr result (self.new ≡ self.old) }
    {
        self.feed(alloc, bytes)
    }

    /// The link gave these bytes, in a buffer that may be shared: `piece` for whoever has one, since messages then
    /// share it and nothing is copied where no byte waits to be read. Its condition is `check` of that turn. Own
    /// call.
    ///
    /// # Errors
    ///
    /// `NoMemory` leaves the session unchanged, and the same call may be made again.
    pub fn shared_piece(&mut self, alloc: Global, bytes: &Bytes) -> Result<(), NoMemory>
        requires { IsTrue (can_play self.old.parts (turns.Piece bytes.now)) }
        ensures ok { OnOk result (self.new ≡ seen_after self.old (fed bytes.now)) }
        ensures stands { OnOk result (LeadTo self.old (own_steps self.old.parts (turns.Piece bytes.now)) self.new) }
        ensures err { OnErr result (self.new ≡ self.old) }
    {
        self.feed_shared(alloc, bytes)
    }

    fn let_go(&mut self, n: u64)
        ensures { self.new ≡ seen_after self.old (taken (min n (length self.old.parts.link.wire.waiting))) }
    {
        let count = (n as usize).min(self.exchange.connection.pending());
        self.exchange.connection.written(count);
        self.exchange.tickets.pass(count as u64);
    }

    /// The link took the first `n` waiting bytes, or all where fewer wait; each flush that awaited no more of them
    /// settles. Its condition is `check` of that turn. It takes no memory.
    pub fn written(&mut self, n: u64)
        requires { IsTrue (can_play self.old.parts (turns.Write n)) }
        ensures seen { self.new ≡ seen_after self.old (taken (min n (length self.old.parts.link.wire.waiting))) }
        ensures stands { LeadTo self.old (own_steps self.old.parts (turns.Write n)) self.new }
    {
        self.let_go(n);
    }

    fn end_all(&mut self, alloc: Global) -> Result<(), NoMemory>
        ensures ok { OnOk result (self.new ≡ seen_all self.old (own_steps self.old.parts turns.Hangup)) }
        ensures err { OnErr result (self.new ≡ self.old) }
    {
        if self.is_up {
            self.end_with(alloc, LinkWord::Hangup)
        } else {
            self.close()
        }
    }

    fn write_ping(&mut self, alloc: Global) -> Result<(), NoMemory>
        requires { IsTrue self.old.parts.link.is_up }
        ensures ok { OnOk result (self.new ≡ seen_after self.old ticked) }
        ensures err { OnErr result (self.new ≡ self.old) }
    {
        self.exchange.pings.push(Ping::Tick)?;
        let write = self
            .exchange
            .connection
            .enqueue_write_op(alloc, &ClientOp::Ping);
        match write {
            Ok(()) => Ok(()),
            Err(NoMemory) => {
                self.exchange.pings.pop_back();
                Err(NoMemory)
            }
        }
    }

    fn ping_or_end(&mut self, alloc: Global) -> Result<(), NoMemory>
        requires { IsTrue self.old.parts.link.is_up }
        ensures ok { OnOk result (self.new ≡ seen_all self.old (own_steps self.old.parts turns.Tick)) }
        ensures err { OnErr result (self.new ≡ self.old) }
    {
        if self.exchange.pings.ticks() >= TICK_LIMIT {
            self.end_with(alloc, LinkWord::Ticks)
        } else {
            self.write_ping(alloc)
        }
    }

    /// So long passed that the link is to show that it still works: a `PING` is written, or the link ends where two
    /// ticks of this link have no answer yet; that end is like any other (see `lost`). Its condition is `check` of
    /// that turn. The crate's timer of pings does so.
    ///
    /// # Errors
    ///
    /// `NoMemory` leaves the session unchanged, and the same call may be made again.
    pub fn tick(&mut self, alloc: Global) -> Result<(), NoMemory>
        requires { IsTrue (can_play self.old.parts turns.Tick) }
        ensures ok { OnOk result (self.new ≡ seen_all self.old (own_steps self.old.parts turns.Tick)) }
        ensures stands { OnOk result (LeadTo self.old (own_steps self.old.parts turns.Tick) self.new) }
        ensures err { OnErr result (self.new ≡ self.old) }
    {
        self.ping_or_end(alloc)
    }

    /// The link was lost: it ends, the bytes that waited for it go, subscriptions whose drain was handled end, and
    /// accepted calls wait for the next one; where a drain of the session was handled, the session closes. Its
    /// condition is `check` of that turn. The crate's handler does so after a fault of its stream; what a drain
    /// comes to then is own choice.
    ///
    /// # Errors
    ///
    /// `NoMemory` leaves the session unchanged, and the same call may be made again.
    pub fn lost(&mut self, alloc: Global) -> Result<(), NoMemory>
        requires { IsTrue (can_play self.old.parts turns.Lost) }
        ensures ok { OnOk result (self.new ≡ seen_all self.old (own_steps self.old.parts turns.Lost)) }
        ensures stands { OnOk result (LeadTo self.old (own_steps self.old.parts turns.Lost) self.new) }
        ensures err { OnErr result (self.new ≡ self.old) }
    {
        self.end_with(alloc, LinkWord::Lost)
    }

    /// No further link is tried: the session closes, so its calls are dropped and each subscription ends. Its
    /// condition is `check` of that turn. The crate's handler does so when it may reconnect no more.
    ///
    /// # Errors
    ///
    /// `NoMemory` leaves the session unchanged, and the same call may be made again.
    pub fn give_up(&mut self, _alloc: Global) -> Result<(), NoMemory>
        requires { IsTrue (can_play self.old.parts turns.GiveUp) }
        ensures ok { OnOk result (self.new ≡ seen_all self.old (own_steps self.old.parts turns.GiveUp)) }
        ensures stands { OnOk result (LeadTo self.old (own_steps self.old.parts turns.GiveUp) self.new) }
        ensures err { OnErr result (self.new ≡ self.old) }
    {
        self.close()
    }

    /// The user hangs up: a link that is up ends without an event of its own, and the session closes. Its condition
    /// is `check` of that turn. Own choice: the crate closes its connection when the last of its clients is
    /// dropped.
    ///
    /// # Errors
    ///
    /// `NoMemory` leaves the session unchanged, and the same call may be made again.
    pub fn hang_up(&mut self, alloc: Global) -> Result<(), NoMemory>
        requires { IsTrue (can_play self.old.parts turns.Hangup) }
        ensures ok { OnOk result (self.new ≡ seen_all self.old (own_steps self.old.parts turns.Hangup)) }
        ensures stands { OnOk result (LeadTo self.old (own_steps self.old.parts turns.Hangup) self.new) }
        ensures err { OnErr result (self.new ≡ self.old) }
    {
        self.end_all(alloc)
    }

    /// Takes in a flush or a request: it is given a ticket, and with it all memory that settling it needs but for a
    /// flush's place in the link's text and a request's among those that wait for a reply.
    fn take_ticket(&mut self, call: Call, waits: Waits) -> Result<CallReply, Call>
        requires ticket { waits_as call ≡ Some waits }
        requires free { refusal self.old.parts call ≡ None }
        ensures { TakesIn self.old call result self.new }
    {
        if let Err(refused) = self.calls.push(call) {
            return Err(refused.value);
        }
        match self.exchange.tickets.give(waits) {
            Ok(()) => Ok(CallReply::Numbered(self.exchange.tickets.given())),
            Err(NoMemory) => match self.calls.pop_back() {
                Some(call) => Err(call),
                None => unreachable!(),
            },
        }
    }

    /// Takes in a call or refuses it, and lets no subscription go.
    fn take_in(&mut self, alloc: Global, call: Call) -> Result<CallReply, Call>
        ensures { TakesIn self.old call result self.new }
    {
        if let Some(refused) = self.refusal(&call) {
            return Ok(refused);
        }
        if let Some(waits) = waits_as(&call) {
            return self.take_ticket(call, waits);
        }
        let Ok(interest) = interest_of(alloc, &call) else {
            return Err(call);
        };
        let shut = shuts(&call);
        let drained = is_drained_with(&call, self.drain_accepted);
        if let Err(refused) = self.calls.push(call) {
            return Err(refused.value);
        }
        let Some(interest) = interest else {
            self.drain_accepted = drained;
            self.exchange.subs.alter_named(shut, Alteration::Shut);
            return Ok(CallReply::Accepted);
        };
        match self.exchange.subs.give(alloc, interest) {
            Ok(()) => Ok(CallReply::Numbered(self.exchange.subs.given())),
            Err(NoMemory) => match self.calls.pop_back() {
                Some(call) => Err(call),
                None => unreachable!(),
            },
        }
    }

    fn accept(&mut self, alloc: Global, call: Call) -> Result<CallReply, Call>
        ensures { Submits self.old call result self.new }
    {
        let gone = lets_go(&call);
        match self.take_in(alloc, call) {
            Ok(reply) => {
                self.exchange.subs.alter_named(gone, Alteration::LetGo);
                Ok(reply)
            }
            Err(call) => Err(call),
        }
    }

    /// Takes in a call, or refuses it by the first of these that holds. `InvalidSubject`: a publish or a request
    /// whose subject, or a reply that is there, is empty, or is not publishable and the settings don't skip that; a
    /// request, and the inbox prefix is not publishable, whatever the settings skip; a subscribe whose subject is
    /// not valid. `InvalidQueueName`: a group that is not publishable. `MaxPayloadExceeded`: the payload with its
    /// header block is larger than `max_payload`; a call that was accepted is sent, whatever limit a server tells
    /// later. `Closed`: the session closed, or a drain of the whole session was accepted. `NoNumber`: a subscribe,
    /// a flush or a request, and number or ticket 2^64 - 1 was given. `Full`: as many accepted calls wait as the
    /// client capacity. A refused call is dropped and changes nothing, but that a `DropSub` lets its subscription
    /// go whatever the reply. An accepted call is handled by `advance`, in the order of acceptance; an accepted
    /// `Unsubscribe` shuts its subscription at once, an accepted `DrainAll` the session to further calls. Its
    /// condition is `check` of that turn. The crate's tests of what is published and subscribed to, and its bounded
    /// channel of commands.
    ///
    /// # Errors
    ///
    /// Want of memory hands the call back and leaves the session unchanged. It comes only where the call isn't refused.
    pub fn submit(&mut self, alloc: Global, call: Call) -> Result<CallReply, Call>
        requires { IsTrue (can_play self.old.parts (turns.Do call)) }
        ensures submits { Submits self.old call result self.new }
        ensures stands { OnOk result (LeadTo self.old (own_steps self.old.parts (turns.Do call)) self.new) }
    {
        self.accept(alloc, call)
    }

    /// What `take` does, with the message in its box still.
    pub(crate) fn take_oldest(&mut self, sid: u64) -> Taken
        ensures reply { result ≡ take_reply self.old.parts sid }
        ensures rest { self.new ≡ seen_after self.old (took sid) }
    {
        self.exchange.subs.take(sid)
    }

    /// Takes the oldest waiting message of the subscription of number `s` out of its queue. Where none waits it
    /// answers `Ended` if the subscription is shut or ended, else `Empty`, and nothing changed. Its condition is
    /// `check` of that turn: the number was given and not let go. It takes no memory.
    pub fn take(&mut self, s: u64) -> TakeReply
        requires { IsTrue (can_play self.old.parts (turns.Take s)) }
        ensures reply { result ≡ take_reply self.old.parts s }
        ensures rest { self.new ≡ seen_after self.old (took s) }
        ensures stands { LeadTo self.old (own_steps self.old.parts (turns.Take s)) self.new }
    {
        self.take_oldest(s).reply()
    }

    fn time_out(&mut self, ticket: u64)
        ensures { self.new ≡ seen_all self.old (own_steps self.old.parts (turns.Deadline ticket)) }
    {
        self.exchange.tickets.time_out(ticket);
    }

    /// The deadline of the request of ticket `t` came: where it is unsettled, it settles as `TimedOut`, and its
    /// token waits no more. A request that waits to be handled is written all the same. Its condition is `check` of
    /// that turn: the ticket was given to a request. It takes no memory. The crate's timeout of a request.
    pub fn deadline(&mut self, t: u64)
        requires { IsTrue (can_play self.old.parts (turns.Deadline t)) }
        ensures seen { self.new ≡ seen_all self.old (own_steps self.old.parts (turns.Deadline t)) }
        ensures stands { LeadTo self.old (own_steps self.old.parts (turns.Deadline t)) self.new }
    {
        self.time_out(t);
    }

    fn play_next(&mut self, alloc: Global) -> Result<Due, NoMemory>
        ensures ok { IfOk result (λ name. Advances (due self.old.parts) self.old name self.new) }
        ensures err { OnErr result (self.new ≡ self.old) }
        ensures wants { OnErr result (IsTrue (is_some (due self.old.parts))) }
    {
        let look = self.look(alloc)?;
        let played = self.advance_by(alloc, look)?;
        Ok(played.due())
    }

    /// Plays the one step that is due, with what follows it at once, and names it; `Nothing` exactly where none is
    /// due. Reading comes before the calls that wait, as in the crate. A handled `Drain` asks the server for no
    /// more and writes a `PING`, at whose `PONG` the subscription ends; the `PONG` of a `DrainAll` ends the link
    /// and closes the session.
    ///
    /// # Errors
    ///
    /// `NoMemory`, only where a step is due, leaves the session unchanged, and the same call may be made again.
    pub fn advance(&mut self, alloc: Global) -> Result<Due, NoMemory>
        ensures ok { IfOk result (λ name. Advances (due self.old.parts) self.old name self.new) }
        ensures stands { OnOk result (LeadTo self.old (due_chain self.old.parts (due self.old.parts)) self.new) }
        ensures err { OnErr result (self.new ≡ self.old) }
        ensures wants { OnErr result (IsTrue (is_some (due self.old.parts))) }
    {
        self.play_next(alloc)
    }

    /// The first bytes that wait, in `PIECES_MOST` nonempty pieces at most, joined a front of all that wait; no
    /// piece where none waits. They share their memory, and stay until `written` tells that they were taken.
    ///
    /// # Errors
    ///
    /// `NoMemory`, only where something waits, leaves the session unchanged.
    pub fn pending_pieces(&mut self, alloc: Global) -> Result<Vec<Bytes>, NoMemory>
        ensures front { IfOk result (λ v. IsFront PIECES_MOST v.items self.old.parts.link.wire.waiting) }
        ensures wants { OnErr result (0 < length self.old.parts.link.wire.waiting) }
        ensures same { self.new ≡ self.old }
    {
        self.exchange.connection.pending_pieces(alloc)
    }
}
