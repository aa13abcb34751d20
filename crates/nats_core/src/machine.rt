//! A session with its journal.
ghost use Rattle.std.specs.Prelude.{◌≡◌, ◌++◌, ◌∷◌, [], true, OnOk, OnErr, IfOk, IsTrue, is_some, IfErr, drop, None};
ghost use Rattle.nats_history.specs.declared.turn.Turn.TheVariants as turns;
ghost use Rattle.nats_history.specs.Queue.{first};
ghost use Rattle.nats_history.specs.Schedule.{due, is_valid_turn, call_reply};
ghost use Rattle.nats_tickets.specs.Kept.{reply_in, without};
ghost use Rattle.nats_session.specs.Handler.{can_play, HandsOut, HandsReply};
ghost use Rattle.nats_core.specs.declared.answers.StepError.TheVariants as refused;
ghost use Rattle.nats_core.specs.declared.entry.StepReply.TheVariants as replies;
ghost use Rattle.nats_core.specs.Journal.{IsRight, StandsForTurns, StandsForAll, config_of, journal_turns, new_core, reply_to, entries_with, with_session, caught_up, played};
ghost use Rattle.nats_core.specs.Calls.{parts_in, news_since, TellsNews, PlaysDue, Plays, Steps, PlaysOn, StepsOn, Submits, is_on, up_number};

mod links;

use crate::answers::StepError;
use crate::entry::{Entry, StepReply};
use crate::settled::Settled;
use nats_session::{Call, CallReply, Config, ConnectionHandler, Event, NoMemory, ServerInfo, Turn};
use std::alloc::Global;
use std::marker::Model;

/// A session, and the journal of the turns that were played on it where that is kept. Each turn's due steps are played
/// behind it, as memory allows: those that are left are played before the next turn. Our own: the crate has no
/// journal.
///
/// To drive it, again and again:
/// 1. Turns go in: `step`, or `step_on` where the turn is of one link; `submit` for a call that is to come back where
///    memory is wanting. Where a link is at hand `read_link` plays what it gives, `write_link` what it takes.
/// 2. Bytes go out: `write_link` hands those that wait to a link; or `pending_pieces` lends them, and as many as were
///    taken go with the turn `Write`.
/// 3. Events and replies come out: `next_event` until none is left, `reply_of` for each ticket that is awaited, the
///    turn `Take` for the messages of a subscription, `news` where the server said something new of itself.
///
/// `handler` lends the session, which tells all else (`is_up`, `state`, `link`, `max_payload`, ..). After want of
/// memory `catch_up` plays what is left, as the next turn does by itself.
#[derive(Drop)]
pub struct Core {
    session: Settled,
    is_kept: bool,
    entries: Vec<Entry>,
}

impl Model for Core {
    ghost use Rattle.nats_core.specs.Journal.{Logged, core_of, IsSound};

    ghost Value = { Logged };

    ghost view = { λ core. core_of core.is_kept core.entries.items core.session };

    ghost invariant = { λ core. IsSound (core_of core.is_kept core.entries.items core.session) };
}

impl Core {
    /// A core whose session has these settings: no link came up, and its journal is empty. The journal is kept where
    /// `journal` is true, and then takes memory for each turn.
    ///
    /// # Errors
    ///
    /// `NoMemory` for want of memory.
    pub fn new(alloc: Global, config: Config, journal: bool) -> Result<Core, NoMemory>
        ensures { IfOk result (λ core. core ≡ new_core config journal) }
    {
        let handler = ConnectionHandler::new(alloc, config)?;
        Ok(Core {
            session: Settled::new(handler),
            is_kept: journal,
            entries: Vec::new(alloc),
        })
    }

    /// The turns that were played, oldest first, each with its reply; none where the journal is not kept. The journal
    /// is always right: each turn may come where it stands, and has the reply that a session gives there.
    pub fn journal(&self) -> &[Entry]
        ensures entries { result.now ≡ self.now.entries }
        ensures right { IsRight (config_of self.now) self.now.entries }
    {
        self.entries.as_slice()
    }

    /// The session. Where the journal is kept it stands for the steps of the journal's turns, or while `is_behind` for
    /// those less due steps of the last turn.
    pub fn handler(&self) -> &ConnectionHandler
        ensures session { result.now ≡ self.now.session }
        ensures stands { self.now.is_kept ≡ true
            → StandsForTurns (config_of self.now) (journal_turns self.now) self.now.session }
        ensures whole { self.now.is_kept ≡ true → due (parts_in self.now) ≡ None
            → StandsForAll (config_of self.now) (journal_turns self.now) self.now.session }
    {
        self.session.handler()
    }

    fn told_since(&self, alloc: Global, seen: u64) -> Result<Option<(u64, ServerInfo)>, NoMemory>
        ensures news { IfOk result (λ news. news ≡ news_since seen (parts_in self.now)) }
        ensures wants { OnErr result ((parts_in self.now).link.infos ≡ seen → ⊥) }
    {
        let infos = self.session.handler().infos();
        if infos == seen {
            return Ok(None);
        }
        match self.session.handler().server_info() {
            Some(info) => Ok(Some((infos, info.copy(alloc)?))),
            None => Ok(None),
        }
    }

    /// What the server said of itself last, where that is news: `None` exactly where just `seen` INFOs were read, over
    /// all links and those by which links came up left out; else how many were read, which is what to ask with the
    /// next time, and a copy of the last INFO. `seen` is 0, or a number that this call answered. Own call: whoever
    /// drives a core tells the pool of servers what is news.
    ///
    /// # Errors
    ///
    /// `NoMemory`, only where there is news.
    pub fn news(&self, alloc: Global, seen: u64) -> Result<Option<(u64, ServerInfo)>, NoMemory>
        ensures news { IfOk result (λ news. news ≡ news_since seen (parts_in self.now)) }
        ensures exact { TellsNews seen self.now.session result }
        ensures wants { OnErr result ((parts_in self.now).link.infos ≡ seen → ⊥) }
    {
        self.told_since(alloc, seen)
    }

    /// Whether steps are due that were not played yet, for want of memory. The next turn, or `catch_up`, plays them
    /// first.
    pub fn is_behind(&self) -> bool
        ensures { result ≡ is_some (due (parts_in self.now)) }
    {
        self.session.is_due()
    }

    /// Plays all steps that are due.
    ///
    /// # Errors
    ///
    /// `NoMemory`, only where a step is still due: the due steps that were played before it stay played, and the
    /// journal is as it was.
    pub fn catch_up(&mut self, alloc: Global) -> Result<(), NoMemory>
        ensures plays { PlaysDue self.old self.new }
        ensures ok { OnOk result (self.new ≡ caught_up self.old) }
        ensures behind { OnErr result (IsTrue (is_some (due (parts_in self.new)))) }
    {
        self.session.play_due(alloc)
    }

    /// Plays due steps as memory allows.
    fn settle(&mut self, alloc: Global)
        ensures { PlaysDue self.old self.new }
    {
        let _ = self.catch_up(alloc);
    }

    /// Plays a turn's own steps, and notes the turn with its reply where the journal is kept.
    #[inline(always)]
    fn note_turn(&mut self, alloc: Global, turn: Turn) -> Result<StepReply, NoMemory>
        requires { IsTrue (can_play (parts_in self.old) turn) }
        ensures reply { IfOk result (λ reply. reply ≡ reply_to (parts_in self.old) turn) }
        ensures ok { OnOk result (self.new ≡ played turn self.old) }
        ensures err { OnErr result (self.new ≡ self.old) }
    {
        self.session
            .play_own(alloc, self.is_kept, &mut self.entries, turn)
    }

    /// Plays and notes a call, which comes back where memory is wanting.
    fn note_call(&mut self, alloc: Global, call: Call) -> Result<CallReply, Call>
        requires { IsTrue (can_play (parts_in self.old) (turns.Do call)) }
        ensures reply { IfOk result (λ reply. reply ≡ call_reply (parts_in self.old) call) }
        ensures ok { OnOk result (self.new ≡ played (turns.Do call) self.old) }
        ensures back { IfErr result (λ back. back ≡ call) }
        ensures err { OnErr result (self.new ≡ self.old) }
    {
        self.session
            .submit_own(alloc, self.is_kept, &mut self.entries, call)
    }

    /// Whether a turn may be played: it may come, and no step is due.
    fn may(&self, turn: &Turn) -> bool
        ensures { result ≡ can_play (parts_in self.now) turn.now }
    {
        self.session.handler().check(turn)
    }

    /// Plays a turn where no step is due, if it may come.
    #[inline(always)]
    fn play(&mut self, alloc: Global, turn: Turn) -> Result<StepReply, StepError>
        requires { due (parts_in self.old) ≡ None }
        ensures { Plays self.old turn result self.new }
    {
        if !self.may(&turn) {
            return Err(StepError::OutOfTurn);
        }
        let reply = self.note_turn(alloc, turn)?;
        self.settle(alloc);
        Ok(reply)
    }

    /// Takes in a call where no step is due.
    fn take_call(&mut self, alloc: Global, call: Call) -> Result<CallReply, Call>
        requires { IsTrue (can_play (parts_in self.old) (turns.Do call)) }
        ensures reply { IfOk result (λ reply. reply ≡ call_reply (parts_in self.old) call) }
        ensures ok { OnOk result (PlaysDue (played (turns.Do call) self.old) self.new) }
        ensures back { IfErr result (λ back. back ≡ call) }
        ensures err { OnErr result (self.new ≡ self.old) }
    {
        match self.note_call(alloc, call) {
            Ok(reply) => {
                self.settle(alloc);
                Ok(reply)
            }
            Err(call) => Err(call),
        }
    }

    fn submit_once(&mut self, alloc: Global, call: Call) -> Result<CallReply, Call>
        requires { IsTrue (is_valid_turn (parts_in (caught_up self.old)) (turns.Do call)) }
        ensures { Submits self.old call result self.new }
    {
        match self.catch_up(alloc) {
            Ok(()) => self.take_call(alloc, call),
            Err(NoMemory) => Err(call),
        }
    }

    /// Makes a call: it is accepted or refused as `ConnectionHandler::submit` says, once all steps that were due are
    /// played. Then due steps are played, as memory allows. Its condition is that the call may come: the subscription
    /// that it names, if it does, was given and not let go.
    ///
    /// # Errors
    ///
    /// Want of memory hands the call back. Due steps that were played before it stay played, and the journal is as it
    /// was.
    pub fn submit(&mut self, alloc: Global, call: Call) -> Result<CallReply, Call>
        requires { IsTrue (is_valid_turn (parts_in (caught_up self.old)) (turns.Do call)) }
        ensures submits { Submits self.old call result self.new }
        ensures journal { IfOk result (λ reply. self.new.entries
            ≡ entries_with self.old.is_kept (record { turn = turns.Do call; reply = replies.Call reply })
            self.old.entries) }
        ensures others { OnErr result (self.new.entries ≡ self.old.entries) }
    {
        self.submit_once(alloc, call)
    }

    #[inline(always)]
    fn step_once(&mut self, alloc: Global, turn: Turn) -> Result<StepReply, StepError>
        ensures { Steps self.old turn result self.new }
    {
        self.catch_up(alloc)?;
        self.play(alloc, turn)
    }

    /// Plays a turn, once all steps that were due are played, and then due steps, as memory allows. Where the journal
    /// is kept, it has one more entry then: this turn with the reply that is answered.
    ///
    /// # Errors
    ///
    /// `OutOfTurn` exactly where the turn may not come once no step is due. `NoMemory` for want of memory; it is never
    /// answered for a turn that may not come, once all steps that were due are played. The turn is not played then:
    /// due steps that were played before stay played, and the journal is as it was.
    #[inline(always)]
    pub fn step(&mut self, alloc: Global, turn: Turn) -> Result<StepReply, StepError>
        ensures steps { Steps self.old turn result self.new }
        ensures journal { IfOk result (λ reply. self.new.entries
            ≡ entries_with self.old.is_kept (record { turn = turn; reply = reply }) self.old.entries) }
        ensures others { OnErr result (self.new.entries ≡ self.old.entries) }
    {
        self.step_once(alloc, turn)
    }

    /// The number of the link that is up, or 0.
    fn up_number(&self) -> u64
        ensures { result ≡ up_number (parts_in self.now) }
    {
        let session = self.session.handler();
        if session.is_up() { session.link() } else { 0 }
    }

    /// Whether the link of this number is up.
    fn is_on(&self, link: u64) -> bool
        ensures { result ≡ is_on link (parts_in self.now) }
    {
        let session = self.session.handler();
        session.is_up() && session.link() == link
    }

    /// The refusal of a link that is not up.
    fn gone(&self) -> StepError
        ensures { result ≡ refused.LinkGone (up_number (parts_in self.now)) }
    {
        StepError::LinkGone {
            current: self.up_number(),
        }
    }

    /// Plays a turn where no step is due, if the link of this number is up and the turn may come.
    fn play_on(&mut self, alloc: Global, link: u64, turn: Turn) -> Result<StepReply, StepError>
        requires { due (parts_in self.old) ≡ None }
        ensures { PlaysOn link self.old turn result self.new }
    {
        if !self.is_on(link) {
            return Err(self.gone());
        }
        self.play(alloc, turn)
    }

    fn step_once_on(&mut self, alloc: Global, link: u64, turn: Turn) -> Result<StepReply, StepError>
        ensures { StepsOn link self.old turn result self.new }
    {
        self.catch_up(alloc)?;
        self.play_on(alloc, link, turn)
    }

    /// Plays a turn as `step` does, on the link of this number, if that is the one that is up once no step is due.
    ///
    /// # Errors
    ///
    /// `LinkGone` with the number of the link that is up, or 0, exactly where the given link is not up: the turn is
    /// not played then, and the journal is as it was. Where the link is up, those of `step`.
    pub fn step_on(&mut self, alloc: Global, link: u64, turn: Turn) -> Result<StepReply, StepError>
        ensures steps { StepsOn link self.old turn result self.new }
        ensures journal { IfOk result (λ reply. self.new.entries
            ≡ entries_with self.old.is_kept (record { turn = turn; reply = reply }) self.old.entries) }
        ensures others { OnErr result (self.new.entries ≡ self.old.entries) }
    {
        self.step_once_on(alloc, link, turn)
    }

    /// Hands out the oldest event that was not handed out yet, if there is one. The journal stays. It takes no memory.
    pub fn next_event(&mut self) -> Option<Event>
        ensures event { result ≡ first self.old.session.events }
        ensures rest { self.new
            ≡ with_session (record self.old.session { events = drop 1 self.old.session.events }) self.old }
        ensures stands { HandsOut self.old.session result self.new.session }
    {
        self.session.next_event()
    }

    /// Hands out the reply by which ticket `t` settled. `None` exactly where it did not settle or its reply was handed
    /// out. The journal stays. It takes no memory.
    pub fn reply_of(&mut self, t: u64) -> Option<CallReply>
        ensures reply { result ≡ reply_in t self.old.session.ready }
        ensures rest { self.new
            ≡ with_session (record self.old.session { ready = without t self.old.session.ready }) self.old }
        ensures stands { HandsReply t self.old.session result self.new.session }
    {
        self.session.reply_of(t)
    }
}
