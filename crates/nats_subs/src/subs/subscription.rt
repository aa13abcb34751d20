//! One subscription.
ghost use Rattle.std.specs.Prelude.{◌≡◌, ◌∷◌, [], ◌++◌, true, OnErr, IfOk, OnOk};
ghost use Rattle.std.proofs.Common.{refl};
ghost use Rattle.std.specs.Option.{option_copied};
ghost use Rattle.nats_history.specs.History.{is_open, is_over, has_room, forgotten, open_if, end_if, reached, again, unsubscribed, limit_commands};
ghost use Rattle.nats_message.specs.declared.op.ClientOp.TheVariants as client;
ghost use Rattle.nats_history.specs.Schedule.{sub_take};
ghost use Rattle.nats_subs.specs.Delivery.{asked_sub, altered, deliver, take_from, delivery, youngest_of, oldest_of, commands_by};
ghost use Rattle.nats_subs.specs.Draining.{is_drained};
ghost use Rattle.nats_subs.specs.Forgetting.{rests, over_rests, still, still_rests, rests_on};

use crate::taken::{BoxedReply, Taken};
use crate::waiting::Waiting;
use nats_history::{Config, Interest, Message, NoMemory, Stage};
use nats_tables::{Change, Row, TryChange};
use nats_wire::ClientOp;
use std::alloc::Global;
use std::marker::Model;

/// A subscription: how far it came, what was asked of it, and the messages that wait to be taken.
#[derive(Drop)]
pub struct Subscription {
    interest: Option<Interest>,
    stage: Stage,
    is_shut: bool,
    is_gone: bool,
    is_draining: bool,
    limit: Option<u64>,
    puts: u64,
    waiting: Waiting,
}

impl Model for Subscription {
    ghost use Rattle.nats_history.specs.History.{Sub};

    ghost Value = { Sub };

    ghost view = { λ s. record {
      interest = s.interest;
      stage = s.stage;
      is_shut = s.is_shut;
      is_gone = s.is_gone;
      is_draining = s.is_draining;
      limit = s.limit;
      puts = s.puts;
      waiting = s.waiting;
    } };
}

/// What becomes of a message that comes for a subscription.
#[derive(Clone, Copy)]
pub enum Delivery {
    /// It is put into the queue.
    Put,
    /// The queue is full.
    Dropped,
    /// The subscription is open and shut: it is to end.
    Unwanted,
    /// There is no open subscription of that number.
    Ignored,
}

/// A subscription that ended rests, and one that its user let go as well is over.
impl Row for Subscription {
    ghost forgotten = { forgotten };

    ghost over = { is_over };

    fn is_over(&self) -> bool {
        self.is_gone && self.is_resting()
    }

    ghost forgotten_is_over = { λ row over. refl };

    ghost rests = { rests };

    fn is_resting(&self) -> bool {
        matches!(self.stage, Stage::Ended)
    }

    ghost over_rests = { over_rests };
}

/// What can happen to a subscription but for its messages.
#[derive(Clone, Copy)]
pub enum Alteration {
    /// Its subscribe is handled.
    Open,
    /// It takes in no further message.
    Shut,
    /// It ends.
    End,
    /// It ends at so many puts.
    Limit(u64),
    /// Its drain is handled.
    Drain,
    /// Its user lets it go.
    LetGo,
    /// A new link came up.
    Renew,
    /// The link ended.
    EndLink,
    /// The session closes.
    Close,
}

/// Which commands are written of each subscription.
#[derive(Clone, Copy)]
pub enum Texts {
    /// Those that subscribe it again on a new link.
    Again,
    /// That which asks for no further messages, where it is open.
    Unsubscribe,
}

impl Change<Subscription> for Alteration {
    type Answer = ();

    ghost changes = { altered };

    ghost answers = { λ _ _. record {} };

    fn change(&self, row: &mut Subscription) {
        row.alter(*self);
    }

    fn refuse(&self) {}

    ghost leaves_forgotten = { λ a over. still a };

    ghost leaves_resting = { still_rests };
}

/// The oldest waiting message leaves a subscription.
pub struct Take;

impl Change<Subscription> for Take {
    type Answer = Taken;

    ghost changes = { λ _. take_from };

    ghost answers = { λ _. sub_take };

    fn change(&self, row: &mut Subscription) -> Taken {
        row.take()
    }

    fn refuse(&self) -> Taken {
        Taken::new(BoxedReply::Ended)
    }

    ghost leaves_forgotten = { λ c over. refl };

    ghost leaves_resting = { λ c row rest. rest };
}

/// A message that comes for a subscription.
#[derive(Drop)]
pub struct Arrival<'a> {
    pub config: &'a Config,
    pub message: Box<Message>,
}

impl TryChange<Subscription> for Arrival<'_> {
    type Answer = ();

    ghost changes = { λ a. deliver a.config.now a.message.value };

    ghost answers = { λ _ _. record {} };

    fn try_change(self, row: &mut Subscription) -> Result<(), NoMemory> {
        row.deliver(self.config, self.message)
    }

    fn refuse(self) {}

    ghost leaves_forgotten = { λ a over. refl };

    ghost leaves_resting = { λ a. rests_on a.config.now a.message.value };
}

fn opened(stage: Stage) -> Stage
    ensures { result ≡ open_if true stage }
{
    match stage {
        Stage::Asked | Stage::Open => Stage::Open,
        Stage::Ended => Stage::Ended,
    }
}

fn ended_if(is_end: bool, stage: Stage) -> Stage
    ensures { result ≡ end_if is_end stage }
{
    match stage {
        Stage::Open if is_end => Stage::Ended,
        _ => stage,
    }
}

fn is_reached(limit: Option<u64>, count: u64) -> bool
    ensures { result ≡ reached limit count }
{
    match limit {
        Some(limit) => limit <= count,
        None => false,
    }
}

fn push_subscribe(
    alloc: Global,
    ops: &mut Vec<ClientOp>,
    sid: u64,
    interest: &Interest,
) -> Result<(), NoMemory>
    ensures { OnOk result (ops.new.items
        ≡ ops.old.items ++ client.Subscribe sid interest.now.subject interest.now.queue_group ∷ []) }
{
    let Interest {
        subject,
        queue_group,
    } = interest.copy(alloc)?;
    ops.push(ClientOp::Subscribe {
        sid,
        subject,
        queue_group,
    })?;
    Ok(())
}

/// Adds what is left of a limit after so many puts, if there is one.
fn push_limit(
    ops: &mut Vec<ClientOp>,
    sid: u64,
    puts: u64,
    limit: Option<u64>,
) -> Result<(), NoMemory>
    ensures { OnOk result (ops.new.items ≡ ops.old.items ++ limit_commands sid puts limit) }
{
    if let Some(limit) = limit {
        let max = Some(limit.saturating_sub(puts));
        ops.push(ClientOp::Unsubscribe { sid, max })?;
    }
    Ok(())
}

impl Subscription {
    /// Not open yet, and nothing waits. It takes no memory.
    pub fn new(alloc: Global, interest: Interest) -> Subscription
        ensures { result ≡ asked_sub interest }
    {
        Subscription {
            interest: Some(interest),
            stage: Stage::Asked,
            is_shut: false,
            is_gone: false,
            is_draining: false,
            limit: None,
            puts: 0,
            waiting: Waiting::new(alloc),
        }
    }

    pub fn alter(&mut self, alteration: Alteration)
        ensures { self.new ≡ altered alteration self.old }
    {
        match alteration {
            Alteration::Open => self.stage = opened(self.stage),
            Alteration::Shut => self.is_shut = true,
            Alteration::End => self.stage = ended_if(true, self.stage),
            Alteration::Limit(limit) => {
                self.limit = Some(limit);
                self.stage = ended_if(limit <= self.puts, self.stage);
            }
            Alteration::Drain => self.is_draining = true,
            Alteration::LetGo => {
                self.is_shut = true;
                self.is_gone = true;
                self.waiting.clear();
            }
            Alteration::Renew => self.stage = ended_if(self.is_shut, self.stage),
            Alteration::EndLink => self.stage = ended_if(self.is_draining, self.stage),
            Alteration::Close => self.stage = ended_if(true, opened(self.stage)),
        }
    }

    fn has_room(&self, config: &Config) -> bool
        ensures { result ≡ has_room config.now self.now }
    {
        (self.waiting.len() as u64) < config.subscription_capacity
    }

    /// What becomes of a message that comes for it.
    pub fn delivery(&self, config: &Config) -> Delivery
        ensures { result ≡ delivery config.now self.now }
    {
        if !self.is_open() {
            return Delivery::Ignored;
        }
        if self.is_shut {
            return Delivery::Unwanted;
        }
        if self.has_room(config) {
            return Delivery::Put;
        }
        Delivery::Dropped
    }

    /// Takes in a message where it is open, not shut, and has room.
    pub fn deliver(&mut self, config: &Config, message: Box<Message>) -> Result<(), NoMemory>
        ensures ok { OnOk result (self.new ≡ deliver config.now message.value self.old) }
        ensures err { OnErr result (self.new ≡ self.old) }
    {
        if !self.is_open() || self.is_shut || !self.has_room(config) {
            return Ok(());
        }
        self.waiting.push(message)?;
        self.puts = self.puts.saturating_add(1);
        self.stage = ended_if(is_reached(self.limit, self.puts), self.stage);
        Ok(())
    }

    /// The oldest waiting message leaves, where one waits.
    pub fn take(&mut self) -> Taken
        ensures reply { result ≡ sub_take self.old }
        ensures rest { self.new ≡ take_from self.old }
    {
        Taken::new(match self.waiting.pop() {
            Some(message) => BoxedReply::Message(message),
            None if self.is_shut || matches!(self.stage, Stage::Ended) => BoxedReply::Ended,
            None => BoxedReply::Empty,
        })
    }

    /// Adds the commands that are written of it.
    pub fn push_texts(
        &self,
        alloc: Global,
        texts: Texts,
        sid: u64,
        ops: &mut Vec<ClientOp>,
    ) -> Result<(), NoMemory>
        ensures { OnOk result (ops.new.items ≡ ops.old.items ++ commands_by texts sid self.now) }
    {
        match texts {
            Texts::Again => self.push_again(alloc, sid, ops),
            Texts::Unsubscribe => self.push_unsubscribe(sid, ops),
        }
    }

    fn push_unsubscribe(&self, sid: u64, ops: &mut Vec<ClientOp>) -> Result<(), NoMemory>
        ensures { OnOk result (ops.new.items ≡ ops.old.items ++ unsubscribed sid self.now) }
    {
        if self.is_open() {
            ops.push(ClientOp::Unsubscribe { sid, max: None })?;
        }
        Ok(())
    }

    /// Adds the commands that subscribe it again on a new link: where it is open and not shut, with what is left of
    /// its limit.
    fn push_again(&self, alloc: Global, sid: u64, ops: &mut Vec<ClientOp>) -> Result<(), NoMemory>
        ensures { OnOk result (ops.new.items ≡ ops.old.items ++ again sid self.now) }
    {
        if !self.is_open() || self.is_shut {
            return Ok(());
        }
        let Some(interest) = &self.interest else {
            return Ok(());
        };
        push_subscribe(alloc, ops, sid, interest)?;
        push_limit(ops, sid, self.puts, self.limit)
    }

    pub fn is_open(&self) -> bool
        ensures { result ≡ is_open self.now.stage }
    {
        matches!(self.stage, Stage::Open)
    }

    /// Whether it ends with its link.
    pub fn is_drained(&self) -> bool
        ensures { result ≡ is_drained self.now }
    {
        self.is_draining && self.is_open()
    }

    pub fn is_gone(&self) -> bool
        ensures { result ≡ self.now.is_gone }
    {
        self.is_gone
    }

    /// The youngest waiting message.
    pub fn last(&self) -> Option<&Message>
        ensures { option_copied result ≡ youngest_of self.now }
    {
        if self.is_gone {
            return None;
        }
        self.waiting.last()
    }

    /// The oldest waiting message.
    pub fn first(&self) -> Option<&Message>
        ensures { option_copied result ≡ oldest_of self.now }
    {
        if self.is_gone {
            return None;
        }
        self.waiting.first()
    }
}
