//! How subscriptions are kept: this file alone knows.
ghost use Rattle.std.specs.Prelude.{◌≡◌, [], ◌++◌, OnOk, OnErr, IfOk};
ghost use Rattle.std.specs.Option.{option_copied};
ghost use Rattle.nats_subs.specs.declared.subs.subscription.Alteration.TheVariants as alterations;
ghost use Rattle.nats_tables.specs.Numbers.{at_number, item_of};
ghost use Rattle.nats_history.specs.History.{next_number, is_open_at, kept, all_again, unsubscribed, commands_from};
ghost use Rattle.nats_history.specs.Schedule.{take_reply_of, is_there};
ghost use Rattle.nats_subs.specs.Forgetting.{LeavesResting};
ghost use Rattle.nats_subs.specs.Draining.{drained_at, Covers};
ghost use Rattle.nats_subs.specs.Delivery.{deliver, take_from, delivery_at, youngest, first_of, given_one, subscribed_one, with_rows, rows_with, rows_named, rows_each, commands_by, commands_at};

mod subscription;

use crate::drained::Drained;
use crate::taken::Taken;
use nats_history::{Config, Interest, Message, NoMemory};
use nats_tables::Table;
use nats_wire::ClientOp;
use std::alloc::Global;
use std::marker::Model;
pub use subscription::{Alteration, Delivery};
use subscription::{Arrival, Subscription, Take, Texts};

/// The subscriptions by their numbers, from 1.
#[derive(Drop)]
pub struct Subscriptions {
    table: Table<Subscription>,
    subscribed: u64,
    drained: Drained,
}

impl Model for Subscriptions {
    ghost use Rattle.std.specs.Prelude.{length};
    ghost use Rattle.nats_history.specs.Parts.{Subs};
    ghost use Rattle.nats_subs.specs.Draining.{Covers};

    ghost Value = { Subs };

    ghost view = { λ t. record { given = length t.table; subscribed = t.subscribed; rows = t.table } };

    ghost invariant = { λ t. Covers t.drained t.table };
}

/// Something happens to each subscription that leaves alone what rests.
fn alter_rows(table: &mut Table<Subscription>, alteration: Alteration)
    requires { LeavesResting alteration }
    ensures { table.new ≡ rows_each alteration table.old }
{
    let mut last = 0;
    'rows: while let Some(sid) = table.next_after(last) {
        table.tidy();
        table.alter(sid, &alteration);
        last = sid;
    }
    table.tidy();
}

/// Whether a subscription ends with its link.
fn is_drained(table: &Table<Subscription>, sid: u64) -> bool
    ensures { result ≡ drained_at (item_of sid table.now) }
{
    match table.item(sid) {
        Some(row) => row.is_drained(),
        None => false,
    }
}

/// Ends those that end with their link. Where all of them were noted it goes through those alone.
fn end_drained(table: &mut Table<Subscription>, drained: &mut Drained)
    requires { Covers drained.old table.old }
    ensures { table.new ≡ rows_each alterations.EndLink table.old }
{
    'drained: while let Some(sid) = drained.pop() {
        table.alter(sid, &Alteration::EndLink);
    }
    table.tidy();
    if drained.forget_others() {
        alter_rows(table, Alteration::EndLink);
    }
}

fn push_texts(
    alloc: Global,
    table: &Table<Subscription>,
    texts: Texts,
    sid: u64,
    ops: &mut Vec<ClientOp>,
) -> Result<(), NoMemory>
    ensures { OnOk result (ops.new.items ≡ ops.old.items ++ commands_at texts sid (item_of sid table.now)) }
{
    match table.item(sid) {
        Some(row) => row.push_texts(alloc, texts, sid, ops),
        None => Ok(()),
    }
}

fn texts_in(
    alloc: Global,
    table: &Table<Subscription>,
    texts: Texts,
) -> Result<Vec<ClientOp>, NoMemory>
    ensures { IfOk result (λ ops. ops.items ≡ commands_from (commands_by texts) 1 table.now) }
{
    let mut ops = Vec::new(alloc);
    let mut last = 0;
    'rows: while let Some(sid) = table.next_after(last) {
        push_texts(alloc, table, texts, sid, &mut ops)?;
        last = sid;
    }
    Ok(ops)
}

impl Subscriptions {
    /// No subscription. It takes no memory.
    pub fn new(alloc: Global) -> Subscriptions
        ensures { result ≡ record { given = 0; subscribed = 0; rows = [] } }
    {
        Subscriptions {
            table: Table::new(alloc),
            subscribed: 0,
            drained: Drained::new(alloc),
        }
    }

    /// How many numbers were given.
    pub fn given(&self) -> u64
        ensures { result ≡ self.now.given }
    {
        self.table.len()
    }

    /// The number that the next handled subscribe is of.
    pub fn next_subscribed(&self) -> Option<u64>
        ensures { result ≡ next_number self.now.given self.now.subscribed }
    {
        if self.subscribed < self.table.len() {
            return Some(self.subscribed + 1);
        }
        None
    }

    /// Gives the next number to a subscription that asks for this, and is not open yet.
    pub fn give(&mut self, alloc: Global, interest: Interest) -> Result<(), NoMemory>
        ensures ok { OnOk result (self.new ≡ given_one interest self.old) }
        ensures err { OnErr result (self.new ≡ self.old) }
    {
        self.table.give(Subscription::new(alloc, interest))
    }

    /// The commands that subscribe all again on a new link: each one that is open and not shut, by number, with
    /// what is left of its limit.
    pub fn again(&self, alloc: Global) -> Result<Vec<ClientOp>, NoMemory>
        ensures { IfOk result (λ ops. ops.items ≡ all_again 1 self.now.rows) }
    {
        texts_in(alloc, &self.table, Texts::Again)
    }

    /// The commands that ask for no further messages of each one that is open, by number.
    pub fn unsubscribes(&self, alloc: Global) -> Result<Vec<ClientOp>, NoMemory>
        ensures { IfOk result (λ ops. ops.items ≡ commands_from unsubscribed 1 self.now.rows) }
    {
        texts_in(alloc, &self.table, Texts::Unsubscribe)
    }

    /// A subscribe is handled: the subscription of the next number that was given opens.
    pub fn subscribe(&mut self)
        ensures { self.new ≡ subscribed_one self.old }
    {
        if self.subscribed < self.table.len() {
            self.subscribed += 1;
            self.table.alter(self.subscribed, &Alteration::Open);
            let is_drained = is_drained(&self.table, self.subscribed);
            self.drained.settle(self.subscribed, is_drained);
        }
    }

    /// Something happens to a subscription.
    pub fn alter(&mut self, sid: u64, alteration: Alteration)
        ensures { self.new ≡ with_rows (rows_with sid alteration self.old.rows) self.old }
    {
        self.table.alter(sid, &alteration);
        let is_drained = is_drained(&self.table, sid);
        self.drained.settle(sid, is_drained);
    }

    /// Takes the memory for the drain of a subscription before it is drained, so that a link's end need not go
    /// through others.
    ///
    /// # Errors
    ///
    /// `NoMemory` where memory is wanting.
    pub fn note_drain(&mut self, sid: u64) -> Result<(), NoMemory>
        ensures { self.new ≡ self.old }
    {
        self.drained.note(sid)
    }

    /// Something happens to a subscription, where one is named.
    pub fn alter_named(&mut self, name: Option<u64>, alteration: Alteration)
        ensures { self.new ≡ with_rows (rows_named name alteration self.old.rows) self.old }
    {
        if let Some(sid) = name {
            self.alter(sid, alteration);
        }
    }

    /// A new link came up: each subscription that is open and shut ends.
    pub fn renew(&mut self)
        ensures { self.new ≡ with_rows (rows_each alterations.Renew self.old.rows) self.old }
    {
        alter_rows(&mut self.table, Alteration::Renew);
    }

    /// The link ended: each subscription that is open and drained ends.
    pub fn end_link(&mut self)
        ensures { self.new ≡ with_rows (rows_each alterations.EndLink self.old.rows) self.old }
    {
        end_drained(&mut self.table, &mut self.drained);
    }

    /// The session closes: each subscription ends.
    pub fn close(&mut self)
        ensures { self.new ≡ with_rows (rows_each alterations.Close self.old.rows) self.old }
    {
        alter_rows(&mut self.table, Alteration::Close);
    }

    /// What becomes of a message that comes for a subscription.
    pub fn delivery(&self, config: &Config, sid: u64) -> Delivery
        ensures { result ≡ delivery_at config.now (item_of sid self.now.rows) }
    {
        match self.table.item(sid) {
            Some(row) => row.delivery(config),
            None => Delivery::Ignored,
        }
    }

    /// Brings a message to a subscription, which takes it in where `delivery` says so.
    pub fn deliver(
        &mut self,
        config: &Config,
        sid: u64,
        message: Box<Message>,
    ) -> Result<(), NoMemory>
        ensures ok { OnOk result
            (self.new
            ≡ with_rows (at_number sid (λ sub. kept (deliver config.now message.value sub)) self.old.rows) self.old) }
        ensures err { OnErr result (self.new ≡ self.old) }
    {
        self.table.try_alter(sid, Arrival { config, message })
    }

    /// The oldest waiting message of a subscription leaves in its box, where one waits.
    pub fn take(&mut self, sid: u64) -> Taken
        ensures reply { result ≡ take_reply_of (item_of sid self.old.rows) }
        ensures rest { self.new ≡ with_rows (at_number sid (λ sub. kept (take_from sub)) self.old.rows) self.old }
    {
        self.table.alter(sid, &Take)
    }

    /// The youngest waiting message of a subscription.
    pub fn last(&self, sid: u64) -> Option<&Message>
        ensures { option_copied result ≡ youngest (item_of sid self.now.rows) }
    {
        self.table.item(sid)?.last()
    }

    /// The oldest waiting message of a subscription.
    pub fn first(&self, sid: u64) -> Option<&Message>
        ensures { option_copied result ≡ first_of (item_of sid self.now.rows) }
    {
        self.table.item(sid)?.first()
    }

    /// Whether a subscription is open.
    pub fn is_open(&self, sid: u64) -> bool
        ensures { result ≡ is_open_at (item_of sid self.now.rows) }
    {
        match self.table.item(sid) {
            Some(row) => row.is_open(),
            None => false,
        }
    }

    /// Whether this number was given, and its user did not let it go.
    pub fn has(&self, sid: u64) -> bool
        ensures { result ≡ is_there (item_of sid self.now.rows) }
    {
        match self.table.item(sid) {
            Some(row) => !row.is_gone(),
            None => false,
        }
    }
}
