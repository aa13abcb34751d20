//! Subscriptions that are to end, one or all.
ghost use Rattle.std.specs.Prelude.{◌≡◌, ◌++◌, ◌∷◌, [], OnOk, OnErr, IfOk, true, None};
ghost use Rattle.nats_message.specs.declared.op.ClientOp.TheVariants as client;
ghost use Rattle.nats_wire.specs.Wire.{with_waiting};
ghost use Rattle.nats_tables.specs.Numbers.{item_of};
ghost use Rattle.nats_history.specs.declared.ping.Ping.TheVariants as pinged;
ghost use Rattle.nats_history.specs.History.{unsubscribe_command, unsubscribed, commands_from, is_open_at, drain_events};
ghost use Rattle.nats_history.specs.After.{written};
ghost use Rattle.nats_subs.specs.Delivery.{with_rows, rows_with};
ghost use Rattle.nats_subs.specs.declared.subs.subscription.Alteration.TheVariants as alterations;
ghost use Rattle.nats_session.specs.Handler.{push_all};

use super::exchange::Exchange;
use nats_history::{Event, NoMemory, Ping};
use nats_subs::{Alteration, Queue};
use nats_wire::{ClientOp, Connection};
use std::alloc::Global;

/// Asks the server for no further messages of a subscription that is open, or for so many in all.
pub fn write_unsubscribe(
    connection: &mut Connection,
    alloc: Global,
    is_open: bool,
    sid: u64,
    max: Option<u64>,
) -> Result<(), NoMemory>
    ensures ok { OnOk result (connection.new ≡ with_waiting
        (written true (unsubscribe_command is_open sid max) connection.old.wire.waiting)
        connection.old) }
    ensures err { OnErr result (connection.new ≡ connection.old) }
{
    if !is_open {
        return Ok(());
    }
    connection.enqueue_write_op(alloc, &ClientOp::Unsubscribe { sid, max })
}

/// The command that asks for no further messages of a subscription, where it is open.
fn unsubscribe_ops(alloc: Global, is_open: bool, sid: u64) -> Result<Vec<ClientOp>, NoMemory>
    ensures { IfOk result (λ ops. ops.items ≡ unsubscribe_command is_open sid None) }
{
    let mut ops = Vec::new(alloc);
    if is_open {
        ops.push(ClientOp::Unsubscribe { sid, max: None })?;
    }
    Ok(ops)
}

impl Exchange {
    /// Unsubscribes a subscription where it is open, and then something happens to it.
    pub fn unsubscribe(
        &mut self,
        alloc: Global,
        sid: u64,
        max: Option<u64>,
        alteration: Alteration,
    ) -> Result<(), NoMemory>
        ensures ok { OnOk result (self.new ≡ record self.old {
          connection = with_waiting
              (written true (unsubscribe_command (is_open_at (item_of sid self.old.subs.rows)) sid max)
              self.old.connection.wire.waiting)
              self.old.connection;
          subs = with_rows (rows_with sid alteration self.old.subs.rows) self.old.subs;
        }) }
        ensures err { OnErr result (self.new ≡ self.old) }
    {
        let is_open = self.subs.is_open(sid);
        write_unsubscribe(&mut self.connection, alloc, is_open, sid, max)?;
        self.subs.alter(sid, alteration);
        Ok(())
    }

    /// Writes some commands and then a PING, whose PONG will find it among those that wait.
    fn write_with_ping(
        &mut self,
        alloc: Global,
        mut ops: Vec<ClientOp>,
        ping: Ping,
    ) -> Result<(), NoMemory>
        ensures ok { OnOk result (self.new ≡ record self.old {
          connection = with_waiting
              (written true (ops.items ++ client.Ping ∷ []) self.old.connection.wire.waiting)
              self.old.connection;
          pings = self.old.pings ++ ping ∷ [];
        }) }
        ensures err { OnErr result (self.new ≡ self.old) }
    {
        ops.push(ClientOp::Ping)?;
        self.pings.push(ping)?;
        let write = self.connection.enqueue_write_ops(alloc, ops.as_slice());
        match write {
            Ok(()) => Ok(()),
            Err(NoMemory) => {
                self.pings.pop_back();
                Err(NoMemory)
            }
        }
    }

    /// Drains a subscription.
    pub fn drain(&mut self, alloc: Global, sid: u64) -> Result<(), NoMemory>
        ensures ok { OnOk result (self.new ≡ record self.old {
          connection = with_waiting
              (written true
              (unsubscribe_command (is_open_at (item_of sid self.old.subs.rows)) sid None ++ client.Ping ∷ [])
              self.old.connection.wire.waiting)
              self.old.connection;
          subs = with_rows (rows_with sid alterations.Drain self.old.subs.rows) self.old.subs;
          pings = self.old.pings ++ pinged.Drain sid ∷ [];
        }) }
        ensures err { OnErr result (self.new ≡ self.old) }
    {
        let ops = unsubscribe_ops(alloc, self.subs.is_open(sid), sid)?;
        self.subs.note_drain(sid)?;
        self.write_with_ping(alloc, ops, Ping::Drain(sid))?;
        self.subs.alter(sid, Alteration::Drain);
        Ok(())
    }

    /// Drains all subscriptions.
    pub fn drain_all(&mut self, alloc: Global) -> Result<(), NoMemory>
        ensures ok { OnOk result (self.new ≡ record self.old {
          connection = with_waiting
              (written true (commands_from unsubscribed 1 self.old.subs.rows ++ client.Ping ∷ [])
              self.old.connection.wire.waiting)
              self.old.connection;
          pings = self.old.pings ++ pinged.DrainAll ∷ [];
        }) }
        ensures err { OnErr result (self.new ≡ self.old) }
    {
        let ops = self.subs.unsubscribes(alloc)?;
        self.write_with_ping(alloc, ops, Ping::DrainAll)
    }
}

/// Puts down the event of a drain of the whole session, where one is handled.
pub fn note_draining(events: &mut Queue<Event>, is_whole: bool) -> Result<(), NoMemory>
    ensures ok { OnOk result (events.new ≡ push_all (drain_events is_whole) events.old) }
    ensures err { OnErr result (events.new ≡ events.old) }
{
    if is_whole {
        events.push(Event::Draining)?;
    }
    Ok(())
}

/// Takes it back.
pub fn forget_draining(events: &mut Queue<Event>, is_whole: bool)
    ensures { (before : _) → events.old ≡ push_all (drain_events is_whole) before → events.new ≡ before }
{
    if is_whole {
        let _ = events.pop_back();
    }
}
