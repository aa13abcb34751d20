//! What a call that is handled changes.
ghost use Rattle.std.specs.Prelude.{◌≡◌, ◌++◌, [], length, OnOk, OnErr, true};
ghost use Rattle.nats_message.specs.declared.op.ClientOp.TheVariants as client;
ghost use Rattle.nats_commands.specs.Commands.{command_text};
ghost use Rattle.nats_wire.specs.Wire.{with_waiting, new_channel};
ghost use Rattle.nats_history.specs.History.{handled, commands, pings_after};
ghost use Rattle.nats_history.specs.Tickets.{no_tickets};
ghost use Rattle.nats_history.specs.Parts.{at_with};
ghost use Rattle.nats_history.specs.After.{written, subs_after};
ghost use Rattle.nats_tickets.specs.Kept.{kept_after};

use super::requests::{inbox_subject, request_ops};
use nats_history::{Call, Config, NoMemory, OutboundMessage, Subject};
use nats_subs::{Alteration, Pings, Subscriptions};
use nats_tickets::Tickets;
use nats_wire::Connection;
use std::alloc::Global;

/// The buffers of the link, the PINGs on it that none answered, the subscriptions, and what waits for a settlement.
#[derive(Drop)]
pub struct Exchange {
    pub connection: Connection,
    pub pings: Pings,
    pub subs: Subscriptions,
    pub tickets: Tickets,
}

fn write_publish(
    connection: &mut Connection,
    alloc: Global,
    message: &OutboundMessage,
) -> Result<(), NoMemory>
    ensures ok { OnOk result (connection.new ≡ with_waiting
        (connection.old.wire.waiting
        ++ command_text (client.Publish message.now.subject message.now.payload message.now.reply message.now.headers))
        connection.old) }
    ensures err { OnErr result (connection.new ≡ connection.old) }
{
    let OutboundMessage {
        subject,
        reply,
        payload,
        headers,
    } = message;
    connection.enqueue_publish(alloc, subject, reply, headers, payload)
}

fn write_subscribe(
    connection: &mut Connection,
    alloc: Global,
    sid: u64,
    subject: &Subject,
    queue_group: &Option<Subject>,
) -> Result<(), NoMemory>
    ensures ok { OnOk result (connection.new ≡ with_waiting
        (connection.old.wire.waiting ++ command_text (client.Subscribe sid subject.now queue_group.now))
        connection.old) }
    ensures err { OnErr result (connection.new ≡ connection.old) }
{
    connection.enqueue_subscribe(alloc, sid, subject, queue_group)
}

impl Exchange {
    /// One with no link, no subscription and no ticket.
    pub fn new(alloc: Global) -> Exchange
        ensures { result ≡ record {
          connection = new_channel;
          pings = [];
          subs = record { given = 0; subscribed = 0; rows = [] };
          tickets = record { tickets = no_tickets; ready = [] };
        } }
    {
        Exchange {
            connection: Connection::new(alloc),
            pings: Pings::new(alloc),
            subs: Subscriptions::new(alloc),
            tickets: Tickets::new(alloc),
        }
    }

    /// Writes the commands of a call that is handled, and changes the subscription or the ticket that it is about.
    pub fn handle(
        &mut self,
        alloc: Global,
        config: &Config,
        requested: bool,
        call: &Call,
    ) -> Result<(), NoMemory>
        ensures text { OnOk result (self.new.connection ≡ with_waiting
            (written true
            (commands config.now requested (at_with self.old.pings self.old.subs) self.old.subs.rows (handled call.now))
            self.old.connection.wire.waiting)
            self.old.connection) }
        ensures subs { OnOk result
            (self.new.subs ≡ subs_after config.now self.old.pings (handled call.now) self.old.subs) }
        ensures pings { OnOk result (self.new.pings ≡ pings_after (handled call.now) self.old.pings) }
        ensures tickets { OnOk result (self.new.tickets
            ≡ kept_after config.now (length self.old.connection.wire.waiting) (handled call.now) self.old.tickets) }
        ensures err { OnErr result (self.new ≡ self.old) }
    {
        match call {
            Call::Publish(message) => write_publish(&mut self.connection, alloc, message),
            Call::Subscribe {
                subject,
                queue_group,
            } => {
                let Some(sid) = self.subs.next_subscribed() else {
                    return Ok(());
                };
                write_subscribe(&mut self.connection, alloc, sid, subject, queue_group)?;
                self.subs.subscribe();
                Ok(())
            }
            Call::Unsubscribe(sid) | Call::DropSub(sid) => {
                self.unsubscribe(alloc, *sid, None, Alteration::End)
            }
            Call::Drain(sid) => self.drain(alloc, *sid),
            Call::DrainAll => self.drain_all(alloc),
            Call::Flush => self.tickets.handle_flush(self.connection.pending() as u64),
            Call::Request {
                subject,
                payload,
                headers,
                token,
            } => {
                let reply = inbox_subject(alloc, config, token)?;
                let ops = request_ops(
                    alloc, config, !requested, subject, payload, headers, &reply,
                )?;
                self.ask(alloc, ops.as_slice(), &reply)
            }
            Call::Reconnect => Ok(()),
            Call::Limit(sid, limit) => {
                self.unsubscribe(alloc, *sid, Some(*limit), Alteration::Limit(*limit))
            }
        }
    }
}
