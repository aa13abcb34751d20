//! Requests over one inbox.
ghost use Rattle.std.specs.Prelude.{◌≡◌, ◌++◌, ◌∷◌, [], Some, OnOk, OnErr, IfOk};
ghost use Rattle.nats_message.specs.declared.op.ClientOp.TheVariants as client;
ghost use Rattle.nats_commands.specs.Commands.{command_texts};
ghost use Rattle.nats_wire.specs.Wire.{with_waiting};
ghost use Rattle.nats_history.specs.History.{inbox, inbox_of, inbox_commands};
ghost use Rattle.nats_tickets.specs.Kept.{request_one};

use super::exchange::Exchange;
use nats_history::{Bytes, Config, HeaderMap, NoMemory, Subject, Token};
use nats_wire::{ClientOp, copy_headers};
use std::alloc::Global;

/// What the subjects of all replies begin with, and then a text.
fn in_inbox(alloc: Global, config: &Config, text: &str) -> Result<Subject, NoMemory>
    ensures { IfOk result (λ s. s ≡ inbox config.now ++ text.now) }
{
    let mut name = String::from_str(alloc, config.inbox_prefix.as_str())?;
    name.push_str(".")?;
    name.push_str(config.mux_id.as_str())?;
    name.push_str(".")?;
    name.push_str(text)?;
    Subject::from_text(alloc, name.as_str())
}

/// The subject of the reply to a request with a token.
pub fn inbox_subject(alloc: Global, config: &Config, token: &Token) -> Result<Subject, NoMemory>
    ensures { IfOk result (λ s. s ≡ inbox_of config.now token.now) }
{
    in_inbox(alloc, config, token.as_str())
}

/// The command that asks for the replies to requests, where it is wanted, behind others.
pub fn push_inbox(
    ops: &mut Vec<ClientOp>,
    alloc: Global,
    config: &Config,
    wanted: bool,
) -> Result<(), NoMemory>
    ensures { OnOk result (ops.new.items ≡ ops.old.items ++ inbox_commands config.now wanted) }
{
    if wanted {
        ops.push(ClientOp::Subscribe {
            sid: 0,
            subject: in_inbox(alloc, config, "*")?,
            queue_group: None,
        })?;
    }
    Ok(())
}

/// The commands of a request that is handled: those that ask for replies, where it is the first, and its message.
pub fn request_ops(
    alloc: Global,
    config: &Config,
    is_first: bool,
    subject: &Subject,
    payload: &Bytes,
    headers: &Option<HeaderMap>,
    reply: &Subject,
) -> Result<Vec<ClientOp>, NoMemory>
    ensures { IfOk result (λ ops. ops.items ≡ inbox_commands config.now is_first
        ++ client.Publish subject.now payload.now (Some reply.now) headers.now ∷ []) }
{
    let mut ops = Vec::new(alloc);
    push_inbox(&mut ops, alloc, config, is_first)?;
    ops.push(ClientOp::Publish {
        subject: subject.copy(alloc)?,
        payload: payload.clone()?,
        respond: Some(reply.copy(alloc)?),
        headers: copy_headers(alloc, headers)?,
    })?;
    Ok(ops)
}

impl Exchange {
    /// Writes the commands of a request, whose reply is to come to a subject, and has it wait for that.
    pub fn ask(&mut self, alloc: Global, ops: &[ClientOp], reply: &Subject) -> Result<(), NoMemory>
        ensures ok { OnOk result (self.new ≡ record self.old {
          connection = with_waiting
              (self.old.connection.wire.waiting ++ command_texts ops.now)
              self.old.connection;
          tickets = request_one reply.now self.old.tickets;
        }) }
        ensures err { OnErr result (self.new ≡ self.old) }
    {
        let waiting = self.connection.pending();
        self.connection.enqueue_write_ops(alloc, ops)?;
        let asked = self.tickets.handle_request(alloc, reply);
        match asked {
            Ok(()) => Ok(()),
            Err(NoMemory) => {
                self.connection.cut(waiting);
                Err(NoMemory)
            }
        }
    }
}
