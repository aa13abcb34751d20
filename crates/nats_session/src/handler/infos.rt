//! What a server says of itself while its link is up.
ghost use Rattle.std.specs.Prelude.{◌≡◌, ◌≤◌, length, OnOk, OnErr, IfOk};
ghost use Rattle.nats_lines.specs.Operations.{info_op, front, got};
ghost use Rattle.nats_history.specs.declared.turn.Due.TheVariants as due_names;
ghost use Rattle.nats_history.specs.History.{read, info_events, limit_told};
ghost use Rattle.nats_history.specs.Schedule.{chain};
ghost use Rattle.nats_session.specs.Handler.{push_all, seen_all, played_name, info_kept};

use super::ConnectionHandler;
use super::played::Played;
use nats_history::{Event, NoMemory, ServerInfo};

/// The limit of payloads after an INFO told one; 0 tells none.
fn limit_told(told: u64, limit: u64) -> u64
    ensures { result ≡ limit_told told limit }
{
    if told == 0 { limit } else { told }
}

impl ConnectionHandler {
    fn note_info(&mut self, is_lame_duck: bool) -> Result<(), NoMemory>
        ensures ok { OnOk result
            (self.new ≡ record self.old { events = push_all (info_events is_lame_duck) self.old.events }) }
        ensures err { OnErr result (self.new ≡ self.old) }
    {
        if is_lame_duck {
            self.events.push(Event::LameDuckMode)?;
        }
        Ok(())
    }

    /// It is what the server said last, and where it tells a limit, that holds for the calls from here on.
    fn keep_info(&mut self, info: Box<ServerInfo>)
        ensures { self.new ≡ info_kept info.value self.old }
    {
        self.max_payload = limit_told(info.max_payload, self.max_payload);
        self.infos = self.infos.saturating_add(1);
        self.info = Some(info);
    }

    /// Reads an INFO, which took so many bytes.
    pub(super) fn read_info(
        &mut self,
        info: Box<ServerInfo>,
        len: usize,
    ) -> Result<Played, NoMemory>
        requires fits { len ≤ length self.old.parts.link.wire.unread }
        requires front { front self.old.parts.link.wire.unread ≡ got (info_op info.value) len }
        ensures ok { OnOk result
            (self.new ≡ seen_all self.old (chain self.old.parts (read (info_op info.value)))) }
        ensures name { IfOk result (λ name. played_name name ≡ due_names.Read) }
        ensures err { OnErr result (self.new ≡ self.old) }
    {
        self.note_info(info.lame_duck_mode)?;
        self.keep_info(info);
        self.read_past(len);
        Ok(Played::Read)
    }
}
