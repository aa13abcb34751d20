//! The end of a link, and of the session.
ghost use Rattle.std.specs.Prelude.{◌≡◌, ◌∷◌, OnOk, OnErr};
ghost use Rattle.nats_history.specs.declared.transcript.LinkWord.TheVariants as word;
ghost use Rattle.nats_history.specs.History.{link_end, closed, end_events};
ghost use Rattle.nats_history.specs.Schedule.{closes, closing, chain};
ghost use Rattle.nats_session.specs.Handler.{push_all, seen_after, seen_all, close_events};

use super::ConnectionHandler;
use nats_history::{Event, LinkWord, NoMemory};
use nats_subs::Queue;
use nats_wire::Connection;
use std::alloc::Global;

fn note_disconnected(events: &mut Queue<Event>, end: LinkWord) -> Result<(), NoMemory>
    ensures ok { OnOk result (events.new ≡ push_all (end_events end) events.old) }
    ensures err { OnErr result (events.new ≡ events.old) }
{
    match end {
        LinkWord::Lost | LinkWord::Fault | LinkWord::Ticks | LinkWord::Reconnect => {
            events.push(Event::Disconnected)?;
            Ok(())
        }
        LinkWord::Up | LinkWord::Drained | LinkWord::Hangup => Ok(()),
    }
}

/// Takes the event of a link's end back.
fn forget_disconnected(events: &mut Queue<Event>, end: LinkWord)
    ensures { (before : _) → events.old ≡ push_all (end_events end) before → events.new ≡ before }
{
    match end {
        LinkWord::Lost | LinkWord::Fault | LinkWord::Ticks | LinkWord::Reconnect => {
            let _ = events.pop_back();
        }
        LinkWord::Up | LinkWord::Drained | LinkWord::Hangup => {}
    }
}

fn note_closed(events: &mut Queue<Event>, closes: bool) -> Result<(), NoMemory>
    ensures ok { OnOk result (events.new ≡ push_all (close_events closes) events.old) }
    ensures err { OnErr result (events.new ≡ events.old) }
{
    if closes {
        events.push(Event::Closed)?;
    }
    Ok(())
}

/// Puts down the events of a link's end, and of the session's where it closes then.
pub fn note_end(events: &mut Queue<Event>, end: LinkWord, closes: bool) -> Result<(), NoMemory>
    ensures ok { OnOk result (events.new ≡ push_all (close_events closes) (push_all (end_events end) events.old)) }
    ensures err { OnErr result (events.new ≡ events.old) }
{
    note_disconnected(events, end)?;
    let close = note_closed(events, closes);
    match close {
        Ok(()) => Ok(()),
        Err(NoMemory) => {
            forget_disconnected(events, end);
            Err(NoMemory)
        }
    }
}

impl ConnectionHandler {
    /// Whether the session closes as the link ends by this word: the user hung up, or a drain of all was handled.
    pub(super) fn closes(&self, end: LinkWord) -> bool
        ensures { result ≡ closes self.now.parts.drain.is_handled end }
    {
        matches!(end, LinkWord::Hangup) || self.drain_handled
    }

    /// Drops the link with its bytes and PINGs, ends what is drained, and fails the flushes that await its bytes.
    fn drop_link(&mut self, alloc: Global)
        ensures { self.new ≡ seen_after self.old (link_end word.Hangup) }
    {
        self.is_up = false;
        self.exchange.pings.clear();
        self.exchange.connection = Connection::new(alloc);
        self.exchange.tickets.fail();
        self.exchange.subs.end_link();
    }

    /// Drops the calls that wait, ends each subscription, and fails each flush.
    pub(super) fn shut_down(&mut self)
        ensures { self.new ≡ record (seen_after self.old closed) { events = self.old.events } }
    {
        self.is_closed = true;
        self.calls.clear();
        self.exchange.tickets.drop_waiting();
        self.exchange.subs.close();
    }

    /// Drops the link, and closes the session where it is to close.
    pub(super) fn leave(&mut self, alloc: Global, closes: bool)
        ensures { self.new
            ≡ record (seen_all self.old (link_end word.Hangup ∷ closing closes)) { events = self.old.events } }
    {
        self.drop_link(alloc);
        if closes {
            self.shut_down();
        }
    }

    /// The link ends by this word.
    pub(super) fn end_with(&mut self, alloc: Global, end: LinkWord) -> Result<(), NoMemory>
        ensures ok { OnOk result (self.new ≡ seen_all self.old (chain self.old.parts (link_end end))) }
        ensures err { OnErr result (self.new ≡ self.old) }
    {
        let closes = self.closes(end);
        note_end(&mut self.events, end, closes)?;
        self.leave(alloc, closes);
        Ok(())
    }

    /// The session closes while no link is up.
    pub(super) fn close(&mut self) -> Result<(), NoMemory>
        ensures ok { OnOk result (self.new ≡ seen_after self.old closed) }
        ensures err { OnErr result (self.new ≡ self.old) }
    {
        self.events.push(Event::Closed)?;
        self.shut_down();
        Ok(())
    }
}
