//! Printing a transcript.
ghost use Rattle.std.specs.Prelude.{◌≡◌, ◌++◌, IfOk, OnOk};
ghost use Rattle.std.specs.List.{flat_map};
ghost use Rattle.nats_print.specs.Printed.{end_word, link_lines, put_line, drop_line, take_text, take_line, sub_lines, event_line, sizes_text, reply_text, call_line, ticket_text, ticket_line, printed};
ghost use Rattle.nats_message_text.specs.Printed.{message_text};
ghost use Rattle.nats_spelling.specs.Lines.{placed, numbered};
ghost use Rattle.nats_spelling.specs.Spelling.{spelled};
ghost use Rattle.nats_names.specs.Events.{event_text};

use nats_history::{CallReply, Event, LinkRow, LinkWord, Message, SubRow, TakeReply, Transcript};
use nats_message_text::push_message;
use nats_names::NoMemory;
use nats_spelling::{close_line, open_line, push_number, push_spelled};
use std::alloc::Global;

// ---- links

fn push_end_word(out: &mut Vec<u8>, end: LinkWord) -> Result<(), NoMemory>
    ensures { OnOk result (out.new.items ≡ out.old.items ++ end_word end) }
{
    match end {
        LinkWord::Up => out.extend_from_slice(b"up")?,
        LinkWord::Lost => out.extend_from_slice(b"lost")?,
        LinkWord::Fault => out.extend_from_slice(b"fault")?,
        LinkWord::Ticks => out.extend_from_slice(b"ticks")?,
        LinkWord::Reconnect => out.extend_from_slice(b"reconnect")?,
        LinkWord::Drained => out.extend_from_slice(b"drained")?,
        LinkWord::Hangup => out.extend_from_slice(b"hangup")?,
    }
    Ok(())
}

fn push_link(out: &mut Vec<u8>, k: u64, row: &LinkRow) -> Result<(), NoMemory>
    ensures { OnOk result (out.new.items ≡ out.old.items ++ link_lines k row.now) }
{
    open_line(out, b"link", k)?;
    push_end_word(out, row.end)?;
    close_line(out)?;
    out.extend_from_slice(b"out ")?;
    push_spelled(out, row.taken.as_slice())?;
    close_line(out)?;
    out.extend_from_slice(b"left ")?;
    push_spelled(out, row.left.as_slice())?;
    close_line(out)
}

fn push_links(out: &mut Vec<u8>, links: &[LinkRow]) -> Result<(), NoMemory>
    ensures { OnOk result (out.new.items ≡ out.old.items ++ numbered link_lines 1 links.now) }
{
    let mut k = 1;
    for row in links {
        push_link(out, k, row)?;
        k += 1;
    }
    Ok(())
}

// ---- subscriptions

fn push_placed(out: &mut Vec<u8>, word: &[u8], place: u64, m: &Message) -> Result<(), NoMemory>
    ensures { OnOk result (out.new.items ≡ out.old.items ++ placed word.now place (message_text m.now)) }
{
    open_line(out, word, place)?;
    push_message(out, m)?;
    close_line(out)
}

fn push_puts(out: &mut Vec<u8>, puts: &[(u64, Message)]) -> Result<(), NoMemory>
    ensures { OnOk result (out.new.items ≡ out.old.items ++ flat_map put_line puts.now) }
{
    for (place, m) in puts {
        push_placed(out, b"put", *place, m)?;
    }
    Ok(())
}

fn push_drops(out: &mut Vec<u8>, drops: &[(u64, Message)]) -> Result<(), NoMemory>
    ensures { OnOk result (out.new.items ≡ out.old.items ++ flat_map drop_line drops.now) }
{
    for (place, m) in drops {
        push_placed(out, b"drop", *place, m)?;
    }
    Ok(())
}

fn push_take(out: &mut Vec<u8>, reply: &TakeReply) -> Result<(), NoMemory>
    ensures { OnOk result (out.new.items ≡ out.old.items ++ take_text reply.now) }
{
    match reply {
        TakeReply::Message(m) => {
            out.extend_from_slice(b"message ")?;
            push_message(out, m)?;
        }
        TakeReply::Empty => out.extend_from_slice(b"empty")?,
        TakeReply::Ended => out.extend_from_slice(b"ended")?,
    }
    Ok(())
}

fn push_takes(out: &mut Vec<u8>, takes: &[(u64, TakeReply)]) -> Result<(), NoMemory>
    ensures { OnOk result (out.new.items ≡ out.old.items ++ flat_map take_line takes.now) }
{
    for (place, reply) in takes {
        open_line(out, b"take", *place)?;
        push_take(out, reply)?;
        close_line(out)?;
    }
    Ok(())
}

fn push_sub(out: &mut Vec<u8>, s: u64, row: &SubRow) -> Result<(), NoMemory>
    ensures { OnOk result (out.new.items ≡ out.old.items ++ sub_lines s row.now) }
{
    out.extend_from_slice(b"sub ")?;
    push_number(out, s)?;
    close_line(out)?;
    push_puts(out, row.puts.as_slice())?;
    push_drops(out, row.drops.as_slice())?;
    push_takes(out, row.takes.as_slice())
}

fn push_subs(out: &mut Vec<u8>, subs: &[SubRow]) -> Result<(), NoMemory>
    ensures { OnOk result (out.new.items ≡ out.old.items ++ numbered sub_lines 1 subs.now) }
{
    let mut s = 1;
    for row in subs {
        push_sub(out, s, row)?;
        s += 1;
    }
    Ok(())
}

// ---- events, calls and tickets

fn push_event(alloc: Global, out: &mut Vec<u8>, event: &Event) -> Result<(), NoMemory>
    ensures { OnOk result (out.new.items ≡ out.old.items ++ spelled (event_text event.now)) }
{
    let text = event.to_string(alloc)?;
    push_spelled(out, text.as_bytes())
}

fn push_events(alloc: Global, out: &mut Vec<u8>, events: &[(u64, Event)]) -> Result<(), NoMemory>
    ensures { OnOk result (out.new.items ≡ out.old.items ++ flat_map event_line events.now) }
{
    for (place, event) in events {
        open_line(out, b"event", *place)?;
        push_event(alloc, out, event)?;
        close_line(out)?;
    }
    Ok(())
}

fn push_sizes(out: &mut Vec<u8>, limit: u64, size: u64) -> Result<(), NoMemory>
    ensures { OnOk result (out.new.items ≡ out.old.items ++ sizes_text limit size) }
{
    open_line(out, b"max-payload", limit)?;
    push_number(out, size)
}

fn push_reply(out: &mut Vec<u8>, reply: &CallReply) -> Result<(), NoMemory>
    ensures { OnOk result (out.new.items ≡ out.old.items ++ reply_text reply.now) }
{
    match reply {
        CallReply::Accepted => out.extend_from_slice(b"accepted")?,
        CallReply::Numbered(n) => {
            out.extend_from_slice(b"numbered ")?;
            push_number(out, *n)?;
        }
        CallReply::InvalidSubject => out.extend_from_slice(b"invalid-subject")?,
        CallReply::InvalidQueueName => out.extend_from_slice(b"invalid-queue-name")?,
        CallReply::MaxPayloadExceeded { limit, size } => push_sizes(out, *limit, *size)?,
        CallReply::Closed => out.extend_from_slice(b"closed")?,
        CallReply::NoNumber => out.extend_from_slice(b"no-number")?,
        CallReply::Full => out.extend_from_slice(b"full")?,
        CallReply::Flushed => out.extend_from_slice(b"flushed")?,
        CallReply::Replied(m) => {
            out.extend_from_slice(b"replied ")?;
            push_message(out, m)?;
        }
        CallReply::FlushFailed => out.extend_from_slice(b"flush-failed")?,
        CallReply::NoResponders => out.extend_from_slice(b"no-responders")?,
        CallReply::TimedOut => out.extend_from_slice(b"timed-out")?,
        CallReply::Dropped => out.extend_from_slice(b"dropped")?,
    }
    Ok(())
}

fn push_calls(out: &mut Vec<u8>, calls: &[(u64, CallReply)]) -> Result<(), NoMemory>
    ensures { OnOk result (out.new.items ≡ out.old.items ++ flat_map call_line calls.now) }
{
    for (place, reply) in calls {
        open_line(out, b"call", *place)?;
        push_reply(out, reply)?;
        close_line(out)?;
    }
    Ok(())
}

fn push_ticket(out: &mut Vec<u8>, row: &Option<(u64, CallReply)>) -> Result<(), NoMemory>
    ensures { OnOk result (out.new.items ≡ out.old.items ++ ticket_text row.now) }
{
    match row {
        Some((place, reply)) => {
            push_number(out, *place)?;
            out.push(b' ')?;
            push_reply(out, reply)
        }
        None => {
            out.extend_from_slice(b"waiting")?;
            Ok(())
        }
    }
}

fn push_ticket_line(
    out: &mut Vec<u8>,
    t: u64,
    row: &Option<(u64, CallReply)>,
) -> Result<(), NoMemory>
    ensures { OnOk result (out.new.items ≡ out.old.items ++ ticket_line t row.now) }
{
    open_line(out, b"ticket", t)?;
    push_ticket(out, row)?;
    close_line(out)
}

fn push_tickets(out: &mut Vec<u8>, tickets: &[Option<(u64, CallReply)>]) -> Result<(), NoMemory>
    ensures { OnOk result (out.new.items ≡ out.old.items ++ numbered ticket_line 1 tickets.now) }
{
    let mut t = 1;
    for row in tickets {
        push_ticket_line(out, t, row)?;
        t += 1;
    }
    Ok(())
}

/// The printed form of a transcript: its links, its subscriptions, its events, its calls and its tickets, a line
/// for each entry. It is our own format.
pub fn print_transcript(alloc: Global, transcript: &Transcript) -> Result<Vec<u8>, NoMemory>
    ensures { IfOk result (λ text. text.items ≡ printed transcript.now) }
{
    let mut out = Vec::new(alloc);
    push_links(&mut out, transcript.links.as_slice())?;
    push_subs(&mut out, transcript.subs.as_slice())?;
    push_events(alloc, &mut out, transcript.events.as_slice())?;
    push_calls(&mut out, transcript.calls.as_slice())?;
    push_tickets(&mut out, transcript.tickets.as_slice())?;
    Ok(out)
}
