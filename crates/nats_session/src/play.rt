//! Playing a whole list of turns.
ghost use Rattle.std.specs.Prelude.{◌≡◌, ◌++◌, [], None, OnOk, IfOk, IsTrue, length, min, take};
ghost use Rattle.nats_tables.specs.Numbers.{at_number};
ghost use Rattle.nats_history.specs.declared.turn.Turn.TheVariants as turns;
ghost use Rattle.nats_history.specs.Schedule.{due};
ghost use Rattle.nats_history.specs.Transcripts.{Plays};
ghost use Rattle.nats_session.specs.Handler.{can_play, end_in, idle, played_name, Sees, is_nothing};
ghost use Rattle.nats_session.specs.Sheet.{empty_sheet, write_due, write_events, write_take, write_tickets, finished};
ghost use Rattle.nats_session.specs.Machine.{quiet, own_parts, own_sheet, settled_parts, settled_sheet, turn_parts, turn_sheet, write_look, write_end, Notes};
ghost use Rattle.nats_history.specs.declared.transcript.RunError.TheVariants as refused;
ghost use Rattle.nats_session.specs.Playing.{PlaysTo};

use crate::handler::{ConnectionHandler, Look, Played};
use nats_draft::Draft;
use nats_history::refusals::takes_ticket;
use nats_history::{
    Bytes, Call, Config, LinkWord, NoMemory, RunError, ServerInfo, TakeReply, Transcript, Turn,
};
use nats_subs::{BoxedReply, Delivery, Taken};
use nats_wire::PeekedOp;
use std::alloc::Global;

fn play_up(
    alloc: Global,
    handler: &mut ConnectionHandler,
    draft: &mut Draft,
    place: u64,
    info: &ServerInfo,
) -> Result<(), NoMemory>
    requires may { IsTrue (can_play handler.old.parts (turns.Up info.now)) }
    requires none { handler.old.events ≡ [] }
    requires settled { handler.old.ready ≡ [] }
    ensures parts { OnOk result (handler.new ≡ quiet (own_parts (turns.Up info.now) handler.old.parts)) }
    ensures sheet { OnOk result (draft.new ≡ own_sheet place (turns.Up info.now) handler.old.parts draft.old) }
{
    handler.up(alloc, info.copy(alloc)?)?;
    draft.begin_link();
    note_news(handler, draft, place)
}

fn play_piece(
    alloc: Global,
    handler: &mut ConnectionHandler,
    draft: &mut Draft,
    place: u64,
    bytes: &Bytes,
) -> Result<(), NoMemory>
    requires may { IsTrue (can_play handler.old.parts (turns.Piece bytes.now)) }
    requires none { handler.old.events ≡ [] }
    requires settled { handler.old.ready ≡ [] }
    ensures parts { OnOk result (handler.new ≡ quiet (own_parts (turns.Piece bytes.now) handler.old.parts)) }
    ensures sheet { OnOk result (draft.new ≡ own_sheet place (turns.Piece bytes.now) handler.old.parts draft.old) }
{
    handler.shared_piece(alloc, bytes)?;
    note_news(handler, draft, place)
}

/// The bytes that the link is to take are written down while they wait.
fn note_took(
    alloc: Global,
    handler: &ConnectionHandler,
    draft: &mut Draft,
    n: u64,
) -> Result<(), NoMemory>
    ensures { OnOk result (draft.new ≡ record draft.old {
      taken = draft.old.taken
          ++ take (min n (length handler.now.parts.link.wire.waiting)) handler.now.parts.link.wire.waiting;
    }) }
{
    if handler.pending() == 0 {
        return Ok(());
    }
    let took = handler.copy_waiting(alloc, n)?;
    draft.note_taken(took.as_slice())
}

fn play_write(
    alloc: Global,
    handler: &mut ConnectionHandler,
    draft: &mut Draft,
    place: u64,
    n: u64,
) -> Result<(), NoMemory>
    requires may { IsTrue (can_play handler.old.parts (turns.Write n)) }
    requires none { handler.old.events ≡ [] }
    requires settled { handler.old.ready ≡ [] }
    ensures parts { OnOk result (handler.new ≡ quiet (own_parts (turns.Write n) handler.old.parts)) }
    ensures sheet { OnOk result (draft.new ≡ own_sheet place (turns.Write n) handler.old.parts draft.old) }
{
    note_took(alloc, handler, draft, n)?;
    handler.written(n);
    note_news(handler, draft, place)
}

fn play_tick(
    alloc: Global,
    handler: &mut ConnectionHandler,
    draft: &mut Draft,
    place: u64,
) -> Result<(), NoMemory>
    requires may { IsTrue (can_play handler.old.parts turns.Tick) }
    requires none { handler.old.events ≡ [] }
    requires settled { handler.old.ready ≡ [] }
    ensures parts { OnOk result (handler.new ≡ quiet (own_parts turns.Tick handler.old.parts)) }
    ensures sheet { OnOk result (draft.new ≡ own_sheet place turns.Tick handler.old.parts draft.old) }
{
    let end = handler.tick_word();
    note_end(alloc, handler, draft, end)?;
    handler.tick(alloc)?;
    note_news(handler, draft, place)
}

fn play_lost(
    alloc: Global,
    handler: &mut ConnectionHandler,
    draft: &mut Draft,
    place: u64,
) -> Result<(), NoMemory>
    requires may { IsTrue (can_play handler.old.parts turns.Lost) }
    requires none { handler.old.events ≡ [] }
    requires settled { handler.old.ready ≡ [] }
    ensures parts { OnOk result (handler.new ≡ quiet (own_parts turns.Lost handler.old.parts)) }
    ensures sheet { OnOk result (draft.new ≡ own_sheet place turns.Lost handler.old.parts draft.old) }
{
    note_end(alloc, handler, draft, Some(LinkWord::Lost))?;
    handler.lost(alloc)?;
    note_news(handler, draft, place)
}

fn play_give_up(
    alloc: Global,
    handler: &mut ConnectionHandler,
    draft: &mut Draft,
    place: u64,
) -> Result<(), NoMemory>
    requires may { IsTrue (can_play handler.old.parts turns.GiveUp) }
    requires none { handler.old.events ≡ [] }
    requires settled { handler.old.ready ≡ [] }
    ensures parts { OnOk result (handler.new ≡ quiet (own_parts turns.GiveUp handler.old.parts)) }
    ensures sheet { OnOk result (draft.new ≡ own_sheet place turns.GiveUp handler.old.parts draft.old) }
{
    handler.give_up(alloc)?;
    note_news(handler, draft, place)
}

fn play_hangup(
    alloc: Global,
    handler: &mut ConnectionHandler,
    draft: &mut Draft,
    place: u64,
) -> Result<(), NoMemory>
    requires may { IsTrue (can_play handler.old.parts turns.Hangup) }
    requires none { handler.old.events ≡ [] }
    requires settled { handler.old.ready ≡ [] }
    ensures parts { OnOk result (handler.new ≡ quiet (own_parts turns.Hangup handler.old.parts)) }
    ensures sheet { OnOk result (draft.new ≡ own_sheet place turns.Hangup handler.old.parts draft.old) }
{
    let end = handler.hangup_word();
    note_end(alloc, handler, draft, end)?;
    handler.hang_up(alloc)?;
    note_news(handler, draft, place)
}

fn play_call(
    alloc: Global,
    handler: &mut ConnectionHandler,
    draft: &mut Draft,
    place: u64,
    call: &Call,
) -> Result<(), NoMemory>
    requires may { IsTrue (can_play handler.old.parts (turns.Do call.now)) }
    requires none { handler.old.events ≡ [] }
    requires settled { handler.old.ready ≡ [] }
    ensures parts { OnOk result (handler.new ≡ quiet (own_parts (turns.Do call.now) handler.old.parts)) }
    ensures sheet { OnOk result (draft.new ≡ own_sheet place (turns.Do call.now) handler.old.parts draft.old) }
{
    let Ok(reply) = handler.submit(alloc, call.copy(alloc)?) else {
        return Err(NoMemory);
    };
    if takes_ticket(call) {
        return draft.note_ticket(place, reply);
    }
    draft.note_call(alloc, place, reply)
}

/// A take of subscription `sid` was answered so.
fn note_reply(
    alloc: Global,
    draft: &mut Draft,
    place: u64,
    sid: u64,
    taken: Taken,
) -> Result<(), NoMemory>
    ensures { OnOk result
        (draft.new ≡ record draft.old { subs = at_number sid (write_take place taken) draft.old.subs }) }
{
    match taken.boxed() {
        BoxedReply::Message(message) => draft.note_message_taken(alloc, place, sid, message),
        BoxedReply::Empty => draft.note_take(alloc, place, sid, TakeReply::Empty),
        BoxedReply::Ended => draft.note_take(alloc, place, sid, TakeReply::Ended),
    }
}

fn play_take(
    alloc: Global,
    handler: &mut ConnectionHandler,
    draft: &mut Draft,
    place: u64,
    sid: u64,
) -> Result<(), NoMemory>
    requires may { IsTrue (can_play handler.old.parts (turns.Take sid)) }
    requires none { handler.old.events ≡ [] }
    requires settled { handler.old.ready ≡ [] }
    ensures parts { OnOk result (handler.new ≡ quiet (own_parts (turns.Take sid) handler.old.parts)) }
    ensures sheet { OnOk result (draft.new ≡ own_sheet place (turns.Take sid) handler.old.parts draft.old) }
{
    let taken = handler.take_oldest(sid);
    note_reply(alloc, draft, place, sid, taken)
}

fn play_deadline(
    handler: &mut ConnectionHandler,
    draft: &mut Draft,
    place: u64,
    ticket: u64,
) -> Result<(), NoMemory>
    requires may { IsTrue (can_play handler.old.parts (turns.Deadline ticket)) }
    requires none { handler.old.events ≡ [] }
    requires settled { handler.old.ready ≡ [] }
    ensures parts { OnOk result (handler.new ≡ quiet (own_parts (turns.Deadline ticket) handler.old.parts)) }
    ensures sheet { OnOk result (draft.new ≡ own_sheet place (turns.Deadline ticket) handler.old.parts draft.old) }
{
    handler.deadline(ticket);
    note_news(handler, draft, place)
}

fn play_own(
    alloc: Global,
    handler: &mut ConnectionHandler,
    draft: &mut Draft,
    place: u64,
    turn: &Turn,
) -> Result<(), NoMemory>
    requires may { IsTrue (can_play handler.old.parts turn.now) }
    requires none { handler.old.events ≡ [] }
    requires settled { handler.old.ready ≡ [] }
    ensures parts { OnOk result (handler.new ≡ quiet (own_parts turn.now handler.old.parts)) }
    ensures sheet { OnOk result (draft.new ≡ own_sheet place turn.now handler.old.parts draft.old) }
{
    match turn {
        Turn::Up(info) => play_up(alloc, handler, draft, place, info),
        Turn::Piece(bytes) => play_piece(alloc, handler, draft, place, bytes),
        Turn::Write(n) => play_write(alloc, handler, draft, place, *n),
        Turn::Tick => play_tick(alloc, handler, draft, place),
        Turn::Lost => play_lost(alloc, handler, draft, place),
        Turn::GiveUp => play_give_up(alloc, handler, draft, place),
        Turn::Hangup => play_hangup(alloc, handler, draft, place),
        Turn::Do(call) => play_call(alloc, handler, draft, place, call),
        Turn::Take(sid) => play_take(alloc, handler, draft, place, *sid),
        Turn::Deadline(ticket) => play_deadline(handler, draft, place, *ticket),
    }
}

/// Takes over the events that wait in the handler.
fn note_events(
    handler: &mut ConnectionHandler,
    draft: &mut Draft,
    place: u64,
) -> Result<(), NoMemory>
    ensures written { OnOk result (draft.new ≡ write_events place handler.old.events draft.old) }
    ensures handed_out { OnOk result (handler.new ≡ record handler.old { events = [] }) }
{
    'event: while let Some(event) = handler.next_event() {
        draft.note_event(place, event)?;
    }
    Ok(())
}

/// Takes over the settled tickets that wait in the handler.
fn note_settled(handler: &mut ConnectionHandler, draft: &mut Draft, place: u64)
    ensures written { draft.new ≡ write_tickets place handler.old.ready draft.old }
    ensures handed_out { handler.new ≡ record handler.old { ready = [] } }
{
    'ticket: while let Some((ticket, reply)) = handler.next_settled() {
        draft.note_settled(place, ticket, reply);
    }
}

/// Takes over the events and the settled tickets that wait in the handler.
fn note_all(handler: &mut ConnectionHandler, draft: &mut Draft, place: u64) -> Result<(), NoMemory>
    ensures written { OnOk result
        (draft.new ≡ write_tickets place handler.old.ready (write_events place handler.old.events draft.old)) }
    ensures handed_out { OnOk result (handler.new ≡ record handler.old { events = []; ready = [] }) }
{
    note_events(handler, draft, place)?;
    note_settled(handler, draft, place);
    Ok(())
}

/// Notes what waits to be handed out, at little cost where nothing does.
fn note_news(handler: &mut ConnectionHandler, draft: &mut Draft, place: u64) -> Result<(), NoMemory>
    ensures written { OnOk result
        (draft.new ≡ write_tickets place handler.old.ready (write_events place handler.old.events draft.old)) }
    ensures handed_out { OnOk result (handler.new ≡ record handler.old { events = []; ready = [] }) }
{
    if !handler.has_news() {
        return Ok(());
    }
    note_all(handler, draft, place)
}

/// What a link that ends is to leave is taken down while it is there.
fn note_end(
    alloc: Global,
    handler: &ConnectionHandler,
    draft: &mut Draft,
    end: Option<LinkWord>,
) -> Result<(), NoMemory>
    ensures { OnOk result (draft.new ≡ write_end end handler.now.parts draft.old) }
{
    match end {
        Some(word) => {
            let left = handler.copy_left(alloc)?;
            draft.end_link(alloc, word, left.as_slice())
        }
        None => Ok(()),
    }
}

/// A message that the step of `look` is to put is written down from the look, so that it is copied once.
fn note_coming(alloc: Global, draft: &mut Draft, place: u64, look: &Look) -> Result<(), NoMemory>
    ensures { OnOk result (draft.new ≡ write_look place look.now draft.old) }
{
    let Look::Read(peeked, delivery) = look else {
        return Ok(());
    };
    match &peeked.op {
        PeekedOp::Message { sid, message } => match delivery {
            Delivery::Put => draft.note_put(alloc, place, *sid, message),
            Delivery::Dropped | Delivery::Unwanted | Delivery::Ignored => Ok(()),
        },
        PeekedOp::Ok | PeekedOp::Info(_) | PeekedOp::Ping | PeekedOp::Pong | PeekedOp::Error(_) =>
            Ok(()),
    }
}

/// A message that was dropped is written down, once the step is known to be played.
fn note_played(alloc: Global, draft: &mut Draft, place: u64, played: Played) -> Result<(), NoMemory>
    ensures { OnOk result (draft.new ≡ write_due place (played_name played) draft.old) }
{
    match played {
        Played::Dropped(sid, message) => draft.note_drop(alloc, place, sid, message),
        Played::Put(_) | Played::Nothing | Played::Read | Played::Handled | Played::Ended => Ok(()),
    }
}

/// Plays and writes the step that `look` told of.
fn play_due(
    alloc: Global,
    handler: &mut ConnectionHandler,
    draft: &mut Draft,
    place: u64,
    look: Look,
) -> Result<(), NoMemory>
    requires sees { Sees handler.old.parts look }
    requires none { handler.old.events ≡ [] }
    requires settled { handler.old.ready ≡ [] }
    ensures { OnOk result (Notes (due handler.old.parts) place handler.old.parts draft.old handler.new draft.new) }
{
    let end = handler.end_by(&look);
    note_coming(alloc, draft, place, &look)?;
    note_end(alloc, handler, draft, end)?;
    let played = handler.advance_by(alloc, look)?;
    note_played(alloc, draft, place, played)?;
    note_news(handler, draft, place)
}

fn settle(
    alloc: Global,
    handler: &mut ConnectionHandler,
    draft: &mut Draft,
    place: u64,
) -> Result<(), NoMemory>
    requires none { handler.old.events ≡ [] }
    requires settled { handler.old.ready ≡ [] }
    ensures parts { OnOk result (handler.new ≡ quiet (settled_parts handler.old.parts)) }
    ensures sheet { OnOk result (draft.new ≡ settled_sheet place handler.old.parts draft.old) }
{
    'due: loop {
        if handler.is_at_rest() {
            return Ok(());
        }
        let look = handler.look(alloc)?;
        if look.is_nothing() {
            return Ok(());
        }
        play_due(alloc, handler, draft, place, look)?;
    }
}

fn play_turn(
    alloc: Global,
    handler: &mut ConnectionHandler,
    draft: &mut Draft,
    place: u64,
    turn: &Turn,
) -> Result<(), NoMemory>
    requires may { IsTrue (can_play handler.old.parts turn.now) }
    requires none { handler.old.events ≡ [] }
    requires settled { handler.old.ready ≡ [] }
    ensures parts { OnOk result (handler.new ≡ quiet (turn_parts turn.now handler.old.parts)) }
    ensures sheet { OnOk result (draft.new ≡ turn_sheet place turn.now handler.old.parts draft.old) }
{
    play_own(alloc, handler, draft, place, turn)?;
    settle(alloc, handler, draft, place)
}

/// The transcript of what was written; a link that is up has its row too, with the bytes that wait for it.
fn finish(
    alloc: Global,
    handler: &ConnectionHandler,
    mut draft: Draft,
) -> Result<Transcript, NoMemory>
    ensures { IfOk result (λ t. t ≡ finished handler.now.parts draft) }
{
    if handler.is_up() {
        let left = handler.copy_left(alloc)?;
        draft.end_link(alloc, LinkWord::Up, left.as_slice())?;
    }
    Ok(draft.finish())
}

/// Plays the turns in order on a session without a history, until one may not come or all were played.
fn play_all(
    alloc: Global,
    handler: &mut ConnectionHandler,
    draft: &mut Draft,
    turns: &[Turn],
) -> Result<(), RunError>
    requires clean { handler.old ≡ quiet handler.old.parts }
    requires none { due handler.old.parts ≡ None }
    ensures { (config : _) → handler.old.parts ≡ idle config → draft.old ≡ empty_sheet
        → PlaysTo config turns.now result handler.new.parts draft.new }
{
    'turns: for (index, turn) in turns.iter().enumerate() {
        let place = index as u64 + 1;
        if !handler.is_valid(turn) {
            return Err(RunError::OutOfTurn { place });
        }
        play_turn(alloc, handler, draft, place, turn)?;
    }
    Ok(())
}

/// Plays all turns on a draft of its own, and answers what it comes to.
fn run_on(
    alloc: Global,
    handler: &mut ConnectionHandler,
    turns: &[Turn],
) -> Result<Transcript, RunError>
    requires clean { handler.old ≡ quiet handler.old.parts }
    requires none { due handler.old.parts ≡ None }
    ensures { (config : _) → handler.old.parts ≡ idle config → Plays config turns.now result }
{
    let mut draft = Draft::new(alloc);
    match play_all(alloc, handler, &mut draft, turns) {
        Ok(()) => Ok(finish(alloc, handler, draft)?),
        Err(refused) => Err(refused),
    }
}

/// Plays the turns in order, each with all its due steps, and answers their transcript. A turn that may not come
/// where it stands is answered with its place, and none is played from it on. It plays them by the calls of
/// `ConnectionHandler`.
pub fn run(alloc: Global, config: Config, turns: &[Turn]) -> Result<Transcript, RunError>
    ensures { Plays config turns.now result }
{
    let mut handler = ConnectionHandler::new(alloc, config)?;
    run_on(alloc, &mut handler, turns)
}
