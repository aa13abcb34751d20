//! Turns as they are played and noted under a seat. The memory of a note is taken before its turn is played.
ghost use Rattle.std.specs.Prelude.{◌≡◌, ◌<◌, ◌++◌, ◌∷◌, [], true, OnOk, OnErr, IfOk, IfErr, IsTrue, None, vec_len, vec_capacity};
ghost use Rattle.nats_history.specs.Schedule.{due};
ghost use Rattle.nats_session.specs.Handler.{can_play};
ghost use Rattle.nats_core.specs.Journal.{StandsForAll, config_of, journal_turns, reply_to};
ghost use Rattle.nats_core.specs.Calls.{parts_in};
ghost use Rattle.nats_core.specs.Replies.{IsPlainReply, message_of, waiting_for};
ghost use Rattle.nats_desk.specs.Journal.{IsNoted, entry, plain_entry, may_come, reply_at};
ghost use Rattle.nats_desk.specs.Refusals.{Refused};

use crate::entry::SeatEntry;
use crate::errors::PlayError;
use nats_core::again::{message_for, reply_again};
use nats_core::{Core, Message, NoMemory, StepReply, Turn};
use std::alloc::Global;

/// What the note of a turn takes memory for: the turn again, and the message that it is to take.
#[derive(Drop)]
struct Note {
    turn: Turn,
    message: Option<Message>,
}

/// What the note of a turn takes memory for.
fn note_for(alloc: Global, core: &Core, turn: &Turn) -> Result<Note, NoMemory>
    ensures turn { IfOk result (λ note. note.turn ≡ turn.now) }
    ensures message { IfOk result (λ note. note.message ≡ waiting_for (parts_in core.now) turn.now) }
{
    let noted = turn.copy(alloc)?;
    let message = message_for(alloc, core.handler(), turn)?;
    Ok(Note {
        turn: noted,
        message,
    })
}

/// The entry of a turn that a seat played, with its reply.
fn entry_with(seat: u64, note: Note, reply: &StepReply) -> SeatEntry
    requires plain { IsPlainReply reply.now }
    requires message { note.message ≡ message_of reply.now }
    ensures { result ≡ entry seat note.turn reply.now }
{
    let Note { turn, message } = note;
    SeatEntry {
        seat,
        turn,
        reply: reply_again(reply, message),
    }
}

/// A place in the journal, and what else the note of a turn takes memory for.
fn prepare(
    alloc: Global,
    core: &Core,
    journal: &mut Vec<SeatEntry>,
    turn: &Turn,
) -> Result<Note, NoMemory>
    ensures room { OnOk result (vec_len journal.new < vec_capacity journal.new) }
    ensures turn { IfOk result (λ note. note.turn ≡ turn.now) }
    ensures message { IfOk result (λ note. note.message ≡ waiting_for (parts_in core.now) turn.now) }
    ensures same { journal.new.items ≡ journal.old.items }
{
    journal.reserve(1)?;
    note_for(alloc, core, turn)
}

/// Plays a turn and notes it where memory is kept for that. Where memory is wanting the turn comes back.
fn play_noted(
    alloc: Global,
    seat: u64,
    core: &mut Core,
    journal: &mut Vec<SeatEntry>,
    note: Note,
    turn: Turn,
) -> Result<StepReply, Turn>
    requires may { IsTrue (can_play (parts_in core.old) turn) }
    requires kept { core.old.is_kept ≡ true }
    requires room { vec_len journal.old < vec_capacity journal.old }
    requires turn { note.turn ≡ turn }
    requires message { note.message ≡ waiting_for (parts_in core.old) turn }
    ensures reply { IfOk result (λ reply. reply ≡ reply_to (parts_in core.old) turn) }
    ensures noted { IfOk result (λ reply. journal.new.items ≡ journal.old.items ++ entry seat turn reply ∷ []) }
    ensures entries { IfOk result (λ reply. core.new.entries
        ≡ core.old.entries ++ plain_entry (entry seat turn reply) ∷ []) }
    ensures back { IfErr result (λ back. back ≡ turn) }
    ensures stay { OnErr result (journal.new.items ≡ journal.old.items) }
    ensures stays { OnErr result (core.new.entries ≡ core.old.entries) }
    ensures kept { core.new.is_kept ≡ core.old.is_kept }
    ensures config { config_of core.new ≡ config_of core.old }
{
    match core.step(alloc, turn) {
        Ok(reply) => {
            journal.push_reserved(entry_with(seat, note, &reply));
            Ok(reply)
        }
        Err(_) => {
            let Note { turn, message: _ } = note;
            Err(turn)
        }
    }
}

/// Whether a turn may be played next. Where no step is due the session stands for all steps of the core's journal.
fn may_play(core: &Core, turn: &Turn) -> bool
    ensures may { result ≡ can_play (parts_in core.now) turn.now }
    ensures whole { core.now.is_kept ≡ true → due (parts_in core.now) ≡ None
        → StandsForAll (config_of core.now) (journal_turns core.now) core.now.session }
{
    core.handler().check(turn)
}

/// Plays a turn that may come and notes it. Where memory is wanting the turn comes back.
fn play_prepared(
    alloc: Global,
    seat: u64,
    core: &mut Core,
    journal: &mut Vec<SeatEntry>,
    turn: Turn,
) -> Result<StepReply, Turn>
    requires may { IsTrue (can_play (parts_in core.old) turn) }
    requires kept { core.old.is_kept ≡ true }
    ensures reply { IfOk result (λ reply. reply ≡ reply_to (parts_in core.old) turn) }
    ensures noted { IfOk result (λ reply. journal.new.items ≡ journal.old.items ++ entry seat turn reply ∷ []) }
    ensures entries { IfOk result (λ reply. core.new.entries
        ≡ core.old.entries ++ plain_entry (entry seat turn reply) ∷ []) }
    ensures back { IfErr result (λ back. back ≡ turn) }
    ensures stay { OnErr result (journal.new.items ≡ journal.old.items) }
    ensures stays { OnErr result (core.new.entries ≡ core.old.entries) }
    ensures kept { core.new.is_kept ≡ core.old.is_kept }
    ensures config { config_of core.new ≡ config_of core.old }
{
    match prepare(alloc, core, journal, &turn) {
        Ok(note) => play_noted(alloc, seat, core, journal, note, turn),
        Err(NoMemory) => Err(turn),
    }
}

/// Plays a turn and notes it where no step is due, if it may come and the journal has room.
fn play_next(
    alloc: Global,
    seat: u64,
    has_room: bool,
    core: &mut Core,
    journal: &mut Vec<SeatEntry>,
    turn: Turn,
) -> Result<StepReply, PlayError>
    requires none { due (parts_in core.old) ≡ None }
    requires noted { IsNoted core.old journal.old.items }
    ensures played { IfOk result (λ reply. journal.new.items ≡ journal.old.items ++ entry seat turn reply ∷ []) }
    ensures exact { IfOk result (λ reply. (may_come (config_of core.old) journal.old.items turn ≡ true)
        × (reply ≡ reply_at (config_of core.old) journal.old.items turn)) }
    ensures room { OnOk result (IsTrue has_room) }
    ensures refused { IfErr result (λ e. Refused (config_of core.old) journal.old.items turn e) }
    ensures stay { OnErr result (journal.new.items ≡ journal.old.items) }
    ensures noted { IsNoted core.new journal.new.items }
    ensures config { config_of core.new ≡ config_of core.old }
{
    if !may_play(core, &turn) {
        return Err(PlayError::OutOfTurn(turn));
    }
    if !has_room {
        return Err(PlayError::NoMemory(turn));
    }
    match play_prepared(alloc, seat, core, journal, turn) {
        Ok(reply) => Ok(reply),
        Err(back) => Err(PlayError::NoMemory(back)),
    }
}

/// Plays a turn and notes it, once all steps that were due are played, if it may come and the journal has room.
pub(crate) fn play_turn(
    alloc: Global,
    seat: u64,
    has_room: bool,
    core: &mut Core,
    journal: &mut Vec<SeatEntry>,
    turn: Turn,
) -> Result<StepReply, PlayError>
    requires { IsNoted core.old journal.old.items }
    ensures played { IfOk result (λ reply. journal.new.items ≡ journal.old.items ++ entry seat turn reply ∷ []) }
    ensures exact { IfOk result (λ reply. (may_come (config_of core.old) journal.old.items turn ≡ true)
        × (reply ≡ reply_at (config_of core.old) journal.old.items turn)) }
    ensures room { OnOk result (IsTrue has_room) }
    ensures refused { IfErr result (λ e. Refused (config_of core.old) journal.old.items turn e) }
    ensures stay { OnErr result (journal.new.items ≡ journal.old.items) }
    ensures noted { IsNoted core.new journal.new.items }
    ensures config { config_of core.new ≡ config_of core.old }
{
    match core.catch_up(alloc) {
        Ok(()) => play_next(alloc, seat, has_room, core, journal, turn),
        Err(NoMemory) => Err(PlayError::NoMemory(turn)),
    }
}
