//! Turns as they are played and noted. The memory of a note is taken before its turn is played.
ghost use Rattle.std.specs.Prelude.{◌≡◌, ◌<◌, ◌++◌, ◌∷◌, [], OnOk, OnErr, IfOk, IfErr, IsTrue, vec_len, vec_capacity};
ghost use Rattle.nats_history.specs.declared.turn.Turn.TheVariants as turns;
ghost use Rattle.nats_history.specs.Schedule.{own_steps, call_reply};
ghost use Rattle.nats_session.specs.Handler.{can_play, seen_all};
ghost use Rattle.nats_core.specs.declared.entry.StepReply.TheVariants as replies;
ghost use Rattle.nats_core.specs.Journal.{reply_to, entries_with, entry_of};
ghost use Rattle.nats_core.specs.Replies.{IsPlain, IsPlainReply, message_of, waiting_for};

use crate::again::{call_again, message_for, reply_again};
use crate::entry::{Entry, StepReply};
use crate::plays::{play_turn, submit};
use nats_session::{Bytes, Call, CallReply, ConnectionHandler, Message, NoMemory, Turn};
use std::alloc::Global;

/// What the note of a turn takes memory for: the turn again, and the message that it is to take.
#[derive(Drop)]
struct Note {
    turn: Turn,
    message: Option<Message>,
}

/// What the note of a turn takes memory for.
fn note_for(alloc: Global, handler: &ConnectionHandler, turn: &Turn) -> Result<Note, NoMemory>
    ensures turn { IfOk result (λ note. note.turn ≡ turn.now) }
    ensures message { IfOk result (λ note. note.message ≡ waiting_for handler.now.parts turn.now) }
{
    let noted = turn.copy(alloc)?;
    let message = message_for(alloc, handler, turn)?;
    Ok(Note {
        turn: noted,
        message,
    })
}

/// The entry of a turn that was played, with its reply.
fn entry_with(note: Note, reply: &StepReply) -> Entry
    requires plain { IsPlainReply reply.now }
    requires message { note.message ≡ message_of reply.now }
    ensures { result ≡ record { turn = note.turn; reply = reply.now } }
{
    let Note { turn, message } = note;
    Entry {
        turn,
        reply: reply_again(reply, message),
    }
}

/// Plays the own steps of a turn, and notes it where memory is kept for that.
fn play_into(
    alloc: Global,
    handler: &mut ConnectionHandler,
    entries: &mut Vec<Entry>,
    note: Note,
    turn: Turn,
) -> Result<StepReply, NoMemory>
    requires may { IsTrue (can_play handler.old.parts turn) }
    requires room { vec_len entries.old < vec_capacity entries.old }
    requires turn { note.turn ≡ turn }
    requires message { note.message ≡ waiting_for handler.old.parts turn }
    ensures reply { IfOk result (λ reply. reply ≡ reply_to handler.old.parts turn) }
    ensures seen { OnOk result (handler.new ≡ seen_all handler.old (own_steps handler.old.parts turn)) }
    ensures noted { OnOk result (entries.new.items ≡ entries.old.items ++ entry_of handler.old.parts turn ∷ []) }
    ensures same { OnErr result (handler.new ≡ handler.old) }
    ensures stay { OnErr result (entries.new.items ≡ entries.old.items) }
{
    let reply = play_turn(alloc, handler, turn)?;
    entries.push_reserved(entry_with(note, &reply));
    Ok(reply)
}

/// Plays the own steps of a turn and notes it.
fn play_noted(
    alloc: Global,
    handler: &mut ConnectionHandler,
    entries: &mut Vec<Entry>,
    turn: Turn,
) -> Result<StepReply, NoMemory>
    requires { IsTrue (can_play handler.old.parts turn) }
    ensures reply { IfOk result (λ reply. reply ≡ reply_to handler.old.parts turn) }
    ensures seen { OnOk result (handler.new ≡ seen_all handler.old (own_steps handler.old.parts turn)) }
    ensures noted { OnOk result (entries.new.items ≡ entries.old.items ++ entry_of handler.old.parts turn ∷ []) }
    ensures same { OnErr result (handler.new ≡ handler.old) }
    ensures stay { OnErr result (entries.new.items ≡ entries.old.items) }
{
    entries.reserve(1)?;
    let note = note_for(alloc, handler, &turn)?;
    play_into(alloc, handler, entries, note, turn)
}

/// Plays the own steps of a turn, and notes it where the journal is kept.
#[inline(always)]
pub(crate) fn play_own(
    alloc: Global,
    is_kept: bool,
    handler: &mut ConnectionHandler,
    entries: &mut Vec<Entry>,
    turn: Turn,
) -> Result<StepReply, NoMemory>
    requires { IsTrue (can_play handler.old.parts turn) }
    ensures reply { IfOk result (λ reply. reply ≡ reply_to handler.old.parts turn) }
    ensures seen { OnOk result (handler.new ≡ seen_all handler.old (own_steps handler.old.parts turn)) }
    ensures noted { OnOk result
        (entries.new.items ≡ entries_with is_kept (entry_of handler.old.parts turn) entries.old.items) }
    ensures same { OnErr result (handler.new ≡ handler.old) }
    ensures stay { OnErr result (entries.new.items ≡ entries.old.items) }
{
    if is_kept {
        play_noted(alloc, handler, entries, turn)
    } else {
        play_turn(alloc, handler, turn)
    }
}

/// Plays and notes a piece, whose bytes are copied for the journal alone.
pub(crate) fn piece_own(
    alloc: Global,
    is_kept: bool,
    handler: &mut ConnectionHandler,
    entries: &mut Vec<Entry>,
    bytes: &[u8],
) -> Result<(), NoMemory>
    requires { IsTrue (can_play handler.old.parts (turns.Piece bytes.now)) }
    ensures seen { OnOk result
        (handler.new ≡ seen_all handler.old (own_steps handler.old.parts (turns.Piece bytes.now))) }
    ensures noted { OnOk result (entries.new.items
        ≡ entries_with is_kept (entry_of handler.old.parts (turns.Piece bytes.now)) entries.old.items) }
    ensures same { OnErr result (handler.new ≡ handler.old) }
    ensures stay { OnErr result (entries.new.items ≡ entries.old.items) }
{
    if !is_kept {
        return handler.piece(alloc, bytes);
    }
    let piece = Bytes::copy_from_slice(alloc, bytes)?;
    play_noted(alloc, handler, entries, Turn::Piece(piece))?;
    Ok(())
}

/// The entry of a call that was made, with its reply.
fn call_entry(note: Call, reply: &CallReply) -> Entry
    requires { IsPlain reply.now }
    ensures { result ≡ record { turn = turns.Do note; reply = replies.Call reply.now } }
{
    Entry {
        turn: Turn::Do(note),
        reply: StepReply::Call(call_again(reply)),
    }
}

/// Takes in a call, and notes it where memory is kept for that.
fn submit_into(
    alloc: Global,
    handler: &mut ConnectionHandler,
    entries: &mut Vec<Entry>,
    note: Call,
    call: Call,
) -> Result<CallReply, Call>
    requires may { IsTrue (can_play handler.old.parts (turns.Do call)) }
    requires room { vec_len entries.old < vec_capacity entries.old }
    requires call { note ≡ call }
    ensures reply { IfOk result (λ reply. reply ≡ call_reply handler.old.parts call) }
    ensures seen { OnOk result (handler.new ≡ seen_all handler.old (own_steps handler.old.parts (turns.Do call))) }
    ensures noted { OnOk result
        (entries.new.items ≡ entries.old.items ++ entry_of handler.old.parts (turns.Do call) ∷ []) }
    ensures back { IfErr result (λ back. back ≡ call) }
    ensures same { OnErr result (handler.new ≡ handler.old) }
    ensures stay { OnErr result (entries.new.items ≡ entries.old.items) }
{
    let reply = submit(alloc, handler, call)?;
    entries.push_reserved(call_entry(note, &reply));
    Ok(reply)
}

/// Takes in a call and notes it.
fn submit_noted(
    alloc: Global,
    handler: &mut ConnectionHandler,
    entries: &mut Vec<Entry>,
    call: Call,
) -> Result<CallReply, Call>
    requires { IsTrue (can_play handler.old.parts (turns.Do call)) }
    ensures reply { IfOk result (λ reply. reply ≡ call_reply handler.old.parts call) }
    ensures seen { OnOk result (handler.new ≡ seen_all handler.old (own_steps handler.old.parts (turns.Do call))) }
    ensures noted { OnOk result
        (entries.new.items ≡ entries.old.items ++ entry_of handler.old.parts (turns.Do call) ∷ []) }
    ensures back { IfErr result (λ back. back ≡ call) }
    ensures same { OnErr result (handler.new ≡ handler.old) }
    ensures stay { OnErr result (entries.new.items ≡ entries.old.items) }
{
    if entries.reserve(1).is_err() {
        return Err(call);
    }
    match call.copy(alloc) {
        Ok(note) => submit_into(alloc, handler, entries, note, call),
        Err(NoMemory) => Err(call),
    }
}

/// Takes in a call, and notes it where the journal is kept.
pub(crate) fn submit_own(
    alloc: Global,
    is_kept: bool,
    handler: &mut ConnectionHandler,
    entries: &mut Vec<Entry>,
    call: Call,
) -> Result<CallReply, Call>
    requires { IsTrue (can_play handler.old.parts (turns.Do call)) }
    ensures reply { IfOk result (λ reply. reply ≡ call_reply handler.old.parts call) }
    ensures seen { OnOk result (handler.new ≡ seen_all handler.old (own_steps handler.old.parts (turns.Do call))) }
    ensures noted { OnOk result (entries.new.items
        ≡ entries_with is_kept (entry_of handler.old.parts (turns.Do call)) entries.old.items) }
    ensures back { IfErr result (λ back. back ≡ call) }
    ensures same { OnErr result (handler.new ≡ handler.old) }
    ensures stay { OnErr result (entries.new.items ≡ entries.old.items) }
{
    if is_kept {
        submit_noted(alloc, handler, entries, call)
    } else {
        submit(alloc, handler, call)
    }
}
