//! What is played on a session: the own steps of a turn, and the steps that are due.
ghost use Rattle.std.specs.Prelude.{◌≡◌, ℕ, not, OnOk, OnErr, IfOk, IfErr, IsTrue, is_some, None};
ghost use Rattle.nats_history.specs.declared.turn.Turn.TheVariants as turns;
ghost use Rattle.nats_history.specs.Schedule.{due, own_steps, call_reply};
ghost use Rattle.nats_session.specs.Handler.{can_play, seen_all};
ghost use Rattle.nats_core.specs.Journal.{reply_to, is_nothing, due_round, due_rounds};

use crate::entry::StepReply;
use nats_history::Due;
use nats_session::{Call, CallReply, ConnectionHandler, NoMemory, Turn};
use std::alloc::Global;

/// Takes in a call.
#[inline(always)]
pub(crate) fn submit(
    alloc: Global,
    handler: &mut ConnectionHandler,
    call: Call,
) -> Result<CallReply, Call>
    requires { IsTrue (can_play handler.old.parts (turns.Do call)) }
    ensures reply { IfOk result (λ reply. reply ≡ call_reply handler.old.parts call) }
    ensures seen { OnOk result (handler.new ≡ seen_all handler.old (own_steps handler.old.parts (turns.Do call))) }
    ensures back { IfErr result (λ back. back ≡ call) }
    ensures same { OnErr result (handler.new ≡ handler.old) }
{
    handler.submit(alloc, call)
}

/// Plays a call as a turn.
#[inline(always)]
fn play_call(
    alloc: Global,
    handler: &mut ConnectionHandler,
    call: Call,
) -> Result<StepReply, NoMemory>
    requires { IsTrue (can_play handler.old.parts (turns.Do call)) }
    ensures reply { IfOk result (λ reply. reply ≡ reply_to handler.old.parts (turns.Do call)) }
    ensures seen { OnOk result (handler.new ≡ seen_all handler.old (own_steps handler.old.parts (turns.Do call))) }
    ensures same { OnErr result (handler.new ≡ handler.old) }
{
    match submit(alloc, handler, call) {
        Ok(reply) => Ok(StepReply::Call(reply)),
        Err(_) => Err(NoMemory),
    }
}

/// Takes the oldest waiting message out.
fn play_take(handler: &mut ConnectionHandler, sid: u64) -> StepReply
    requires { IsTrue (can_play handler.old.parts (turns.Take sid)) }
    ensures reply { result ≡ reply_to handler.old.parts (turns.Take sid) }
    ensures seen { handler.new ≡ seen_all handler.old (own_steps handler.old.parts (turns.Take sid)) }
{
    StepReply::Take(handler.take(sid))
}

/// Plays the own steps of a turn.
#[inline(always)]
pub(crate) fn play_turn(
    alloc: Global,
    handler: &mut ConnectionHandler,
    turn: Turn,
) -> Result<StepReply, NoMemory>
    requires { IsTrue (can_play handler.old.parts turn) }
    ensures reply { IfOk result (λ reply. reply ≡ reply_to handler.old.parts turn) }
    ensures seen { OnOk result (handler.new ≡ seen_all handler.old (own_steps handler.old.parts turn)) }
    ensures same { OnErr result (handler.new ≡ handler.old) }
{
    match turn {
        Turn::Up(info) => {
            handler.up(alloc, info)?;
            Ok(StepReply::Done)
        }
        Turn::Piece(bytes) => {
            handler.shared_piece(alloc, &bytes)?;
            Ok(StepReply::Done)
        }
        Turn::Write(n) => {
            handler.written(n);
            Ok(StepReply::Done)
        }
        Turn::Tick => {
            handler.tick(alloc)?;
            Ok(StepReply::Done)
        }
        Turn::Lost => {
            handler.lost(alloc)?;
            Ok(StepReply::Done)
        }
        Turn::GiveUp => {
            handler.give_up(alloc)?;
            Ok(StepReply::Done)
        }
        Turn::Hangup => {
            handler.hang_up(alloc)?;
            Ok(StepReply::Done)
        }
        Turn::Do(call) => play_call(alloc, handler, call),
        Turn::Take(sid) => Ok(play_take(handler, sid)),
        Turn::Deadline(ticket) => {
            handler.deadline(ticket);
            Ok(StepReply::Done)
        }
    }
}

/// Whether a step was played.
fn is_step(due: Due) -> bool
    ensures { result ≡ not (is_nothing due) }
{
    !matches!(due, Due::Nothing)
}

/// Plays the step that is due, with what follows it at once. Whether one was due. A session at rest is not looked at.
#[inline]
fn play_one(alloc: Global, handler: &mut ConnectionHandler) -> Result<bool, NoMemory>
    ensures one { OnOk result (handler.new ≡ due_round handler.old) }
    ensures some { IfOk result (λ some. some ≡ is_some (due handler.old.parts)) }
    ensures wants { OnErr result (IsTrue (is_some (due handler.old.parts))) }
    ensures same { OnErr result (handler.new ≡ handler.old) }
{
    if handler.is_at_rest() {
        return Ok(false);
    }
    Ok(is_step(handler.advance(alloc)?))
}

/// Plays the steps that are due, one after another, until none is.
pub(crate) fn play_due(alloc: Global, handler: &mut ConnectionHandler) -> Result<(), NoMemory>
    ensures rounds { (rounds : ℕ) × (handler.new ≡ due_rounds rounds handler.old) }
    ensures ok { OnOk result (due handler.new.parts ≡ None) }
    ensures err { OnErr result (IsTrue (is_some (due handler.new.parts))) }
{
    'due: while play_one(alloc, handler)? {}
    Ok(())
}
