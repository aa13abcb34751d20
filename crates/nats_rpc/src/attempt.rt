//! One poll of a call, over a core where no step is due.
ghost use Rattle.std.specs.Prelude.{◌≡◌, ◌-◌, ◌^◌, ◌<◌, ◌≤◌, length, IfOk, OnOk, OnErr, Err, None};
ghost use Rattle.nats_history.specs.declared.turn.Turn.TheVariants as turns;
ghost use Rattle.nats_tickets.specs.Kept.{reply_in};
ghost use Rattle.nats_core.specs.declared.answers.StepError.TheVariants as refused;
ghost use Rattle.nats_core.specs.Calls.{PlaysDue, Steps};
ghost use Rattle.nats_rpc.specs.Calls.{rested, token_of, is_over, request_of};
ghost use Rattle.nats_rpc.specs.Polling.{taken_out, is_wanting, PlaysDeadline, Expires, Sends, Tries, Waits, Moves};

use crate::asked::{Asked, Attempt, Phase};
use crate::outcome::Outcome;
use crate::terms::{NAME_LIMIT, Terms};
use nats_core::{Call, CallReply, Core, NoMemory, StepError, StepReply, Token, Turn};
use std::alloc::Global;

/// The token of an attempt: the name, and the attempt's number in decimal.
fn token_of(alloc: Global, terms: &Terms, number: u64) -> Result<Token, NoMemory>
    requires { length terms.now.name ≤ NAME_LIMIT }
    ensures { IfOk result (λ token. token ≡ token_of terms.now.name number) }
{
    let name = terms.name.as_str();
    let text = format!(in alloc; "{name}{number}")?;
    match Token::new(text.as_str()) {
        Some(token) => Ok(token),
        None => unreachable!(),
    }
}

/// The request of an attempt.
fn request_of(alloc: Global, terms: &Terms, asked: &Asked, number: u64) -> Result<Call, NoMemory>
    requires { length terms.now.name ≤ NAME_LIMIT }
    ensures { IfOk result (λ call. call ≡ request_of terms.now number asked.now) }
{
    let token = token_of(alloc, terms, number)?;
    let subject = asked.subject.copy(alloc)?;
    let payload = asked.payload.clone()?;
    Ok(Call::Request {
        subject,
        payload,
        headers: None,
        token,
    })
}

/// Whether an attempt waited as long as it may.
fn is_over(patience: u64, attempt: Attempt, now: u64) -> bool
    ensures { result ≡ is_over patience attempt now }
{
    match attempt.start.checked_add(patience) {
        Some(end) => end <= now,
        None => false,
    }
}

/// Whether memory was wanting for a turn.
fn is_wanting(played: Result<StepReply, StepError>) -> bool
    ensures { result ≡ is_wanting played }
{
    match played {
        Err(StepError::NoMemory) => true,
        Err(StepError::OutOfTurn | StepError::LinkGone { .. }) => false,
        Ok(_) => false,
    }
}

/// Plays the deadline of a ticket, where it is of a request.
fn play_deadline(alloc: Global, core: &mut Core, ticket: u64) -> Result<(), NoMemory>
    ensures ok { OnOk result (PlaysDeadline ticket core.old core.new) }
    ensures err { OnErr result (Steps core.old (turns.Deadline ticket) (Err refused.NoMemory) core.new) }
{
    if is_wanting(core.step(alloc, Turn::Deadline(ticket))) {
        return Err(NoMemory);
    }
    Ok(())
}

/// Takes the reply of a ticket, if it has one, so that the core keeps nothing of it.
fn forget(core: &mut Core, ticket: u64)
    ensures { core.new ≡ taken_out ticket core.old }
{
    let _ = core.reply_of(ticket);
}

/// Plays the deadline of an attempt, and takes its reply at once.
fn expire(alloc: Global, asked: &mut Asked, core: &mut Core, ticket: u64) -> Result<(), NoMemory>
    ensures ok { OnOk result (Expires ticket core.old core.new) }
    ensures asked { OnOk result (asked.new ≡ rested asked.old) }
    ensures err { OnErr result (Steps core.old (turns.Deadline ticket) (Err refused.NoMemory) core.new) }
    ensures same { OnErr result (asked.new ≡ asked.old) }
{
    play_deadline(alloc, core, ticket)?;
    forget(core, ticket);
    asked.rest();
    Ok(())
}

/// Submits the request of the next attempt. It uses up a try and a number only where it is accepted.
fn send(
    alloc: Global,
    terms: &Terms,
    numbers: &mut u64,
    asked: &mut Asked,
    core: &mut Core,
    now: u64,
) -> Result<(), NoMemory>
    requires name { length terms.now.name ≤ NAME_LIMIT }
    requires numbers { numbers.old < 2 ^ 64 - 1 }
    requires tried { asked.old.tried < 2 ^ 64 - 1 }
    ensures ok { OnOk result (Sends terms.now now numbers.old asked.old core.old numbers.new asked.new core.new) }
    ensures err { OnErr result (PlaysDue core.old core.new) }
    ensures numbers { OnErr result (numbers.new ≡ numbers.old) }
    ensures asked { OnErr result (asked.new ≡ asked.old) }
{
    let call = request_of(alloc, terms, asked, *numbers + 1)?;
    match core.submit(alloc, call) {
        Ok(reply) => {
            if asked.take_reply(reply, now) {
                *numbers += 1;
            }
            Ok(())
        }
        Err(_) => Err(NoMemory),
    }
}

/// Makes the next attempt of a call without one, if it has a try and a number left; else the call settles.
fn try_again(
    alloc: Global,
    terms: &Terms,
    numbers: &mut u64,
    asked: &mut Asked,
    core: &mut Core,
    now: u64,
) -> Result<(), NoMemory>
    requires { length terms.now.name ≤ NAME_LIMIT }
    ensures { Tries terms.now now numbers.old asked.old core.old result numbers.new asked.new core.new }
{
    if asked.tried >= terms.tries {
        asked.settle(Outcome::TimedOut);
        return Ok(());
    }
    if *numbers == u64::MAX {
        asked.settle(Outcome::Refused(CallReply::NoNumber));
        return Ok(());
    }
    send(alloc, terms, numbers, asked, core, now)
}

/// Lets an attempt without a reply wait on; or it waited as long as it may, and behind its deadline comes the next.
fn await_longer(
    alloc: Global,
    terms: &Terms,
    numbers: &mut u64,
    asked: &mut Asked,
    core: &mut Core,
    now: u64,
    attempt: Attempt,
) -> Result<(), NoMemory>
    requires name { length terms.now.name ≤ NAME_LIMIT }
    requires none { reply_in attempt.ticket core.old.session.ready ≡ None }
    ensures { Waits terms.now now attempt numbers.old asked.old core.old result numbers.new asked.new core.new }
{
    if !is_over(terms.patience, attempt, now) {
        return Ok(());
    }
    expire(alloc, asked, core, attempt.ticket)?;
    try_again(alloc, terms, numbers, asked, core, now)
}

/// Sees what became of an attempt: a reply settles the call.
fn await_reply(
    alloc: Global,
    terms: &Terms,
    numbers: &mut u64,
    asked: &mut Asked,
    core: &mut Core,
    now: u64,
    attempt: Attempt,
) -> Result<(), NoMemory>
    requires { length terms.now.name ≤ NAME_LIMIT }
    ensures { Waits terms.now now attempt numbers.old asked.old core.old result numbers.new asked.new core.new }
{
    match core.reply_of(attempt.ticket) {
        Some(reply) => {
            asked.settle(Outcome::of_reply(reply));
            Ok(())
        }
        None => await_longer(alloc, terms, numbers, asked, core, now, attempt),
    }
}

/// Does for a call what is to be done at this time.
pub fn advance(
    alloc: Global,
    terms: &Terms,
    numbers: &mut u64,
    asked: &mut Asked,
    core: &mut Core,
    now: u64,
) -> Result<(), NoMemory>
    requires { length terms.now.name ≤ NAME_LIMIT }
    ensures { Moves terms.now now numbers.old asked.old core.old result numbers.new asked.new core.new }
{
    match asked.phase() {
        Phase::Settled => Ok(()),
        Phase::Live(attempt) => await_reply(alloc, terms, numbers, asked, core, now, attempt),
        Phase::Resting => try_again(alloc, terms, numbers, asked, core, now),
    }
}
