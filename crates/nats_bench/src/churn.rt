//! Subscriptions that are made and dropped again, one after another, on one session.
ghost use Rattle.std.specs.Prelude.{◌≡◌, ◌&&◌, not, IfOk, IsTrue, is_some};
ghost use Rattle.nats_history.specs.Schedule.{due};
ghost use Rattle.nats_history.specs.declared.turn.Turn.TheVariants as turns;
ghost use Rattle.nats_session.specs.Handler.{can_play};

use nats_session::{
    Call, CallReply, Config, ConnectionHandler, Due, NoMemory, ServerInfo, Subject, Turn,
};
use std::alloc::Global;
use std::fmt;

/// What subscriptions left that were made and dropped again.
#[derive(Clone, Copy)]
pub struct Left {
    /// The number that the last one was given.
    pub given: u64,
    /// The calls that were handled: two for each.
    pub handled: u64,
    /// Of the numbers given, those that a turn may still name.
    pub named: u64,
    /// The bytes that wait for the link.
    pub waiting: u64,
}

/// Prints a line for each count.
impl fmt::Display for Left {
    fn fmt<W: fmt::Write>(&self, f: &mut fmt::Formatter<W>) -> fmt::Result {
        writeln!(f, "given {}", self.given)?;
        writeln!(f, "handled {}", self.handled)?;
        writeln!(f, "named {}", self.named)?;
        writeln!(f, "waiting {}", self.waiting)
    }
}

/// The most bytes of a payload, as the server says.
const MAX_PAYLOAD: u64 = 1_048_576;

fn server_info(alloc: Global) -> ServerInfo {
    let mut info = ServerInfo::default(alloc);
    info.max_payload = MAX_PAYLOAD;
    info
}

/// Whether a turn may come now.
pub fn may_play(session: &ConnectionHandler, turn: Turn) -> bool
    ensures { result ≡ can_play session.now.parts turn }
{
    session.check(&turn)
}

/// Whether a link may come up now, whatever its server says of itself.
fn may_come_up(alloc: Global, session: &ConnectionHandler) -> bool
    ensures { result
        ≡ ((not session.now.parts.link.is_up && not session.now.parts.is_closed)
        && not (is_some (due session.now.parts))) }
{
    may_play(session, Turn::Up(server_info(alloc)))
}

/// A link comes up where none is, of a server that says nothing of itself but the most bytes of a payload.
pub fn bring_up(alloc: Global, session: &mut ConnectionHandler) -> Result<(), NoMemory> {
    if may_come_up(alloc, session) {
        session.up(alloc, server_info(alloc))
    } else {
        Ok(())
    }
}

/// Whether a call may come now.
fn may_do(alloc: Global, session: &ConnectionHandler, call: &Call) -> Result<bool, NoMemory>
    ensures { IfOk result (λ may. may ≡ can_play session.now.parts (turns.Do call.now)) }
{
    let call = call.copy(alloc)?;
    Ok(may_play(session, Turn::Do(call)))
}

/// Makes a call that may come; the number that it gave, if it gave one.
fn hand_in(
    alloc: Global,
    session: &mut ConnectionHandler,
    call: Call,
) -> Result<Option<u64>, NoMemory>
    requires { IsTrue (can_play session.old.parts (turns.Do call)) }
{
    let outcome = session.submit(alloc, call);
    number_told(&outcome)
}

/// Makes a call where it may come; the number that it gave, if it gave one.
pub fn submit(
    alloc: Global,
    session: &mut ConnectionHandler,
    call: &Call,
) -> Result<Option<u64>, NoMemory> {
    if may_do(alloc, session, call)? {
        hand_in(alloc, session, call.copy(alloc)?)
    } else {
        Ok(None)
    }
}

fn number_told(outcome: &Result<CallReply, Call>) -> Result<Option<u64>, NoMemory> {
    match outcome {
        Ok(reply) => Ok(given_number(reply)),
        Err(_) => Err(NoMemory),
    }
}

fn given_number(reply: &CallReply) -> Option<u64> {
    match reply {
        CallReply::Numbered(number) => Some(*number),
        CallReply::Accepted
        | CallReply::InvalidSubject
        | CallReply::InvalidQueueName
        | CallReply::MaxPayloadExceeded { .. }
        | CallReply::Closed
        | CallReply::NoNumber
        | CallReply::Full
        | CallReply::Flushed
        | CallReply::Replied(_)
        | CallReply::FlushFailed
        | CallReply::NoResponders
        | CallReply::TimedOut
        | CallReply::Dropped => None,
    }
}

/// Plays the step that is due: how many calls it handled.
pub fn handle(alloc: Global, session: &mut ConnectionHandler) -> Result<u64, NoMemory> {
    let due = session.advance(alloc)?;
    Ok(handled(&due))
}

fn handled(due: &Due) -> u64 {
    match due {
        Due::Handled => 1,
        Due::Nothing | Due::Read | Due::Put(_) | Due::Dropped(..) | Due::Ended => 0,
    }
}

/// The link takes all that waits.
pub fn write(session: &mut ConnectionHandler) {
    if session.check(&Turn::Write(u64::MAX)) {
        session.written(u64::MAX);
    }
}

/// Asks for a subscription: the number that it gets.
pub fn make(alloc: Global, session: &mut ConnectionHandler) -> Result<Option<u64>, NoMemory> {
    let call = Call::Subscribe {
        subject: Subject::from_static("churn"),
        queue_group: None,
    };
    submit(alloc, session, &call)
}

/// Drops the subscription of a number.
fn let_go(
    alloc: Global,
    session: &mut ConnectionHandler,
    number: u64,
) -> Result<Option<u64>, NoMemory> {
    let call = Call::DropSub(number);
    submit(alloc, session, &call)
}

/// A subscription is made and dropped again, and its texts are taken.
fn make_and_drop(
    alloc: Global,
    session: &mut ConnectionHandler,
    left: &mut Left,
) -> Result<(), NoMemory> {
    let Some(number) = make(alloc, session)? else {
        return Ok(());
    };
    let made = handle(alloc, session)?;
    let_go(alloc, session, number)?;
    let dropped = handle(alloc, session)?;
    write(session);
    left.given = number;
    left.handled = left.handled.saturating_add(made).saturating_add(dropped);
    Ok(())
}

/// How many of the numbers up to `last` a turn may name.
pub fn named(session: &ConnectionHandler, last: u64) -> u64 {
    let mut count = 0u64;
    for s in 1..=last {
        if may_play(session, Turn::Take(s)) {
            count = count.saturating_add(1);
        }
    }
    count
}

fn churn_on(
    alloc: Global,
    session: &mut ConnectionHandler,
    count: usize,
) -> Result<Left, NoMemory> {
    let mut left = Left {
        given: 0,
        handled: 0,
        named: 0,
        waiting: 0,
    };
    bring_up(alloc, session)?;
    for _ in 0..count {
        make_and_drop(alloc, session, &mut left)?;
    }
    left.named = named(session, left.given);
    left.waiting = session.pending();
    Ok(left)
}

/// Makes and drops `count` subscriptions, one after another, on one session.
pub fn churn(alloc: Global, config: Config, count: usize) -> Result<Left, NoMemory> {
    let mut session = ConnectionHandler::new(alloc, config)?;
    churn_on(alloc, &mut session, count)
}
