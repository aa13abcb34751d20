//! Messages of a subject are received on a link: the subscribe, and then reads, until enough messages were taken.
ghost use Rattle.std.specs.Prelude.{◌≡◌, ◌≤◌, ◌<◌, ℕ, [], List, ◌++◌, length, IsTrue, OnOk};
ghost use Rattle.nats_message_text.specs.Printed.{message_line};
ghost use Rattle.nats_dial.specs.Lines.{Took};
ghost use Rattle.nats_lines.specs.Operations.{Operation};
ghost use Rattle.nats_core.specs.Calls.{parts_in};
ghost use Rattle.nats_live.specs.Flow.{HasBegun, IsWritten, ReceiveEnds, ReceivesAll, Receives, Subscribes, TakesAll, TakesOne, message_in, subscribe_answer};

use crate::error::LiveError;
use crate::step::{play, read_some, write_some};
use nats_core::{
    Call, CallReply, Core, LinkRead, LinkWrite, Message, NoMemory, StepReply, Subject, TakeReply,
    Turn, WriteOnce,
};
use nats_message_text::push_message_line;
use nats_names::Cause;
use nats_system::{SubscribeError, SubscribeErrorKind};
use std::alloc::Global;
use std::sync::Wait;

/// The length of the buffer that is read into, in bytes: fewer than the messages that may wait. The crate's default.
pub const READ_SIZE: usize = 65_535;

/// The number of the one subscription.
const SUBSCRIPTION: u64 = 1;

// What the reply to a subscribe comes to, as a client tells it.
fn subscribe_answer(reply: StepReply) -> Result<(), LiveError>
    ensures { result ≡ subscribe_answer reply }
{
    match reply {
        StepReply::Call(CallReply::Numbered(_)) => Ok(()),
        StepReply::Call(CallReply::InvalidSubject) => Err(LiveError::Subscribe(
            SubscribeError::with_source(SubscribeErrorKind::InvalidSubject, Cause::Format),
        )),
        StepReply::Call(_) | StepReply::Done | StepReply::Take(_) => Err(LiveError::Subscribe(
            SubscribeError::with_source(SubscribeErrorKind::Other, Cause::Closed),
        )),
    }
}

// Subscribes to a subject on a session that has begun.
fn subscribe(alloc: Global, core: &mut Core, subject: &str) -> Result<(), LiveError>
    ensures { (most : ℕ) (joined : List ℕ) → HasBegun most joined core.old.session
        → Subscribes joined subject.now result core.old.session core.new.session }
{
    let call = Call::Subscribe {
        subject: Subject::from_text(alloc, subject)?,
        queue_group: None,
    };
    let reply = play(alloc, core, Turn::Do(call))?;
    subscribe_answer(reply)
}

// The message of a reply to a take, where one waited.
fn message_in(reply: StepReply) -> Option<Message>
    ensures { result ≡ message_in reply }
{
    match reply {
        StepReply::Take(TakeReply::Message(message)) => Some(message),
        StepReply::Take(_) | StepReply::Call(_) | StepReply::Done => None,
    }
}

// Takes the oldest message that waits; none where none does.
fn take_one(alloc: Global, core: &mut Core) -> Result<Option<Message>, LiveError>
    ensures { (subject joined took : List ℕ) (first since : List Operation) (taken : ℕ)
        → Receives subject joined first since took taken core.old.session
        → TakesOne subject joined first since took taken (parts_in core.old).link.is_up result core.new.session }
{
    let reply = play(alloc, core, Turn::Take(SUBSCRIPTION))?;
    Ok(message_in(reply))
}

// Prints a message that was taken.
fn print_taken(text: &mut Vec<u8>, message: Message) -> Result<(), NoMemory>
    ensures { OnOk result (text.new.items ≡ text.old.items ++ message_line message) }
{
    push_message_line(text, &message)
}

// Takes the messages that wait, as long as more are wanted, and prints each. It answers how many are wanted then.
fn take_all(
    alloc: Global,
    core: &mut Core,
    wanted: u64,
    text: &mut Vec<u8>,
) -> Result<u64, LiveError>
    ensures { (subject joined took : List ℕ) (first since : List Operation) (taken : ℕ)
        → Receives subject joined first since took taken core.old.session
        → TakesAll subject joined first since took taken (parts_in core.old).link.is_up wanted text.old.items result
        core.new.session text.new.items }
{
    let mut left = wanted;
    'takes: while left > 0 {
        match take_one(alloc, core)? {
            Some(message) => {
                print_taken(text, message)?;
                left -= 1;
            }
            None => return Ok(left),
        }
    }
    Ok(0)
}

// Writes until nothing waits, or no link is up.
fn write_all<R: Wait, T: LinkWrite>(
    rt: &R,
    alloc: Global,
    core: &mut Core,
    write: &mut T,
) -> Result<(), NoMemory>
    ensures { (subject joined took head : List ℕ) (first since : List Operation) (taken : ℕ)
        → Receives subject joined first since took taken core.old.session
        → Took (head ++ took) (T.write_told write.old)
        → IsWritten subject joined first since took taken head (parts_in core.old).link.is_up result core.new.session
        (T.write_told write.old) (T.write_told write.new) }
{
    'writes: for _ in rt.forever() {
        match write_some(alloc, core, write)? {
            WriteOnce::Wrote(_) => {}
            WriteOnce::Idle | WriteOnce::Lost | WriteOnce::Gone => return Ok(()),
        }
    }
    unreachable!()
}

// Goes round until so many messages, at least one, were taken: writes all that waits, takes what came, and reads on.
fn receive_all<R: Wait, L: LinkRead, T: LinkWrite>(
    rt: &R,
    alloc: Global,
    core: &mut Core,
    count: u64,
    read: &mut L,
    write: &mut T,
    buf: &mut [u8],
) -> Result<Vec<u8>, LiveError>
    requires room { 0 < length buf.old }
    requires fits { length buf.old ≤ READ_SIZE }
    requires some { 1 ≤ count }
    ensures { (subject joined head : List ℕ) (first : List Operation)
        → Receives subject joined first [] [] 0 core.old.session → IsTrue (parts_in core.old).link.is_up
        → Took head (T.write_told write.old)
        → ReceiveEnds subject joined first count head result core.new.session (L.read_told read.old)
        (L.read_told read.new) (T.write_told write.new) }
{
    let mut text = Vec::new(alloc);
    let mut wanted = count;
    'rounds: for _ in rt.forever() {
        write_all(rt, alloc, core, write)?;
        wanted = take_all(alloc, core, wanted, &mut text)?;
        if wanted == 0 {
            return Ok(text);
        }
        if !core.handler().is_up() {
            return Err(LiveError::LinkEnded);
        }
        read_some(alloc, core, read, buf)?;
    }
    unreachable!()
}

// Receives so many messages of a subject, at least one, on a session that has begun; it answers them as printed.
pub(crate) fn receive_on<R: Wait, L: LinkRead, T: LinkWrite>(
    rt: &R,
    alloc: Global,
    core: &mut Core,
    subject: &str,
    count: u64,
    read: &mut L,
    write: &mut T,
) -> Result<Vec<u8>, LiveError>
    requires { 1 ≤ count }
    ensures { (most : ℕ) (joined head : List ℕ) → HasBegun most joined core.old.session
        → Took head (T.write_told write.old)
        → ReceivesAll joined head subject.now count result core.new.session (L.read_told read.old)
        (L.read_told read.new) (T.write_told write.new) }
{
    let mut buf = vec![in alloc; 0u8; READ_SIZE]?;
    subscribe(alloc, core, subject)?;
    if !core.handler().is_up() {
        return Err(LiveError::LinkEnded);
    }
    receive_all(rt, alloc, core, count, read, write, buf.as_mut_slice())
}
