//! What a server says in a handshake: its INFO, and then its answers to CONNECT and PING.
ghost use Rattle.std.specs.Prelude.{◌≡◌, ◌≤◌, ◌<◌, ◌+◌, ◌^◌, ◌++◌, length, drop, IfOk};
ghost use Rattle.nats_message.specs.declared.op.ClientOp.TheVariants as client;
ghost use Rattle.nats_commands.specs.Commands.{command_text};
ghost use Rattle.nats_lines.specs.Operations.{peeked_view, front};
ghost use Rattle.nats_names.specs.declared.cause.Cause.TheVariants as cause;
ghost use Rattle.nats_handshake.specs.declared.course.Greeting.TheVariants as greeting;
ghost use Rattle.nats_handshake.specs.Course.{greeted_within, greeting_by, greeting_at, refusal_by, step_by, step_at, taken_by, course, behind_out, course_view, io};

use crate::error::{ConnectErrorKind, Refusal};
use nats_names::{Cause, NoMemory, OpWord, ServerError};
use nats_wire::front::{Front, front_of};
use nats_wire::{PeekedOp, ServerInfo};
use std::alloc::Global;

/// How many operations may come behind the INFO before the PONG is there. The crate waits for one; own limit.
pub const HANDSHAKE_OPERATIONS: usize = 16;

/// The answer to a PING.
const PONG: &[u8] = b"PONG\r\n";

/// The first thing that a server says.
#[derive(Drop)]
pub enum Greeting {
    /// Less than an operation.
    Waits,
    /// Its INFO, and how many bytes that takes.
    Greets(ServerInfo, usize),
    /// What is not due.
    Refuses(Refusal),
}

/// What the operation at the front of a text comes to, with the number of its bytes.
#[derive(Drop)]
pub enum Step {
    /// It is not there yet.
    Waits,
    /// It is skipped.
    Skips(usize),
    /// It is answered with a PONG.
    Answers(usize),
    /// It is the PONG.
    Succeeds(usize),
    /// It ends the handshake.
    Refuses(Refusal),
}

/// What the operations of a text come to.
#[derive(Drop)]
pub enum Verdict {
    /// More may come.
    Waits,
    /// The PONG came.
    Succeeds,
    /// The handshake ends.
    Refuses(Refusal),
}

/// The verdict, the number of bytes that were read, how many operations may still come, and what is to be written.
#[derive(Drop)]
pub struct Course {
    pub verdict: Verdict,
    pub taken: usize,
    pub left: usize,
    pub out: Vec<u8>,
}

fn io(cause: Cause) -> Refusal
    ensures { result ≡ io cause }
{
    Refusal::by(ConnectErrorKind::Io, cause)
}

fn unexpected(word: OpWord) -> Greeting
    ensures { result ≡ greeting.Refuses (io (cause.Unexpected word)) }
{
    Greeting::Refuses(io(Cause::Unexpected(word)))
}

fn greeting_by(op: PeekedOp, len: usize) -> Greeting
    ensures { result ≡ greeting_by (peeked_view op) len }
{
    match op {
        PeekedOp::Info(info) => Greeting::Greets(Box::into_inner(info), len),
        PeekedOp::Ok => unexpected(OpWord::Ok),
        PeekedOp::Ping => unexpected(OpWord::Ping),
        PeekedOp::Pong => unexpected(OpWord::Pong),
        PeekedOp::Error(_) => unexpected(OpWord::Err),
        PeekedOp::Message { .. } => unexpected(OpWord::Msg),
    }
}

/// The first thing that a server says: anything but its INFO is refused.
pub fn read_greeting(alloc: Global, text: &[u8]) -> Result<Greeting, NoMemory>
    ensures says { IfOk result (λ g. g ≡ greeting_at (front text.now)) }
    ensures fits { IfOk result (λ g. greeted_within g ≤ length text.now) }
{
    match front_of(alloc, text)? {
        Front::Unfinished => Ok(Greeting::Waits),
        Front::Fault(_) => Ok(Greeting::Refuses(io(Cause::ReadFault))),
        Front::Got(op, len) => Ok(greeting_by(op, len)),
    }
}

fn refusal_by(error: ServerError) -> Refusal
    ensures { result ≡ refusal_by error }
{
    match error {
        ServerError::AuthorizationViolation => Refusal::by(
            ConnectErrorKind::AuthorizationViolation,
            Cause::Server(ServerError::AuthorizationViolation),
        ),
        ServerError::SlowConsumer(sid) => io(Cause::Server(ServerError::SlowConsumer(sid))),
        ServerError::Other(text) => io(Cause::Server(ServerError::Other(text))),
    }
}

fn step_by(op: PeekedOp, len: usize) -> Step
    ensures { result ≡ step_by (peeked_view op) len }
{
    match op {
        PeekedOp::Ok | PeekedOp::Info(_) => Step::Skips(len),
        PeekedOp::Ping => Step::Answers(len),
        PeekedOp::Pong => Step::Succeeds(len),
        PeekedOp::Error(error) => Step::Refuses(refusal_by(error)),
        PeekedOp::Message { .. } => Step::Refuses(io(Cause::Unexpected(OpWord::Msg))),
    }
}

// What stands at the front of the server's text behind its INFO.
fn read_step(alloc: Global, text: &[u8]) -> Result<Step, NoMemory>
    ensures says { IfOk result (λ s. s ≡ step_at (front text.now)) }
    ensures fits { IfOk result (λ s. taken_by s ≤ length text.now) }
{
    match front_of(alloc, text)? {
        Front::Unfinished => Ok(Step::Waits),
        Front::Fault(_) => Ok(Step::Refuses(io(Cause::ReadFault))),
        Front::Got(op, len) => Ok(step_by(op, len)),
    }
}

fn ended(verdict: Verdict, taken: usize, left: usize, out: Vec<u8>) -> Course
    ensures { result ≡ record { verdict = verdict; taken = taken; left = left; out = out } }
{
    Course {
        verdict,
        taken,
        left,
        out,
    }
}

// What the text behind `taken` bytes comes to, of a course that begins there.
pub(crate) fn begun(taken: usize, more: Course) -> Course
    requires { taken + more.taken < 2 ^ 64 }
    ensures { result ≡ record more { taken = taken + more.taken } }
{
    Course {
        taken: taken + more.taken,
        ..more
    }
}

fn with_pong(out: Vec<u8>) -> Result<Vec<u8>, NoMemory>
    ensures { IfOk result (λ longer. longer.items ≡ out.items ++ command_text client.Pong) }
{
    let mut out = out;
    out.extend_from_slice(PONG)?;
    Ok(out)
}

pub(crate) fn behind(text: &[u8], len: usize) -> &[u8]
    requires { len ≤ length text.now }
    ensures { result.now ≡ drop len text.now }
{
    &text[len..]
}

/// What the operations of a text come to where `left` may come, with what is to be written behind `out`.
pub fn read_course(
    alloc: Global,
    text: &[u8],
    left: usize,
    out: Vec<u8>,
) -> Result<Course, NoMemory>
    ensures says { IfOk result (λ c. course_view text.now c ≡ behind_out out.items (course left text.now)) }
    ensures fits { IfOk result (λ c. c.taken ≤ length text.now) }
{
    if left == 0 {
        return Ok(ended(Verdict::Refuses(io(Cause::NoPong)), 0, 0, out));
    }
    let next = read_step(alloc, text)?;
    match next {
        Step::Waits => Ok(ended(Verdict::Waits, 0, left, out)),
        Step::Refuses(refusal) => Ok(ended(Verdict::Refuses(refusal), 0, left, out)),
        Step::Succeeds(len) => Ok(ended(Verdict::Succeeds, len, left - 1, out)),
        Step::Skips(len) => {
            let more = read_course(alloc, behind(text, len), left - 1, out)?;
            Ok(begun(len, more))
        }
        Step::Answers(len) => {
            let longer = with_pong(out)?;
            let more = read_course(alloc, behind(text, len), left - 1, longer)?;
            Ok(begun(len, more))
        }
    }
}
