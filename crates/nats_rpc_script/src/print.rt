//! What calls and polls print.
ghost use Rattle.std.specs.Prelude.{◌≡◌, ◌++◌, List, OnOk, IfOk, codes};
ghost use Rattle.nats_spelling.specs.Lines.{lf, opening};
ghost use Rattle.nats_print.specs.Printed.{reply_text};
ghost use Rattle.nats_rpc_script.specs.Played.{outcome_text, poll_line, asked_line, unreadable_text, out_of_turn_text};

use nats_core::{CallReply, NoMemory};
use nats_rpc::Outcome;
use nats_script::{print_transcript, push_number};
use nats_session::{Seq, Transcript};
use std::alloc::Global;

/// The transcript of one call at place 0.
fn one_call(alloc: Global, reply: CallReply) -> Result<Vec<u8>, NoMemory>
    ensures { IfOk result (λ text. text.items ≡ opening (codes "call") 0 ++ reply_text reply ++ lf) }
{
    let mut calls = Seq::new(alloc);
    calls.push(alloc, (0, reply))?;
    let transcript = Transcript {
        links: Seq::new(alloc),
        subs: Seq::new(alloc),
        events: Seq::new(alloc),
        calls,
        tickets: Seq::new(alloc),
    };
    print_transcript(alloc, &transcript)
}

/// Appends what stands behind the opening of a call's line at place 0.
fn push_behind(alloc: Global, out: &mut Vec<u8>, line: &[u8]) -> Result<(), NoMemory>
    ensures { OnOk result ((rest : List _) → line.now ≡ opening (codes "call") 0 ++ rest
        → out.new.items ≡ out.old.items ++ rest) }
{
    let mut before = Vec::new(alloc);
    push_opening(&mut before, b"call", 0)?;
    let start = before.len().min(line.len());
    out.extend_from_slice(&line[start..])?;
    Ok(())
}

/// What is printed of a reply, to the end of the line: what a transcript prints of a call behind its place.
fn push_reply(alloc: Global, out: &mut Vec<u8>, reply: CallReply) -> Result<(), NoMemory>
    ensures { OnOk result (out.new.items ≡ out.old.items ++ reply_text reply ++ lf) }
{
    let line = one_call(alloc, reply)?;
    push_behind(alloc, out, line.as_slice())
}

fn push_waiting(out: &mut Vec<u8>) -> Result<(), NoMemory>
    ensures { OnOk result (out.new.items ≡ out.old.items ++ codes "waiting" ++ lf) }
{
    out.extend_from_slice(b"waiting\n")?;
    Ok(())
}

/// The rest of a poll's line: what the call came to.
fn push_outcome(alloc: Global, out: &mut Vec<u8>, outcome: Outcome) -> Result<(), NoMemory>
    ensures { OnOk result (out.new.items ≡ out.old.items ++ outcome_text outcome ++ lf) }
{
    match outcome {
        Outcome::Waiting => push_waiting(out),
        Outcome::Replied(message) => push_reply(alloc, out, CallReply::Replied(message)),
        Outcome::NoResponders => push_reply(alloc, out, CallReply::NoResponders),
        Outcome::TimedOut => push_reply(alloc, out, CallReply::TimedOut),
        Outcome::Refused(reply) => push_refused(alloc, out, reply),
    }
}

fn push_refused(alloc: Global, out: &mut Vec<u8>, reply: CallReply) -> Result<(), NoMemory>
    ensures { OnOk result (out.new.items ≡ out.old.items ++ (codes "refused " ++ reply_text reply) ++ lf) }
{
    let line = one_call(alloc, reply)?;
    out.extend_from_slice(b"refused ")?;
    push_behind(alloc, out, line.as_slice())
}

/// A word, a number and a space.
fn push_opening(out: &mut Vec<u8>, word: &[u8], number: u64) -> Result<(), NoMemory>
    ensures { OnOk result (out.new.items ≡ out.old.items ++ opening word.now number) }
{
    out.extend_from_slice(word)?;
    out.push(b' ')?;
    push_number(out, number)?;
    out.push(b' ')?;
    Ok(())
}

/// Appends `poll PLACE OUTCOME`.
pub fn push_poll(
    alloc: Global,
    out: &mut Vec<u8>,
    place: u64,
    outcome: Outcome,
) -> Result<(), NoMemory>
    ensures { OnOk result (out.new.items ≡ out.old.items ++ poll_line place outcome) }
{
    push_opening(out, b"poll", place)?;
    push_outcome(alloc, out, outcome)
}

/// Appends `asked PLACE NUMBER`.
pub fn push_asked(out: &mut Vec<u8>, place: u64, number: u64) -> Result<(), NoMemory>
    ensures { OnOk result (out.new.items ≡ out.old.items ++ asked_line place number) }
{
    push_opening(out, b"asked", place)?;
    push_number(out, number)?;
    out.push(b'\n')?;
    Ok(())
}

/// `script line K`: the first line that cannot be read.
pub fn unreadable_text(alloc: Global, line: u64) -> Result<Vec<u8>, NoMemory>
    ensures { IfOk result (λ text. text.items ≡ unreadable_text line) }
{
    let mut text = Vec::from_slice(alloc, b"script line ".as_slice())?;
    push_number(&mut text, line)?;
    text.push(b'\n')?;
    Ok(text)
}

/// `turn K out of turn`: the first line, the settings not counted, that may not come where it stands.
pub fn out_of_turn_text(alloc: Global, place: u64) -> Result<Vec<u8>, NoMemory>
    ensures { IfOk result (λ text. text.items ≡ out_of_turn_text place) }
{
    let mut text = Vec::from_slice(alloc, b"turn ".as_slice())?;
    push_number(&mut text, place)?;
    text.extend_from_slice(b" out of turn\n".as_slice())?;
    Ok(text)
}
