//! The words of commands on a live link, and what is printed of them.
ghost use Rattle.std.specs.Prelude.{◌≡◌, ◌≤◌, None, IfOk, IfSome, map, option_and_then};
ghost use Rattle.std.specs.String.{string_bytes};
ghost use Rattle.nats_spelling.specs.Spelling.{field_number};
ghost use Rattle.nats_replay.specs.Live.{LiveAnswers, PrintsAt, PubAnswers, RefusalAnswers, SubAnswers};
ghost use Rattle.nats_replay.specs.Live.{error_line, in_sub, is_told};

use crate::outside::Sink;
use crate::top::{DONE, NO_MEMORY, REFUSED, WRITE_FAULT};
use crate::whole::write_all;
use nats_live::{LiveError, World, publish, receive};
use nats_names::NoMemory;
use nats_script::field_number;
use std::alloc::Global;
use std::sync::Wait;

/// The most messages that may be asked for.
pub const RECEIVE_LIMIT: u64 = 1_000_000;

/// What is printed once a message was published.
const PUBLISHED: &[u8] = b"published\n";

// How many messages are asked for, where that may be asked.
fn sub_number(word: &str) -> Option<u64>
    ensures exact { result ≡ option_and_then in_sub (field_number word.now) }
    ensures some { IfSome result (λ n. 1 ≤ n) }
{
    let count = field_number(word.as_bytes())?;
    if 1 <= count && count <= RECEIVE_LIMIT {
        Some(count)
    } else {
        None
    }
}

// The text of an error, and the end of the line.
fn error_line(alloc: Global, error: &LiveError) -> Result<String, NoMemory>
    ensures { IfOk result (λ text. string_bytes text ≡ error_line error.now) }
{
    Ok(format!(in alloc; "{error}\n")?)
}

// Prints a text whole; the status says whether that went well.
fn print<K: Sink>(text: &[u8], status: u8, sink: &mut K) -> u8
    ensures { PrintsAt status result text.now (K.faults sink.old) (K.faults sink.new)
        (K.written sink.old) (K.written sink.new) }
{
    match write_all(text, sink) {
        Ok(()) => status,
        Err(_) => WRITE_FAULT,
    }
}

// Whether a text tells of the error: none does of want of memory.
fn is_told(error: &LiveError) -> bool
    ensures { result ≡ is_told error.now }
{
    !matches!(error, LiveError::NoMemory)
}

// Prints why a command was refused.
fn refuse<K: Sink>(alloc: Global, error: &LiveError, sink: &mut K) -> u8
    ensures answers { RefusalAnswers error.now result (K.faults sink.old) (K.faults sink.new)
        (K.written sink.old) (K.written sink.new) }
    ensures silent { result ≡ NO_MEMORY → sink.new ≡ sink.old }
{
    if !is_told(error) {
        return NO_MEMORY;
    }
    match error_line(alloc, error) {
        Ok(text) => print(text.as_bytes(), REFUSED, sink),
        Err(NoMemory) => NO_MEMORY,
    }
}

// `pub ADDR SUBJECT PAYLOAD`
fn answer_pub<R: Wait, K: Sink, W: World>(
    rt: &R,
    alloc: Global,
    addr: &str,
    subject: &str,
    payload: &str,
    sink: &mut K,
    world: &mut W,
) -> u8
    ensures answers { PubAnswers addr.now subject.now payload.now
        (W.seen world.old) result (W.seen world.new) (K.faults sink.old) (K.faults sink.new)
        (K.written sink.old) (K.written sink.new) }
    ensures silent { result ≡ NO_MEMORY → sink.new ≡ sink.old }
{
    match publish(rt, alloc, addr, subject, payload.as_bytes(), world) {
        Ok(()) => print(PUBLISHED, DONE, sink),
        Err(error) => refuse(alloc, &error, sink),
    }
}

// `sub ADDR SUBJECT N`
fn answer_sub<R: Wait, K: Sink, W: World>(
    rt: &R,
    alloc: Global,
    addr: &str,
    subject: &str,
    count: u64,
    sink: &mut K,
    world: &mut W,
) -> u8
    requires { 1 ≤ count }
    ensures answers { SubAnswers addr.now subject.now count
        (W.seen world.old) result (W.seen world.new) (K.faults sink.old) (K.faults sink.new)
        (K.written sink.old) (K.written sink.new) }
    ensures silent { result ≡ NO_MEMORY → sink.new ≡ sink.old }
{
    match receive(rt, alloc, addr, subject, count, world) {
        Ok(text) => print(text.as_slice(), DONE, sink),
        Err(error) => refuse(alloc, &error, sink),
    }
}

// What words come to that ask for a command on a live link; none for other words.
pub(crate) fn answer_live<R: Wait, K: Sink, W: World>(
    rt: &R,
    alloc: Global,
    words: &[String],
    sink: &mut K,
    world: &mut W,
) -> Option<u8>
    ensures answers { LiveAnswers (map string_bytes words.now)
        (W.seen world.old) result (W.seen world.new) (K.faults sink.old) (K.faults sink.new)
        (K.written sink.old) (K.written sink.new) }
    ensures silent { IfSome result (λ status. status ≡ NO_MEMORY → sink.new ≡ sink.old) }
    ensures unprinted { result ≡ None → sink.new ≡ sink.old }
    ensures untouched { result ≡ None → world.new ≡ world.old }
{
    let [word, addr, subject, last] = words else {
        return None;
    };
    if word.as_str() == "pub" {
        let payload = last.as_str();
        return Some(answer_pub(
            rt,
            alloc,
            addr.as_str(),
            subject.as_str(),
            payload,
            sink,
            world,
        ));
    }
    if word.as_str() != "sub" {
        return None;
    }
    let count = sub_number(last.as_str())?;
    Some(answer_sub(
        rt,
        alloc,
        addr.as_str(),
        subject.as_str(),
        count,
        sink,
        world,
    ))
}
