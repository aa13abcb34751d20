//! Scripts of a broker, and of calls that are tried again: the words that ask for them, and what is printed of them.
ghost use Rattle.std.specs.Prelude.{◌≡◌, ◌≢◌, ◌<◌, ◌≤◌, suc, length, map, option_and_then, IfOk, IfSome, IsTrue, Some, None, if◌then◌else◌, bytes_eq, codes};
ghost use Rattle.std.specs.String.{string_bytes};
ghost use Rattle.nats_spelling.specs.Spelling.{field_number};
ghost use Rattle.nats_replay.specs.declared.asked.Asked.TheVariants as asked;
ghost use Rattle.nats_replay.specs.Asked.{in_tries, in_patience, rpc_with, asked_by, IsFit};
ghost use Rattle.nats_replay.specs.Scripts.{route_ending, rpc_ending, Says, AskedAnswers};
ghost use Rattle.nats_replay.specs.Live.{live_of, others};
ghost use Rattle.nats_replay.specs.Outside.{Rose, RoseBy};
ghost use Rattle.nats_replay.specs.Played.{ComesBy, PlayedBy};
ghost use Rattle.nats_replay.specs.Words.{run_words, bulk_count, is_status_of_scripts};
ghost use Rattle.nats_replay.specs.declared.whole.TheConstants.{SCRIPT_LIMIT};

use crate::outside::{Sink, Source};
use crate::top::{Ending, Output, Refusal, WRITE_FAULT, status_of, status_of_ending};
use crate::whole::{ReadRefusal, read_all, write_all};
use nats_names::NoMemory;
use nats_route_script::{RouteEnding, route_output};
use nats_rpc_script::{Ending as CallsEnding, play_rpc};
use nats_script::field_number;
use std::alloc::Global;

/// The most requests that are made for a call.
pub const TRIES_LIMIT: u64 = 100;

/// The most milliseconds that a request of a call may wait for its reply.
pub const PATIENCE_LIMIT: u64 = 4_294_967_295;

/// A script that the words ask for, other than one of turns.
#[derive(Clone, Copy, Debug, PartialEq, Eq)]
pub enum Asked {
    /// `route`: a script of a broker.
    Route,
    /// `rpc TRIES PATIENCE`: a script of calls, each of which makes so many requests at most, and waits so many
    /// milliseconds for the reply to each.
    Rpc { tries: u64, patience: u64 },
}

fn tries(word: &str) -> Option<u64>
    ensures exact { result ≡ option_and_then in_tries (field_number word.now) }
    ensures fits { IfSome result (λ n. 1 ≤ n) }
{
    let count = field_number(word.as_bytes())?;
    if 1 <= count && count <= TRIES_LIMIT {
        Some(count)
    } else {
        None
    }
}

fn patience(word: &str) -> Option<u64>
    ensures { result ≡ option_and_then in_patience (field_number word.now) }
{
    let count = field_number(word.as_bytes())?;
    if count <= PATIENCE_LIMIT {
        Some(count)
    } else {
        None
    }
}

fn route_asked(word: &str) -> Option<Asked>
    ensures exact { result ≡ (if bytes_eq word.now (codes "route") then Some asked.Route else None) }
    ensures fits { IfSome result IsFit }
{
    if word == "route" {
        Some(Asked::Route)
    } else {
        None
    }
}

fn rpc_asked(word: &str, tries_word: &str, patience_word: &str) -> Option<Asked>
    ensures exact { result ≡ (if bytes_eq word.now (codes "rpc")
        then rpc_with (option_and_then in_tries (field_number tries_word.now))
        (option_and_then in_patience (field_number patience_word.now)) else None) }
    ensures fits { IfSome result IsFit }
{
    if word != "rpc" {
        return None;
    }
    let tries = tries(tries_word)?;
    let patience = patience(patience_word)?;
    Some(Asked::Rpc { tries, patience })
}

/// What the words ask for, where they ask for such a script.
pub(crate) fn asked_of(words: &[String]) -> Option<Asked>
    ensures exact { result ≡ asked_by (map string_bytes words.now) }
    ensures fits { IfSome result IsFit }
    ensures alone { IfSome result (λ a. (map string_bytes words.now ≢ run_words)
        × (bulk_count (map string_bytes words.now) ≡ None) × (live_of (map string_bytes words.now) ≡ others)) }
{
    match words {
        [word] => route_asked(word.as_str()),
        [word, tries, patience] => { rpc_asked(word.as_str(), tries.as_str(), patience.as_str()) }
        _ => None,
    }
}

fn route_ending(ending: RouteEnding) -> Ending
    ensures { result ≡ route_ending ending }
{
    match ending {
        RouteEnding::Rows => Ending::Transcript,
        RouteEnding::Unreadable => Ending::Unreadable,
        RouteEnding::OutOfTurn => Ending::OutOfTurn,
    }
}

fn rpc_ending(ending: CallsEnding) -> Ending
    ensures { result ≡ rpc_ending ending }
{
    match ending {
        CallsEnding::Transcript => Ending::Transcript,
        CallsEnding::Unreadable => Ending::Unreadable,
        CallsEnding::OutOfTurn => Ending::OutOfTurn,
    }
}

fn route_printed(alloc: Global, bytes: &[u8]) -> Result<Output, NoMemory>
    ensures { IfOk result (λ o. Says asked.Route o.ending bytes.now o.text.items) }
{
    let output = route_output(alloc, bytes)?;
    Ok(Output {
        ending: route_ending(output.ending),
        text: Vec::from_slice(alloc, output.text.as_slice())?,
    })
}

fn rpc_printed(alloc: Global, tries: u64, patience: u64, bytes: &[u8]) -> Result<Output, NoMemory>
    requires { 1 ≤ tries }
    ensures { IfOk result (λ o. Says (asked.Rpc tries patience) o.ending bytes.now o.text.items) }
{
    let played = play_rpc(alloc, bytes, tries, patience)?;
    Ok(Output {
        ending: rpc_ending(played.ending),
        text: played.text,
    })
}

/// What the bytes of a script print, and how they end.
fn printed(alloc: Global, asked: Asked, bytes: &[u8]) -> Result<Output, NoMemory>
    requires { IsFit asked }
    ensures { IfOk result (λ o. Says asked o.ending bytes.now o.text.items) }
{
    match asked {
        Asked::Route => route_printed(alloc, bytes),
        Asked::Rpc { tries, patience } => rpc_printed(alloc, tries, patience, bytes),
    }
}

fn play_bytes(alloc: Global, asked: Asked, bytes: &[u8]) -> Result<Output, Refusal>
    requires { IsFit asked }
    ensures { ComesBy (Says asked) bytes.now result }
{
    Ok(printed(alloc, asked, bytes)?)
}

fn play_asked<S: Source>(alloc: Global, asked: Asked, source: &mut S) -> Result<Output, Refusal>
    requires { IsFit asked }
    ensures { PlayedBy (Says asked) (S.left source.old)
        (record { given = S.given source.old; ends = S.ends source.old; faults = S.faults source.old })
        (record { given = S.given source.new; ends = S.ends source.new; faults = S.faults source.new }) result }
{
    match read_all(alloc, source) {
        Ok(bytes) => play_bytes(alloc, asked, bytes.as_slice()),
        Err(ReadRefusal::Fault) => Err(Refusal::ReadFault),
        Err(ReadRefusal::TooLong) => Err(Refusal::TooLong),
        Err(ReadRefusal::NoMemory) => Err(Refusal::NoMemory),
    }
}

/// Plays the script that the source holds as is asked, and prints what it comes to. The status says how that went.
pub(crate) fn answer_asked<S: Source, K: Sink>(
    alloc: Global,
    asked: Asked,
    source: &mut S,
    sink: &mut K,
) -> u8
    requires { IsFit asked }
    ensures answers { AskedAnswers asked (S.left source.old)
        (record { given = S.given source.old; ends = S.ends source.old; faults = S.faults source.old })
        (record { given = S.given source.new; ends = S.ends source.new; faults = S.faults source.new }) result
        (K.faults sink.old) (K.faults sink.new) (K.written sink.old) (K.written sink.new) }
    ensures status { IsTrue (is_status_of_scripts result) }
    ensures read_fault { result ≡ 3 → Rose (S.faults source.old) (S.faults source.new) }
    ensures write_fault { result ≡ 4 → Rose (K.faults sink.old) (K.faults sink.new) }
    ensures too_long { result ≡ 8 → IfSome (S.left source.old) (λ bytes. SCRIPT_LIMIT < length bytes) }
    ensures too_much { result ≡ 8 → RoseBy (suc SCRIPT_LIMIT) (S.given source.old) (S.given source.new) }
    ensures silent { result ≢ 0 → result ≢ 4 → result ≢ 5 → result ≢ 6 → sink.new ≡ sink.old }
{
    match play_asked(alloc, asked, source) {
        Ok(output) => match write_all(output.text.as_slice(), sink) {
            Ok(()) => status_of_ending(output.ending),
            Err(_) => WRITE_FAULT,
        },
        Err(refusal) => status_of(refusal),
    }
}
