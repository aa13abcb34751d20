//! The top call: what the program does.
ghost use Rattle.std.specs.Prelude.{◌≡◌, ◌≢◌, ◌≤◌, ◌<◌, ◌⊎◌, suc, map, length, None, IsTrue, List, IfOk, IfSome, MatchBool, Some, option_and_then};
ghost use Rattle.std.specs.String.{string_bytes};
ghost use Rattle.std.specs.Io.KnownBytes.{Appends};
ghost use Rattle.nats_history.specs.declared.config.Config.{Config};
ghost use Rattle.nats_history.specs.declared.turn.Turn.{Turn};
ghost use Rattle.nats_history.specs.Schedule.{out_of_turn};
ghost use Rattle.nats_history.specs.Transcripts.{transcript};
ghost use Rattle.nats_script.specs.declared.script.Script.TheVariants.{Good};
ghost use Rattle.nats_replay.specs.declared.top.Ending.{Ending};
ghost use Rattle.nats_replay.specs.declared.top.Ending.TheVariants as endings;
ghost use Rattle.nats_script.specs.Script.{script};
ghost use Rattle.nats_spelling.specs.Spelling.{field_number};
ghost use Rattle.nats_print.specs.Printed.{printed};
ghost use Rattle.nats_replay.specs.Outside.{Rose, RoseBy, Still, AppendsFront};
ghost use Rattle.nats_live.specs.declared.error.LiveError.{LiveError};
ghost use Rattle.nats_live.specs.Causes.{Shows, WhyNotPublished, WhyNotReceived};
ghost use Rattle.nats_live.specs.Ended.{WasPublished, WasReceived};
ghost use Rattle.nats_replay.specs.Live.{IsToldOf, LiveAnswers, PubPrints, SubPrints, error_line, live_of, others, published_line, publishes, receives};
ghost use Rattle.nats_replay.specs.Words.{run_words, in_bulk, bulk_count, IsLive, IsUnknown, unknown_command, unreadable_text, out_of_turn_text, is_status, is_status_of_run, is_status_of_bulk, is_status_of_live, is_status_of_others, IsUnreadable, IsOutOfTurn, IsSummary, Prints, IsPlayable};
ghost use Rattle.nats_replay.specs.declared.asked.Asked.{Asked};
ghost use Rattle.nats_replay.specs.Asked.{asked_by};
ghost use Rattle.nats_replay.specs.Scripts.{AskedAnswers};
ghost use Rattle.nats_replay.specs.Workers.{CrewAnswers};
ghost use Rattle.nats_worker_text.specs.declared.asked.Crew.{Crew};
ghost use Rattle.nats_worker_text.specs.Asked.{crew_asked};
ghost use Rattle.nats_replay.specs.Played.{Comes, Played, status_of_ending, status_of};

use crate::asked::{answer_asked, asked_of};
use crate::live::answer_live;
use crate::outside::{Sink, Source};
use crate::whole::{ReadRefusal, SCRIPT_LIMIT, read_all, write_all};
use crate::workers::answer_crew;
use nats_bulk::{bulk_config, bulk_turns, in_turn, summary};
use nats_live::World;
use nats_names::NoMemory;
use nats_script::{Script, field_number, print_transcript, push_number, read_script};
use nats_session::{Config, RunError, Seq, Turn, run};
use nats_worker_text::crew_of;
use std::alloc::Global;
use std::sync::Wait;
use std::thread::Threads;

/// The most turns of a list that is made by a rule, behind its opening.
pub const BULK_LIMIT: u64 = 1_000_000;

/// What is printed of words that are no command.
const UNKNOWN_COMMAND: &[u8] = b"unknown command\n";

/// How the bytes of a script end that were read whole.
#[derive(Clone, Copy, Debug, PartialEq, Eq)]
pub enum Ending {
    /// They are played, and have a transcript.
    Transcript,
    /// A line cannot be read.
    Unreadable,
    /// A turn may not come where it stands.
    OutOfTurn,
}

/// What is printed of a script.
#[derive(Drop)]
pub struct Output {
    pub ending: Ending,
    pub text: Vec<u8>,
}

/// Why nothing is printed of a script.
#[derive(Clone, Copy, Debug, PartialEq, Eq)]
pub enum Refusal {
    /// The source failed.
    ReadFault,
    /// Want of memory.
    NoMemory,
    /// The source gave more bytes than a script may have.
    TooLong,
}

impl From<NoMemory> for Refusal {
    ghost use Rattle.std.specs.Prelude.{◌≡◌};
    ghost use Rattle.nats_replay.specs.declared.top.Refusal.TheVariants as refusal;

    ghost from_gives = { λ _ e. e ≡ refusal.NoMemory };

    fn from(_refused: NoMemory) -> Refusal {
        Refusal::NoMemory
    }
}

/// What was asked for was done, and printed.
pub(crate) const DONE: u8 = 0;
/// The words are no command.
const UNKNOWN: u8 = 2;
/// The source failed.
const READ_FAULT: u8 = 3;
/// The sink failed.
pub const WRITE_FAULT: u8 = 4;
/// A line of the script cannot be read.
const UNREADABLE: u8 = 5;
/// A turn of the script may not come where it stands.
const OUT_OF_TURN: u8 = 6;
/// The status that says want of memory.
pub const NO_MEMORY: u8 = 7;
/// The script is too long.
const TOO_LONG: u8 = 8;
/// A command on a live link was refused, or its link ended first.
pub(crate) const REFUSED: u8 = 9;

fn unreadable_text(alloc: Global, line: u64) -> Result<Vec<u8>, NoMemory>
    ensures { IfOk result (λ text. text.items ≡ unreadable_text line) }
{
    let mut text = Vec::from_slice(alloc, b"script line ".as_slice())?;
    push_number(&mut text, line)?;
    text.push(b'\n')?;
    Ok(text)
}

fn out_of_turn_text(alloc: Global, place: u64) -> Result<Vec<u8>, NoMemory>
    ensures { IfOk result (λ text. text.items ≡ out_of_turn_text place) }
{
    let mut text = Vec::from_slice(alloc, b"turn ".as_slice())?;
    push_number(&mut text, place)?;
    text.extend_from_slice(b" out of turn\n".as_slice())?;
    Ok(text)
}

fn played(text: Vec<u8>) -> Output
    ensures { (result.ending ≡ endings.Transcript) × (result.text ≡ text) }
{
    Output {
        ending: Ending::Transcript,
        text,
    }
}

fn out_of_turn(alloc: Global, place: u64) -> Result<Output, NoMemory>
    ensures { IfOk result (λ o. (o.ending ≡ endings.OutOfTurn) × (o.text.items ≡ out_of_turn_text place)) }
{
    Ok(Output {
        ending: Ending::OutOfTurn,
        text: out_of_turn_text(alloc, place)?,
    })
}

fn play_turns(alloc: Global, config: Config, turns: &[Turn]) -> Result<Output, Refusal>
    ensures { (bytes : List _) → script bytes ≡ Good config turns.now → Comes bytes result }
{
    match run(alloc, config, turns) {
        Ok(transcript) => Ok(played(print_transcript(alloc, &transcript)?)),
        Err(RunError::OutOfTurn { place }) => Ok(out_of_turn(alloc, place)?),
        Err(RunError::NoMemory) => Err(Refusal::NoMemory),
    }
}

// Each turn of the list may come where it stands, so the list is played to its end.
fn play_bulk(alloc: Global, count: u64) -> Result<Vec<u8>, NoMemory>
    requires { count ≤ BULK_LIMIT }
    ensures { IfOk result (λ text. IsSummary count text.items) }
{
    in_turn();
    let config = bulk_config(alloc)?;
    let turns = bulk_turns(alloc, count)?;
    match run(alloc, config, turns.as_slice()) {
        Ok(transcript) => Ok(summary(alloc, count + 3, &transcript)?.into_bytes()),
        Err(RunError::OutOfTurn { place: _ }) => unreachable!(),
        Err(RunError::NoMemory) => Err(NoMemory),
    }
}

fn play_script(alloc: Global, bytes: &[u8]) -> Result<Output, Refusal>
    ensures { Comes bytes.now result }
{
    match read_script(alloc, bytes)? {
        Script::Good { config, turns } => play_turns(alloc, config, turns.as_slice()),
        Script::Bad(line) => Ok(Output {
            ending: Ending::Unreadable,
            text: unreadable_text(alloc, line)?,
        }),
    }
}

fn play<S: Source>(alloc: Global, source: &mut S) -> Result<Output, Refusal>
    ensures { Played (S.left source.old)
        (record { given = S.given source.old; ends = S.ends source.old; faults = S.faults source.old })
        (record { given = S.given source.new; ends = S.ends source.new; faults = S.faults source.new }) result }
{
    match read_all(alloc, source) {
        Ok(bytes) => play_script(alloc, bytes.as_slice()),
        Err(ReadRefusal::Fault) => Err(Refusal::ReadFault),
        Err(ReadRefusal::TooLong) => Err(Refusal::TooLong),
        Err(ReadRefusal::NoMemory) => Err(Refusal::NoMemory),
    }
}

fn are_run(words: &[String]) -> bool
    ensures { MatchBool result (map string_bytes words.now ≡ run_words) (map string_bytes words.now ≢ run_words) }
{
    match words {
        [word] => word.as_str() == "run",
        _ => false,
    }
}

fn bulk_number(word: &str) -> Option<u64>
    ensures exact { result ≡ option_and_then in_bulk (field_number word.now) }
    ensures fits { IfSome result (λ n. n ≤ BULK_LIMIT) }
{
    let count = field_number(word.as_bytes())?;
    if 1 <= count && count <= BULK_LIMIT {
        Some(count)
    } else {
        None
    }
}

fn bulk_count(words: &[String]) -> Option<u64>
    ensures exact { result ≡ bulk_count (map string_bytes words.now) }
    ensures fits { IfSome result (λ n. n ≤ BULK_LIMIT) }
{
    match words {
        [word, number] => {
            if word.as_str() == "bulk" {
                bulk_number(number.as_str())
            } else {
                None
            }
        }
        _ => None,
    }
}

pub(crate) fn status_of_ending(ending: Ending) -> u8
    ensures { result ≡ status_of_ending ending }
{
    match ending {
        Ending::Transcript => DONE,
        Ending::Unreadable => UNREADABLE,
        Ending::OutOfTurn => OUT_OF_TURN,
    }
}

pub(crate) fn status_of(refusal: Refusal) -> u8
    ensures { result ≡ status_of refusal }
{
    match refusal {
        Refusal::ReadFault => READ_FAULT,
        Refusal::NoMemory => NO_MEMORY,
        Refusal::TooLong => TOO_LONG,
    }
}

// What words come to that ask for no script and no list: a command on a live link, or the text that calls them
// unknown.
fn answer_unlisted<R: Wait, K: Sink, W: World>(
    rt: &R,
    alloc: Global,
    words: &[String],
    sink: &mut K,
    world: &mut W,
) -> u8
    ensures live { live_of (map string_bytes words.now) ≢ others → LiveAnswers
        (map string_bytes words.now)
        (W.seen world.old) (Some result) (W.seen world.new) (K.faults sink.old) (K.faults sink.new)
        (K.written sink.old) (K.written sink.new) }
    ensures unknown { live_of (map string_bytes words.now) ≡ others → (result ≡ 2) ⊎ (result ≡ 4) }
    ensures unknown_only { result ≡ 2 → live_of (map string_bytes words.now) ≡ others }
    ensures unknown_text { result ≡ 2 → Appends (K.written sink.old) (K.written sink.new) unknown_command }
    ensures unknown_cut_short { result ≡ 4 → live_of (map string_bytes words.now) ≡ others →
        AppendsFront (K.written sink.old) (K.written sink.new) unknown_command }
    ensures write_fault { result ≡ 4 → Rose (K.faults sink.old) (K.faults sink.new) }
    ensures silent { result ≡ 7 → sink.new ≡ sink.old }
    ensures untouched { live_of (map string_bytes words.now) ≡ others → world.new ≡ world.old }
{
    match answer_live(rt, alloc, words, sink, world) {
        Some(status) => status,
        None => match write_all(UNKNOWN_COMMAND, sink) {
            Ok(()) => UNKNOWN,
            Err(_) => WRITE_FAULT,
        },
    }
}

// What words but `run` come to: `bulk N` to its eight lines, `pub` and `sub` to what comes of them, others to
// the text that calls them unknown.
fn answer_others<R: Wait, K: Sink, W: World>(
    rt: &R,
    alloc: Global,
    words: &[String],
    sink: &mut K,
    world: &mut W,
) -> u8
    ensures status { IsTrue (is_status_of_others result) }
    ensures summary { (n : _) → bulk_count (map string_bytes words.now) ≡ Some n → result ≡ 0 →
        (text : List _) × IsSummary n text × Appends (K.written sink.old) (K.written sink.new) text }
    ensures bulk { (n : _) → bulk_count (map string_bytes words.now) ≡ Some n → IsTrue (is_status_of_bulk result) }
    ensures bulk_cut_short { (n : _) → bulk_count (map string_bytes words.now) ≡ Some n → result ≡ 4 →
        (text : List _) × IsSummary n text × AppendsFront (K.written sink.old) (K.written sink.new) text }
    ensures bulk_complete { (n : _) → bulk_count (map string_bytes words.now) ≡ Some n →
        Still (K.faults sink.old) (K.faults sink.new) → (result ≡ 0) ⊎ (result ≡ 7) }
    ensures live { live_of (map string_bytes words.now) ≢ others → LiveAnswers
        (map string_bytes words.now)
        (W.seen world.old) (Some result) (W.seen world.new) (K.faults sink.old) (K.faults sink.new)
        (K.written sink.old) (K.written sink.new) }
    ensures unknown { bulk_count (map string_bytes words.now) ≡ None → live_of (map string_bytes words.now) ≡ others →
        (result ≡ 2) ⊎ (result ≡ 4) }
    ensures unknown_only { result ≡ 2 → (bulk_count (map string_bytes words.now) ≡ None)
        × (live_of (map string_bytes words.now) ≡ others) }
    ensures unknown_text { result ≡ 2 → Appends (K.written sink.old) (K.written sink.new) unknown_command }
    ensures unknown_cut_short { result ≡ 4 → bulk_count (map string_bytes words.now) ≡ None →
        live_of (map string_bytes words.now) ≡ others →
        AppendsFront (K.written sink.old) (K.written sink.new) unknown_command }
    ensures write_fault { result ≡ 4 → Rose (K.faults sink.old) (K.faults sink.new) }
    ensures silent { result ≡ 7 → sink.new ≡ sink.old }
    ensures untouched { live_of (map string_bytes words.now) ≡ others → world.new ≡ world.old }
{
    match bulk_count(words) {
        Some(count) => match play_bulk(alloc, count) {
            Ok(text) => match write_all(text.as_slice(), sink) {
                Ok(()) => DONE,
                Err(_) => WRITE_FAULT,
            },
            Err(NoMemory) => NO_MEMORY,
        },
        None => answer_unlisted(rt, alloc, words, sink, world),
    }
}

/// What the program does: where the words are the one word `run`, it reads the source whole as a script, plays
/// its turns and prints their transcript into the sink; where they are `route` it does so with a script of a broker,
/// and prints how its peers stand and what they were told; where they are `rpc TRIES PATIENCE`, TRIES from 1 to 100 and
/// PATIENCE below 2^32 in decimal, it does so with a script of calls that are tried again, and prints what becomes of
/// the calls and the transcript of the core below them; where they are `bulk N`, N from 1 to 1,000,000 in
/// decimal, it plays a list of N turns that is made by a rule, behind the opening of that list, and prints what
/// its transcript comes to in eight lines; where they are `seats N K`, N from 1 to 64 and K from 1 to 10,000 in
/// decimal, it lets N workers publish K times each at one session, all at once and each with a seat of its own, and
/// prints how many calls were accepted, how many bytes the link takes, and how many publishes of each worker were
/// accepted; where they are `threads N K`, in the same ranges, it does so with a client of its own for each worker, and
/// prints how many calls were accepted, and how many bytes the link takes; where they are `pub ADDR SUBJECT PAYLOAD` it
/// connects to the server of that address, publishes that, and prints `published` once the link took all of it; where
/// they are `sub ADDR SUBJECT N`, N from 1 to 1,000,000, it connects, subscribes, takes N messages and prints each.
/// These two use the world, others leave it alone, and may wait. It answers the status to exit with: 0, what was asked
/// for is printed; 2, other words, which are called unknown; 3, the source failed; 4, the sink failed; 5, a
/// line of the script cannot be read, and `script line k` says which is the first; 6, a turn of the script may
/// not come where it stands, and `turn k out of turn` says which is the first; 7, want of memory; 8, more than
/// 16,777,216 bytes; 9, connecting or a call was refused, whose text is printed, or the link ended first, and
/// `link ended` is. With 3, 7 and 8 nothing is printed. The words, the statuses and their order are our own
/// choice.
pub fn replay<R: Threads + Wait + Sync, S: Source, K: Sink, W: World>(
    rt: &R,
    alloc: Global,
    words: &[String],
    source: &mut S,
    sink: &mut K,
    world: &mut W,
) -> u8
    // 0 to `run`: what was written is the printed transcript of the turns that the bytes held at entry spell,
    // and they may come where they stand.
    ensures transcript { result ≡ 0 → map string_bytes words.now ≡ run_words → IfSome (S.left source.old) (λ bytes.
        (config : Config) × (turns : List Turn) × (script bytes ≡ Good config turns)
        × (out_of_turn config turns ≡ None)
        × Appends (K.written sink.old) (K.written sink.new) (printed (transcript config turns))) }
    // Every answer is one of these.
    ensures status { IsTrue (is_status result) }
    // `route`, and `rpc TRIES PATIENCE`: what a script of a broker or of calls comes to, by each status.
    ensures scripts { (asked : Asked) → asked_by (map string_bytes words.now) ≡ Some asked → AskedAnswers asked
        (S.left source.old)
        (record { given = S.given source.old; ends = S.ends source.old; faults = S.faults source.old })
        (record { given = S.given source.new; ends = S.ends source.new; faults = S.faults source.new }) result
        (K.faults sink.old) (K.faults sink.new) (K.written sink.old) (K.written sink.new) }
    // `seats N K`, and `threads N K`: what the journal of the workers' session tells, by each status.
    ensures workers { (crew : Crew) → crew_asked (map string_bytes words.now) ≡ Some crew →
        IsTrue (is_status_of_bulk result) × CrewAnswers crew result
        (K.faults sink.old) (K.faults sink.new) (K.written sink.old) (K.written sink.new) }
    // 0 to `bulk N`: what was written sums up the transcript of the generated turns, which may come where they stand.
    ensures summary { (n : _) → bulk_count (map string_bytes words.now) ≡ Some n → result ≡ 0 →
        (text : List _) × IsSummary n text × Appends (K.written sink.old) (K.written sink.new) text }
    ensures bulk { (n : _) → bulk_count (map string_bytes words.now) ≡ Some n → IsTrue (is_status_of_bulk result) }
    ensures bulk_cut_short { (n : _) → bulk_count (map string_bytes words.now) ≡ Some n → result ≡ 4 →
        (text : List _) × IsSummary n text × AppendsFront (K.written sink.old) (K.written sink.new) text }
    ensures bulk_complete { (n : _) → bulk_count (map string_bytes words.now) ≡ Some n →
        Still (K.faults sink.old) (K.faults sink.new) → (result ≡ 0) ⊎ (result ≡ 7) }
    // 0 to `pub`: where the world tells its ended links, the last one took the handshake's text, a PONG for
    // each PING that came with it, the text of the publish, and nothing else.
    ensures published { (addr subject payload : List _)
        → live_of (map string_bytes words.now) ≡ publishes addr subject payload
        → result ≡ 0 → Shows addr (WasPublished subject payload) (W.seen world.old) (W.seen world.new)
        × Appends (K.written sink.old) (K.written sink.new) published_line }
    // 0 to `sub`: where the world tells its ended links, what was written are the texts of the first N messages
    // that the last one gave for the subscription, which it was asked for.
    ensures received { (addr subject : List _) (n : _) → live_of (map string_bytes words.now) ≡ receives addr subject n
        → result ≡ 0 → (text : List _) × Shows addr (WasReceived subject n text) (W.seen world.old) (W.seen world.new)
        × Appends (K.written sink.old) (K.written sink.new) text }
    // 9: connecting or the call was refused, or the link ended first, and the text says so.
    ensures not_published { (addr subject payload : List _)
        → live_of (map string_bytes words.now) ≡ publishes addr subject payload
        → result ≡ 9
        → (e : LiveError) × IsToldOf e × WhyNotPublished addr subject payload (W.seen world.old) e (W.seen world.new)
        × Appends (K.written sink.old) (K.written sink.new) (error_line e) }
    ensures not_received { (addr subject : List _) (n : _)
        → live_of (map string_bytes words.now) ≡ receives addr subject n
        → result ≡ 9
        → (e : LiveError) × IsToldOf e × WhyNotReceived addr subject n (W.seen world.old) e (W.seen world.new)
        × Appends (K.written sink.old) (K.written sink.new) (error_line e) }
    ensures live { IsLive (map string_bytes words.now) → IsTrue (is_status_of_live result) }
    ensures refused_only { result ≡ 9 → IsLive (map string_bytes words.now) }
    ensures pub_cut_short { (addr subject payload : List _)
        → live_of (map string_bytes words.now) ≡ publishes addr subject payload
        → result ≡ 4 → (text : List _) × PubPrints addr subject payload (W.seen world.old) text (W.seen world.new)
        × AppendsFront (K.written sink.old) (K.written sink.new) text }
    ensures sub_cut_short { (addr subject : List _) (n : _)
        → live_of (map string_bytes words.now) ≡ receives addr subject n
        → result ≡ 4 → (text : List _) × SubPrints addr subject n (W.seen world.old) text (W.seen world.new)
        × AppendsFront (K.written sink.old) (K.written sink.new) text }
    // Other words leave the world alone.
    ensures untouched { live_of (map string_bytes words.now) ≡ others → world.new ≡ world.old }
    // 2: the words are no command.
    ensures unknown { IsUnknown (map string_bytes words.now) → (result ≡ 2) ⊎ (result ≡ 4) }
    ensures unknown_only { result ≡ 2 → IsUnknown (map string_bytes words.now) }
    ensures unknown_text { result ≡ 2 → Appends (K.written sink.old) (K.written sink.new) unknown_command }
    ensures unread { map string_bytes words.now ≢ run_words → asked_by (map string_bytes words.now) ≡ None
        → source.new ≡ source.old }
    // These come to scripts alone: 3, 5, 6 and 8.
    ensures run_only { IsTrue (is_status_of_run result) → asked_by (map string_bytes words.now) ≡ None
        → map string_bytes words.now ≡ run_words }
    // 3: the source failed.
    ensures read_fault { result ≡ 3 → Rose (S.faults source.old) (S.faults source.new) }
    // 4: the sink failed, behind a first part of the text.
    ensures write_fault { result ≡ 4 → Rose (K.faults sink.old) (K.faults sink.new) }
    ensures cut_short { result ≡ 4 → map string_bytes words.now ≡ run_words → IfSome (S.left source.old) (λ bytes.
        (ending : Ending) × (text : List _) × Prints ending bytes text
        × AppendsFront (K.written sink.old) (K.written sink.new) text) }
    ensures unknown_cut_short { result ≡ 4 → IsUnknown (map string_bytes words.now) →
        AppendsFront (K.written sink.old) (K.written sink.new) unknown_command }
    // 5: a line cannot be read, and the text says which is the first.
    ensures unreadable { result ≡ 5 → asked_by (map string_bytes words.now) ≡ None →
        IfSome (S.left source.old) (λ bytes. (text : List _) × IsUnreadable bytes text
        × Appends (K.written sink.old) (K.written sink.new) text) }
    // 6: every line can be read, a turn may not come where it stands, and the text says which is the first.
    ensures out_of_turn { result ≡ 6 → asked_by (map string_bytes words.now) ≡ None →
        IfSome (S.left source.old) (λ bytes. (text : List _) × IsOutOfTurn bytes text
        × Appends (K.written sink.old) (K.written sink.new) text) }
    // 8: the source held more than a script may have, and gave more.
    ensures too_long { result ≡ 8 → IfSome (S.left source.old) (λ bytes. SCRIPT_LIMIT < length bytes) }
    ensures too_much { result ≡ 8 → RoseBy (suc SCRIPT_LIMIT) (S.given source.old) (S.given source.new) }
    // The others to `run`, but 3 and 7: the source was read to its end, and held no more than a script may have.
    ensures ended { map string_bytes words.now ≡ run_words → result ≢ 3 → result ≢ 7 → result ≢ 8 →
        Rose (S.ends source.old) (S.ends source.new) }
    ensures within { map string_bytes words.now ≡ run_words → result ≢ 3 → result ≢ 7 → result ≢ 8 →
        IfSome (S.left source.old) (λ bytes. length bytes ≤ SCRIPT_LIMIT) }
    // Completeness: a script that can be played is played, but for a fault or want of memory.
    ensures complete { map string_bytes words.now ≡ run_words → IfSome (S.left source.old) (λ bytes. IsPlayable bytes →
        Still (S.faults source.old) (S.faults source.new) → Still (K.faults sink.old) (K.faults sink.new) →
        (result ≡ 0) ⊎ (result ≡ 7)) }
    // Nothing else is printed.
    ensures silent { result ≢ 0 → result ≢ 2 → result ≢ 4 → result ≢ 5 → result ≢ 6 → result ≢ 9
        → sink.new ≡ sink.old }
{
    if let Some(asked) = asked_of(words) {
        return answer_asked(alloc, asked, source, sink);
    }
    if let Some(crew) = crew_of(words) {
        return answer_crew(rt, alloc, crew, sink);
    }
    if !are_run(words) {
        return answer_others(rt, alloc, words, sink, world);
    }
    match play(alloc, source) {
        Ok(output) => match write_all(output.text.as_slice(), sink) {
            Ok(()) => status_of_ending(output.ending),
            Err(_) => WRITE_FAULT,
        },
        Err(refusal) => status_of(refusal),
    }
}
