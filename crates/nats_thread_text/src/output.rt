//! The text that is printed of workers with clients of their own.
ghost use Rattle.std.specs.Prelude.{◌≡◌, ◌*◌, ◌<◌, IfOk, None, string_bytes};
ghost use Rattle.nats_core.specs.Journal.{turns_of};
ghost use Rattle.nats_history.specs.Schedule.{out_of_turn};
ghost use Rattle.nats_thread_text.specs.Report as words;
ghost use Rattle.nats_worker_text.specs.Asked.{IsAsked};

use crate::crew::audit_of_threads;
use nats_client::{ALL_PARTS, Audit, NoMemory, Turn};
use nats_core::Entry;
use nats_worker_text::{push_line, taken_with_writes, workers_config};
use std::alloc::Global;
use std::marker::Brand;
use std::sync::Wait;
use std::sync::ledger::Blank;
use std::thread::Threads;

fn turn_of(entry: Entry) -> Turn
    ensures { result ≡ entry.turn }
{
    let Entry { turn, reply: _ } = entry;
    turn
}

/// The turns of a journal, in order.
fn turns_in(alloc: Global, journal: Vec<Entry>) -> Result<Vec<Turn>, NoMemory>
    ensures { IfOk result (λ turns. turns.items ≡ turns_of journal.items) }
{
    let mut turns = Vec::new(alloc);
    'entries: for entry in journal {
        turns.push(turn_of(entry))?;
    }
    Ok(turns)
}

/// What is printed of what a hub came to, at which so many calls were made in all.
fn report(alloc: Global, calls: u64, audit: Audit) -> Result<String, NoMemory>
    requires some { 0 < calls }
    requires valid { out_of_turn audit.config (turns_of audit.journal.items) ≡ None }
    ensures { IfOk result (λ text. string_bytes text ≡ words.report calls audit) }
{
    let Audit {
        tally,
        config,
        journal,
    } = audit;
    let turns = turns_in(alloc, journal)?;
    let taken = taken_with_writes(alloc, config, turns, calls)?;
    let mut out = String::new(alloc);
    push_line(alloc, &mut out, "accepted", tally.accepted)?;
    push_line(alloc, &mut out, "text", taken)?;
    Ok(out)
}

/// Lets so many workers publish at one session, `count` times each, all at once, each in a thread of its own and by a
/// client of its own; settles their clients, finishes the hub, and answers what it came to, a line each: `accepted`,
/// how many of its calls were accepted; `text`, how many bytes link 1 takes as the turns of its journal are played
/// under its settings, and behind them as many whole writes as there were publishes. Worker i publishes on `t.` with i
/// in decimal the decimal texts of 1 to `count`; what refuses one of them, other than want of memory, is passed over.
/// The settings are those of `workers_config`: as many calls may wait as all workers make. Own call.
///
/// # Errors
///
/// `NoMemory` for want of memory.
pub fn threads_output<R: Threads + Wait + Sync>(
    rt: &R,
    alloc: Global,
    workers: u64,
    count: u64,
) -> Result<Vec<u8>, NoMemory>
    requires { IsAsked workers count }
    ensures { IfOk result (λ text. words.TellsOfThreads (workers * count) text.items) }
{
    let calls = workers * count;
    let config = workers_config(alloc, calls)?;
    let blank = Blank::new(ALL_PARTS);
    let audit = audit_of_threads::<Brand, R>(rt, alloc, blank, config, workers, count)?;
    let text = report(alloc, calls, audit)?;
    Ok(text.into_bytes())
}
