//! The text that is printed of workers.
ghost use Rattle.std.specs.Prelude.{◌≡◌, ◌+◌, ◌*◌, ◌^◌, ◌<◌, ◌++◌, count_by, IfOk, OnOk, None, string_bytes};
ghost use Rattle.nats_history.specs.Schedule.{out_of_turn};
ghost use Rattle.nats_bulk.specs.Summary as sums;
ghost use Rattle.nats_seat_text.specs.Report as words;
ghost use Rattle.nats_worker_text.specs.Asked.{IsAsked};
ghost use Rattle.nats_worker_text.specs.Settings.{workers_config};

use crate::taken::text_length;
use nats_core::{CallReply, NoMemory, StepReply};
use nats_desk::SeatEntry;
use nats_seat_workers::{WorkError, accepted_by, publish_by_seats};
use nats_worker_text::{push_line, workers_config};
use std::alloc::Global;
use std::sync::Wait;
use std::thread::Threads;

fn is_accepted(reply: &CallReply) -> bool
    ensures { result ≡ sums.is_accepted reply.now }
{
    matches!(reply, CallReply::Accepted | CallReply::Numbered(_))
}

fn accepts(reply: &StepReply) -> bool
    ensures { result ≡ words.accepts reply.now }
{
    match reply {
        StepReply::Call(reply) => is_accepted(reply),
        _ => false,
    }
}

/// How many entries of a journal are calls that were accepted.
fn accepted_in(journal: &[SeatEntry]) -> u64
    ensures { result ≡ words.accepted_in journal.now }
{
    let mut count = 0;
    for entry in journal {
        if accepts(&entry.reply) {
            count += 1;
        }
    }
    count
}

fn push_worker(alloc: Global, out: &mut String, worker: u64, n: u64) -> Result<(), NoMemory>
    ensures { OnOk result (string_bytes out.new ≡ string_bytes out.old ++ words.worker_line worker n) }
{
    let line = format!(in alloc; "worker {worker} {n}\n")?;
    out.push_str(line.as_str())?;
    Ok(())
}

/// A line for each worker, with how many of its publishes were accepted.
fn worker_lines(alloc: Global, workers: u64, journal: &[SeatEntry]) -> Result<String, NoMemory>
    requires { workers + 1 < 2 ^ 64 }
    ensures { IfOk result (λ text. string_bytes text ≡ words.worker_lines workers journal.now) }
{
    let mut out = String::new(alloc);
    for done in 0..workers {
        let worker = done + 1;
        push_worker(alloc, &mut out, worker, accepted_by(journal, worker + 1))?;
    }
    Ok(out)
}

/// What is printed of a right journal of so many workers, that made so many calls in all.
fn report(
    alloc: Global,
    workers: u64,
    calls: u64,
    journal: Vec<SeatEntry>,
) -> Result<String, NoMemory>
    requires few { workers + 1 < 2 ^ 64 }
    requires some { 0 < calls }
    requires valid { out_of_turn (workers_config calls) (words.turns_in journal.items) ≡ None }
    ensures { IfOk result (λ text. string_bytes text ≡ words.report workers calls journal.items) }
{
    let accepted = accepted_in(journal.as_slice());
    let lines = worker_lines(alloc, workers, journal.as_slice())?;
    let config = workers_config(alloc, calls)?;
    let taken = text_length(alloc, config, journal, calls)?;
    let mut out = String::new(alloc);
    push_line(alloc, &mut out, "accepted", accepted)?;
    push_line(alloc, &mut out, "text", taken)?;
    out.push_str(lines.as_str())?;
    Ok(out)
}

/// Lets so many workers publish at one session, `count` times each, all at once and each with a seat of its own, closes
/// the session, and answers what its journal tells, a line each: `accepted`, how many of its calls were accepted;
/// `text`, how many bytes the link takes as the journal's turns are played, and behind them as many whole writes as
/// there were publishes; and for each worker from 1 on `worker`, its number, and how many of its publishes were
/// accepted. Worker i publishes on `t.` with i in decimal the decimal texts of 1 to `count`. The settings are those of
/// `bulk_config`, but as many calls may wait as all workers make.
///
/// # Errors
///
/// `Refused` where a publish is refused: the session was not the workers' alone. `NoMemory` for want of memory.
pub fn seats_output<R: Threads + Wait + Sync>(
    rt: &R,
    alloc: Global,
    workers: u64,
    count: u64,
) -> Result<Vec<u8>, WorkError>
    requires { IsAsked workers count }
    ensures { IfOk result (λ text. words.TellsOfWorkers workers count text.items) }
{
    let calls = workers * count;
    let config = workers_config(alloc, calls)?;
    let journal = publish_by_seats(rt, alloc, config, workers, count)?;
    let text = report(alloc, workers, calls, journal)?;
    Ok(text.into_bytes())
}
