//! Workers that publish at one session, each with a seat or with a client of its own, and what is printed of them.
ghost use Rattle.std.specs.Prelude.{◌≡◌, IfOk, IsTrue};
ghost use Rattle.nats_replay.specs.Outside.{Rose};
ghost use Rattle.nats_replay.specs.Words.{is_status_of_bulk};
ghost use Rattle.nats_replay.specs.Workers.{CrewAnswers, Tells};
ghost use Rattle.nats_worker_text.specs.Asked.{IsAsked, IsFit};
ghost use Rattle.nats_seat_text.specs.Report.{TellsOfWorkers};

use crate::outside::Sink;
use crate::top::{DONE, NO_MEMORY, WRITE_FAULT};
use crate::whole::write_all;
use nats_names::NoMemory;
use nats_seat_text::seats_output;
use nats_thread_text::threads_output;
use nats_worker_text::Crew;
use std::alloc::Global;
use std::sync::Wait;
use std::thread::Threads;

/// What is printed of workers with seats. That a publish is refused, for which the settings leave no cause, is taken as
/// want of memory.
fn seats_text<R: Threads + Wait + Sync>(
    rt: &R,
    alloc: Global,
    workers: u64,
    count: u64,
) -> Result<Vec<u8>, NoMemory>
    requires { IsAsked workers count }
    ensures { IfOk result (λ text. TellsOfWorkers workers count text.items) }
{
    match seats_output(rt, alloc, workers, count) {
        Ok(text) => Ok(text),
        Err(_) => Err(NoMemory),
    }
}

/// What is printed of workers.
fn crew_text<R: Threads + Wait + Sync>(
    rt: &R,
    alloc: Global,
    crew: Crew,
) -> Result<Vec<u8>, NoMemory>
    requires { IsFit crew }
    ensures { IfOk result (λ text. Tells crew text.items) }
{
    match crew {
        Crew::Seats { workers, count } => seats_text(rt, alloc, workers, count),
        Crew::Threads { workers, count } => threads_output(rt, alloc, workers, count),
    }
}

/// Lets workers publish as is asked, and prints what the journal of their session tells. Nothing is printed where
/// memory is wanting.
pub(crate) fn answer_crew<R: Threads + Wait + Sync, K: Sink>(
    rt: &R,
    alloc: Global,
    crew: Crew,
    sink: &mut K,
) -> u8
    requires { IsFit crew }
    ensures answers { CrewAnswers crew result
        (K.faults sink.old) (K.faults sink.new) (K.written sink.old) (K.written sink.new) }
    ensures status { IsTrue (is_status_of_bulk result) }
    ensures write_fault { result ≡ 4 → Rose (K.faults sink.old) (K.faults sink.new) }
    ensures silent { result ≡ 7 → sink.new ≡ sink.old }
{
    match crew_text(rt, alloc, crew) {
        Ok(text) => match write_all(text.as_slice(), sink) {
            Ok(()) => DONE,
            Err(_) => WRITE_FAULT,
        },
        Err(NoMemory) => NO_MEMORY,
    }
}
