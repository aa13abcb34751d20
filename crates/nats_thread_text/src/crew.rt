//! Workers at a hub of their own, up to its audit.
ghost use Rattle.std.specs.Prelude.{◌≡◌, ◌+◌, ◌*◌, ◌≤◌, ◌^◌, true, IfOk, sum_by};
ghost use Rattle.nats_thread_text.specs.Report as words;

use crate::workers::{Worker, work};
use nats_client::{
    Audit, Client, CloneError, Config, FinishError, NoMemory, Tallies, Turn, usual_server,
};
use nats_core::StepError;
use std::alloc::Global;
use std::sync::Wait;
use std::sync::ledger::Blank;
use std::thread;
use std::thread::Threads;

/// The number with which the hub's generator begins, from which these workers draw nothing.
const START: u64 = 1;

/// So many workers, each with a clone of a client.
fn workers_of<G: Tallies>(
    alloc: Global,
    client: &mut Client<G>,
    workers: u64,
) -> Result<Vec<Worker<G>>, NoMemory>
    requires few { workers ≤ 64 }
    requires whole { client.old.parts ≡ 2 ^ 63 }
    ensures { IfOk result (λ v. client.new.parts + sum_by (λ w. w.client.parts) v.items ≡ 2 ^ 63) }
{
    let mut crew = Vec::new(alloc);
    for done in 0..workers {
        crew.reserve(1)?;
        match client.clone() {
            Ok(clone) => crew.push_reserved(Worker {
                number: done + 1,
                client: clone,
                is_short: false,
            }),
            Err(CloneError::NoPart) => unreachable!(),
            Err(CloneError::NoMemory) => return Err(NoMemory),
        }
    }
    Ok(crew)
}

/// Lets each worker make its publishes, all at once.
fn work_all<G: Tallies + Send + Sync, R: Threads + Wait + Sync>(
    rt: &R,
    alloc: Global,
    crew: Vec<Worker<G>>,
    count: u64,
) -> Result<Vec<Worker<G>>, NoMemory>
    ensures { IfOk result (λ v. sum_by (λ w. w.client.parts) v.items ≡ sum_by (λ w. w.client.parts) crew.items) }
{
    Ok(thread::map_vec(
        rt,
        crew,
        &|worker: Worker<G>| -> Worker<G>
            ensures { result.client.parts ≡ worker.client.parts }
        { work(rt, alloc, worker, count) },
    )?)
}

/// Takes over what the clients of workers have. Whether memory was wanting to one of them.
fn settle_all<G: Tallies>(client: &mut Client<G>, crew: Vec<Worker<G>>) -> bool
    requires { G.parts ≡ 2 ^ 63 }
    ensures { client.new.parts ≡ client.old.parts + sum_by (λ w. w.client.parts) crew.items }
{
    let mut crew = crew;
    let mut is_short = false;
    while let Some(worker) = crew.pop() {
        is_short = is_short || worker.is_short;
        client.settle(worker.client);
    }
    is_short
}

/// A link comes up, whose server takes payloads of 1,048,576 bytes; a refusal is passed over.
fn bring_up<G: Tallies, R: Wait>(
    rt: &R,
    alloc: Global,
    client: &Client<G>,
) -> Result<(), NoMemory> {
    match client.hub().play(rt, alloc, Turn::Up(usual_server(alloc))) {
        Err(StepError::NoMemory) => Err(NoMemory),
        _ => Ok(()),
    }
}

/// What a hub came to, whose last client this is.
fn finished<G: Tallies, R: Wait>(
    rt: &R,
    alloc: Global,
    client: Client<G>,
) -> Result<Audit, NoMemory>
    requires parts { G.parts ≡ 2 ^ 63 }
    requires kept { G.is_kept ≡ true }
    requires whole { client.parts ≡ 2 ^ 63 }
    ensures { IfOk result words.IsFinished }
{
    match client.finish(rt, alloc) {
        Ok(audit) => Ok(audit),
        Err(FinishError::Held(_)) => unreachable!(),
        Err(FinishError::NoMemory(_)) => Err(NoMemory),
    }
}

/// Makes a hub with these settings, brings a link up, lets so many workers publish at once, `count` times each and each
/// by a client of its own, settles their clients and finishes the hub.
pub(crate) fn audit_of_threads<G: Tallies + Send + Sync, R: Threads + Wait + Sync>(
    rt: &R,
    alloc: Global,
    blank: Blank,
    config: Config,
    workers: u64,
    count: u64,
) -> Result<Audit, NoMemory>
    requires name { blank.name ≡ G.name }
    requires parts { blank.parts ≡ G.parts }
    requires all { blank.parts ≡ 2 ^ 63 }
    requires kept { G.is_kept ≡ true }
    requires few { workers ≤ 64 }
    ensures { IfOk result words.IsFinished }
{
    let mut client = Client::<G>::over(alloc, blank, config, true, START)?;
    bring_up(rt, alloc, &client)?;
    let crew = workers_of(alloc, &mut client, workers)?;
    let crew = work_all(rt, alloc, crew, count)?;
    if settle_all(&mut client, crew) {
        return Err(NoMemory);
    }
    finished(rt, alloc, client)
}
