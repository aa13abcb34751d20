//! Clients that publish from threads of their own.
ghost use Rattle.std.specs.Prelude.{◌≡◌, ◌+◌, ◌*◌, ◌≤◌, ◌^◌, true, IfOk, sum_by};
ghost use Rattle.nats_core.specs.Journal.{IsRight};
ghost use Rattle.nats_hub.specs.Tallying.{accepted_in};

use nats_client::{
    Audit, Bytes, Client, CloneError, Config, FinishError, NoMemory, OutboundMessage, Subject,
    Tallies, Turn, usual_server,
};
use nats_core::{Call, Entry};
use std::alloc::Global;
use std::sync::Wait;
use std::sync::ledger::Blank;
use std::thread;
use std::thread::Threads;

/// The message that each worker publishes.
fn greeting() -> OutboundMessage {
    OutboundMessage {
        subject: Subject::from_static("greetings"),
        reply: None,
        payload: Bytes::from_static(b"hello"),
        headers: None,
    }
}

/// Publishes so often; a message for which there is no room is not sent.
fn work<G: Tallies, R: Wait>(rt: &R, mut client: Client<G>, alloc: Global, each: u64) -> Client<G>
    ensures { result.parts ≡ client.parts }
{
    for _ in 0..each {
        let _ = client.try_publish(rt, alloc, greeting());
    }
    client
}

/// So many clones of a client.
fn clones<G: Tallies>(
    alloc: Global,
    client: &mut Client<G>,
    n: u64,
) -> Result<Vec<Client<G>>, NoMemory>
    requires few { n ≤ 64 }
    requires whole { client.old.parts ≡ 2 ^ 63 }
    ensures { IfOk result (λ v. client.new.parts + sum_by (λ c. c.parts) v.items ≡ 2 ^ 63) }
{
    let mut clones = Vec::new(alloc);
    for _i in 0..n {
        clones.reserve(1)?;
        match client.clone() {
            Ok(clone) => clones.push_reserved(clone),
            Err(CloneError::NoPart) => unreachable!(),
            Err(CloneError::NoMemory) => return Err(NoMemory),
        }
    }
    Ok(clones)
}

/// Takes over what some clients have.
fn settle_all<G: Tallies>(client: &mut Client<G>, others: Vec<Client<G>>)
    requires { G.parts ≡ 2 ^ 63 }
    ensures { client.new.parts ≡ client.old.parts + sum_by (λ c. c.parts) others.items }
{
    let mut others = others;
    while let Some(other) = others.pop() {
        client.settle(other);
    }
}

/// Each client works in a thread of its own.
fn work_all<G: Tallies + Send + Sync, R: Threads + Wait + Sync>(
    rt: &R,
    alloc: Global,
    clients: Vec<Client<G>>,
    each: u64,
) -> Result<Vec<Client<G>>, NoMemory>
    ensures { IfOk result (λ v. sum_by (λ c. c.parts) v.items ≡ sum_by (λ c. c.parts) clients.items) }
{
    Ok(thread::map_vec(
        rt,
        clients,
        &|client: Client<G>| -> Client<G>
            ensures { result.parts ≡ client.parts }
        { work(rt, client, alloc, each) },
    )?)
}

/// A link comes up on a new hub, clones of its client publish from threads, and the hub is finished.
pub(crate) fn play<G: Tallies + Send + Sync, R: Threads + Wait + Sync>(
    rt: &R,
    alloc: Global,
    blank: Blank,
    config: Config,
    n: u64,
    each: u64,
) -> Result<Audit, NoMemory>
    requires name { blank.name ≡ G.name }
    requires parts { blank.parts ≡ G.parts }
    requires all { blank.parts ≡ 2 ^ 63 }
    requires kept { G.is_kept ≡ true }
    requires few { n ≤ 64 }
    ensures right { IfOk result (λ audit. IsRight audit.config audit.journal.items) }
    ensures accepted { IfOk result (λ audit. audit.tally.accepted ≡ accepted_in audit.journal.items) }
    ensures equal { IfOk result (λ audit. audit.tally.made ≡ audit.tally.accepted) }
{
    let mut client = Client::<G>::over(alloc, blank, config, true, 1)?;
    let workers = clones(alloc, &mut client, n)?;
    let _ = client.hub().play(rt, alloc, Turn::Up(usual_server(alloc)));
    let workers = work_all(rt, alloc, workers, each)?;
    settle_all(&mut client, workers);
    match client.finish(rt, alloc) {
        Ok(audit) => Ok(audit),
        Err(FinishError::Held(_)) => unreachable!(),
        Err(FinishError::NoMemory(_)) => Err(NoMemory),
    }
}

/// How many messages a journal's calls published.
pub(crate) fn published(journal: &[Entry]) -> usize {
    journal
        .iter()
        .filter(|entry| matches!(entry.turn, Turn::Do(Call::Publish(_))))
        .count()
}
