//! Clients that publish from threads of their own, over a hub whose link takes all that waits for it.
ghost use Rattle.std.specs.Prelude.{◌≡◌, ◌≤◌, ◌^◌, false};

use nats_client::{
    Bytes, Client, CloneError, Config, Hub, NoMemory, OutboundMessage, Subject, Tallies, Turn,
    usual_server,
};
use std::alloc::Global;
use std::sync::Wait;
use std::sync::ledger::Blank;
use std::thread;
use std::thread::Threads;

/// The payload of each message, of 128 bytes.
const PAYLOAD: &[u8] = &[b'x'; 128];

/// Publishes so often, and answers how many messages were accepted.
fn work<G: Tallies, R: Wait>(rt: &R, alloc: Global, client: Client<G>, each: u64) -> u64 {
    let mut client = client;
    let mut accepted = 0u64;
    for _ in 0..each {
        let message = OutboundMessage {
            subject: Subject::from_static("orders.new"),
            reply: None,
            payload: Bytes::from_static(PAYLOAD),
            headers: None,
        };
        if client.try_publish(rt, alloc, message).is_ok() {
            accepted = accepted.saturating_add(1);
        }
    }
    accepted
}

fn length_of(pieces: &[Bytes]) -> u64 {
    let mut length = 0u64;
    for piece in pieces {
        length = length.saturating_add(piece.len() as u64);
    }
    length
}

/// Takes what waits for the link of this number, until it is gone.
fn take_all<G: Tallies, R: Wait>(rt: &R, alloc: Global, hub: &Hub<G>, link: u64) {
    for _ in rt.forever() {
        let Ok(Some(pieces)) = hub.pieces_on(rt, alloc, link) else {
            return;
        };
        if pieces.is_empty() {
            hub.wait_for_bytes(rt, link);
        } else {
            let _ = hub.play_on(rt, alloc, link, Turn::Write(length_of(pieces.as_slice())));
        }
    }
}

/// So many clones of a client.
fn clones<G: Tallies>(
    alloc: Global,
    client: &mut Client<G>,
    n: u64,
) -> Result<Vec<Client<G>>, NoMemory>
    requires few { n ≤ 64 }
    requires whole { client.old.parts ≡ 2 ^ 63 }
{
    let mut clones = Vec::new(alloc);
    for _ in 0..n {
        clones.reserve(1)?;
        match client.clone() {
            Ok(clone) => clones.push_reserved(clone),
            Err(CloneError::NoPart | CloneError::NoMemory) => return Err(NoMemory),
        }
    }
    Ok(clones)
}

/// Each client works in a thread of its own; how many messages were accepted in all.
fn work_all<G: Tallies + Send + Sync, R: Threads + Wait + Sync>(
    rt: &R,
    alloc: Global,
    clients: Vec<Client<G>>,
    each: u64,
) -> u64 {
    let counts = thread::map_vec(
        rt,
        clients,
        &|client: Client<G>| -> u64 { work(rt, alloc, client, each) },
    );
    match counts {
        Ok(counts) => counts
            .as_slice()
            .iter()
            .fold(0u64, |sum, count| sum.saturating_add(*count)),
        Err(_) => 0,
    }
}

/// So many clients publish so often each, all at once; how many messages were accepted in all.
pub fn publish<G: Tallies + Send + Sync, R: Threads + Wait + Sync>(
    rt: &R,
    alloc: Global,
    blank: Blank,
    config: Config,
    n: u64,
    each: u64,
) -> Result<u64, NoMemory>
    requires name { blank.name ≡ G.name }
    requires parts { blank.parts ≡ G.parts }
    requires all { blank.parts ≡ 2 ^ 63 }
    requires kept { G.is_kept ≡ false }
    requires few { n ≤ 64 }
{
    let mut client = Client::<G>::over(alloc, blank, config, false, 1)?;
    let workers = clones(alloc, &mut client, n)?;
    let hub = client.hub();
    let _ = hub.play(rt, alloc, Turn::Up(usual_server(alloc)));
    let link = hub.link(rt);
    let (accepted, ()) = thread::join(
        rt,
        move || -> u64 {
            let accepted = work_all(rt, alloc, workers, each);
            let _ = hub.play_on(rt, alloc, link, Turn::Lost);
            accepted
        },
        || take_all(rt, alloc, hub, link),
    );
    Ok(accepted)
}
