//! Both sides and the server, each on its threads.
ghost use Rattle.std.specs.Prelude.{◌≡◌, ◌^◌, true};

use crate::client;
use crate::server::{self, Seat};
use anyhow::{Result, anyhow};
use nats_client::{Client, Hub, Subscriber, Tallies};
use std::alloc::Global;
use std::sync::Wait;
use std::sync::ledger::Blank;
use std::thread;
use std::thread::Threads;

/// How many requests each side makes.
const COUNT: u64 = 100;

/// What both threads of a side came to: how many replies were right, and how many requests it replied to.
type Done = (Result<u64>, Result<u64>);

/// A side: the client that asks, the one that answers, its subscription, the one whose hub the server looks at, and
/// what the server heard of it.
#[derive(Drop)]
struct Side<G: Tallies> {
    asker: Client<G>,
    answerer: Client<G>,
    subscriber: Subscriber<G>,
    watcher: Client<G>,
    seat: Seat,
}

/// A side over a new hub, which subscribes to its own subject.
fn new_side<G: Tallies, R: Wait>(
    rt: &R,
    alloc: Global,
    blank: Blank,
    subject: &'static str,
) -> Result<Side<G>>
    requires name { blank.name ≡ G.name }
    requires parts { blank.parts ≡ G.parts }
    requires all { blank.parts ≡ 2 ^ 63 }
    requires kept { G.is_kept ≡ true }
{
    let mut asker = client::begin::<G, R>(rt, alloc, blank)?;
    let subscriber = asker.subscribe(rt, alloc, subject)?;
    let seat = server::take_seat(rt, alloc, asker.hub())?;
    let answerer = asker.clone()?;
    let watcher = asker.clone()?;
    Ok(Side {
        asker,
        answerer,
        subscriber,
        watcher,
        seat,
    })
}

/// What one client asks at the other's subject, and what a second one answers.
fn talks<G: Tallies + Send + Sync, R: Threads + Wait + Sync>(
    rt: &R,
    alloc: Global,
    asker: &mut Client<G>,
    answerer: &mut Client<G>,
    subscriber: &mut Subscriber<G>,
    subject: &'static str,
) -> Done {
    thread::join(
        rt,
        || -> Result<u64> { client::asks(rt, alloc, asker, subject, COUNT) },
        || -> Result<u64> { client::answers(rt, alloc, answerer, subscriber, COUNT) },
    )
}

/// The one side talks, while the server hands on messages: what the side came to, and how many messages there were.
fn talks_beside<G: Tallies + Send + Sync, H: Tallies + Send + Sync, R: Threads + Wait + Sync>(
    rt: &R,
    alloc: Global,
    side: &mut Side<G>,
    other: &Hub<H>,
    seat: &mut Seat,
) -> (Done, Result<u64>) {
    let Side {
        asker,
        answerer,
        subscriber,
        watcher,
        seat: own,
    } = side;
    let hub = watcher.hub();
    thread::join(
        rt,
        || -> Done { talks(rt, alloc, asker, answerer, subscriber, "two") },
        || -> Result<u64> { server::serves(rt, alloc, (hub, own), (other, seat), 4 * COUNT) },
    )
}

/// Both sides talk through the server: what each came to, and how many messages there were.
fn meets<G: Tallies + Send + Sync, H: Tallies + Send + Sync, R: Threads + Wait + Sync>(
    rt: &R,
    alloc: Global,
    one: &mut Side<G>,
    two: &mut Side<H>,
) -> ((Done, Result<u64>), Done) {
    let Side {
        asker,
        answerer,
        subscriber,
        watcher,
        seat,
    } = two;
    let hub = watcher.hub();
    thread::join(
        rt,
        || -> (Done, Result<u64>) { talks_beside(rt, alloc, one, hub, seat) },
        || -> Done { talks(rt, alloc, asker, answerer, subscriber, "one") },
    )
}

/// Prints what a side came to, and gives all its parts back to one client.
fn ends<G: Tallies, R: Wait + Print>(
    rt: &R,
    alloc: Global,
    side: Side<G>,
    name: &str,
    done: Done,
) -> Result<()>
    requires { G.parts ≡ 2 ^ 63 }
{
    let Side {
        mut asker,
        answerer,
        subscriber,
        watcher,
        seat: _,
    } = side;
    let (right, answered) = (done.0?, done.1?);
    println!(rt; "{name}: {right} replies right, {answered} requests answered")?;
    asker.settle(answerer);
    asker.settle(watcher);
    match subscriber.close(rt, alloc, &mut asker) {
        Ok(()) => client::finishes(rt, alloc, asker),
        Err(_) => Err(anyhow!("no memory")),
    }
}

/// Two clients ask each other, and what each side and its hub came to is printed.
pub(crate) fn play_both<
    G: Tallies + Send + Sync,
    H: Tallies + Send + Sync,
    R: Threads + Wait + Print + Sync,
>(rt: &R, alloc: Global, first: Blank, second: Blank) -> Result<()>
    requires name { first.name ≡ G.name }
    requires parts { first.parts ≡ G.parts }
    requires all { first.parts ≡ 2 ^ 63 }
    requires kept { G.is_kept ≡ true }
    requires second_name { second.name ≡ H.name }
    requires second_parts { second.parts ≡ H.parts }
    requires second_all { second.parts ≡ 2 ^ 63 }
    requires second_kept { H.is_kept ≡ true }
{
    let mut one = new_side::<G, R>(rt, alloc, first, "one")?;
    let mut two = new_side::<H, R>(rt, alloc, second, "two")?;
    let ((done, served), other_done) = meets(rt, alloc, &mut one, &mut two);
    println!(rt; "{} messages handed on", served?)?;
    ends(rt, alloc, one, "one", done)?;
    ends(rt, alloc, two, "two", other_done)
}
