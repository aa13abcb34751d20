//! What the client does, and what it saw.
ghost use Rattle.std.specs.Prelude.{◌≡◌, ◌^◌, true};

use crate::audit::number_of;
use anyhow::{Result, anyhow};
use nats_client::{Audit, Bytes, Client, Subject, Subscriber, TakeReply, Tallies};
use nats_drive::{Connected, Starter, World, connect_with_options};
use nats_outside::Clock;
use nats_pool::ConnectOptions;
use std::alloc::Global;
use std::sync::Wait;
use std::sync::ledger::Blank;
use std::thread;
use std::thread::Threads;

/// How many messages come at most to a subscription with a limit.
pub const LIMIT: u64 = 20;

/// How long the client rests behind each number, in milliseconds.
const PAUSE_MS: u64 = 5;

/// How long a request waits for its reply, in milliseconds.
const TIMEOUT_MS: u64 = 2_000;

/// The subjects of the numbers, in turn.
const SUBJECTS: [&str; 5] = ["audit.1", "audit.2", "audit.3", "audit.4", "audit.5"];

/// The subject of requests.
const ASK: &str = "audit.ask";

/// Whether the subscription at this place has a limit.
pub fn is_limited(place: usize) -> bool {
    place == 3 || place == 4
}

/// What the client saw, and what its hub came to.
#[derive(Drop)]
pub struct Seen {
    /// The numbers that each subscription gave; the last is that of requests.
    pub taken: Vec<Vec<u64>>,
    /// The number by which each request was replied, none where it was refused.
    pub replies: Vec<Option<u64>>,
    /// What the hub came to.
    pub audit: Audit,
}

/// A subscription, and the numbers that it gave.
#[derive(Drop)]
struct Ear<G: Tallies> {
    subscriber: Subscriber<G>,
    taken: Vec<u64>,
}

impl<G: Tallies> Ear<G> {
    /// Takes all that waits.
    fn take<R: Wait>(&mut self, rt: &R, alloc: Global) -> Result<()> {
        for _ in rt.forever() {
            let TakeReply::Message(message) = self.subscriber.poll_next(rt, alloc)? else {
                return Ok(());
            };
            self.taken.push(number_of(&message)?)?;
        }
        unreachable!()
    }

    /// Takes all that comes until none will, and answers each request with its own payload.
    fn answer<R: Wait>(&mut self, rt: &R, alloc: Global, client: &mut Client<G>) -> Result<()> {
        for _ in rt.forever() {
            let Some(message) = self.subscriber.next(rt, alloc)? else {
                return Ok(());
            };
            self.taken.push(number_of(&message)?)?;
            if let Some(reply) = &message.reply {
                let to = Subject::from_text(alloc, reply.as_str())?;
                let _ = client.publish(rt, alloc, to, message.payload.slice(..)?);
            }
        }
        unreachable!()
    }
}

/// A subscription to this subject.
fn listen<G: Tallies, R: Wait>(
    rt: &R,
    alloc: Global,
    client: &mut Client<G>,
    subject: &str,
    is_limited: bool,
) -> Result<Ear<G>> {
    let mut subscriber = client.subscribe(rt, alloc, Subject::from_text(alloc, subject)?)?;
    if is_limited {
        subscriber.unsubscribe_after(rt, alloc, LIMIT)?;
    }
    let taken = Vec::new(alloc);
    Ok(Ear { subscriber, taken })
}

/// A number as a payload.
fn payload(alloc: Global, number: u64) -> Result<Bytes> {
    let text = format!(in alloc; "{number}")?;
    Ok(Bytes::copy_from_slice(alloc, text.as_bytes())?)
}

/// Asks with a number: the number of the reply, none where the request was refused.
fn ask<G: Tallies, R: Wait, C: Clock>(
    rt: &R,
    alloc: Global,
    client: &mut Client<G>,
    clock: &mut C,
    number: u64,
) -> Result<Option<u64>> {
    let Ok(message) = client.request(rt, alloc, ASK, payload(alloc, number)?, clock) else {
        return Ok(None);
    };
    let replied = number_of(&message)?;
    if replied != number {
        return Err(anyhow!("a request got the reply of another"));
    }
    Ok(Some(replied))
}

/// Publishes so many numbers in turn, asks with each fifth, and takes what came: what came of the requests.
fn speak<G: Tallies, R: Wait, C: Clock>(
    rt: &R,
    alloc: Global,
    client: &mut Client<G>,
    ears: &mut [Ear<G>],
    clock: &mut C,
    count: u64,
) -> Result<Vec<Option<u64>>> {
    let mut replies = Vec::new(alloc);
    'numbers: for number in 1..=count {
        let turn = (number % 5) as usize;
        client.publish(rt, alloc, SUBJECTS[turn], payload(alloc, number)?)?;
        if turn == 0 {
            replies.push(ask(rt, alloc, client, clock, number)?)?;
        }
        'ears: for ear in ears.iter_mut() {
            ear.take(rt, alloc)?;
        }
        clock.sleep_ms(PAUSE_MS);
    }
    Ok(replies)
}

/// Gives back what a subscription holds: the numbers that it gave.
fn close<G: Tallies, R: Wait>(
    rt: &R,
    alloc: Global,
    client: &mut Client<G>,
    ear: Ear<G>,
) -> Result<Vec<u64>>
    requires { G.parts ≡ 2 ^ 63 }
{
    let Ear { subscriber, taken } = ear;
    match subscriber.close(rt, alloc, client) {
        Ok(()) => Ok(taken),
        Err(_) => Err(anyhow!("no memory")),
    }
}

/// What a thread that answered gives back, and what came of the requests.
type Talk<G> = ((Client<G>, Ear<G>), Result<Vec<Option<u64>>>);

/// Speaks while another thread answers, and drains.
fn talk<G: Tallies + Send + Sync, R: Threads + Wait + Sync, C: Clock>(
    rt: &R,
    alloc: Global,
    client: &mut Client<G>,
    ears: &mut [Ear<G>],
    clock: &mut C,
    count: u64,
) -> Result<Talk<G>> {
    let asked = listen(rt, alloc, client, ASK, false)?;
    let other = client.clone()?;
    Ok(thread::join(
        rt,
        move || {
            let (mut other, mut asked) = (other, asked);
            let _ = asked.answer(rt, alloc, &mut other);
            (other, asked)
        },
        || {
            let replies = speak(rt, alloc, client, ears, clock, count);
            let _ = client.drain(rt, alloc);
            replies
        },
    ))
}

/// Talks, takes what is left, settles all and finishes the hub.
fn work<G: Tallies + Send + Sync, R: Threads + Wait + Sync, C: Clock>(
    rt: &R,
    alloc: Global,
    mut client: Client<G>,
    clock: &mut C,
    count: u64,
) -> Result<Seen>
    requires { G.parts ≡ 2 ^ 63 }
{
    let mut ears = Vec::new(alloc);
    'subjects: for (place, subject) in SUBJECTS.iter().enumerate() {
        ears.push(listen(rt, alloc, &mut client, subject, is_limited(place))?)?;
    }
    let talked = talk(rt, alloc, &mut client, ears.as_mut_slice(), clock, count);
    let ((other, asked), replies) = talked?;
    let mut taken = Vec::new(alloc);
    'ears: for mut ear in ears {
        ear.answer(rt, alloc, &mut client)?;
        taken.push(close(rt, alloc, &mut client, ear)?)?;
    }
    taken.push(close(rt, alloc, &mut client, asked)?)?;
    client.settle(other);
    let replies = replies?;
    match client.finish(rt, alloc) {
        Ok(audit) => Ok(Seen {
            taken,
            replies,
            audit,
        }),
        Err(error) => Err(anyhow!("{error}")),
    }
}

/// Connects with the journal kept, and does all.
pub fn play<
    G: Tallies + Send + Sync + 'static,
    R: Threads + Wait + Sync + Copy + Drop + Send + 'static,
    P: Starter,
    W: World + Drop + Send + 'static,
    C: Clock,
>(
    rt: &R,
    alloc: Global,
    blank: Blank,
    starter: &mut P,
    world: W,
    addr: String,
    clock: &mut C,
    count: u64,
) -> Result<Seen>
where
    W::Read: Send + 'static,
    W::Write: Send + 'static,
    W::Ticks: Send + 'static,
    requires name { blank.name ≡ G.name }
    requires parts { blank.parts ≡ G.parts }
    requires all { blank.parts ≡ 2 ^ 63 }
    requires kept { G.is_kept ≡ true }
{
    let options = ConnectOptions::new()
        .request_timeout(Some(TIMEOUT_MS))
        .journal(true);
    match connect_with_options::<G, R, P, W, String>(
        rt, alloc, blank, starter, world, addr, options,
    ) {
        Ok(Connected { client, .. }) => work(rt, alloc, client, clock, count),
        Err(refused) => Err(anyhow!("{}", refused.error)),
    }
}
