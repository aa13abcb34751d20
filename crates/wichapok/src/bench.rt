//! Benchmarks: clones of a client publish, take, ask and answer at once, each on a thread of its own.

use crate::asked::{Bench, Way};
use crate::deeds::{refused, still_on};
use crate::part::{Part, together};
use crate::rates;
use crate::stop::Stop;
use crate::taking::{FIRST_MS, Heard, PATIENCE_MS, Taker, cloned, subscribed};
use nats_client::{Bytes, Client, Message, Subject, Tallies};
use nats_outside::Clock;
use nats_refusals::Refusal;
use std::alloc::Global;
use std::sync::Wait;
use std::thread;
use std::thread::Threads;

/// The subject of all messages.
const SUBJECT: &str = "wichapok.bench";

/// What a thread does.
#[derive(Drop)]
enum Role<G: Tallies> {
    /// It publishes.
    Publish(Client<G>),
    /// It takes what comes, the first of which is waited for so many milliseconds.
    Take(Taker<G>, u64),
    /// It asks, one request after the other.
    Ask(Client<G>),
    /// It answers requests.
    Answer(Taker<G>),
}

/// What a thread does with how many messages, whether these are the ones that are counted, and whether it tells how
/// far it is.
#[derive(Drop)]
struct Job<G: Tallies> {
    role: Role<G>,
    msgs: u64,
    is_counted: bool,
    is_told: bool,
}

/// Tells how far a thread is, where it is to.
fn tell<R: Eprint>(rt: &R, is_told: bool, number: u64, msgs: u64) {
    if is_told {
        rates::progress(rt, number.saturating_add(1), msgs);
    }
}

/// Publishes the payload once.
fn publish_one<G: Tallies, R: Wait + Eprint>(
    rt: &R,
    alloc: Global,
    client: &mut Client<G>,
    payload: &Bytes,
) -> Result<(), Stop> {
    let again = payload.slice(..)?;
    let sent = client.publish(rt, alloc, SUBJECT, again);
    match &sent {
        Ok(()) => Ok(()),
        Err(error) => Err(refused(rt, error)),
    }
}

/// Publishes the payload so often.
fn publish<G: Tallies, R: Wait + Eprint, C: Clock>(
    rt: &R,
    alloc: Global,
    client: &mut Client<G>,
    clock: &mut C,
    payload: &Bytes,
    msgs: u64,
    is_told: bool,
) -> Part {
    let mut part = Part::new(clock.now_ms(), msgs);
    'messages: for number in 0..msgs {
        if let Err(stop) = publish_one(rt, alloc, client, payload) {
            part.stop = Some(stop);
            break;
        }
        part.done = number.saturating_add(1);
        tell(rt, is_told, number, msgs);
    }
    part.ended = clock.now_ms();
    part
}

/// How a part ends where no message came in a wait of so many milliseconds: the wait is not counted.
fn given_up(part: Part, came: Heard, now: u64, ms: u64) -> Part {
    match came {
        Heard::Came | Heard::Over => Part { ended: now, ..part },
        Heard::Late => Part {
            ended: now.saturating_sub(ms),
            ..part
        },
        Heard::NoMemory => Part {
            ended: now,
            stop: Some(Stop::NoMemory),
            ..part
        },
    }
}

/// Takes so many messages, as long as they come: from when the first came to when the last did.
fn take<G: Tallies, R: Wait + Eprint, C: Clock>(
    rt: &R,
    alloc: Global,
    taker: &Taker<G>,
    clock: &mut C,
    first_ms: u64,
    msgs: u64,
    is_told: bool,
) -> Part {
    let mut part = Part::new(clock.now_ms(), msgs);
    let mut ms = first_ms;
    'messages: for number in 0..msgs {
        let came = taker.take(rt, alloc, clock, ms);
        if came != Heard::Came {
            return given_up(part, came, clock.now_ms(), ms);
        }
        if number == 0 {
            part.begun = clock.now_ms();
            ms = PATIENCE_MS;
        }
        part.done = number.saturating_add(1);
        tell(rt, is_told, number, msgs);
    }
    part.ended = clock.now_ms();
    part
}

/// Makes a request, and waits for its answer.
fn ask_one<G: Tallies, R: Wait + Eprint, C: Clock>(
    rt: &R,
    alloc: Global,
    client: &mut Client<G>,
    clock: &mut C,
    payload: &Bytes,
) -> Result<(), Stop> {
    let again = payload.slice(..)?;
    let replied = client.request(rt, alloc, SUBJECT, again, clock);
    match &replied {
        Ok(_) => Ok(()),
        Err(error) => Err(refused(rt, error)),
    }
}

/// Makes so many requests, each once the one before it was answered.
fn ask<G: Tallies, R: Wait + Eprint, C: Clock>(
    rt: &R,
    alloc: Global,
    client: &mut Client<G>,
    clock: &mut C,
    payload: &Bytes,
    msgs: u64,
    is_told: bool,
) -> Part {
    let mut part = Part::new(clock.now_ms(), msgs);
    'messages: for number in 0..msgs {
        if let Err(stop) = ask_one(rt, alloc, client, clock, payload) {
            part.stop = Some(stop);
            break;
        }
        part.ended = clock.now_ms();
        part.done = number.saturating_add(1);
        tell(rt, is_told, number, msgs);
    }
    part
}

/// Answers a request with its own payload.
fn answer_one<G: Tallies, R: Wait + Eprint>(
    rt: &R,
    alloc: Global,
    client: &mut Client<G>,
    request: &Message,
) -> Result<(), Stop> {
    let Some(reply) = &request.reply else {
        return Ok(());
    };
    let to = Subject::from_text(alloc, reply.as_str())?;
    let payload = request.payload.slice(..)?;
    let sent = client.publish(rt, alloc, to, payload);
    match &sent {
        Ok(()) => Ok(()),
        Err(error) => Err(refused(rt, error)),
    }
}

/// Answers the next request: whether one came.
fn answer_next<G: Tallies, R: Wait + Eprint, C: Clock>(
    rt: &R,
    alloc: Global,
    taker: &mut Taker<G>,
    clock: &mut C,
) -> Result<bool, Stop> {
    let came = taker.next(rt, alloc, clock, PATIENCE_MS);
    match &came {
        Ok(request) => {
            answer_one(rt, alloc, &mut taker.client, request)?;
            Ok(true)
        }
        Err(Refusal::NoMemory) => Err(Stop::NoMemory),
        Err(_) => Ok(false),
    }
}

/// Answers so many requests, as long as they come.
fn answer<G: Tallies, R: Wait + Eprint, C: Clock>(
    rt: &R,
    alloc: Global,
    taker: &mut Taker<G>,
    clock: &mut C,
    msgs: u64,
) -> Part {
    let mut part = Part::new(clock.now_ms(), msgs);
    'messages: for number in 0..msgs {
        match answer_next(rt, alloc, taker, clock) {
            Ok(true) => part.done = number.saturating_add(1),
            Ok(false) => break,
            Err(stop) => {
                part.stop = Some(stop);
                break;
            }
        }
    }
    part
}

/// Does what a role is.
fn play<G: Tallies, R: Wait + Eprint, C: Clock>(
    rt: &R,
    alloc: Global,
    role: Role<G>,
    clock: &mut C,
    payload: &Bytes,
    msgs: u64,
    is_told: bool,
) -> Part {
    match role {
        Role::Publish(mut client) => {
            publish(rt, alloc, &mut client, clock, payload, msgs, is_told)
        }
        Role::Take(taker, first_ms) => take(rt, alloc, &taker, clock, first_ms, msgs, is_told),
        Role::Ask(mut client) => ask(rt, alloc, &mut client, clock, payload, msgs, is_told),
        Role::Answer(mut taker) => answer(rt, alloc, &mut taker, clock, msgs),
    }
}

/// Does a job: the part that is counted of it.
fn work<G: Tallies, R: Wait + Eprint, C: Clock + Drop>(
    rt: &R,
    alloc: Global,
    job: Job<G>,
    payload: &[u8],
    mut clock: C,
) -> Part {
    let Job {
        role,
        msgs,
        is_counted,
        is_told,
    } = job;
    let Ok(payload) = Bytes::copy_from_slice(alloc, payload) else {
        return Part {
            stop: Some(Stop::NoMemory),
            ..Part::new(clock.now_ms(), msgs)
        };
    };
    let part = play(rt, alloc, role, &mut clock, &payload, msgs, is_told);
    if is_counted { part } else { part.aside() }
}

/// A subscription to the subject of all messages.
fn listening<G: Tallies, R: Wait + Eprint>(
    rt: &R,
    alloc: Global,
    client: &mut Client<G>,
    made: &mut u64,
) -> Result<Taker<G>, Stop> {
    let subject = Subject::from_text(alloc, SUBJECT)?;
    subscribed(rt, alloc, client, subject, made)
}

/// The part of so many messages that this one of the clients has.
fn share(bench: Bench, number: u64) -> u64 {
    let clients = bench.clients.max(1);
    (bench.msgs / clients).saturating_add(u64::from(number < bench.msgs % clients))
}

/// What a client of its own does, where one has this number.
fn role_of<G: Tallies, R: Wait + Eprint>(
    rt: &R,
    alloc: Global,
    client: &mut Client<G>,
    way: Way,
    made: &mut u64,
) -> Result<Role<G>, Stop> {
    match way {
        Way::Publish | Way::Both => Ok(Role::Publish(cloned(client)?)),
        Way::Subscribe => Ok(Role::Take(listening(rt, alloc, client, made)?, FIRST_MS)),
        Way::Request => Ok(Role::Ask(cloned(client)?)),
    }
}

/// What stands at the other end of what the clients do, where this process has that end too.
fn other_end<G: Tallies, R: Wait + Eprint>(
    rt: &R,
    alloc: Global,
    client: &mut Client<G>,
    way: Way,
    made: &mut u64,
) -> Result<Option<Role<G>>, Stop> {
    match way {
        Way::Publish | Way::Subscribe => Ok(None),
        Way::Both => {
            let taker = listening(rt, alloc, client, made)?;
            Ok(Some(Role::Take(taker, PATIENCE_MS)))
        }
        Way::Request => Ok(Some(Role::Answer(listening(rt, alloc, client, made)?))),
    }
}

/// All jobs: the first one of the clients tells how far it is.
fn jobs_of<G: Tallies, R: Wait + Eprint>(
    rt: &R,
    alloc: Global,
    client: &mut Client<G>,
    bench: Bench,
    made: &mut u64,
) -> Result<Vec<Job<G>>, Stop> {
    let mut jobs = Vec::new(alloc);
    if let Some(role) = other_end(rt, alloc, client, bench.way, made)? {
        jobs.push(Job {
            role,
            msgs: bench.msgs,
            is_counted: bench.way == Way::Both,
            is_told: false,
        })?;
    }
    'clients: for number in 0..bench.clients {
        let msgs = match bench.way {
            Way::Subscribe => bench.msgs,
            Way::Publish | Way::Both | Way::Request => share(bench, number),
        };
        if msgs > 0 {
            let role = role_of(rt, alloc, client, bench.way, made)?;
            jobs.push(Job {
                role,
                msgs,
                is_counted: bench.way != Way::Both,
                is_told: number == 0,
            })?;
        }
    }
    Ok(jobs)
}

/// Waits until the server has all that was published: it sends back what was published behind it.
fn settle<G: Tallies, R: Wait + Eprint, C: Clock>(
    rt: &R,
    alloc: Global,
    client: &mut Client<G>,
    clock: &mut C,
    made: &mut u64,
) -> Result<(), Stop> {
    let inbox = client.new_inbox(rt, alloc)?;
    let here = Subject::from_text(alloc, inbox.as_str())?;
    let taker = subscribed(rt, alloc, client, here, made)?;
    let sent = client.publish(rt, alloc, inbox, Bytes::new());
    if let Err(error) = &sent {
        return Err(refused(rt, error));
    }
    match taker.take(rt, alloc, clock, PATIENCE_MS) {
        Heard::Came => Ok(()),
        Heard::NoMemory => Err(Stop::NoMemory),
        Heard::Late | Heard::Over => {
            let _ = eprintln!(rt; "the server does not tell that it has all");
            Err(Stop::Lost)
        }
    }
}

/// Why a benchmark of which not all was done ends.
fn stop_of(way: Way, all: &Part) -> Stop {
    match all.stop {
        Some(Stop::NoMemory) => Stop::NoMemory,
        Some(stop) if all.done == 0 || way == Way::Publish => stop,
        _ => Stop::Lost,
    }
}

/// Prints the rate of what was done, and tells how much that is where it is not all.
fn conclude<R: Print + Eprint>(
    rt: &R,
    alloc: Global,
    bench: Bench,
    all: &Part,
) -> Result<(), Stop> {
    if all.is_whole() {
        return rates::rate(rt, alloc, bench, all.done, all.took());
    }
    let (done, of, what) = (all.done, all.of, bench.way.what());
    let _ = eprintln!(rt; "{done} of {of} {what}");
    rates::rate(rt, alloc, bench, done, all.took())?;
    Err(stop_of(bench.way, all))
}

/// Does all jobs at once, each on a thread of its own: what was done together.
fn done<
    G: Tallies + Send + Sync,
    R: Threads + Wait + Eprint + Sync,
    C: Clock + Copy + Drop + Send + Sync,
>(rt: &R, alloc: Global, jobs: Vec<Job<G>>, size: u64, clock: C) -> Result<Part, Stop> {
    let mut payload = Vec::new(alloc);
    payload.resize(size as usize, b'x')?;
    let payload = payload.as_slice();
    let parts = thread::map_vec(
        rt,
        jobs,
        &|job: Job<G>| -> Part { work(rt, alloc, job, payload, clock) },
    )?;
    Ok(together(parts.as_slice()))
}

/// Does what is asked, and prints the rate.
pub fn run<
    G: Tallies + Send + Sync,
    R: Threads + Wait + Print + Eprint + Sync,
    C: Clock + Copy + Drop + Send + Sync,
>(rt: &R, alloc: Global, client: &mut Client<G>, clock: &mut C, bench: Bench) -> Result<(), Stop> {
    let links = client.statistics(rt).connects;
    let mut made = 0;
    let jobs = jobs_of(rt, alloc, client, bench, &mut made)?;
    settle(rt, alloc, client, clock, &mut made)?;
    let mut all = done(rt, alloc, jobs, bench.size, *clock)?;
    if all.is_whole() {
        settle(rt, alloc, client, clock, &mut made)?;
        all.ended = clock.now_ms();
    }
    rates::over(rt);
    conclude(rt, alloc, bench, &all)?;
    if bench.way == Way::Publish && still_on(rt, client, links).is_err() {
        return Err(Stop::Lost);
    }
    Ok(())
}
