//! Jobs that are started: on threads, in memory, and by a world in memory, whose other parts are asked too.

use anyhow::{Result, anyhow};
use nats_system::{
    Clock, Dialer, Draw, Failed, FakeSpawner, Job, Resolver, Spawner, Task, TaskSpawner,
    ThreadSpawner, World, memory_world,
};
use std::alloc::Global;
use std::net::{Ipv4Addr, SocketAddr};
use std::sync::Arc;
use std::sync::atomic::{AtomicU64, Ordering};
use std::thread::Threads;

/// Adds one to a number that is shared.
#[derive(Drop)]
struct Adding {
    to: Arc<AtomicU64, Global>,
}

impl Job for Adding {
    fn run(self) {
        self.to.fetch_add(1, Ordering::SeqCst);
    }

    fn start_on<T: TaskSpawner>(self, alloc: Global, on: &mut T) -> Result<(), Failed> {
        match Box::new(alloc, move || self.run()) {
            Ok(run) => on.start_task(Task { run }),
            Err(_) => Err(on.refuse()),
        }
    }
}

/// Whether a job that adds to this number is started.
fn starts<S: Spawner>(spawner: &mut S, to: &Arc<AtomicU64, Global>) -> Result<bool> {
    match Arc::try_clone(to) {
        Ok(to) => Ok(spawner.start(Adding { to }).is_ok()),
        Err(_) => Err(anyhow!("as many holds as may be")),
    }
}

/// Two jobs on threads, which are waited for.
fn push_threads<R: Threads + Copy + Drop>(rt: &R, alloc: Global, out: &mut String) -> Result<()> {
    let sum = Arc::new(alloc, AtomicU64::new(0))?;
    let mut spawner = ThreadSpawner::new(alloc, *rt);
    let first = starts(&mut spawner, &sum)?;
    let second = starts(&mut spawner, &sum)?;
    spawner.join_all();
    let came = sum.load(Ordering::SeqCst);
    let line = format!(in alloc;
        "jobs on threads are started: {first}, {second}; {came} were run\n"
    )?;
    Ok(out.push_str(line.as_str())?)
}

/// Two jobs in memory, the second of which is refused.
fn push_memory(alloc: Global, out: &mut String) -> Result<()> {
    let sum = Arc::new(alloc, AtomicU64::new(0))?;
    let mut spawner = FakeSpawner::failing(vec![in alloc; 2]?);
    let first = starts(&mut spawner, &sum)?;
    let second = starts(&mut spawner, &sum)?;
    let came = sum.load(Ordering::SeqCst);
    let line = format!(in alloc;
        "jobs in memory are started: {first}, {second}; {came} were run\n"
    )?;
    Ok(out.push_str(line.as_str())?)
}

/// What a clock for a job of this world begins at.
fn begins_at<W: World>(world: &W) -> u64 {
    let mut clock = world.ticks();
    clock.start_ms()
}

/// A world in memory has all parts.
fn push_world(alloc: Global, out: &mut String) -> Result<()> {
    let sum = Arc::new(alloc, AtomicU64::new(0))?;
    let mut world = memory_world(alloc, Vec::new(alloc))?;
    let (begins, drawn, now) = (begins_at(&world), world.draw(), world.now_ms());
    out.push_str(format!(in alloc;
        "a world in memory: a job's clock {begins}, drawn {drawn}, now {now}\n"
    )?.as_str())?;
    let is_started = starts(&mut world, &sum)?;
    let came = sum.load(Ordering::SeqCst);
    out.push_str(format!(in alloc;
        "its job is started: {is_started}; {came} was run\n"
    )?.as_str())?;
    let Ok(found) = world.resolve(alloc, "h", 4_222) else {
        return Err(anyhow!("no address in memory"));
    };
    let count = found.len();
    let to = SocketAddr::from((Ipv4Addr::LOCALHOST, 4_222));
    let is_refused = world.dial(&to, 5_000).is_err();
    let line = format!(in alloc;
        "its host has {count} address, its dial is refused: {is_refused}\n"
    )?;
    Ok(out.push_str(line.as_str())?)
}

/// All of them.
pub fn answer<R: Threads + Copy + Drop>(rt: &R, alloc: Global, out: &mut String) -> Result<()> {
    push_threads(rt, alloc, out)?;
    push_memory(alloc, out)?;
    push_world(alloc, out)
}
