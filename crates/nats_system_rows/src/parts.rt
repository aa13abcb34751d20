//! An address, a clock and numbers of the system, and ids.

use anyhow::{Result, anyhow};
use nats_system::{Clock, Draw, NetResolver, Resolver, SystemClock, SystemDraw, id_token};
use rand::SeedableRng;
use rand::rngs::SmallRng;
use std::alloc::Global;
use std::net::{Ipv4Addr, SocketAddr};

/// An address resolves to itself.
fn push_resolved(rt: &HostRuntime, alloc: Global, out: &mut String) -> Result<()> {
    let mut resolver = NetResolver::new(*rt);
    let Ok(found) = resolver.resolve(alloc, "127.0.0.1", 4_222) else {
        return Err(anyhow!("the address was not resolved"));
    };
    let is_itself = match found.as_slice() {
        [one] => *one == SocketAddr::from((Ipv4Addr::LOCALHOST, 4_222)),
        _ => false,
    };
    Ok(out.push_str(format!(in alloc;
        "127.0.0.1 resolves to itself alone: {is_itself}\n"
    )?.as_str())?)
}

/// The clock goes on while one sleeps.
fn push_clock(rt: &HostRuntime, alloc: Global, out: &mut String) -> Result<()> {
    let mut clock = SystemClock::new(*rt);
    let start = clock.start_ms();
    clock.sleep_ms(2);
    let goes_on = clock.now_ms() > start;
    let faults = clock.faults();
    let line = format!(in alloc; "the clock goes on: {goes_on}, faults {faults}\n")?;
    Ok(out.push_str(line.as_str())?)
}

/// Two numbers that are drawn.
fn push_drawn(rt: &HostRuntime, alloc: Global, out: &mut String) -> Result<()> {
    let mut draw = SystemDraw::new(*rt);
    let first = draw.draw();
    let second = draw.draw();
    let differ = first != second;
    let faults = draw.faults();
    let line = format!(in alloc; "two numbers differ: {differ}, faults {faults}\n")?;
    Ok(out.push_str(line.as_str())?)
}

/// Two ids from one generator.
fn push_ids(alloc: Global, out: &mut String) -> Result<()> {
    let mut generator = SmallRng::seed_from_u64(7);
    let first = id_token(alloc, &mut generator)?;
    let second = id_token(alloc, &mut generator)?;
    let letters = first.as_str().len();
    let differ = first != second;
    let line = format!(in alloc; "an id has {letters} letters, two ids differ: {differ}\n")?;
    Ok(out.push_str(line.as_str())?)
}

/// All of them.
pub fn answer(rt: &HostRuntime, alloc: Global, out: &mut String) -> Result<()> {
    push_resolved(rt, alloc, out)?;
    push_clock(rt, alloc, out)?;
    push_drawn(rt, alloc, out)?;
    push_ids(alloc, out)
}
