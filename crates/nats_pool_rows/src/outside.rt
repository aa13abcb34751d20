//! The outside in memory, all parts of it in turn.
use crate::says::{push, push_number};
use bytes::Bytes;
use nats_outside::{
    Clock, Dialer, Draw, FakeClock, FakeDialer, FakeDraw, FakeLink, FakeRead, FakeResolver,
    FakeWrite, Joined, LinkRead, LinkWrite, Reach, seen,
};
use nats_rows::{Bad, push_word};
use std::alloc::Global;
use std::net::{IpAddr, Ipv4Addr, SocketAddr};

/// The milliseconds that a dial may take.
pub const DIAL_TIMEOUT: u64 = 5_000;

/// The four parts in memory.
pub type Memory = Joined<FakeDialer, FakeResolver, FakeClock, FakeDraw>;

/// The address that all are asked for.
pub fn home() -> SocketAddr {
    SocketAddr::new(IpAddr::V4(Ipv4Addr::LOCALHOST), 4222)
}

/// It gives `hello`, and its second write fails.
fn hello(alloc: Global) -> Result<FakeLink, Bad> {
    let bytes = Bytes::copy_from_slice(alloc, b"hello")?;
    Ok(FakeLink::failing(alloc, bytes, 3, Vec::new(alloc), vec![in alloc; 2]?)?)
}

/// One link; the second dial fails.
fn dialer(alloc: Global) -> Result<FakeDialer, Bad> {
    let failing = vec![in alloc; 2]?;
    let links = vec![in alloc; hello(alloc)?]?;
    Ok(FakeDialer::failing(alloc, links, failing))
}

fn memory(alloc: Global) -> Result<Memory, Bad> {
    let homes = vec![in alloc; home()]?;
    let times = vec![in alloc; 5, 8]?;
    let drawn = vec![in alloc; 9]?;
    let dialer = dialer(alloc)?;
    Ok(Joined {
        dialer,
        resolver: FakeResolver::told(alloc, homes),
        clock: FakeClock::told(times),
        draw: FakeDraw::told(drawn),
    })
}

fn push_next(alloc: Global, number: u64, out: &mut String) -> Result<(), Bad> {
    push(out, " ")?;
    push_number(alloc, number, out)
}

/// Appends what a read of four bytes gives.
fn push_read(link: &mut FakeRead, out: &mut String) -> Result<(), Bad> {
    let mut buf = [0u8; 4];
    match link.read(&mut buf) {
        Ok(count) if count <= 4 => Ok(push_word(out, &buf[..count])?),
        Ok(_) => push(out, " too-much"),
        Err(_) => push(out, " failed"),
    }
}

fn push_write(
    alloc: Global,
    link: &mut FakeWrite,
    pieces: &[Bytes],
    out: &mut String,
) -> Result<(), Bad> {
    match link.write_pieces(pieces) {
        Ok(count) => push_next(alloc, count as u64, out),
        Err(_) => push(out, " failed"),
    }
}

/// Writes pieces twice, and appends what the link took.
fn push_twice(
    alloc: Global,
    link: &mut FakeWrite,
    pieces: &[Bytes],
    out: &mut String,
) -> Result<(), Bad> {
    push_write(alloc, link, pieces, out)?;
    push_write(alloc, link, pieces, out)?;
    Ok(push_word(out, link.taken())?)
}

/// Writes two pieces twice, and appends what the link took.
fn push_written(alloc: Global, link: &mut FakeWrite, out: &mut String) -> Result<(), Bad> {
    let first = Bytes::copy_from_slice(alloc, b"ab")?;
    let second = Bytes::copy_from_slice(alloc, b"cd")?;
    push_twice(alloc, link, &[first, second], out)
}

/// Appends when the clock starts, twice what it shows after a sleep, and what is drawn.
fn push_times<W: Reach>(alloc: Global, world: &mut W, out: &mut String) -> Result<(), Bad> {
    let start = seen::start_ms(world);
    seen::sleep_ms(world, 1);
    push_next(alloc, start, out)?;
    let now = seen::now_ms(world);
    push_next(alloc, now, out)?;
    let again = seen::now_ms(world);
    push_next(alloc, again, out)?;
    let drawn = world.draw();
    push_next(alloc, drawn, out)
}

fn push_resolved(alloc: Global, world: &mut Memory, out: &mut String) -> Result<(), Bad> {
    match seen::resolve(world, alloc, "h", 4222) {
        Ok(addresses) => push_next(alloc, addresses.len() as u64, out),
        Err(_) => push(out, " failed"),
    }
}

/// Reads a link to its end, writes to it and shuts it.
fn push_used(
    alloc: Global,
    read: &mut FakeRead,
    write: &mut FakeWrite,
    out: &mut String,
) -> Result<(), Bad> {
    for _ in 0..3 {
        push_read(read, out)?;
    }
    push_written(alloc, write, out)?;
    write.shut();
    Ok(())
}

/// Dials a link, uses it and hands it back.
fn push_link(alloc: Global, world: &mut Memory, out: &mut String) -> Result<(), Bad> {
    match seen::dial(world, &home(), DIAL_TIMEOUT) {
        Ok((dialed_read, dialed_write)) => {
            let mut read = dialed_read;
            let mut write = dialed_write;
            let used = push_used(alloc, &mut read, &mut write, out);
            seen::hang_up(world, read, write);
            used
        }
        Err(_) => push(out, " no-link"),
    }
}

fn is_dialed(world: &mut Memory) -> bool {
    let dialed = seen::dial(world, &home(), DIAL_TIMEOUT);
    let is_dialed = dialed.is_ok();
    drop(dialed);
    is_dialed
}

fn push_world(alloc: Global, world: &mut Memory, out: &mut String) -> Result<(), Bad> {
    push_times(alloc, world, out)?;
    push_resolved(alloc, world, out)?;
    push_link(alloc, world, out)?;
    push(
        out,
        if is_dialed(world) {
            " a-link"
        } else {
            " no-link"
        },
    )
}

/// Appends what the outside in memory gives, each part in turn.
pub fn push_all(alloc: Global, out: &mut String) -> Result<(), Bad> {
    let mut world = memory(alloc)?;
    let pushed = push_world(alloc, &mut world, out);
    drop(world);
    pushed
}
