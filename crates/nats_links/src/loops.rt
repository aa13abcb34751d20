//! Loops beside a link.
ghost use Rattle.std.specs.Prelude.{◌≡◌, ◌≢◌, ◌<◌, length};
ghost use Rattle.nats_links.specs.declared.loops.LoopEnd.TheVariants as ends;
ghost use Rattle.nats_links.specs.Living.{ReadBroke};
ghost use Rattle.nats_outside.specs.Counts.{Rose};

use crate::once::{play_on, read_once, write_once};
use nats_core::{NoMemory, ReadOnce, Turn, WriteOnce};
use nats_hub::{Hub, Tallies};
use nats_outside::{Clock, LinkRead, LinkWrite};
use std::alloc::Global;
use std::sync::{Condvar, Wait};
use std::time::Duration;

/// How many bytes one read of `read_loop` may give. The crate's default.
pub const READ_BUFFER: usize = 65_535;

/// From how many bytes of one write on a session counts as busy, so that more is let gather before the next. A request
/// that waits for its reply mostly writes fewer.
const GATHER_LEAST: u64 = 512;

/// Up to how many bytes of one write more is let gather: beyond, the next write is a large one anyway.
const GATHER_MOST: u64 = 65_535;

/// How many microseconds more is let gather.
const GATHER_TIME: u64 = 50;

/// Why a loop beside a link is over. Own type.
#[derive(Clone, Copy, Debug, PartialEq, Eq)]
pub enum LoopEnd {
    /// The link failed or ended, and its loss was played.
    Lost,
    /// The link is not the one that is up.
    Gone,
    /// Want of memory. What was played before stays played.
    NoMemory,
}

/// Plays the loss of a link for which memory was wanting.
fn give_up<G: Tallies, R: Wait>(rt: &R, alloc: Global, hub: &Hub<G>, link: u64) -> LoopEnd
    ensures { result ≡ ends.NoMemory }
{
    let _ = play_on(rt, alloc, hub, link, Turn::Lost);
    LoopEnd::NoMemory
}

/// Reads into a buffer until the link is over.
fn read_into<G: Tallies, R: Wait, L: LinkRead>(
    rt: &R,
    alloc: Global,
    hub: &Hub<G>,
    link: u64,
    from: &mut L,
    buf: &mut [u8],
) -> LoopEnd
    requires { 0 < length buf.old }
    ensures { result ≡ ends.Lost → ReadBroke (L.read_told from.old) (L.read_told from.new) }
{
    for _ in rt.forever() {
        match read_once(rt, alloc, hub, link, from, buf) {
            Ok(ReadOnce::Played(_)) => {}
            Ok(ReadOnce::Lost) => return LoopEnd::Lost,
            Ok(ReadOnce::Gone) => return LoopEnd::Gone,
            Err(NoMemory) => return give_up(rt, alloc, hub, link),
        }
    }
    unreachable!()
}

/// Reads from the link of this number and plays what it gives, until it is over: `Lost` only where its faults or ends
/// rose. Own call.
pub fn read_loop<G: Tallies, R: Wait, L: LinkRead>(
    rt: &R,
    alloc: Global,
    hub: &Hub<G>,
    link: u64,
    from: &mut L,
) -> LoopEnd
    ensures { result ≡ ends.Lost → ReadBroke (L.read_told from.old) (L.read_told from.new) }
{
    match vec![in alloc; 0u8; READ_BUFFER] {
        Ok(mut buf) => read_into(rt, alloc, hub, link, from, buf.as_mut_slice()),
        Err(_) => give_up(rt, alloc, hub, link),
    }
}

/// Lets more gather for the next write, where one took this many bytes: one large write costs less than many small
/// ones, each of which takes the hub's lock from those who publish.
fn gather<R: Wait>(rt: &R, count: u64) {
    if (GATHER_LEAST..=GATHER_MOST).contains(&count) {
        let moment = Condvar::new();
        moment.sleep(
            rt,
            moment.notifications(),
            Duration::from_micros(GATHER_TIME),
        );
    }
}

/// Writes to the link of this number what waits for it, and waits while nothing does, until the link is over: `Lost`
/// only where its faults rose. A link that is gone is shut. After a write of 512 to 65,535 bytes it waits for 50
/// microseconds, in which more gathers. Own call.
pub fn write_loop<G: Tallies, R: Wait, L: LinkWrite>(
    rt: &R,
    alloc: Global,
    hub: &Hub<G>,
    link: u64,
    out: &mut L,
) -> LoopEnd
    ensures { result ≡ ends.Lost → Rose (L.write_told out.old).faults (L.write_told out.new).faults }
{
    for _ in rt.forever() {
        match write_once(rt, alloc, hub, link, out) {
            Ok(WriteOnce::Wrote(count)) => gather(rt, count),
            Ok(WriteOnce::Idle) => hub.wait_for_bytes(rt, link),
            Ok(WriteOnce::Lost) => return LoopEnd::Lost,
            Ok(WriteOnce::Gone) => {
                out.shut();
                return LoopEnd::Gone;
            }
            Err(NoMemory) => return give_up(rt, alloc, hub, link),
        }
    }
    unreachable!()
}

/// Plays a tick after each `period` milliseconds of `clock` in which no operation was read, until the link of this
/// number is over. It is never told as lost: a link that answers no tick is gone. Own call.
pub fn tick_loop<G: Tallies, R: Wait, C: Clock>(
    rt: &R,
    alloc: Global,
    hub: &Hub<G>,
    link: u64,
    clock: &mut C,
    period: u64,
) -> LoopEnd
    ensures { result ≢ ends.Lost }
{
    for _ in rt.forever() {
        let before = hub.reads(rt);
        clock.sleep_ms(period);
        if hub.link(rt) != link {
            return LoopEnd::Gone;
        }
        if hub.reads(rt) == before {
            match play_on(rt, alloc, hub, link, Turn::Tick) {
                Ok(true) => {}
                Ok(false) => return LoopEnd::Gone,
                Err(NoMemory) => return LoopEnd::NoMemory,
            }
        }
    }
    unreachable!()
}
