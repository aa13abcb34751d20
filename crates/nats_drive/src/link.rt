//! A link that is up: its jobs, its reads, and its end.
ghost use Rattle.std.specs.Prelude.{◌<◌, length};

use crate::bay::Bay;
use crate::jobs::{start_ticking, start_writing};
use crate::plan::tell;
use crate::{Driven, Plan, Shared, Starter};
use nats_core::{NoMemory, ReadOnce, Turn};
use nats_hub::{Hub, Tallies};
use nats_links::read_once;
use nats_names::Text;
use nats_outside::{Clock, LinkRead, LinkWrite};
use nats_pool::ServerPool;
use nats_start::note_skipped;
use std::alloc::Global;
use std::sync::{Arc, Wait};

/// Plays the loss of a link.
pub(crate) fn lose<G: Tallies, R: Wait>(rt: &R, alloc: Global, hub: &Hub<G>, link: u64) {
    let _ = hub.play_on(rt, alloc, link, Turn::Lost);
}

/// Starts the jobs beside a link. Whether both are started.
fn start_beside<
    G: Tallies + Send + Sync + 'static,
    R: Wait + Copy + Drop + Send + 'static,
    H: LinkWrite + Drop + Send + 'static,
    T: Clock + Drop + Send + 'static,
    S: Starter,
>(
    rt: &R,
    alloc: Global,
    hub: &Arc<Hub<G>, Global>,
    link: u64,
    bay: &Arc<Bay<H>, Global>,
    period: u64,
    clock: T,
    starter: &mut S,
) -> bool {
    let (Ok(bay), Ok(first), Ok(second)) = (
        Arc::try_clone(bay),
        Arc::try_clone(hub),
        Arc::try_clone(hub),
    ) else {
        return false;
    };
    start_writing(rt, alloc, first, link, bay, starter)
        && start_ticking(rt, alloc, second, link, period, clock, starter)
}

/// Takes in the servers of these addresses, under the pool's own lock. Those that spell none are told of.
fn take_in<G: Tallies, Q: ServerPool, R: Wait>(
    rt: &R,
    alloc: Global,
    shared: &Shared<G, Q>,
    urls: &[Text],
) {
    let taken = shared.pool.lock(rt).take_in(alloc, urls);
    if let Ok(skipped) = taken {
        note_skipped(rt, alloc, &shared.hub, skipped.as_slice());
    }
}

/// Tells the pool what a server said of other servers, where that is news. How many INFOs were read. Where memory is
/// wanting it is told after a later read.
fn hear<G: Tallies, Q: ServerPool, R: Wait>(
    rt: &R,
    alloc: Global,
    shared: &Shared<G, Q>,
    seen: u64,
) -> u64 {
    match shared.hub.news(rt, alloc, seen) {
        Ok(Some((seen, info))) => {
            take_in(rt, alloc, shared, info.connect_urls.as_slice());
            seen
        }
        Ok(None) | Err(NoMemory) => seen,
    }
}

/// Reads from a link until it is over. After each read events are handed on, and news to the pool.
fn read_all<G: Tallies, Q: ServerPool, R: Wait, L: LinkRead, K: Plan>(
    rt: &R,
    alloc: Global,
    shared: &Shared<G, Q>,
    plan: &K,
    link: u64,
    read: &mut L,
    buf: &mut [u8],
)
    requires { 0 < length buf.old }
{
    let mut seen = 0;
    for _ in rt.forever() {
        let once = read_once(rt, alloc, &shared.hub, link, read, buf);
        seen = hear(rt, alloc, shared, seen);
        tell(rt, &shared.hub, plan);
        match once {
            Ok(ReadOnce::Played(_)) => {}
            Ok(ReadOnce::Lost | ReadOnce::Gone) => return,
            Err(NoMemory) => {
                lose(rt, alloc, &shared.hub, link);
                return;
            }
        }
    }
}

/// Reads from a link until it is over, into a buffer of its own of the plan's size.
fn read_with<G: Tallies, Q: ServerPool, R: Wait, L: LinkRead, K: Plan>(
    rt: &R,
    alloc: Global,
    shared: &Shared<G, Q>,
    plan: &K,
    link: u64,
    read: &mut L,
) {
    let size = usize::from(plan.read_buffer_capacity().get());
    match vec![in alloc; 0u8; size] {
        Ok(mut buf) => read_all(rt, alloc, shared, plan, link, read, buf.as_mut_slice()),
        Err(_) => lose(rt, alloc, &shared.hub, link),
    }
}

/// Goes on with a link until it is over, and hands it back: both its halves, in whatever way it ended.
pub(crate) fn serve<
    G: Tallies + Send + Sync + 'static,
    Q: ServerPool,
    R: Wait + Copy + Drop + Send + 'static,
    L: LinkRead + Drop,
    H: LinkWrite + Drop + Send + 'static,
    T: Clock + Drop + Send + 'static,
    W: Driven<L, H, T>,
    K: Plan,
>(
    rt: &R,
    alloc: Global,
    shared: &Shared<G, Q>,
    plan: &K,
    world: &mut W,
    link: u64,
    mut read: L,
    mut write: H,
) {
    let Ok(bay) = Arc::new(alloc, Bay::new()) else {
        lose(rt, alloc, &shared.hub, link);
        write.shut();
        world.take_back(read, write);
        return;
    };
    bay.lend(rt, write);
    let (period, clock) = (plan.ping_interval().get(), world.clock());
    if start_beside(rt, alloc, &shared.hub, link, &bay, period, clock, world) {
        read_with(rt, alloc, shared, plan, link, &mut read);
    } else {
        lose(rt, alloc, &shared.hub, link);
    }
    let write = match bay.take(rt) {
        Some(write) => write,
        None => bay.wait_for(rt),
    };
    world.take_back(read, write);
}
