//! The job that drives the links of a client until its session is closed.

use crate::link::{lose, serve};
use crate::plan::tell;
use crate::{Driven, Plan, Shared};
use nats_core::{NoMemory, ServerInfo, Turn};
use nats_dial::{ConnectError, ConnectErrorKind, Linked};
use nats_hub::{Hub, Tallies};
use nats_names::ClientError;
use nats_outside::{Clock, LinkRead, LinkWrite};
use nats_pool::{Choice, ServerPool};
use nats_start::{note, note_choice, note_skipped, other, play_up};
use std::alloc::Global;
use std::sync::Wait;

/// How long the driver rests where memory was wanting, in milliseconds.
const REST_MS: u64 = 100;

/// What a round came to: how its servers were chosen, and its link.
type Round<L, H> = (Choice, Result<Linked<L, H>, ConnectError>);

/// What an error's kind prints.
fn kind_of(alloc: Global, error: &ConnectError) -> Result<ClientError, NoMemory> {
    let kind = format!(in alloc; "{}", error.kind())?;
    other(alloc, kind.as_str(), "")
}

/// What a server said of itself last; the default before any.
fn last_info<G: Tallies, R: Wait>(
    rt: &R,
    alloc: Global,
    hub: &Hub<G>,
) -> Result<ServerInfo, NoMemory> {
    match hub.server_info(rt, alloc)? {
        Some(info) => Ok(info),
        None => Ok(ServerInfo::default(alloc)),
    }
}

/// Goes on with a link that came up until it is over.
fn begin<
    G: Tallies + Send + Sync + 'static,
    Q: ServerPool,
    R: Wait + Copy + Drop + Send + 'static,
    L: LinkRead + Drop,
    H: LinkWrite + Drop + Send + 'static,
    T: Clock + Drop + Send + 'static,
    W: Driven<L, H, T>,
    K: Plan,
>(rt: &R, alloc: Global, shared: &Shared<G, Q>, plan: &K, world: &mut W, linked: Linked<L, H>) {
    let Linked {
        info,
        rest,
        read,
        mut write,
        skipped,
    } = linked;
    note_skipped(rt, alloc, &shared.hub, skipped.as_slice());
    match play_up(rt, alloc, &shared.hub, info, rest) {
        Ok(link) => serve(rt, alloc, shared, plan, world, link, read, write),
        Err(NoMemory) => {
            lose(rt, alloc, &shared.hub, shared.hub.link(rt));
            write.shut();
            world.take_back(read, write);
            world.rest(REST_MS);
        }
    }
}

/// Tells of a round that gave no link: the words of its error, and where as many attempts failed as may, that too,
/// after which the session is given up. Whether memory was wanting.
fn fail<G: Tallies, R: Wait>(rt: &R, alloc: Global, hub: &Hub<G>, error: &ConnectError) -> bool {
    if let Ok(words) = kind_of(alloc, error) {
        note(rt, hub, words);
    }
    if error.kind() == ConnectErrorKind::MaxReconnects {
        note(rt, hub, ClientError::MaxReconnects);
        let _ = hub.play(rt, alloc, Turn::GiveUp);
    }
    error.kind() == ConnectErrorKind::NoMemory
}

/// One round over the pool, under its lock.
fn dial<
    G: Tallies,
    Q: ServerPool,
    R: Wait,
    L: LinkRead,
    H: LinkWrite,
    T: Clock,
    W: Driven<L, H, T>,
    K: Plan,
>(
    rt: &R,
    alloc: Global,
    shared: &Shared<G, Q>,
    plan: &K,
    world: &mut W,
    last: &ServerInfo,
) -> Round<L, H> {
    let mut guard = shared.pool.lock(rt);
    let linked = world.dial(alloc, &mut *guard, plan, last);
    (guard.choice_of_round(), linked)
}

/// Makes a round, and goes on with its link until that is over.
fn round<
    G: Tallies + Send + Sync + 'static,
    Q: ServerPool,
    R: Wait + Copy + Drop + Send + 'static,
    L: LinkRead + Drop,
    H: LinkWrite + Drop + Send + 'static,
    T: Clock + Drop + Send + 'static,
    W: Driven<L, H, T>,
    K: Plan,
>(rt: &R, alloc: Global, shared: &Shared<G, Q>, plan: &K, world: &mut W) {
    let Ok(last) = last_info(rt, alloc, &shared.hub) else {
        world.rest(REST_MS);
        return;
    };
    let (choice, linked) = dial(rt, alloc, shared, plan, world, &last);
    note_choice(rt, &shared.hub, choice);
    match linked {
        Ok(linked) => begin(rt, alloc, shared, plan, world, linked),
        Err(error) => {
            if fail(rt, alloc, &shared.hub, &error) {
                world.rest(REST_MS);
            }
        }
    }
}

/// Drives the links of a client until its session is closed. It goes on with the link that it is handed, where there is
/// one; while none is up it makes rounds of connecting. A failed round is told as an event, in the words of its error;
/// as many failed attempts as may be end the session. Each event goes to the plan's callback, where there is one, on
/// the driver's thread and outside the lock: a callback that blocks holds the driver. Own call: the crate spawns a
/// task.
pub fn drive<
    G: Tallies + Send + Sync + 'static,
    Q: ServerPool + Drop + Send + 'static,
    R: Wait + Copy + Drop + Send + 'static,
    L: LinkRead + Drop + Send + 'static,
    H: LinkWrite + Drop + Send + 'static,
    T: Clock + Drop + Send + 'static,
    W: Driven<L, H, T> + Drop + Send + 'static,
    K: Plan + Drop + Send + 'static,
>(rt: &R, alloc: Global, shared: &Shared<G, Q>, plan: &K, world: &mut W, link: Option<(L, H)>) {
    if let Some((read, write)) = link {
        let number = shared.hub.link(rt);
        serve(rt, alloc, shared, plan, world, number, read, write);
    }
    for _ in rt.forever() {
        tell(rt, &shared.hub, plan);
        if shared.hub.is_closed(rt) {
            return;
        }
        round(rt, alloc, shared, plan, world);
    }
}
