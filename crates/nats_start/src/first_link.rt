//! A hub with its first link.
ghost use Rattle.std.specs.Prelude.{◌≡◌, ◌^◌, IfOk, OnErr, false};
ghost use Rattle.nats_handshake.specs.Shaking.{wanting};
ghost use Rattle.nats_dial.specs.Causes.{AllBack};
ghost use Rattle.nats_outside.specs.Told.{Seen};
ghost use Rattle.nats_client.specs.Views.{client_of};
ghost use Rattle.nats_start.specs.Steps.{HandsBack, HasWorld, LinkOut};
ghost use Rattle.nats_start.specs.declared.refused.Stopped.TheVariants as stop;

use crate::notes::{note_choice, note_skipped};
use crate::stages::{make_hub, wanting};
use crate::{Connected, Refused, Servers, Shared, Stopped, World};
use nats_client::Client;
use nats_core::{Bytes, ServerInfo, Turn};
use nats_dial::{ConnectOptions, Linked};
use nats_hub::{Hub, Tallies};
use nats_names::{NoMemory, Text};
use nats_outside::{LinkWrite, seen};
use nats_pool::ServerPool;
use std::alloc::Global;
use std::sync::ledger::Blank;
use std::sync::{Arc, Mutex, Wait};

/// Shuts a link, and hands it back.
fn hand_back<W: World>(world: &mut W, read: W::Read, write: W::Write)
    ensures back { HandsBack (W.Read.read_told read) (W.seen world.old) (W.seen world.new) }
{
    let mut write = write;
    write.shut();
    seen::hang_up(world, read, write);
}

/// The client of a new hub, and what its driver shares with it.
fn share<G: Tallies, Q: ServerPool + Drop>(
    alloc: Global,
    blank: Blank,
    options: &ConnectOptions,
    pool: Q,
    seed: u64,
) -> Result<Connected<G, Q>, NoMemory>
    requires name { blank.name ≡ G.name }
    requires parts { blank.parts ≡ G.parts }
    requires all { blank.parts ≡ 2 ^ 63 }
    requires kept { options.now.journal ≡ G.is_kept }
    ensures { IfOk result (λ done. done.client
        ≡ client_of (record { parts = 2 ^ 63; made = 0 }) options.now.request_timeout false) }
{
    let holder = make_hub(alloc, blank, options, seed)?;
    let hub = holder.hub_again()?;
    let client = Client::over_holder(holder, options.request_timeout);
    let pool = Mutex::new(pool);
    let shared = Arc::new(alloc, Shared { hub, pool })?;
    let servers = Servers { shared };
    Ok(Connected { client, servers })
}

/// Plays that a link came up, and what came with it as its first piece. The number of the link. Own call.
///
/// # Errors
///
/// `NoMemory` for want of memory: that the link came up may have been played.
pub fn play_up<G: Tallies, R: Wait>(
    rt: &R,
    alloc: Global,
    hub: &Hub<G>,
    info: ServerInfo,
    rest: Vec<u8>,
) -> Result<u64, NoMemory> {
    if hub.play(rt, alloc, Turn::Up(info)).is_err() {
        return Err(NoMemory);
    }
    let link = hub.link(rt);
    if !rest.is_empty() {
        let bytes = Bytes::from_vec(rest)?;
        if hub.play_on(rt, alloc, link, Turn::Piece(bytes)).is_err() {
            return Err(NoMemory);
        }
    }
    Ok(link)
}

/// What is played of a link that came up.
#[derive(Drop)]
struct Greeted {
    info: ServerInfo,
    rest: Vec<u8>,
    skipped: Vec<Text>,
}

/// The client of a new hub, on its first link.
fn share_up<G: Tallies, Q: ServerPool + Drop, R: Wait>(
    rt: &R,
    alloc: Global,
    blank: Blank,
    options: &ConnectOptions,
    pool: Q,
    seed: u64,
    greeted: Greeted,
) -> Result<Connected<G, Q>, NoMemory>
    requires name { blank.name ≡ G.name }
    requires parts { blank.parts ≡ G.parts }
    requires all { blank.parts ≡ 2 ^ 63 }
    requires kept { options.now.journal ≡ G.is_kept }
    ensures { IfOk result (λ done. done.client
        ≡ client_of (record { parts = 2 ^ 63; made = 0 }) options.now.request_timeout false) }
{
    let choice = pool.choice_of_round();
    let connected = share(alloc, blank, options, pool, seed)?;
    let hub = &connected.servers.shared.hub;
    note_choice(rt, hub, choice);
    note_skipped(rt, alloc, hub, greeted.skipped.as_slice());
    play_up(rt, alloc, hub, greeted.info, greeted.rest)?;
    Ok(connected)
}

/// A client that is connected, and its link where there is one.
pub type Begun<G, Q, L, H> = (Connected<G, Q>, Option<(L, H)>);

/// The client of a new hub, on its first link where there is one, and that link for who drives it. The hub plays that
/// the link came up, and what came with it; the client has all parts of the hub. Own call: the crate's call begins so.
///
/// # Errors
///
/// `NoMemory` for want of memory: an open link was shut and handed back to the world.
pub fn begin<G: Tallies, Q: ServerPool + Drop, R: Wait, W: World>(
    rt: &R,
    alloc: Global,
    blank: Blank,
    options: &ConnectOptions,
    pool: Q,
    linked: Option<Linked<W::Read, W::Write>>,
    seed: u64,
    world: &mut W,
) -> Result<Begun<G, Q, W::Read, W::Write>, NoMemory>
    requires name { blank.name ≡ G.name }
    requires parts { blank.parts ≡ G.parts }
    requires all { blank.parts ≡ 2 ^ 63 }
    requires kept { options.now.journal ≡ G.is_kept }
    ensures client { IfOk result (λ done. done.0.client
        ≡ client_of (record { parts = 2 ^ 63; made = 0 }) options.now.request_timeout false) }
    ensures out { (a : Seen) → LinkOut a (W.seen world.old) linked
        → IfOk result (λ done. LinkOut a (W.seen world.new) done.1) }
    ensures back { (a : Seen) → LinkOut a (W.seen world.old) linked
        → OnErr result (AllBack a (W.seen world.new)) }
{
    let Some(linked) = linked else {
        let connected = share(alloc, blank, options, pool, seed)?;
        return Ok((connected, None));
    };
    let Linked {
        info,
        rest,
        read,
        write,
        skipped,
    } = linked;
    let greeted = Greeted {
        info,
        rest,
        skipped,
    };
    match share_up(rt, alloc, blank, options, pool, seed, greeted) {
        Ok(connected) => Ok((connected, Some((read, write)))),
        Err(NoMemory) => {
            hand_back(world, read, write);
            Err(NoMemory)
        }
    }
}

/// The refusal for want of memory, which hands the world back: a link that is open was shut and handed back to it. Own
/// call.
pub fn out_of_memory<W: World>(world: W, link: Option<(W::Read, W::Write)>) -> Refused<W>
    ensures error { result.error ≡ stop.Connect wanting }
    ensures back { (a : Seen) → LinkOut a (W.seen world) link → HasWorld (λ w. AllBack a (W.seen w)) result.world }
{
    let mut world = world;
    if let Some((read, write)) = link {
        hand_back(&mut world, read, write);
    }
    Refused {
        error: Stopped::Connect(wanting()),
        world: Some(world),
    }
}
