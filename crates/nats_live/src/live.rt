//! The commands on a live link.
ghost use Rattle.std.specs.Prelude.{◌≡◌, ◌≤◌, IfErr, IfOk, OnOk};
ghost use Rattle.nats_dial.specs.Causes.{AllBack, Onward};
ghost use Rattle.nats_dial.specs.Lines.{Took};
ghost use Rattle.nats_live.specs.Causes.{Shows, WhyNotPublished, WhyNotReceived};
ghost use Rattle.nats_live.specs.Ended.{WasPublished, WasReceived, limit_with};
ghost use Rattle.nats_live.specs.Flow.{PublishedOver, ReceivedOver};

use crate::begin::begin;
use crate::dial::dial;
use crate::end::{hand_back, hang_up};
use crate::error::LiveError;
use crate::publishing::publish_on;
use crate::receiving::receive_on;
use nats_core::{LinkRead, LinkWrite, ServerInfo};
use nats_dial::Linked;
use nats_outside::seen;
use nats_system::World;
use std::alloc::Global;
use std::sync::Wait;

// Publishes on a link that just came up, and hangs up.
fn publish_over<R: Wait, T: LinkWrite>(
    rt: &R,
    alloc: Global,
    info: ServerInfo,
    rest: Vec<u8>,
    seed: u64,
    subject: &str,
    payload: &[u8],
    write: &mut T,
) -> Result<(), LiveError>
    ensures { (head : _) → Took head (T.write_told write.old)
        → PublishedOver (limit_with info.max_payload rest.items) rest.items head subject.now
        payload.now result (T.write_told write.new) }
{
    let mut core = begin(alloc, info, rest, seed)?;
    let result = publish_on(rt, alloc, &mut core, subject, payload, write);
    hang_up(alloc, &mut core);
    result
}

/// Publishes a message of this subject and payload to the server of an address: connects by one round on
/// default options, publishes, waits until the link took all of it, hangs up, shuts the link and hands it back,
/// whatever came of it, all on the caller's thread. The steps are those of a client of the crate that publishes,
/// flushes and is dropped.
///
/// # Errors
///
/// `Connect` where the address does not parse or the round gave no link; `Publish` where the subject may not be
/// published to, or the payload is larger than the server takes; `LinkEnded` where the link failed first, or
/// the server said what is no operation; want of memory. A refusal of the message is tested before the link's
/// end.
pub fn publish<R: Wait, W: World>(
    rt: &R,
    alloc: Global,
    addr: &str,
    subject: &str,
    payload: &[u8],
    world: &mut W,
) -> Result<(), LiveError>
    ensures published { OnOk result (Shows addr.now (WasPublished subject.now payload.now)
        (W.seen world.old) (W.seen world.new)) }
    ensures refused { IfErr result (λ e. WhyNotPublished
        addr.now subject.now payload.now (W.seen world.old) e (W.seen world.new)) }
    ensures back { AllBack (W.seen world.old) (W.seen world.new) }
    ensures onward { Onward (W.seen world.old) (W.seen world.new) }
    ensures beside { W.beside_reach world.new ≡ W.beside_reach world.old }
{
    let Linked {
        info,
        rest,
        read,
        mut write,
        skipped: _,
    } = dial(alloc, addr, world)?;
    let seed = seen::draw(world);
    let result = publish_over(rt, alloc, info, rest, seed, subject, payload, &mut write);
    hand_back(world, read, write);
    result
}

// Receives on a link that just came up, and hangs up.
fn receive_over<R: Wait, L: LinkRead, T: LinkWrite>(
    rt: &R,
    alloc: Global,
    info: ServerInfo,
    rest: Vec<u8>,
    seed: u64,
    subject: &str,
    count: u64,
    read: &mut L,
    write: &mut T,
) -> Result<Vec<u8>, LiveError>
    requires { 1 ≤ count }
    ensures { (head : _) → Took head (T.write_told write.old) → ReceivedOver rest.items head subject.now count result
        (L.read_told read.old) (L.read_told read.new) (T.write_told write.new) }
{
    let mut core = begin(alloc, info, rest, seed)?;
    let result = receive_on(rt, alloc, &mut core, subject, count, read, write);
    hang_up(alloc, &mut core);
    result
}

/// Receives `count` messages of a subject, at least one, from the server of an address: connects by one round
/// on default options, subscribes, takes the messages, hangs up, shuts the link and hands it back, whatever came of
/// it, all on the caller's thread. It answers the messages as printed, a line each. The steps are those of a client
/// of the crate that subscribes, takes messages and is dropped.
///
/// # Errors
///
/// `Connect` where the address does not parse or the round gave no link; `Subscribe` where the subject may not
/// be subscribed to; `LinkEnded` where the link failed or ended before enough messages came, or the server said
/// what is no operation; want of memory. A refusal of the subject is tested before the link's end.
pub fn receive<R: Wait, W: World>(
    rt: &R,
    alloc: Global,
    addr: &str,
    subject: &str,
    count: u64,
    world: &mut W,
) -> Result<Vec<u8>, LiveError>
    requires { 1 ≤ count }
    ensures received { IfOk result (λ text. Shows addr.now (WasReceived subject.now count text.items)
        (W.seen world.old) (W.seen world.new)) }
    ensures refused { IfErr result (λ e. WhyNotReceived
        addr.now subject.now count (W.seen world.old) e (W.seen world.new)) }
    ensures back { AllBack (W.seen world.old) (W.seen world.new) }
    ensures onward { Onward (W.seen world.old) (W.seen world.new) }
    ensures beside { W.beside_reach world.new ≡ W.beside_reach world.old }
{
    let Linked {
        info,
        rest,
        mut read,
        mut write,
        skipped: _,
    } = dial(alloc, addr, world)?;
    let seed = seen::draw(world);
    let result = receive_over(
        rt, alloc, info, rest, seed, subject, count, &mut read, &mut write,
    );
    hand_back(world, read, write);
    result
}
