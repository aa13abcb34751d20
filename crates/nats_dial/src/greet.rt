//! The handshake of a new link to an address.
ghost use Rattle.std.specs.Prelude.{◌≡◌};
ghost use Rattle.nats_pool.specs.Auths.{auth_value};
ghost use Rattle.nats_handshake.specs.Credentials.{SignerAnswers, AuthAnswers, Offers};
ghost use Rattle.nats_outside.specs.Told.{IsFresh, looked};
ghost use Rattle.nats_dial.specs.Lines.{Looked};
ghost use Rattle.nats_dial.specs.Greets.{Begun, Finished, Greets};

use crate::link::wanting;
use crate::linked::Greeted;
use crate::shake::shake_hands;
use nats_handshake::{ConnectError, ConnectOptions, Handshake};
use nats_outside::{Clock, LinkRead, LinkWrite, Reach};
use nats_pool::{ServerAddr, ServerList};
use std::alloc::Global;

// What a handshake leaves that succeeded.
fn finished(alloc: Global, shaking: Handshake) -> Result<Greeted, ConnectError>
    ensures { Finished shaking result }
{
    let mut shaking = shaking;
    let skipped = shaking.take_skipped(alloc);
    match shaking.finish() {
        Some((info, rest)) => Ok(Greeted {
            info,
            rest,
            skipped,
        }),
        None => Err(wanting()),
    }
}

// A handshake that begins.
fn begin(
    alloc: Global,
    addr: &ServerAddr,
    start: u64,
    options: &ConnectOptions,
) -> Result<Handshake, ConnectError>
    ensures { Begun addr.now options.now.connection_timeout start result }
{
    Handshake::new(alloc, addr, options, start)
}

// The handshake of a new link to this address, which began then.
fn greet<R: LinkRead, T: LinkWrite, C: Clock, P: ServerList>(
    alloc: Global,
    addr: &ServerAddr,
    start: u64,
    options: &ConnectOptions,
    pool: &mut P,
    read: &mut R,
    write: &mut T,
    clock: &mut C,
) -> Result<Greeted, ConnectError>
    ensures looked { Looked (C.clock_told clock.old) (C.clock_told clock.new) }
    ensures beside { C.beside_clock clock.new ≡ C.beside_clock clock.old }
    ensures greets { IsFresh (R.read_told read.old) (T.write_told write.old) → Greets P.Takes
        (Offers SignerAnswers AuthAnswers options.now.signer options.now.auth_callback (auth_value options.now.auth))
        options.now.tls_required options.now.name options.now.no_echo options.now.connection_timeout addr.now start
        pool.old result (R.read_told read.new) (T.write_told write.new) (C.clock_told clock.new) pool.new }
{
    let mut shaking = begin(alloc, addr, start, options)?;
    shake_hands(alloc, &mut shaking, options, pool, read, write, clock)?;
    finished(alloc, shaking)
}

// The same over all that the world tells.
pub(crate) fn greet_in<R: LinkRead, T: LinkWrite, W: Reach, P: ServerList>(
    alloc: Global,
    addr: &ServerAddr,
    start: u64,
    options: &ConnectOptions,
    pool: &mut P,
    read: &mut R,
    write: &mut T,
    world: &mut W,
) -> Result<Greeted, ConnectError>
    ensures told { W.seen world.new ≡ record (W.seen world.old) {
      clock = looked ((W.seen world.new).clock.last) ((W.seen world.old).clock);
    } }
    ensures beside { W.beside_reach world.new ≡ W.beside_reach world.old }
    ensures greets { IsFresh (R.read_told read.old) (T.write_told write.old) → Greets P.Takes
        (Offers SignerAnswers AuthAnswers options.now.signer options.now.auth_callback (auth_value options.now.auth))
        options.now.tls_required options.now.name options.now.no_echo options.now.connection_timeout addr.now start
        pool.old result (R.read_told read.new) (T.write_told write.new) ((W.seen world.new).clock) pool.new }
{
    greet(alloc, addr, start, options, pool, read, write, world)
}
