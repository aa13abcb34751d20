//! One address: dialed, shaken hands with, and told of.
ghost use Rattle.std.specs.Prelude.{◌≡◌, IfOk};
ghost use Rattle.nats_pool.specs.Auths.{auth_value};
ghost use Rattle.nats_handshake.specs.Credentials.{SignerAnswers, AuthAnswers, Offers};
ghost use Rattle.nats_handshake.specs.Shaking.{is_wanting};
ghost use Rattle.nats_dial.specs.Tries.{Reaches, Tries, Notes, failure_text};

use crate::greet::greet_in;
use crate::link::{fault, wanting};
use crate::linked::Greeted;
use crate::{Linked, Rounds};
use nats_handshake::{ConnectError, ConnectErrorKind, ConnectOptions};
use nats_names::{Failed, NoMemory, Text};
use nats_outside::{Reach, seen};
use nats_pool::{Outcome, ServerAddr};
use std::alloc::Global;
use std::net::SocketAddr;

// Dials this address of a server. A link whose handshake fails is handed back.
fn reach<P: Rounds, W: Reach>(
    alloc: Global,
    addr: &ServerAddr,
    to: &SocketAddr,
    options: &ConnectOptions,
    pool: &mut P,
    world: &mut W,
) -> Result<Linked<W::Read, W::Write>, ConnectError>
    ensures beside { W.beside_reach world.new ≡ W.beside_reach world.old }
    ensures reaches { Reaches P.Takes P.Counts P.Hands P.Begins P.round_told
        (Offers SignerAnswers AuthAnswers options.now.signer options.now.auth_callback (auth_value options.now.auth))
        options.now.tls_required options.now.name options.now.no_echo options.now.connection_timeout
        W.Read.read_told W.Write.write_told addr.now to.now (W.seen world.old) pool.old result
        (W.seen world.new) pool.new }
{
    let start = seen::start_ms(world);
    match seen::dial(world, to, options.connection_timeout) {
        Ok((dialed_read, dialed_write)) => {
            let mut read = dialed_read;
            let mut write = dialed_write;
            match greet_in(
                alloc, addr, start, options, pool, &mut read, &mut write, world,
            ) {
                Ok(
                    Greeted {
                        info,
                        rest,
                        skipped,
                    },
                ) => Ok(Linked {
                    info,
                    rest,
                    read,
                    write,
                    skipped,
                }),
                Err(error) => {
                    seen::hang_up(world, read, write);
                    Err(error)
                }
            }
        }
        Err(Failed) => Err(fault()),
    }
}

// Whether memory was wanting.
fn is_wanting(kind: ConnectErrorKind) -> bool
    ensures { result ≡ is_wanting kind }
{
    matches!(kind, ConnectErrorKind::NoMemory)
}

// What an error prints.
fn text_of(alloc: Global, error: &ConnectError) -> Result<Text, NoMemory>
    ensures { IfOk result (λ text. text ≡ failure_text error.now) }
{
    let text = format!(in alloc; "{error}")?;
    Text::from_text(alloc, text.as_str())
}

// Counts a failure with its text, unless memory was wanting.
fn count<P: Rounds>(
    alloc: Global,
    addr: &ServerAddr,
    error: ConnectError,
    pool: &mut P,
) -> ConnectError
    ensures { Notes P.Counts addr.now error pool.old result pool.new }
{
    if is_wanting(error.kind()) {
        return wanting();
    }
    match text_of(alloc, &error) {
        Ok(text) => {
            pool.note(addr, Outcome::Failed(text));
            error
        }
        Err(NoMemory) => wanting(),
    }
}

// The same as `reach`, and the pool is told how it went.
pub(crate) fn try_address<P: Rounds, W: Reach>(
    alloc: Global,
    addr: &ServerAddr,
    to: &SocketAddr,
    options: &ConnectOptions,
    pool: &mut P,
    world: &mut W,
) -> Result<Linked<W::Read, W::Write>, ConnectError>
    ensures beside { W.beside_reach world.new ≡ W.beside_reach world.old }
    ensures tries { Tries P.Takes P.Counts P.Hands P.Begins P.round_told
        (Offers SignerAnswers AuthAnswers options.now.signer options.now.auth_callback (auth_value options.now.auth))
        options.now.tls_required options.now.name options.now.no_echo options.now.connection_timeout
        W.Read.read_told W.Write.write_told addr.now to.now (W.seen world.old) pool.old result
        (W.seen world.new) pool.new }
{
    match reach(alloc, addr, to, options, pool, world) {
        Ok(linked) => {
            pool.note(addr, Outcome::Connected);
            Ok(linked)
        }
        Err(error) => Err(count(alloc, addr, error, pool)),
    }
}
