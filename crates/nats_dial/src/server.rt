//! One server: asked for, and each of its addresses tried.
ghost use Rattle.std.specs.Prelude.{◌≡◌, false};
ghost use Rattle.nats_pool.specs.Auths.{auth_value};
ghost use Rattle.nats_handshake.specs.Credentials.{SignerAnswers, AuthAnswers, Offers};
ghost use Rattle.nats_dial.specs.Tries.{TriesEach, Visits, VisitsWhere, ends_round, no_address, no_websocket, unresolved};

use crate::address::try_address;
use crate::link::wanting;
use crate::{Linked, Rounds};
use nats_handshake::{ConnectError, ConnectErrorKind, ConnectOptions};
use nats_names::Cause;
use nats_outside::{Reach, ResolveError, seen};
use nats_pool::ServerAddr;
use std::alloc::Global;
use std::net::SocketAddr;

// Whether an error ends a round at once.
pub(crate) fn ends_round(kind: ConnectErrorKind) -> bool
    ensures { result ≡ ends_round kind }
{
    match kind {
        ConnectErrorKind::AuthorizationViolation => true,
        ConnectErrorKind::Authentication => true,
        ConnectErrorKind::MaxReconnects | ConnectErrorKind::NoMemory => true,
        ConnectErrorKind::ServerParse
        | ConnectErrorKind::Dns
        | ConnectErrorKind::TimedOut
        | ConnectErrorKind::Tls
        | ConnectErrorKind::Io => false,
    }
}

fn no_address() -> ConnectError
    ensures { result ≡ no_address }
{
    ConnectError::with_source(ConnectErrorKind::Dns, Cause::NoAddress)
}

fn unresolved() -> ConnectError
    ensures { result ≡ unresolved }
{
    ConnectError::with_source(ConnectErrorKind::Dns, Cause::Fault)
}

fn no_websocket() -> ConnectError
    ensures { result ≡ no_websocket }
{
    ConnectError::new(ConnectErrorKind::ServerParse)
}

// Tries these addresses of a server in order.
fn try_each<P: Rounds, W: Reach>(
    alloc: Global,
    addr: &ServerAddr,
    addresses: &[SocketAddr],
    options: &ConnectOptions,
    pool: &mut P,
    world: &mut W,
) -> Result<Linked<W::Read, W::Write>, ConnectError>
    ensures beside { W.beside_reach world.new ≡ W.beside_reach world.old }
    ensures tries { TriesEach P.Takes P.Counts P.Hands P.Begins P.round_told
        (Offers SignerAnswers AuthAnswers options.now.signer options.now.auth_callback (auth_value options.now.auth))
        options.now.tls_required options.now.name options.now.no_echo options.now.connection_timeout
        W.Read.read_told W.Write.write_told addr.now addresses.now no_address
        (W.seen world.old) pool.old result
        (W.seen world.new) pool.new }
{
    let mut last = no_address();
    'addresses: for to in addresses {
        match try_address(alloc, addr, to, options, pool, world) {
            Ok(linked) => return Ok(linked),
            Err(error) => {
                if ends_round(error.kind()) {
                    return Err(error);
                }
                last = error;
            }
        }
    }
    Err(last)
}

// Asks for a server that is no websocket's, and tries what the resolver gives.
fn ask<P: Rounds, W: Reach>(
    alloc: Global,
    addr: &ServerAddr,
    options: &ConnectOptions,
    pool: &mut P,
    world: &mut W,
) -> Result<Linked<W::Read, W::Write>, ConnectError>
    ensures beside { W.beside_reach world.new ≡ W.beside_reach world.old }
    ensures asks { VisitsWhere P.Takes P.Counts P.Hands P.Begins P.round_told
        (Offers SignerAnswers AuthAnswers options.now.signer options.now.auth_callback (auth_value options.now.auth))
        options.now.tls_required options.now.name options.now.no_echo options.now.connection_timeout
        W.Read.read_told W.Write.write_told false addr.now (W.seen world.old) pool.old result
        (W.seen world.new) pool.new }
{
    match seen::resolve(world, alloc, addr.host(), addr.port()) {
        Ok(addresses) => try_each(alloc, addr, addresses.as_slice(), options, pool, world),
        Err(ResolveError::Failed) => Err(unresolved()),
        Err(ResolveError::NoMemory) => Err(wanting()),
    }
}

// Tries one server, once its delay was slept.
pub(crate) fn visit<P: Rounds, W: Reach>(
    alloc: Global,
    addr: &ServerAddr,
    delay: u64,
    options: &ConnectOptions,
    pool: &mut P,
    world: &mut W,
) -> Result<Linked<W::Read, W::Write>, ConnectError>
    ensures beside { W.beside_reach world.new ≡ W.beside_reach world.old }
    ensures visits { Visits P.Takes P.Counts P.Hands P.Begins P.round_told
        (Offers SignerAnswers AuthAnswers options.now.signer options.now.auth_callback (auth_value options.now.auth))
        options.now.tls_required options.now.name options.now.no_echo options.now.connection_timeout
        W.Read.read_told W.Write.write_told addr.now delay (W.seen world.old) pool.old result
        (W.seen world.new) pool.new }
{
    seen::sleep_ms(world, delay);
    if addr.is_websocket() {
        return Err(no_websocket());
    }
    ask(alloc, addr, options, pool, world)
}
