//! A round of connecting.
ghost use Rattle.std.specs.Prelude.{◌≡◌, IfErr, IfOk, OnErr, OnOk};
ghost use Rattle.nats_pool.specs.Auths.{auth_value};
ghost use Rattle.nats_handshake.specs.Credentials.{SignerAnswers, AuthAnswers, Offers};
ghost use Rattle.nats_dial.specs.Began.{BeganRound, BeganWell};
ghost use Rattle.nats_dial.specs.Causes.{AllBack, CameUp, Onward, RoundCause};
ghost use Rattle.nats_pool.specs.Handing.{left_of};
ghost use Rattle.nats_dial.specs.Tries.{Visits, GoesThrough, Connects, all_failed, too_many};

use crate::link::wanting;
use crate::server::{ends_round, visit};
use crate::{Linked, Rounds};
use nats_handshake::{ConnectError, ConnectErrorKind, ConnectOptions};
use nats_names::{Cause, NoMemory};
use nats_outside::Reach;
use nats_pool::{Attempt, Next, ServerInfo};
use std::alloc::Global;

fn all_failed() -> ConnectError
    ensures { result ≡ all_failed }
{
    ConnectError::with_source(ConnectErrorKind::Io, Cause::AllFailed)
}

fn too_many() -> ConnectError
    ensures { result ≡ too_many }
{
    ConnectError::new(ConnectErrorKind::MaxReconnects)
}

// Tries the server of an attempt.
fn attempt_it<P: Rounds, W: Reach>(
    alloc: Global,
    attempt: Attempt,
    options: &ConnectOptions,
    pool: &mut P,
    world: &mut W,
) -> Result<Linked<W::Read, W::Write>, ConnectError>
    ensures beside { W.beside_reach world.new ≡ W.beside_reach world.old }
    ensures visits { Visits P.Takes P.Counts P.Hands P.Begins P.round_told
        (Offers SignerAnswers AuthAnswers options.now.signer options.now.auth_callback (auth_value options.now.auth))
        options.now.tls_required options.now.name options.now.no_echo options.now.connection_timeout
        W.Read.read_told W.Write.write_told attempt.addr attempt.delay
        (W.seen world.old) pool.old result (W.seen world.new) pool.new }
{
    visit(alloc, &attempt.addr, attempt.delay, options, pool, world)
}

// Goes through the servers of a round that are left.
fn go_through<P: Rounds, W: Reach>(
    alloc: Global,
    options: &ConnectOptions,
    pool: &mut P,
    world: &mut W,
) -> Result<Linked<W::Read, W::Write>, ConnectError>
    ensures beside { W.beside_reach world.new ≡ W.beside_reach world.old }
    ensures goes { GoesThrough P.Takes P.Counts P.Hands P.Begins P.round_told
        (Offers SignerAnswers AuthAnswers options.now.signer options.now.auth_callback (auth_value options.now.auth))
        options.now.tls_required options.now.name options.now.no_echo options.now.connection_timeout
        W.Read.read_told W.Write.write_told (left_of (P.round_told pool.old)) all_failed
        (W.seen world.old) pool.old result (W.seen world.new) pool.new }
{
    let mut last = all_failed();
    'servers: loop {
        match pool.hand_out() {
            Next::Over => return Err(last),
            Next::MaxReconnects => return Err(too_many()),
            Next::Try(attempt) => match attempt_it(alloc, attempt, options, pool, world) {
                Ok(linked) => return Ok(linked),
                Err(error) => {
                    if ends_round(error.kind()) {
                        return Err(error);
                    }
                    last = error;
                }
            },
        }
    }
}

// A round, from its beginning.
fn connect<P: Rounds, W: Reach>(
    alloc: Global,
    pool: &mut P,
    options: &ConnectOptions,
    last: &ServerInfo,
    world: &mut W,
) -> Result<Linked<W::Read, W::Write>, ConnectError>
    ensures beside { W.beside_reach world.new ≡ W.beside_reach world.old }
    ensures connects { Connects P.Takes P.Counts P.Hands P.Begins P.round_told
        (Offers SignerAnswers AuthAnswers options.now.signer options.now.auth_callback (auth_value options.now.auth))
        options.now.tls_required options.now.name options.now.no_echo options.now.connection_timeout
        W.Read.read_told W.Write.write_told last.now
        (W.seen world.old) pool.old result (W.seen world.new) pool.new }
{
    match pool.start_round(alloc, last) {
        Ok(_) => go_through(alloc, options, pool, world),
        Err(NoMemory) => Err(wanting()),
    }
}

/// Makes one round of connecting over `world`: begins a round of `pool`, whose last INFO was `last`, and tries its
/// servers in order, each once its delay was slept: asks for its addresses and dials each in order, until the handshake
/// of a link succeeds, with TLS wanted by nothing and before its time is over. A link whose handshake fails is handed
/// back. The pool is told of each address that was dialed, and takes in the servers that an INFO tells of. A refusal of
/// what the client authenticates by ends the round. Times are milliseconds. The crate's steps.
///
/// # Errors
///
/// Where the round is used up, the last error: `Dns` where the resolver failed or gave no address; `Io` where a
/// dial or a link failed or ended, the server said what is not due, or the round has no servers; `TimedOut` where
/// the clock gave the start of the dial plus the options' time, or later; `Tls` where TLS is wanted; `ServerParse`
/// where the address is of `ws` or `wss`, or one that the INFO tells of does not parse. At once:
/// `AuthorizationViolation` where the server says so; `Authentication` where the signer or the authentication
/// callback refuses; `MaxReconnects` where the pool's attempts pass their limit; `NoMemory`, after which the pool
/// is as the round left it.
pub fn try_connect<P: Rounds, W: Reach>(
    alloc: Global,
    pool: &mut P,
    options: &ConnectOptions,
    last: &ServerInfo,
    world: &mut W,
) -> Result<Linked<W::Read, W::Write>, ConnectError>
    ensures beside { W.beside_reach world.new ≡ W.beside_reach world.old }
    ensures onward { Onward (W.seen world.old) (W.seen world.new) }
    ensures up { IfOk result (λ linked. CameUp
        (Offers SignerAnswers AuthAnswers options.now.signer options.now.auth_callback (auth_value options.now.auth))
        options.now.tls_required options.now.name options.now.no_echo options.now.connection_timeout
        ((P.round_told pool.new).round) linked.info linked.rest.items
        (W.Read.read_told linked.read) (W.Write.write_told linked.write) (W.seen world.old) (W.seen world.new)) }
    ensures well { OnOk result (BeganWell P.Begins P.round_told last.now pool.old pool.new) }
    ensures back { OnErr result (AllBack (W.seen world.old) (W.seen world.new)) }
    ensures began { IfErr result (λ e. BeganRound P.Begins P.round_told last.now pool.old pool.new e) }
    ensures connects { Connects P.Takes P.Counts P.Hands P.Begins P.round_told
        (Offers SignerAnswers AuthAnswers options.now.signer options.now.auth_callback (auth_value options.now.auth))
        options.now.tls_required options.now.name options.now.no_echo options.now.connection_timeout
        W.Read.read_told W.Write.write_told last.now
        (W.seen world.old) pool.old result (W.seen world.new) pool.new }
    ensures failed { IfErr result (λ e. RoundCause P.Takes
        (Offers SignerAnswers AuthAnswers options.now.signer options.now.auth_callback (auth_value options.now.auth))
        options.now.tls_required options.now.name options.now.no_echo options.now.connection_timeout
        (P.round_told pool.old) (P.round_told pool.new) (W.seen world.old) e (W.seen world.new)) }
{
    match connect(alloc, pool, options, last, world) {
        Ok(linked) => Ok(linked),
        Err(error) => Err(error),
    }
}
