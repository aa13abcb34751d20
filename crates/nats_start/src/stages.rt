//! The first steps of connecting: the addresses, the first round, and the hub.
ghost use Rattle.std.specs.Prelude.{◌≡◌, ◌^◌, Ok, Some, IfOk, IfErr, OnErr};
ghost use Rattle.nats_pool.specs.Auths.{auth_value};
ghost use Rattle.nats_handshake.specs.Credentials.{SignerAnswers, AuthAnswers, Offers};
ghost use Rattle.nats_handshake.specs.Shaking.{wanting};
ghost use Rattle.nats_dial.specs.Causes.{AllBack};
ghost use Rattle.nats_start.specs.Steps.{LinkOut, RoundFailed, WhyNotParsed};

use crate::World;
use nats_core::Config;
use nats_dial::{ConnectError, ConnectErrorKind, ConnectOptions, Linked, try_connect};
use nats_hub::{Holder, Tallies};
use nats_names::{AddrError, Cause, NoMemory};
use nats_pool::{ServerAddr, ServerInfo, ServerPool, ToServerAddrs};
use nats_system::id_token;
use rand::SeedableRng;
use rand::rngs::SmallRng;
use std::alloc::Global;
use std::sync::ledger::Blank;

/// The error of connecting for want of memory. Own call.
pub fn wanting() -> ConnectError
    ensures { result ≡ wanting }
{
    ConnectError::new(ConnectErrorKind::NoMemory)
}

/// The addresses of the servers to connect to. Own call.
///
/// # Errors
///
/// `ServerParse` with its cause where an address does not parse; `NoMemory` for want of memory.
pub fn addrs_of<A: ToServerAddrs>(alloc: Global, addrs: &A) -> Result<Vec<ServerAddr>, ConnectError>
    ensures ok { IfOk result (λ v. A.addrs addrs.now ≡ Ok v.items) }
    ensures err { IfErr result (λ e. WhyNotParsed (A.addrs addrs.now) e) }
{
    match addrs.to_server_addrs(alloc) {
        Ok(addrs) => Ok(addrs),
        Err(AddrError::NoMemory) => Err(wanting()),
        Err(error) => Err(ConnectError::with_source(
            ConnectErrorKind::ServerParse,
            Cause::Addr(error),
        )),
    }
}

/// One round of connecting.
fn one_round<Q: ServerPool, W: World>(
    alloc: Global,
    pool: &mut Q,
    options: &ConnectOptions,
    world: &mut W,
) -> Result<Linked<W::Read, W::Write>, ConnectError>
    ensures out { IfOk result (λ linked. LinkOut (W.seen world.old) (W.seen world.new) (Some linked)) }
    ensures back { OnErr result (AllBack (W.seen world.old) (W.seen world.new)) }
    ensures refused { IfErr result (λ e. RoundFailed
        (Offers SignerAnswers AuthAnswers options.now.signer options.now.auth_callback (auth_value options.now.auth))
        options.now.tls_required options.now.name options.now.no_echo options.now.connection_timeout
        (W.seen world.old) e (W.seen world.new)) }
{
    let last = ServerInfo::default(alloc);
    match try_connect(alloc, pool, options, &last, world) {
        Ok(linked) => Ok(linked),
        Err(error) => Err(error),
    }
}

/// One round of connecting, unless the first attempts are made in the background too: then there is no link, and
/// nothing is tried. Own call.
///
/// # Errors
///
/// That of the round, where it gave no link: each link that came was handed back to the world.
pub fn first_round<Q: ServerPool, W: World>(
    alloc: Global,
    pool: &mut Q,
    options: &ConnectOptions,
    world: &mut W,
) -> Result<Option<Linked<W::Read, W::Write>>, ConnectError>
    ensures out { IfOk result (λ linked. LinkOut (W.seen world.old) (W.seen world.new) linked) }
    ensures back { OnErr result (AllBack (W.seen world.old) (W.seen world.new)) }
    ensures refused { IfErr result (λ e. RoundFailed
        (Offers SignerAnswers AuthAnswers options.now.signer options.now.auth_callback (auth_value options.now.auth))
        options.now.tls_required options.now.name options.now.no_echo options.now.connection_timeout
        (W.seen world.old) e (W.seen world.new)) }
{
    if options.retry_on_initial_connect {
        return Ok(None);
    }
    match one_round(alloc, pool, options, world) {
        Ok(linked) => Ok(Some(linked)),
        Err(error) => Err(error),
    }
}

/// The settings of a session with these options, whose mux id is drawn from a generator of this seed.
fn config_of(alloc: Global, options: &ConnectOptions, seed: u64) -> Result<Config, NoMemory> {
    let mut generator = SmallRng::seed_from_u64(seed);
    let mux_id = id_token(alloc, &mut generator)?;
    let inbox_prefix = options.inbox_prefix.copy(alloc)?;
    Ok(Config {
        client_capacity: options.client_capacity,
        subscription_capacity: options.subscription_capacity,
        skip_subject_validation: options.skip_subject_validation,
        inbox_prefix,
        mux_id,
    })
}

/// The first holder of a new hub, which has all its parts.
pub(crate) fn make_hub<G: Tallies>(
    alloc: Global,
    blank: Blank,
    options: &ConnectOptions,
    seed: u64,
) -> Result<Holder<G>, NoMemory>
    requires name { blank.name ≡ G.name }
    requires parts { blank.parts ≡ G.parts }
    requires all { blank.parts ≡ 2 ^ 63 }
    requires kept { options.now.journal ≡ G.is_kept }
    ensures { IfOk result (λ holder. holder ≡ record { parts = 2 ^ 63; made = 0 }) }
{
    let config = config_of(alloc, options, seed)?;
    Holder::over(alloc, blank, config, options.journal, seed)
}
