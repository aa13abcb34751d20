//! The calls that connect.
ghost use Rattle.std.specs.Prelude.{◌≡◌, ◌^◌, Some, IfOk, IfErr, false};
ghost use Rattle.nats_pool.specs.Auths.{auth_value};
ghost use Rattle.nats_handshake.specs.Credentials.{SignerAnswers, AuthAnswers, Offers};
ghost use Rattle.nats_system.specs.Spawning.{spawned};
ghost use Rattle.nats_outside.specs.Told.{Seen};
ghost use Rattle.nats_client.specs.Views.{client_of};
ghost use Rattle.nats_start.specs.Steps.{LinkOut};
ghost use Rattle.nats_start.specs.declared.refused.Stopped.TheVariants as stop;
ghost use Rattle.nats_drive.specs.Refusing.{RefusesConnecting, RefusesLinking, RefusesStarting};

use crate::driver::drive;
use crate::plan::Planned;
use crate::{Connected, Driven, Plan, Refused, Shared, Starter, Stopped, World};
use nats_dial::{ConnectError, ConnectOptions, Linked};
use nats_hub::Tallies;
use nats_names::{Failed, NoMemory};
use nats_outside::{Clock, LinkRead, LinkWrite, seen};
use nats_pool::{Delay, Pool, PoolOptions, ServerAddr, ServerPool, ToServerAddrs};
use nats_start::{addrs_of, begin, first_round, out_of_memory, wanting};
use std::alloc::Global;
use std::sync::ledger::Blank;
use std::sync::{Arc, Wait};

/// Starts the job that drives a client's links.
fn start_driver<
    G: Tallies + Send + Sync + 'static,
    Q: ServerPool + Drop + Send + 'static,
    R: Wait + Copy + Drop + Send + 'static,
    P: Starter,
    L: LinkRead + Drop + Send + 'static,
    H: LinkWrite + Drop + Send + 'static,
    T: Clock + Drop + Send + 'static,
    W: Driven<L, H, T> + Drop + Send + 'static,
    K: Plan + Drop + Send + 'static,
>(
    rt: &R,
    alloc: Global,
    starter: &mut P,
    shared: Arc<Shared<G, Q>, Global>,
    plan: K,
    world: W,
    link: Option<(L, H)>,
) -> Result<(), Failed>
    ensures { P.start_faults starter.new ≡ spawned result (P.start_faults starter.old) }
{
    let copied = *rt;
    starter.start(move || {
        let mut world = world;
        drive::<G, Q, R, L, H, T, W, K>(&copied, alloc, &shared, &plan, &mut world, link)
    })
}

/// A refusal that hands the world back.
fn refuse<W>(error: ConnectError, world: W) -> Refused<W>
    ensures { result ≡ record { error = stop.Connect error; world = Some world } }
{
    Refused {
        error: Stopped::Connect(error),
        world: Some(world),
    }
}

/// Starts the driver of a client that is connected, with the link that is up where there is one.
fn drive_on<
    G: Tallies + Send + Sync + 'static,
    Q: ServerPool + Drop + Send + 'static,
    R: Wait + Copy + Drop + Send + 'static,
    P: Starter,
    W: World + Drop + Send + 'static,
>(
    rt: &R,
    alloc: Global,
    starter: &mut P,
    world: W,
    options: ConnectOptions,
    connected: Connected<G, Q>,
    link: Option<(W::Read, W::Write)>,
) -> Result<Connected<G, Q>, Refused<W>>
where
    W::Read: Send + 'static,
    W::Write: Send + 'static,
    W::Ticks: Send + 'static,
    ensures same { IfOk result (λ done. done ≡ connected) }
    ensures refused { (a : Seen) → LinkOut a (W.seen world) link
        → IfErr result (λ r. RefusesStarting W.seen a (P.start_faults starter.old) (P.start_faults starter.new) r) }
{
    let Ok(shared) = Arc::try_clone(&connected.servers.shared) else {
        return Err(out_of_memory(world, link));
    };
    let plan = Planned { options };
    let started = start_driver::<G, Q, R, P, W::Read, W::Write, W::Ticks, W, Planned>(
        rt, alloc, starter, shared, plan, world, link,
    );
    match started {
        Ok(()) => Ok(connected),
        Err(Failed) => Err(Refused {
            error: Stopped::Spawn,
            world: None,
        }),
    }
}

/// Makes the client of a new hub, on its first link where there is one, and starts its driver.
fn begin_on<
    G: Tallies + Send + Sync + 'static,
    Q: ServerPool + Drop + Send + 'static,
    R: Wait + Copy + Drop + Send + 'static,
    P: Starter,
    W: World + Drop + Send + 'static,
>(
    rt: &R,
    alloc: Global,
    blank: Blank,
    starter: &mut P,
    mut world: W,
    pool: Q,
    options: ConnectOptions,
    linked: Option<Linked<W::Read, W::Write>>,
) -> Result<Connected<G, Q>, Refused<W>>
where
    W::Read: Send + 'static,
    W::Write: Send + 'static,
    W::Ticks: Send + 'static,
    requires name { blank.name ≡ G.name }
    requires parts { blank.parts ≡ G.parts }
    requires all { blank.parts ≡ 2 ^ 63 }
    requires kept { options.journal ≡ G.is_kept }
    ensures client { IfOk result (λ done. done.client
        ≡ client_of (record { parts = 2 ^ 63; made = 0 }) options.request_timeout false) }
    ensures refused { (a : Seen) → LinkOut a (W.seen world) linked
        → IfErr result (λ r. RefusesStarting W.seen a (P.start_faults starter.old) (P.start_faults starter.new) r) }
{
    let seed = seen::draw(&mut world);
    match begin(rt, alloc, blank, &options, pool, linked, seed, &mut world) {
        Ok((connected, link)) => drive_on(rt, alloc, starter, world, options, connected, link),
        Err(NoMemory) => Err(refuse(wanting(), world)),
    }
}

/// Connects over a pool of servers, and goes on until the session is closed: a client of a new hub, and its hold of the
/// pool, whose links a job drives that `starter` starts. In this order: one round of connecting over `world`, unless
/// the first attempts are to be made in the background too; a hub, which plays that the link came up, and what came
/// with it; the driver, which owns the world. Whether the journal is kept the options say, as `G` does. Times are
/// milliseconds. The options of a pool are not read: the pool has its own. Own call, for pools of one's own: the crate
/// has but one kind of pool.
///
/// # Errors
///
/// `Connect` with the error of the round where that gave no link, or with `NoMemory` for want of memory: the world
/// comes back, to which each link that came was handed back first. `Spawn` exactly where the driver was not started,
/// which the starter counts: the world went with it.
#[tactic(auto, using(crate::proofs::Refusals::starting_links))]
pub fn connect_over<
    G: Tallies + Send + Sync + 'static,
    Q: ServerPool + Drop + Send + 'static,
    R: Wait + Copy + Drop + Send + 'static,
    P: Starter,
    W: World + Drop + Send + 'static,
>(
    rt: &R,
    alloc: Global,
    blank: Blank,
    starter: &mut P,
    mut world: W,
    mut pool: Q,
    options: ConnectOptions,
) -> Result<Connected<G, Q>, Refused<W>>
where
    W::Read: Send + 'static,
    W::Write: Send + 'static,
    W::Ticks: Send + 'static,
    requires name { blank.name ≡ G.name }
    requires parts { blank.parts ≡ G.parts }
    requires all { blank.parts ≡ 2 ^ 63 }
    requires kept { options.journal ≡ G.is_kept }
    ensures client { IfOk result (λ done. done.client
        ≡ client_of (record { parts = 2 ^ 63; made = 0 }) options.request_timeout false) }
    ensures refused { IfErr result (λ r. RefusesLinking
        (Offers SignerAnswers AuthAnswers options.signer options.auth_callback (auth_value options.auth))
        options.tls_required options.name options.no_echo options.connection_timeout
        W.seen (W.seen world) (P.start_faults starter.old) (P.start_faults starter.new) r) }
{
    match first_round(alloc, &mut pool, &options, &mut world) {
        Ok(linked) => begin_on(rt, alloc, blank, starter, world, pool, options, linked),
        Err(error) => Err(refuse(error, world)),
    }
}

/// Connects to one of these servers.
fn connect_to<
    G: Tallies + Send + Sync + 'static,
    R: Wait + Copy + Drop + Send + 'static,
    P: Starter,
    W: World + Drop + Send + 'static,
>(
    rt: &R,
    alloc: Global,
    blank: Blank,
    starter: &mut P,
    mut world: W,
    addrs: Vec<ServerAddr>,
    options: ConnectOptions,
) -> Result<Connected<G, Pool>, Refused<W>>
where
    W::Read: Send + 'static,
    W::Write: Send + 'static,
    W::Ticks: Send + 'static,
    requires name { blank.name ≡ G.name }
    requires parts { blank.parts ≡ G.parts }
    requires all { blank.parts ≡ 2 ^ 63 }
    requires kept { options.journal ≡ G.is_kept }
    ensures client { IfOk result (λ done. done.client
        ≡ client_of (record { parts = 2 ^ 63; made = 0 }) options.request_timeout false) }
    ensures refused { IfErr result (λ r. RefusesLinking
        (Offers SignerAnswers AuthAnswers options.signer options.auth_callback (auth_value options.auth))
        options.tls_required options.name options.no_echo options.connection_timeout
        W.seen (W.seen world) (P.start_faults starter.old) (P.start_faults starter.new) r) }
{
    let start = seen::draw(&mut world);
    let of_pool = PoolOptions {
        max_reconnects: options.max_reconnects,
        retain_servers_order: options.retain_servers_order,
        ignore_discovered_servers: options.ignore_discovered_servers,
        delay: options.reconnect_delay,
        choice: options.reconnect_to_server,
    };
    let rest = ConnectOptions {
        reconnect_delay: Delay::Default,
        reconnect_to_server: None,
        ..options
    };
    match Pool::new(alloc, addrs, of_pool, start) {
        Ok(pool) => connect_over(rt, alloc, blank, starter, world, pool, rest),
        Err(NoMemory) => Err(refuse(wanting(), world)),
    }
}

/// Connects to one of the servers of these addresses, and goes on until the session is closed: a client of a new hub,
/// and its hold of the servers, whose links a job drives that `starter` starts. In this order: the addresses; one round
/// of connecting over `world`, unless the first attempts are to be made in the background too; a hub, which plays that
/// the link came up, and what came with it; the driver, which owns the world. `blank` is a ledger of 2^63 parts, of
/// which the client has all. Whether the journal is kept the options say, as `G` does. Times are milliseconds. The
/// crate's call.
///
/// # Errors
///
/// `Connect` with `ServerParse` where an address does not parse, with the error of the round where that gave no link,
/// or with `NoMemory` for want of memory: the world comes back, to which each link that came was handed back first.
/// `Spawn` exactly where the driver was not started, which the starter counts: the world went with it.
#[tactic(auto, using(crate::proofs::Refusals::linking_connects))]
pub fn connect_with_options<
    G: Tallies + Send + Sync + 'static,
    R: Wait + Copy + Drop + Send + 'static,
    P: Starter,
    W: World + Drop + Send + 'static,
    A: ToServerAddrs + Drop,
>(
    rt: &R,
    alloc: Global,
    blank: Blank,
    starter: &mut P,
    world: W,
    addrs: A,
    options: ConnectOptions,
) -> Result<Connected<G, Pool>, Refused<W>>
where
    W::Read: Send + 'static,
    W::Write: Send + 'static,
    W::Ticks: Send + 'static,
    requires name { blank.name ≡ G.name }
    requires parts { blank.parts ≡ G.parts }
    requires all { blank.parts ≡ 2 ^ 63 }
    requires kept { options.journal ≡ G.is_kept }
    ensures client { IfOk result (λ done. done.client
        ≡ client_of (record { parts = 2 ^ 63; made = 0 }) options.request_timeout false) }
    ensures refused { IfErr result (λ r. RefusesConnecting
        (Offers SignerAnswers AuthAnswers options.signer options.auth_callback (auth_value options.auth))
        options.tls_required options.name options.no_echo options.connection_timeout
        W.seen (A.addrs addrs) (W.seen world) (P.start_faults starter.old) (P.start_faults starter.new) r) }
{
    match addrs_of(alloc, &addrs) {
        Ok(addrs) => connect_to(rt, alloc, blank, starter, world, addrs, options),
        Err(error) => Err(refuse(error, world)),
    }
}
