//! A round of connecting: `round`, the addresses with commas between them, the limit of attempts, which dial and
//! which asking fail, and what each link gives. Three more rounds have addresses and what each link gives: `late` and
//! the times that the clock shows, `homeless` with hosts that have no address, and `demands` with TLS demanded.
use crate::handshake::{begun, push_texts};
use crate::outside::{Memory, home};
use crate::says::{push, push_number};
use crate::shake::link;
use nats_dial::{ConnectError, ConnectOptions, Handshake, Linked, try_connect};
use nats_outside::{
    FakeClock, FakeDialer, FakeDraw, FakeLink, FakeRead, FakeResolver, FakeWrite, Joined,
};
use nats_pool::{
    Delay, Pool, PoolOptions, Rounds, Server, ServerAddr, ServerInfo, ServerList, addrs_of_texts,
};
use nats_rows::{Bad, number_of, push_bytes, push_word, spelled_bytes};
use std::alloc::Global;
use std::net::SocketAddr;

type Connected = Result<Linked<FakeRead, FakeWrite>, ConnectError>;

/// The texts between commas, none where nothing stands there.
fn texts_of(alloc: Global, texts: &str) -> Result<Vec<&str>, Bad> {
    if texts == "~" {
        return Ok(Vec::new(alloc));
    }
    Ok(texts.split(',').collect(alloc)?)
}

/// The addresses with commas between them.
fn addrs_of(alloc: Global, texts: &str) -> Result<Vec<ServerAddr>, Bad> {
    let texts = texts_of(alloc, texts)?;
    addrs_of_texts(alloc, texts.as_slice()).map_err(|_| Bad::Form)
}

/// A link for each of the words.
fn links(alloc: Global, words: &[&str]) -> Result<Vec<FakeLink>, Bad> {
    let mut links = Vec::new(alloc);
    for word in words {
        let text = spelled_bytes(alloc, word)?;
        links.push(link(alloc, text.as_slice())?)?;
    }
    Ok(links)
}

/// What a round finds: the times that the clock shows, the last of which stays, and the addresses of each host. The
/// dial and the asking of these numbers, counted from 1, fail, and TLS is demanded or not.
#[derive(Clone, Copy)]
struct Around<'a> {
    times: &'a [u64],
    homes: &'a [SocketAddr],
    dial: u64,
    asking: u64,
    demands_tls: bool,
}

/// A world in memory whose links give these words.
fn world(alloc: Global, words: &[&str], around: &Around) -> Result<Memory, Bad> {
    let dial = vec![in alloc; around.dial]?;
    let asking = vec![in alloc; around.asking]?;
    let homes = around.homes.to_vec(alloc)?;
    let times = around.times.to_vec(alloc)?;
    let links = links(alloc, words)?;
    Ok(Joined {
        dialer: FakeDialer::failing(alloc, links, dial),
        resolver: FakeResolver::failing(homes, asking),
        clock: FakeClock::told(times),
        draw: FakeDraw::told(Vec::new(alloc)),
    })
}

fn connects<P: Rounds>(
    alloc: Global,
    pool: &mut P,
    demands_tls: bool,
    world: &mut Memory,
) -> Connected {
    let options = ConnectOptions::new().require_tls(demands_tls);
    let last = ServerInfo::default(alloc);
    let connected = try_connect(alloc, pool, &options, &last, world);
    drop(last);
    drop(options);
    connected
}

fn push_outcome(alloc: Global, connected: &Connected, out: &mut String) -> Result<(), Bad> {
    match connected {
        Ok(linked) => {
            out.push_str("up")?;
            push_word(out, linked.rest.as_slice())?;
            push_texts(linked.skipped.as_slice(), out)
        }
        Err(error) => Ok(push_bytes(out, format!(in alloc; "{error}")?.as_bytes())?),
    }
}

fn push_connected<P: Rounds>(
    alloc: Global,
    pool: &mut P,
    demands_tls: bool,
    world: &mut Memory,
    out: &mut String,
) -> Result<(), Bad> {
    let connected = connects(alloc, pool, demands_tls, world);
    let pushed = push_outcome(alloc, &connected, out);
    drop(connected);
    pushed
}

/// Appends how often a server failed, whether it gave a link, and what it keeps of its last failure.
fn push_server(alloc: Global, server: &Server, out: &mut String) -> Result<(), Bad> {
    let (failed, did_connect) = (server.failed_attempts, server.did_connect);
    out.push_str(format!(in alloc; ", {failed} {did_connect}")?.as_str())?;
    match &server.last_error {
        Some(text) => Ok(push_word(out, text.as_str().as_bytes())?),
        None => push(out, " ~"),
    }
}

/// Appends what a pool knows of its first server, and how many servers it has.
fn push_known(alloc: Global, pool: &Pool, out: &mut String) -> Result<(), Bad> {
    let servers = pool.server_pool(alloc)?;
    if let Some(server) = servers.as_slice().first() {
        push_server(alloc, server, out)?;
    }
    push(out, ", ")?;
    push_number(alloc, servers.len() as u64, out)
}

fn push_in_world<P: Rounds>(
    alloc: Global,
    pool: &mut P,
    words: &[&str],
    around: &Around,
    out: &mut String,
) -> Result<(), Bad> {
    let mut world = world(alloc, words, around)?;
    let pushed = push_connected(alloc, pool, around.demands_tls, &mut world, out);
    drop(world);
    pushed
}

fn limit_of(word: &str) -> Result<Option<usize>, Bad> {
    match word {
        "~" => Ok(None),
        word => word.parse().map(Some).map_err(|_| Bad::Form),
    }
}

/// The options of a pool with this limit of attempts, whose order stays.
fn options(max_reconnects: Option<usize>) -> PoolOptions {
    PoolOptions {
        max_reconnects,
        retain_servers_order: true,
        ignore_discovered_servers: false,
        delay: Delay::Default,
        choice: None,
    }
}

/// Appends what a round over these addresses comes to: the rest behind the handshake or the error, and what the pool
/// knows then.
fn push_over(
    alloc: Global,
    addrs: Vec<ServerAddr>,
    max_reconnects: Option<usize>,
    links: &[&str],
    around: &Around,
    out: &mut String,
) -> Result<(), Bad> {
    let mut pool = Pool::new(alloc, addrs, options(max_reconnects), 1)?;
    let pushed = push_in_world(alloc, &mut pool, links, around, out);
    let known = push_known(alloc, &pool, out);
    drop(pool);
    pushed.and(known)
}

/// Appends what a round comes to in which the time stands still and each host has two addresses.
pub fn push_round(alloc: Global, rest: &str, out: &mut String) -> Result<(), Bad> {
    let words: Vec<&str> = rest.split(' ').collect(alloc)?;
    let [addrs, limit, dial, asking, links @ ..] = words.as_slice() else {
        return Err(Bad::Form);
    };
    let (still, homes) = ([0u64], [home(), home()]);
    let around = Around {
        times: still.as_slice(),
        homes: homes.as_slice(),
        dial: number_of(dial)?,
        asking: number_of(asking)?,
        demands_tls: false,
    };
    let limit = limit_of(limit)?;
    push_over(alloc, addrs_of(alloc, addrs)?, limit, links, &around, out)
}

/// The times with commas between them.
fn times_of(alloc: Global, texts: &str) -> Result<Vec<u64>, Bad> {
    let mut times = Vec::new(alloc);
    for text in texts.split(',') {
        times.push(number_of(text)?)?;
    }
    Ok(times)
}

/// Appends what a round comes to in which the clock shows these times.
pub fn push_late(alloc: Global, rest: &str, out: &mut String) -> Result<(), Bad> {
    let words: Vec<&str> = rest.split(' ').collect(alloc)?;
    let [addrs, texts, links @ ..] = words.as_slice() else {
        return Err(Bad::Form);
    };
    let times = times_of(alloc, texts)?;
    let homes = [home(), home()];
    let around = Around {
        times: times.as_slice(),
        homes: homes.as_slice(),
        dial: 0,
        asking: 0,
        demands_tls: false,
    };
    push_over(alloc, addrs_of(alloc, addrs)?, None, links, &around, out)
}

/// Appends what a round comes to in which no host has an address, or TLS is demanded.
fn push_barred(
    alloc: Global,
    rest: &str,
    homes: &[SocketAddr],
    demands_tls: bool,
    out: &mut String,
) -> Result<(), Bad> {
    let words: Vec<&str> = rest.split(' ').collect(alloc)?;
    let [addrs, links @ ..] = words.as_slice() else {
        return Err(Bad::Form);
    };
    let still = [0u64];
    let around = Around {
        times: still.as_slice(),
        homes,
        dial: 0,
        asking: 0,
        demands_tls,
    };
    push_over(alloc, addrs_of(alloc, addrs)?, None, links, &around, out)
}

/// Appends what a round comes to in which no host has an address.
pub fn push_homeless(alloc: Global, rest: &str, out: &mut String) -> Result<(), Bad> {
    push_barred(alloc, rest, &[], false, out)
}

/// Appends what a round comes to in which TLS is demanded.
pub fn push_demanding(alloc: Global, rest: &str, out: &mut String) -> Result<(), Bad> {
    let homes = [home(), home()];
    push_barred(alloc, rest, homes.as_slice(), true, out)
}

fn takes_in<P: ServerList>(
    alloc: Global,
    shaking: &mut Handshake,
    pool: &mut P,
    info: &[u8],
) -> bool {
    let options = ConnectOptions::new();
    let fed = shaking.feed(alloc, info, &options, pool);
    drop(options);
    let is_fed = fed.is_ok();
    drop(fed);
    is_fed
}

fn push_taken<P: ServerList>(
    alloc: Global,
    pool: &mut P,
    info: &[u8],
    out: &mut String,
) -> Result<(), Bad> {
    let mut shaking = begun(alloc, "a", 0).map_err(|_| Bad::NoMemory)?;
    let is_read = takes_in(alloc, &mut shaking, pool, info);
    drop(shaking);
    push(out, if is_read { "read" } else { "refused" })
}

/// Appends whether a handshake reads an INFO, whose servers a pool takes in, and what the pool knows then.
pub fn push_taken_in(alloc: Global, rest: &str, out: &mut String) -> Result<(), Bad> {
    let (addrs, word) = rest.split_once(' ').ok_or(Bad::Form)?;
    let info = spelled_bytes(alloc, word)?;
    let addrs = addrs_of(alloc, addrs)?;
    let mut pool = Pool::new(alloc, addrs, options(None), 1)?;
    let pushed = push_taken(alloc, &mut pool, info.as_slice(), out);
    let known = push_known(alloc, &pool, out);
    drop(pool);
    pushed.and(known)
}
