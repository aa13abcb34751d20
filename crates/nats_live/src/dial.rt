//! A link to the server of an address.
ghost use Rattle.std.specs.Prelude.{◌≡◌, [], ◌∷◌, Ok, IfOk, IfErr, OnErr};
ghost use Rattle.nats_addr.specs.Addr.{addr_of};
ghost use Rattle.nats_dial.specs.Causes.{AllBack, Onward};
ghost use Rattle.nats_live.specs.Causes.{DialedTo, LinkedTo, WhyNotDialed, WhyNotLinked, WhyNotParsed};

use crate::error::{LiveError, connect_refused};
use nats_dial::{ConnectError, ConnectErrorKind, ConnectOptions, Linked, Reach, try_connect};
use nats_names::{AddrError, Cause, NoMemory};
use nats_outside::seen;
use nats_pool::{Pool, ServerAddr, ServerInfo};
use nats_system::World;
use std::alloc::Global;

// The server of this address.
fn server_of(alloc: Global, addr: &str) -> Result<ServerAddr, LiveError>
    ensures ok { IfOk result (λ server. addr_of addr.now ≡ Ok server) }
    ensures err { IfErr result (λ e. WhyNotParsed addr.now e) }
{
    match ServerAddr::parse(alloc, addr) {
        Ok(server) => Ok(server),
        Err(AddrError::NoMemory) => Err(LiveError::NoMemory),
        Err(error) => Err(LiveError::Connect(ConnectError::with_source(
            ConnectErrorKind::ServerParse,
            Cause::Addr(error),
        ))),
    }
}

// This server alone.
fn alone(alloc: Global, server: ServerAddr) -> Result<Vec<ServerAddr>, NoMemory>
    ensures { IfOk result (λ addrs. addrs.items ≡ server ∷ []) }
{
    let mut addrs = Vec::new(alloc);
    addrs.push(server)?;
    Ok(addrs)
}

// A link to this server, by one round of connecting on default options over a pool of it alone.
fn link_to<W: Reach>(
    alloc: Global,
    server: ServerAddr,
    start: u64,
    world: &mut W,
) -> Result<Linked<W::Read, W::Write>, LiveError>
    ensures beside { W.beside_reach world.new ≡ W.beside_reach world.old }
    ensures onward { Onward (W.seen world.old) (W.seen world.new) }
    ensures up { IfOk result (λ linked. LinkedTo server linked.info linked.rest.items
        (W.Read.read_told linked.read) (W.Write.write_told linked.write) (W.seen world.old) (W.seen world.new)) }
    ensures back { OnErr result (AllBack (W.seen world.old) (W.seen world.new)) }
    ensures refused { IfErr result (λ e. WhyNotLinked server (W.seen world.old) e (W.seen world.new)) }
{
    let addrs = alone(alloc, server)?;
    let mut options = ConnectOptions::new();
    let mut pool = Pool::new(alloc, addrs, options.take_pool_options(), start)?;
    let last = ServerInfo::default(alloc);
    match try_connect(alloc, &mut pool, &options, &last, world) {
        Ok(linked) => Ok(linked),
        Err(error) => Err(connect_refused(error)),
    }
}

// A link to the server of this address, by one round of connecting on default options.
pub(crate) fn dial<W: World>(
    alloc: Global,
    addr: &str,
    world: &mut W,
) -> Result<Linked<W::Read, W::Write>, LiveError>
    ensures beside { W.beside_reach world.new ≡ W.beside_reach world.old }
    ensures onward { Onward (W.seen world.old) (W.seen world.new) }
    ensures up { IfOk result (λ linked. DialedTo addr.now linked.info linked.rest.items
        (W.Read.read_told linked.read) (W.Write.write_told linked.write) (W.seen world.old) (W.seen world.new)) }
    ensures back { OnErr result (AllBack (W.seen world.old) (W.seen world.new)) }
    ensures refused { IfErr result (λ e. WhyNotDialed addr.now (W.seen world.old) e (W.seen world.new)) }
{
    let server = server_of(alloc, addr)?;
    let start = seen::draw(world);
    link_to(alloc, server, start, world)
}
