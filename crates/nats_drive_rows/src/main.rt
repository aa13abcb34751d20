//! A client that stays connected, against servers on the loopback whose bytes threads play. First one whose link ends
//! in the midst of a message: the client comes back on a second one, subscribes again, takes what is sent there,
//! publishes, drains and is closed. Then one that says it is about to stop and names another, to which the client
//! goes. It prints what the client took and was told, and the commands that the servers heard on each link. At last
//! what a client is told that does not come about, by the device that fails.
#![tactic(auto)]

mod client;
mod lame;
mod pool;
mod refused;
mod server;

use anyhow::{Result, anyhow};
use nats_client::ALL_PARTS;
use nats_drive::ThreadStarter;
use nats_outside::Joined;
use nats_system::{NetDialer, NetResolver, SystemClock, SystemDraw, Whole};
use refused::{Device, NoThreads};
use std::alloc::Global;
use std::marker::Brand;
use std::net::{Ipv4Addr, SocketAddr, TcpListener};
use std::sync::ledger::Blank;
use std::thread;

/// The outside over the system.
type System<R> = Whole<
    Joined<NetDialer<R>, NetResolver<R>, SystemClock<R>, SystemDraw<R>>,
    ThreadStarter<R>,
    SystemClock<R>,
>;

/// The outside over the system.
fn system<R: Copy>(rt: R) -> System<R> {
    Whole {
        reach: Joined {
            dialer: NetDialer::new(rt),
            resolver: NetResolver::new(rt),
            clock: SystemClock::new(rt),
            draw: SystemDraw::new(rt),
        },
        spawner: ThreadStarter::new(rt),
        clock: SystemClock::new(rt),
    }
}

/// A port of the loopback that the system chooses.
fn home() -> SocketAddr {
    SocketAddr::from((Ipv4Addr::LOCALHOST, 0))
}

/// The address of a server.
fn addr_of(alloc: Global, listener: &TcpListener) -> Result<String> {
    Ok(format!(in alloc; "nats://{}", listener.local_addr()?)?)
}

/// There is no thread for a server.
fn no_thread() -> anyhow::Error {
    anyhow!("no thread for a server")
}

fn main(rt: HostRuntime) -> Result<()> {
    let alloc = rt.alloc();
    let listener = TcpListener::bind(&rt, home())?;
    let addr = addr_of(alloc, &listener)?;
    let Ok(server) = thread::spawn(&rt, move || server::play(alloc, &listener)) else {
        return Err(no_thread());
    };
    let mut starter = ThreadStarter::new(rt);
    let (blank, world) = (Blank::new(ALL_PARTS), system(rt));
    let took = client::play::<Brand, _, _, _>(&rt, alloc, blank, &mut starter, world, addr)?;
    print!(rt; "{}", took.as_str())?;
    print!(rt; "{}", server.join(&rt)?.as_str())?;

    let first = TcpListener::bind(&rt, home())?;
    let second = TcpListener::bind(&rt, home())?;
    let addr = addr_of(alloc, &first)?;
    let Ok(servers) = thread::spawn(&rt, move || lame::serve(alloc, first, &second)) else {
        return Err(no_thread());
    };
    let (blank, world) = (Blank::new(ALL_PARTS), system(rt));
    let took = lame::follow::<Brand, _, _, _>(&rt, alloc, blank, &mut starter, world, addr)?;
    print!(rt; "{}", took.as_str())?;
    print!(rt; "{}", servers.join(&rt)?.as_str())?;

    let listener = TcpListener::bind(&rt, home())?;
    let at = listener.local_addr()?;
    let Ok(server) = thread::spawn(&rt, move || server::greet_one(alloc, &listener)) else {
        return Err(no_thread());
    };
    for device in Device::ALL {
        let world = refused::world(rt, alloc, device, at)?;
        let (blank, mut none) = (Blank::new(ALL_PARTS), NoThreads::new(rt));
        let words = refused::told::<Brand, _, _, _>(&rt, alloc, blank, &mut none, world)?;
        println!(rt; "{}: {}", device.name(), words.as_str())?;
    }
    server.join(&rt)
}
