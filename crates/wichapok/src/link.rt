//! The client's connection.
ghost use Rattle.std.specs.Prelude.{◌≡◌, ◌^◌, false};

use crate::asked::Deed;
use crate::deeds::do_deed;
use crate::stop::Stop;
use nats_client::Tallies;
use nats_drive::{Connected, Starter, ThreadStarter, World, connect_with_options};
use nats_outside::{Clock, Joined};
use nats_pool::ConnectOptions;
use nats_system::{NetDialer, NetResolver, SystemClock, SystemDraw, Whole};
use std::alloc::Global;
use std::fmt;
use std::sync::Wait;
use std::sync::ledger::Blank;
use std::thread::Threads;

/// What connects, over the system.
pub type System<R> = Whole<
    Joined<NetDialer<R>, NetResolver<R>, SystemClock<R>, SystemDraw<R>>,
    ThreadStarter<R>,
    SystemClock<R>,
>;

/// What connects, over the system.
pub fn world<R: Copy>(rt: R) -> System<R> {
    Whole {
        reach: Joined {
            dialer: NetDialer::new(rt),
            resolver: NetResolver::new(rt),
            clock: SystemClock::new(rt),
            draw: SystemDraw::new(rt),
        },
        spawner: ThreadStarter::new(rt),
        clock: SystemClock::new(rt),
    }
}

/// Tells why no link came about.
fn unlinked<R: Eprint, E: fmt::Display>(rt: &R, error: &E) -> Stop {
    let _ = eprintln!(rt; "no link: {error}");
    Stop::NoLink
}

/// Connects, and does what is asked.
pub fn run<
    G: Tallies + Send + Sync + 'static,
    R: Threads + Wait + Print + Eprint + Copy + Drop + Send + Sync + 'static,
    P: Starter,
    W: World + Drop + Send + 'static,
    C: Clock + Copy + Drop + Send + Sync,
>(
    rt: &R,
    alloc: Global,
    blank: Blank,
    starter: &mut P,
    world: W,
    servers: Vec<String>,
    options: ConnectOptions,
    clock: &mut C,
    deed: &Deed,
) -> Result<(), Stop>
where
    W::Read: Send + 'static,
    W::Write: Send + 'static,
    W::Ticks: Send + 'static,
    requires name { blank.name ≡ G.name }
    requires parts { blank.parts ≡ G.parts }
    requires all { blank.parts ≡ 2 ^ 63 }
    requires kept { options.journal ≡ G.is_kept }
{
    let connected = connect_with_options::<G, R, P, W, Vec<String>>(
        rt, alloc, blank, starter, world, servers, options,
    );
    match connected {
        Ok(connected) => {
            let Connected {
                mut client,
                servers,
            } = connected;
            drop(servers);
            do_deed(rt, alloc, &mut client, clock, deed)
        }
        Err(refused) => Err(unlinked(rt, &refused.error)),
    }
}
