//! A subscriber: it prints the messages of `orders.*` as they come, and ends after two. The address of a server, as
//! `nats://127.0.0.1:4222`, sends it there. Without one it runs over memory alone: standard input is what the server
//! sends, and what the client sends is printed behind `>`.
#![tactic(auto)]

ghost use Rattle.std.specs.Prelude.{◌≡◌, ◌^◌, false};

use anyhow::{Result, anyhow};
use nats_client::{ALL_PARTS, Client, Subscriber, Tallies};
use nats_drive::{Connected, Starter, ThreadStarter, World, connect_with_options};
use nats_outside::Joined;
use nats_pool::ConnectOptions;
use nats_system::{NetDialer, NetResolver, SystemClock, SystemDraw, Whole};
use std::alloc::Global;
use std::io::Read;
use std::marker::Brand;
use std::sync::Wait;
use std::sync::ledger::Blank;
use std::{env, str};

/// How many messages it prints.
const COUNT: u64 = 2;

/// Prints the next messages.
fn listen<G: Tallies, R: Wait + Print>(
    rt: &R,
    alloc: Global,
    orders: &mut Subscriber<G>,
) -> Result<()> {
    for _ in 0..COUNT {
        let Some(message) = orders.next(rt, alloc)? else {
            return Err(anyhow!("the session was closed"));
        };
        let payload = str::from_utf8(message.payload.as_slice()).unwrap_or("(bytes)");
        println!(rt; "{}: {payload}", message.subject.as_str())?;
    }
    Ok(())
}

/// Runs at a server.
fn connect<
    G: Tallies + Send + Sync + 'static,
    R: Wait + Print + Copy + Drop + Send + 'static,
    P: Starter,
    W: World + Drop + Send + 'static,
>(rt: &R, alloc: Global, blank: Blank, starter: &mut P, world: W, addr: String) -> Result<()>
where
    W::Read: Send + 'static,
    W::Write: Send + 'static,
    W::Ticks: Send + 'static,
    requires name { blank.name ≡ G.name }
    requires parts { blank.parts ≡ G.parts }
    requires all { blank.parts ≡ 2 ^ 63 }
    requires kept { G.is_kept ≡ false }
{
    let options = ConnectOptions::new();
    match connect_with_options::<G, R, P, W, String>(
        rt, alloc, blank, starter, world, addr, options,
    ) {
        Ok(Connected { mut client, .. }) => {
            let mut orders = client.subscribe(rt, alloc, "orders.*")?;
            listen(rt, alloc, &mut orders)
        }
        Err(refused) => Err(anyhow!("{}", refused.error)),
    }
}

/// Runs over memory alone.
fn rehearse<G: Tallies, R: Wait + Print>(
    rt: &R,
    alloc: Global,
    blank: Blank,
    sent: &[u8],
) -> Result<()>
    requires name { blank.name ≡ G.name }
    requires parts { blank.parts ≡ G.parts }
    requires all { blank.parts ≡ 2 ^ 63 }
    requires kept { G.is_kept ≡ false }
{
    let mut client: Client<G> = example_link::client(rt, alloc, blank)?;
    let mut orders = client.subscribe(rt, alloc, "orders.*")?;
    example_link::takes(rt, alloc, &client)?;
    example_link::gives(rt, alloc, &client, sent)?;
    listen(rt, alloc, &mut orders)?;
    example_link::takes(rt, alloc, &client)
}

fn main(rt: HostRuntime) -> Result<()> {
    let alloc = rt.alloc();
    let mut words: Vec<String> = env::args(&rt)?.collect(alloc)?;
    let blank = Blank::new(ALL_PARTS);
    if words.len() < 2 {
        let mut sent = Vec::new(alloc);
        rt.stdin().read_to_end(&mut sent)?;
        return rehearse::<Brand, HostRuntime>(&rt, alloc, blank, sent.as_slice());
    }
    let addr = words.pop().ok_or(anyhow!("no address"))?;
    let world = Whole {
        reach: Joined {
            dialer: NetDialer::new(rt),
            resolver: NetResolver::new(rt),
            clock: SystemClock::new(rt),
            draw: SystemDraw::new(rt),
        },
        spawner: ThreadStarter::new(rt),
        clock: SystemClock::new(rt),
    };
    let mut starter = ThreadStarter::new(rt);
    connect::<Brand, HostRuntime, _, _>(&rt, alloc, blank, &mut starter, world, addr)
}
