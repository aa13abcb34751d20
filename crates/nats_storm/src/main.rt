//! A client that audits itself. At the server of an address it takes what it publishes itself by five subscriptions,
//! two of them with a limit, and asks and answers; links may end meanwhile. Then what it saw is held against the
//! journal of its session: a line for each subscription, and a last one that is `agrees`, or says what differs.
#![tactic(auto)]

mod audit;
mod crew;

use anyhow::Result;
use nats_client::ALL_PARTS;
use nats_drive::ThreadStarter;
use nats_outside::Joined;
use nats_system::{NetDialer, NetResolver, SystemClock, SystemDraw, Whole};
use std::env;
use std::marker::Brand;
use std::sync::ledger::Blank;

fn main(rt: HostRuntime) -> Result<()> {
    let alloc = rt.alloc();
    let mut words: Vec<String> = env::args(&rt)?.collect(alloc)?;
    let (Some(count), Some(addr)) = (words.pop(), words.pop()) else {
        println!(rt; "nats_storm ADDRESS COUNT")?;
        return Ok(());
    };
    let count = count.as_str().parse::<u64>()?;
    let world = Whole {
        reach: Joined {
            dialer: NetDialer::new(rt),
            resolver: NetResolver::new(rt),
            clock: SystemClock::new(rt),
            draw: SystemDraw::new(rt),
        },
        spawner: ThreadStarter::new(rt),
        clock: SystemClock::new(rt),
    };
    let (mut starter, mut clock) = (ThreadStarter::new(rt), SystemClock::new(rt));
    let blank = Blank::new(ALL_PARTS);
    let seen = crew::play::<Brand, HostRuntime, _, _, _>(
        &rt,
        alloc,
        blank,
        &mut starter,
        world,
        addr,
        &mut clock,
        count,
    )?;
    audit::compare(&rt, alloc, &seen)?;
    Ok(println!(rt; "agrees")?)
}
