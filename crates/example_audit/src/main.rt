//! Four threads publish over one hub, each by a client of its own. Once all are done their clients are settled, and
//! what the hub came to is printed: how many accepted calls the clients made together, how many the journal has,
//! and how many of these are messages. It prints the same whatever the schedule.
#![tactic(auto)]

mod crew;

use anyhow::{Result, anyhow};
use nats_client::{ALL_PARTS, Config};
use std::marker::Brand;
use std::sync::ledger::Blank;

/// How many threads publish.
const WORKERS: u64 = 4;

/// How many messages each thread publishes.
const EACH: u64 = 250;

fn main(rt: HostRuntime) -> Result<()> {
    let alloc = rt.alloc();
    let Ok(config) = Config::new(alloc) else {
        return Err(anyhow!("no memory"));
    };
    match crew::play::<Brand, HostRuntime>(
        &rt,
        alloc,
        Blank::new(ALL_PARTS),
        config,
        WORKERS,
        EACH,
    ) {
        Ok(audit) => {
            let (made, accepted) = (audit.tally.made, audit.tally.accepted);
            println!(rt; "made {made}")?;
            println!(rt; "accepted {accepted}")?;
            println!(rt; "messages {}", crew::published(audit.journal.as_slice()))?;
            Ok(())
        }
        Err(_) => Err(anyhow!("no memory")),
    }
}
