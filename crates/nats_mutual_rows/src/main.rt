//! Two clients that ask each other through a server in memory. Each has a hub of its own; on either side one thread
//! asks and another answers, and a last thread is the server, which hands each message to the subscription of the other
//! client that it heard of. The rows print the same whatever the schedule.
#![tactic(auto)]

mod client;
mod server;
mod side;

use anyhow::Result;
use nats_client::ALL_PARTS;
use std::marker::Brand;
use std::sync::ledger::Blank;

fn main(rt: HostRuntime) -> Result<()> {
    let (one, two) = (Blank::new(ALL_PARTS), Blank::new(ALL_PARTS));
    side::play_both::<Brand, Brand, HostRuntime>(&rt, rt.alloc(), one, two)
}
