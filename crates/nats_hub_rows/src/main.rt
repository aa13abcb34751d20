//! Rows of a hub beside a link in memory: what one read or one write answers, how its loops end, and what a client
//! tells of the server and of itself, before a link is up, while it is, and once it is lost; then links that fail.
#![tactic(auto)]

mod beside;
mod broken;
mod tells;

use anyhow::Result;
use nats_client::ALL_PARTS;
use std::marker::Brand;
use std::sync::ledger::Blank;

fn main(rt: HostRuntime) -> Result<()> {
    beside::play::<Brand, HostRuntime>(&rt, rt.alloc(), Blank::new(ALL_PARTS))?;
    broken::play_broken::<Brand, HostRuntime>(&rt, rt.alloc(), Blank::new(ALL_PARTS))
}
