//! Rows of requests over a hub in memory, whose peer hears what is written for the link and replies to what it heard:
//! what each request came to, and what was written of it. Of the tokens of inboxes only their length is told. The rows
//! print the same whatever the schedule.
#![tactic(auto)]

mod ask;
mod asks;
mod hand;
mod inboxes;
mod peer;
mod refused;
mod replies;
mod through;

use anyhow::Result;
use nats_client::ALL_PARTS;
use refused::Settings;
use std::marker::Brand;
use std::sync::ledger::Blank;

fn main(rt: HostRuntime) -> Result<()> {
    let alloc = rt.alloc();
    asks::play_asks::<Brand, HostRuntime>(&rt, alloc, Blank::new(ALL_PARTS))?;
    replies::play_replies::<Brand, HostRuntime>(&rt, alloc, Blank::new(ALL_PARTS))?;
    for settings in Settings::ALL {
        let blank = Blank::new(ALL_PARTS);
        refused::play_refused::<Brand, HostRuntime>(&rt, alloc, blank, settings)?;
    }
    inboxes::play_inboxes::<Brand, HostRuntime>(&rt, alloc, Blank::new(ALL_PARTS))?;
    through::play_through::<Brand, HostRuntime>(&rt, alloc, Blank::new(ALL_PARTS))
}
