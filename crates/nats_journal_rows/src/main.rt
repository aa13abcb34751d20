//! Rows of what a hub keeps. The words of each call of a client stand in the hub's journal as they were given, with
//! another letter behind each of them too; the journal's turns are played again, by a new session and as a list; and
//! of the events that nobody asks for, as many wait as may.
#![tactic(auto)]

mod again;
mod calls;
mod entries;
mod events;
mod told;

use again::{differing, play_again};
use anyhow::Result;
use nats_client::ALL_PARTS;
use std::marker::Brand;
use std::sync::ledger::Blank;
use told::Tail;

fn main(rt: HostRuntime) -> Result<()> {
    let alloc = rt.alloc();
    let plain = told::kept::<Brand, HostRuntime>(&rt, alloc, Blank::new(ALL_PARTS), Tail::Empty)?;
    let tailed = told::kept::<Brand, HostRuntime>(&rt, alloc, Blank::new(ALL_PARTS), Tail::Z)?;
    differing(&rt, alloc, &plain, &tailed)?;
    play_again(&rt, alloc, &plain)?;
    events::wait::<Brand, HostRuntime>(&rt, alloc, Blank::new(ALL_PARTS))
}
