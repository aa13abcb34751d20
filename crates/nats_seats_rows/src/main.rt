//! Rows of seats: what the calls of a seat answer, and what its closed journal has; two seats on two threads that each
//! wait for the other's entry; workers, and what is printed of them. The rows print the same whatever the schedule.
#![tactic(auto)]

mod alone;
mod meets;
mod workers;

use anyhow::Result;

fn main(rt: HostRuntime) -> Result<()> {
    let alloc = rt.alloc();
    alone::play_alone(&rt, alloc)?;
    meets::play_meets(&rt, alloc)?;
    workers::play_workers(&rt, alloc)?;
    workers::play_text(&rt, alloc)?;
    Ok(())
}
