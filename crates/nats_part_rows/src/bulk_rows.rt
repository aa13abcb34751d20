//! A list of turns that is made by a rule.
use nats_bulk::bulk_turns;
use nats_names::NoMemory;
use std::alloc::Global;

/// Whether there is an opening of three turns and one for each number.
pub fn are_counted(alloc: Global) -> Result<bool, NoMemory> {
    Ok(bulk_turns(alloc, 8)?.len() == 11)
}
