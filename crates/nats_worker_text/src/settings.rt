//! The settings of a session at which workers publish.
ghost use Rattle.std.specs.Prelude.{◌≡◌, IfOk};
ghost use Rattle.nats_worker_text.specs.Settings as words;

use nats_bulk::bulk_config;
use nats_session::{Config, NoMemory};
use std::alloc::Global;

/// The settings of a long list of turns that is made by a rule, but so many calls may wait. Own choice.
///
/// # Errors
///
/// `NoMemory` for want of memory.
pub fn workers_config(alloc: Global, calls: u64) -> Result<Config, NoMemory>
    ensures { IfOk result (λ config. config ≡ words.workers_config calls) }
{
    let mut config = bulk_config(alloc)?;
    config.client_capacity = calls;
    Ok(config)
}
