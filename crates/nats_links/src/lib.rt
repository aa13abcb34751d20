//! A hub beside a link: one read or one write at a time, and loops of these until the link is over. The hub's lock is
//! free while bytes move. Lengths are in bytes, times in milliseconds; links are numbered from 1.
#![tactic(auto)]

mod loops;
mod once;

pub use loops::{LoopEnd, READ_BUFFER, read_loop, tick_loop, write_loop};
pub use nats_core::{NoMemory, ReadOnce, WriteOnce};
pub use nats_hub::{Hub, Tallies};
pub use nats_outside::{Clock, LinkRead, LinkWrite};
pub use once::{read_once, write_once};
