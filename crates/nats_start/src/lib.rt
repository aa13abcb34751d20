//! What a client that stays connected begins with: who starts jobs, the outside with such a starter, the first round
//! of connecting, the hub on its first link, and the hold of the servers. Times are in milliseconds, lengths in bytes;
//! links are numbered from 1.
#![tactic(auto)]

mod first_link;
mod notes;
mod refused;
mod servers;
mod shared;
mod stages;
mod starter;
mod world;

pub use first_link::{Begun, begin, out_of_memory, play_up};
pub use notes::{note, note_choice, note_skipped, other};
pub use refused::{Refused, Stopped};
pub use servers::{ServerPoolError, Servers};
pub use shared::{Connected, Shared};
pub use stages::{addrs_of, first_round, wanting};
pub use starter::{Starter, ThreadStarter};
pub use world::World;
