//! A hub: one session under one lock, which many hold. Each holder has some of the hub's parts and counts the accepted
//! calls that it made; who has all parts again finishes the hub and is told what it came to. A call that waits lets the
//! lock go meanwhile. Times are in milliseconds; subscriptions, tickets and links are numbered from 1.
#![tactic(auto)]

mod asking;
mod audit;
mod events;
mod holder;
mod hub;
mod locked;
mod reads;
mod tallies;

pub use audit::{Audit, Tally};
pub use events::MAX_EVENTS;
pub use holder::{ALL_PARTS, CLONES, CloneError, Holder, Unfinished};
pub use hub::Hub;
pub use nats_refusals::Refusal;
pub use reads::Room;
pub use tallies::Tallies;
