//! How the subscriptions of a session are kept: by number, each with the messages that wait to be taken, in memory
//! that is in the order of what is kept. It has no clock, no lock and no handle. Subscriptions are numbered from 1.
#![tactic(auto)]

mod drained;
mod pings;
mod queue;
mod subs;
mod taken;
mod waiting;

pub use pings::Pings;
pub use queue::Queue;
pub use subs::{Alteration, Delivery, Subscriptions};
pub use taken::{BoxedReply, Taken};
