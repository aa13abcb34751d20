//! Commands on a live link: one message published, or some received, on the caller's thread over a core of
//! their own. A world that is handed in gives the link and takes it back. Lengths are in bytes, times in
//! milliseconds.
#![tactic(auto)]

mod begin;
mod dial;
mod end;
mod error;
mod live;
mod publishing;
mod receiving;
mod step;

pub use error::LiveError;
pub use live::{publish, receive};
pub use nats_dial::{ConnectError, ConnectErrorKind};
pub use nats_names::Cause;
pub use nats_system::{PublishError, PublishErrorKind, SubscribeError, SubscribeErrorKind, World};
pub use receiving::READ_SIZE;
