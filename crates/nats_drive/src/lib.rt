//! A client that stays connected: the job that drives a client's links until its session is closed, and the calls that
//! connect. What they begin with stands in `nats_start`, and is given from here too. Times are in milliseconds, lengths
//! in bytes; links are numbered from 1.
#![tactic(auto)]

mod bay;
mod connect;
mod driven;
mod driver;
mod jobs;
mod link;
mod plan;

pub use connect::{connect_over, connect_with_options};
pub use driven::Driven;
pub use driver::drive;
pub use nats_start::{
    Connected, Refused, ServerPoolError, Servers, Shared, Starter, Stopped, ThreadStarter, World,
};
pub use plan::Plan;
