//! A broker that is served over the system's sockets. Who comes takes a seat, of which there are so many at once, and
//! is served over its link by two threads: one reads, one writes. Where no seat is free the link is closed at once.
//! Times are in milliseconds.
#![tactic(auto)]

mod admitting;
mod peer;
mod seats;
mod served;

pub use admitting::{listen_on, serve_all};
pub use nats_serve::{Broker, BrokerHub, BrokerInfo, NoMemory};
pub use peer::serve_peer;
pub use seats::Seats;
pub use served::Served;
