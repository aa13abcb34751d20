//! A broker beside the links of its peers: each peer's link is read by one thread and written to by another. The
//! broker's lock is free while bytes move. Lengths are in bytes; peers are numbered from 1.
#![tactic(auto)]

mod held;
mod hub;
mod read;
mod write;

pub use hub::{BrokerHub, PeerEnd};
pub use nats_broker::{Broker, BrokerInfo};
pub use nats_names::NoMemory;
pub use nats_outside::{LinkRead, LinkWrite};
pub use read::{READ_BUFFER, serve_read};
pub use write::serve_write;
