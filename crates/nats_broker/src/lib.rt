//! A broker in memory: it routes messages between peers that speak the NATS client protocol. It serves tests and
//! programs that want a server of their own without a network. Clusters, accounts, `+OK` replies and permissions are
//! left out.
#![tactic(auto)]

mod broker;
mod info;
pub mod laws;
mod peer;
mod peers;
mod rows;
mod turn;

pub use broker::Broker;
pub use info::BrokerInfo;
pub use nats_broker_text::{Command, PeerFront, Wishes, read_command};
pub use nats_names::{Bytes, NoMemory, Seq, Token};
pub use peer::{Peer, PeerWord};
pub use rows::{PeerRow, route};
pub use turn::{BrokerTurn, RouteError};
