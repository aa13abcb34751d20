//! Connecting: a round of servers, each of its addresses dialed, the handshake of each link, over an outside that
//! is handed in.
#![tactic(auto)]

mod address;
mod connect;
mod exchange;
mod greet;
mod link;
mod linked;
mod server;
mod shake;

pub use connect::try_connect;
pub use exchange::READ_SIZE;
pub use linked::Linked;
pub use nats_handshake::{ConnectError, ConnectErrorKind, ConnectOptions, Handshake, NoMemory};
pub use nats_names::Cause;
pub use nats_outside::{Clock, LinkRead, LinkWrite, Reach};
pub use nats_pool::{Rounds, ServerAddr, ServerInfo, ServerList};
pub use shake::shake_hands;
