//! What the bytes of a peer say: the commands of the NATS client protocol as a broker takes them, with `CONNECT`.
#![tactic(auto)]

mod command;
mod connect;
pub mod laws;
mod lines;
mod read;
mod unread;

pub use command::{Command, PeerFront};
pub use connect::{ConnectError, Wishes, read_wishes};
pub use nats_routing::Publication;
pub use read::read_command;
pub use unread::Unread;
