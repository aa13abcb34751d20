//! Addresses of NATS servers, and how a host's name becomes addresses of sockets.
#![tactic(auto)]

mod addr;
mod addrs;
mod resolver;
mod to_addrs;

pub use addr::ServerAddr;
pub use addrs::SocketAddrs;
pub use nats_names::{AddrError, NoMemory};
pub use resolver::{AskWord, FakeResolver, ResolveError, Resolver};
pub use to_addrs::{ToServerAddrs, addrs_of_texts};
pub use url::Url;
