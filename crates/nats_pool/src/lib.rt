//! The servers that a client may connect to, the order in which it tries them, and the options of a connection.
#![tactic(auto)]

mod auth;
mod build;
mod callbacks;
mod choose;
mod connect_options;
mod delay;
mod discover;
mod pool;
mod pool_error;
mod pool_options;
mod pool_parts;
mod round;
mod rounds;
mod server;
mod server_pool;

pub use auth::Auth;
pub use callbacks::{
    AuthBox, AuthFn, ChoiceBox, ChoiceFn, DelayBox, DelayFn, EventBox, EventFn, SignerBox, SignerFn,
};
pub use connect_options::ConnectOptions;
pub use delay::reconnect_delay_default;
pub use discover::ServerList;
pub use nats_addr::{
    AskWord, FakeResolver, ResolveError, Resolver, ServerAddr, SocketAddrs, ToServerAddrs, Url,
    addrs_of_texts,
};
pub use nats_info::ServerInfo;
pub use nats_names::{AddrError, AuthError, Cause, Error, Event, NoMemory, Subject, Text};
pub use pool_error::SetServerPoolErrorKind;
pub use pool_options::{Delay, PoolOptions};
pub use pool_parts::{Attempt, Choice, Next, Outcome, Planned, Pool};
pub use rounds::Rounds;
pub use server::{ReconnectToServer, Server};
pub use server_pool::ServerPool;
