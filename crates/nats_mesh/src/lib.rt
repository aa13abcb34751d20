//! Clients and a broker composed in one process, without a network: what each client does and what goes between them
//! and the broker comes as a list of moves, and what each client came to is its transcript. It serves tests, and shows
//! that what a subscription hears is what the broker told it.
#![tactic(auto)]

mod begin;
mod broker;
mod client;
mod clients;
mod cores;
mod hello;
mod meshes;
mod told;

pub use meshes::mesh;
pub use nats_broker::{BrokerInfo, RouteError, Token};
pub use nats_history::{Call, Config, Transcript};
pub use nats_moves::Move;
