//! Scripts of a broker: reading the turns that bytes spell, playing them on a broker in memory, and printing how each
//! peer stands and what it was told. It is our own format: a line with the most bytes of a message, then a line for
//! each turn.
#![tactic(auto)]

mod lines;
mod print;
mod read;
mod script;
mod top;

pub use nats_broker::{BrokerTurn, NoMemory, Seq};
pub use script::RouteScript;
pub use top::{RouteEnding, RouteOutput, route_output};
