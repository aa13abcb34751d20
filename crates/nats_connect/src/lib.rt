//! What a client tells a server of itself when it connects: the values, and the text of CONNECT.
#![tactic(auto)]

mod info;
mod text;

pub use info::{ConnectInfo, Protocol};
pub use nats_names::{NoMemory, Text};
pub use text::connect_text;
