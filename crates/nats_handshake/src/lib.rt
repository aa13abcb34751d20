//! The handshake of a link: what a client tells of itself, and what it makes of what the server says.
#![tactic(auto)]

mod course;
mod error;
mod greeting;
mod handshake;
pub mod laws;
mod offer;
mod stage;

pub use course::{Course, Greeting, HANDSHAKE_OPERATIONS, Verdict, read_course, read_greeting};
pub use error::{ConnectError, ConnectErrorKind, Refusal};
pub use greeting::{CLIENT_LANG, CLIENT_VERSION, connect_info};
pub use handshake::Handshake;
pub use nats_connect::{ConnectInfo, Protocol, connect_text};
pub use nats_names::{Cause, NoMemory, Text};
pub use nats_pool::{Auth, ConnectOptions, ServerAddr, ServerInfo, ServerList};
pub use offer::credentials;
pub use stage::{Shake, Stage};
