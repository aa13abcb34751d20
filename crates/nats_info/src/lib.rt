//! What a server says of itself in its INFO, and how the INFO's text is read.
#![tactic(auto)]

mod error;
mod fields;
mod info;
mod read;

pub use error::InfoError;
pub use info::ServerInfo;
pub use read::read_info;
