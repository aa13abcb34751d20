//! No smuggling: what a session's links carry is exactly the commands that it was asked for.
#![tactic(auto)]

pub mod laws;
mod link;
mod run;
mod told;

pub use link::read_link;
pub use nats_client_text::{ClientEnd, ClientOp, ClientRead};
pub use nats_session::{Config, LinkRow, NoMemory, RunError, Seq, Transcript, Turn};
pub use run::checked_run;
