//! Workers that publish at one session, each in a thread of its own and with a client of its own; and what is printed
//! of what their hub came to: how many calls were accepted in all, and how many bytes the link took. Workers are
//! numbered from 1, and so are links.
#![tactic(auto)]

mod crew;
mod output;
mod workers;

pub use nats_client::NoMemory;
pub use output::threads_output;
