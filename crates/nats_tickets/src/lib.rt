//! How the tickets of a session are kept: which flush awaits what, which request waits for
//! which reply, and how each is settled. Once a ticket is given, settling it
//! takes no memory. It has no clock, no lock and no handle. Tickets are numbered from 1, lengths are in bytes.
#![tactic(auto)]

mod asking;
mod flushes;
mod kinds;
mod ready;
mod tickets;

pub use tickets::Tickets;
