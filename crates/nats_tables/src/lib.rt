//! Numbered things, kept in memory that is in the order of what is kept.
#![tactic(auto)]

mod pages;
mod slots;
mod table;

pub use nats_names::NoMemory;
pub use table::{Change, Row, Table, TryChange};
