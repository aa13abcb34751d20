//! The interests of peers in subjects: how they are made, count their messages, and close.
#![tactic(auto)]

mod index;
mod interest;
mod interests;

pub use interest::Interest;
pub use interests::{Change, Interests};
