//! A session's core with a journal by seats: each turn that is played is noted with its reply and the number of the
//! seat that played it. It has no lock, no thread and no clock. Seats are numbered from 1, and so are places in the
//! journal.
#![tactic(auto)]

mod desk;
mod entry;
mod errors;
mod notes;

pub use desk::{Desk, LAST_SEAT, MOST_NOTES};
pub use entry::SeatEntry;
pub use errors::{PlayError, SplitError};
