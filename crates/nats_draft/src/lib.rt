//! The transcript of a session as it is written, row by row, and what it leaves at the end. It knows what a
//! transcript's rows are, and nothing of what plays them.
#![tactic(auto)]

mod draft;
mod places;

pub use draft::Draft;
