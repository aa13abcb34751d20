//! What waits for the peers of a broker, and the law that it is the text of what was said to them.
#![tactic(auto)]

pub mod laws;
