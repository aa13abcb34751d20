//! Which subjects a pattern matches: by tokens, with the wildcards of the NATS protocol.
#![tactic(auto)]

mod matching;

pub use matching::matches;
