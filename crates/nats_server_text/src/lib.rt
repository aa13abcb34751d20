//! What a broker tells its peers, as text, and the law that the grammar of server operations reads it back.
#![tactic(auto)]

pub mod laws;
