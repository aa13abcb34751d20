//! The law of a broker that the commands which are done for a peer are those of all its joined bytes, in their order,
//! whatever the other peers do in between.
#![tactic(auto)]

pub mod laws;
