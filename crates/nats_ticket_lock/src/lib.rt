//! A ticket lock over one table of atomic words: a value that holders on many threads change in turn, and whose entries
//! stand under the numbers of those who made them. It knows nothing of NATS. Tickets and places are counted from 0,
//! seats from 1.
#![tactic(auto)]

pub mod lock;
pub mod plays;
pub mod rule;
pub mod ticket;
