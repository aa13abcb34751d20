//! What the clients of one broker hear: laws on the numbers under which a broker tells a client messages, and on what
//! a client's subscriptions were put and dropped, beside all that the broker told it.
#![tactic(auto)]

pub mod laws;
