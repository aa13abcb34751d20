//! What the clients of one broker do, and what goes between them and it.

use nats_history::Call;

/// One move of the clients of one broker, which are numbered from 1. Own type.
#[derive(Debug, Drop, PartialEq, Eq)]
pub enum Move {
    /// The client of this number makes a call.
    Do(u64, Call),
    /// The client of the first number takes the oldest message of its subscription of the second.
    Take(u64, u64),
    /// So many of the bytes that wait for a client's link, or all, are taken and brought to the broker.
    Carry(u64, u64),
    /// So many of the bytes that wait for a client at the broker, or all, are brought to the client.
    Bring(u64, u64),
}
