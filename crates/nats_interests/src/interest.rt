//! An interest.
use nats_names::Subject;

/// What a peer wants to hear: the messages whose subject the pattern matches. By the NATS protocol's `SUB` and
/// `UNSUB`.
#[derive(Debug, Drop, PartialEq, Eq)]
pub struct Interest {
    /// The number of the peer, from 1.
    pub peer: u64,
    /// The number that the peer gave it.
    pub sid: u64,
    /// Which subjects it wants; `*` and a last `>` are wildcards.
    pub pattern: Subject,
    /// The queue group whose members share their messages.
    pub group: Option<Subject>,
    /// How many messages it got; it stops at its greatest value.
    pub count: u64,
    /// How many messages it gets at most before it closes.
    pub most: Option<u64>,
}
