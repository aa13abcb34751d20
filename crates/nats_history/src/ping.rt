//! What a PING asks for.

/// What a `PING` of the client asks for, which its `PONG` brings.
#[derive(Clone, Copy, Debug, PartialEq, Eq)]
pub enum Ping {
    /// A sign that the link still works.
    Tick,
    /// The end of the subscription of this number: the server sends no further message of it.
    Drain(u64),
    /// The end of the link and of the session.
    DrainAll,
}
