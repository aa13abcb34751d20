//! What a call with a ticket waits as.

/// What a call that was given a ticket waits as, until it is handled.
#[derive(Clone, Copy, Debug, PartialEq, Eq)]
pub enum Waits {
    /// A flush.
    Flush,
    /// A request.
    Request,
    /// A request whose deadline came.
    Late,
}
