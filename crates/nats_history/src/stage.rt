//! How far a subscription came.

/// How far a subscription came.
#[derive(Clone, Copy, Debug, PartialEq, Eq)]
pub enum Stage {
    /// Its subscribe waits to be handled.
    Asked,
    /// Its subscribe was handled, and it has not ended.
    Open,
    /// It was open and ended.
    Ended,
}
