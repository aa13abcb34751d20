//! Where a connection stands.
ghost use Rattle.std.specs.Prelude.{Some};
ghost use Rattle.nats_names.specs.Errors.{state_text};

use std::fmt;

/// Where a connection stands. The crate's `State`.
#[derive(Clone, Copy, Debug, PartialEq, Eq)]
pub enum State {
    /// No link ever came up.
    Pending,
    /// A link is up.
    Connected,
    /// A link was up, and none is.
    Disconnected,
}

impl fmt::Display for State {
    ghost output = { λ state. Some (state_text state) };

    fn fmt<W: fmt::Write>(&self, f: &mut fmt::Formatter<W>) -> fmt::Result {
        match self {
            State::Pending => write!(f, "pending"),
            State::Connected => write!(f, "connected"),
            State::Disconnected => write!(f, "disconnected"),
        }
    }
}
