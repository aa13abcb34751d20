//! Why a client was not connected.
ghost use Rattle.std.specs.Prelude.{Some};

use nats_dial::ConnectError;
use std::error::Error;
use std::fmt;

/// Why no client came about. Own type: the crate's error of connecting has no kind for a task that is not spawned.
#[derive(Debug, Drop)]
pub enum Stopped {
    /// An address does not parse, the first round gave no link, or memory was wanting.
    Connect(ConnectError),
    /// The driver was not started.
    Spawn,
}

impl fmt::Display for Stopped {
    ghost use Rattle.nats_start.specs.Steps.{stopped_text};

    ghost output = { λ stopped. Some (stopped_text stopped) };

    fn fmt<W: fmt::Write>(&self, f: &mut fmt::Formatter<W>) -> fmt::Result {
        match self {
            Stopped::Connect(error) => write!(f, "{error}"),
            Stopped::Spawn => write!(f, "no thread for the driver"),
        }
    }
}

impl Error for Stopped {}

/// A refusal hands the world back, unless it went with the driver. Own type.
#[derive(Drop)]
pub struct Refused<W> {
    /// Why.
    pub error: Stopped,
    /// The world: none exactly where the driver was not started.
    pub world: Option<W>,
}
