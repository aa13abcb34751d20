//! What a session tells of its connection and its subscriptions.
ghost use Rattle.std.specs.Prelude.{◌≡◌, IfOk, Some};
ghost use Rattle.nats_names.specs.Events.{event_text};

use crate::{ClientError, NoMemory, ServerError};
use std::alloc::Global;
use std::fmt;

/// What happened to a session, oldest first. The crate's `Event`.
#[derive(Debug, Drop, PartialEq, Eq)]
pub enum Event {
    /// A link came up.
    Connected,
    /// A link ended, and the session goes on without one.
    Disconnected,
    /// The server is about to stop, and asks its clients to go elsewhere.
    LameDuckMode,
    /// All subscriptions are being drained, and the session closes after it.
    Draining,
    /// The session closed.
    Closed,
    /// A message of the subscription of this number met a full queue and was dropped.
    SlowConsumer(u64),
    /// The server sent an error.
    ServerError(ServerError),
    /// The client found an error by itself.
    ClientError(ClientError),
}

impl Event {
    /// An equal event. Own call of this library, for the Rust's `Clone`.
    pub fn copy(&self, alloc: Global) -> Result<Event, NoMemory>
        ensures { IfOk result (λ event. event ≡ self.now) }
    {
        Ok(match self {
            Event::Connected => Event::Connected,
            Event::Disconnected => Event::Disconnected,
            Event::LameDuckMode => Event::LameDuckMode,
            Event::Draining => Event::Draining,
            Event::Closed => Event::Closed,
            Event::SlowConsumer(sid) => Event::SlowConsumer(*sid),
            Event::ServerError(error) => Event::ServerError(error.copy(alloc)?),
            Event::ClientError(error) => Event::ClientError(error.copy(alloc)?),
        })
    }
}

impl fmt::Display for Event {
    ghost output = { λ event. Some (event_text event) };

    fn fmt<W: fmt::Write>(&self, f: &mut fmt::Formatter<W>) -> fmt::Result {
        match self {
            Event::Connected => write!(f, "connected"),
            Event::Disconnected => write!(f, "disconnected"),
            Event::LameDuckMode => write!(f, "lame duck mode detected"),
            Event::Draining => write!(f, "draining"),
            Event::Closed => write!(f, "closed"),
            Event::SlowConsumer(sid) => write!(f, "slow consumers for subscription {sid}"),
            Event::ServerError(error) => write!(f, "server error: {error}"),
            Event::ClientError(error) => write!(f, "client error: {error}"),
        }
    }
}
