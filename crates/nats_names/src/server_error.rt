//! What a server complains of.
ghost use Rattle.std.specs.Prelude.{◌≡◌, IfOk, Some};
ghost use Rattle.nats_names.specs.Errors.{server_error_text};

use crate::{NoMemory, Text};
use std::alloc::Global;
use std::error::Error;
use std::fmt;

/// An error that a server sent. The crate's `ServerError`.
#[derive(Debug, Drop, PartialEq, Eq)]
pub enum ServerError {
    /// The client is not allowed in, or not to do this.
    AuthorizationViolation,
    /// The subscription of this number takes its messages too slowly.
    SlowConsumer(u64),
    /// Any other error, by the server's own words.
    Other(Text),
}

impl ServerError {
    /// An equal error. Own call of this library, for the Rust's `Clone`.
    pub fn copy(&self, alloc: Global) -> Result<ServerError, NoMemory>
        ensures { IfOk result (λ error. error ≡ self.now) }
    {
        Ok(match self {
            ServerError::AuthorizationViolation => ServerError::AuthorizationViolation,
            ServerError::SlowConsumer(sid) => ServerError::SlowConsumer(*sid),
            ServerError::Other(text) => ServerError::Other(text.copy(alloc)?),
        })
    }
}

impl fmt::Display for ServerError {
    ghost output = { λ error. Some (server_error_text error) };

    fn fmt<W: fmt::Write>(&self, f: &mut fmt::Formatter<W>) -> fmt::Result {
        match self {
            ServerError::AuthorizationViolation => write!(f, "nats: authorization violation"),
            ServerError::SlowConsumer(sid) => {
                write!(f, "nats: subscription {sid} is a slow consumer")
            }
            ServerError::Other(text) => write!(f, "nats: {text}"),
        }
    }
}

impl Error for ServerError {}
