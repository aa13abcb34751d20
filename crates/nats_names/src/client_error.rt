//! What a client complains of by itself.
ghost use Rattle.std.specs.Prelude.{◌≡◌, IfOk, Some};
ghost use Rattle.nats_names.specs.Errors.{client_error_text, callback_error_text};
ghost use Rattle.nats_names.specs.declared.client_error.CallbackError.TheVariants as callback;

use crate::{NoMemory, ServerError, Text};
use std::alloc::Global;
use std::error::Error;
use std::fmt;

/// An error that the client found by itself. The crate's `ClientError`.
#[derive(Debug, Drop, PartialEq, Eq)]
pub enum ClientError {
    /// Any other error, in words.
    Other(Text),
    /// As many attempts to connect again as are allowed have failed.
    MaxReconnects,
    /// The callback that chooses the next server named one that is not in the pool.
    ServerNotInPool,
}

impl ClientError {
    /// An equal error. Own call of this library, for the Rust's `Clone`.
    pub fn copy(&self, alloc: Global) -> Result<ClientError, NoMemory>
        ensures { IfOk result (λ error. error ≡ self.now) }
    {
        Ok(match self {
            ClientError::Other(text) => ClientError::Other(text.copy(alloc)?),
            ClientError::MaxReconnects => ClientError::MaxReconnects,
            ClientError::ServerNotInPool => ClientError::ServerNotInPool,
        })
    }
}

impl fmt::Display for ClientError {
    ghost output = { λ error. Some (client_error_text error) };

    fn fmt<W: fmt::Write>(&self, f: &mut fmt::Formatter<W>) -> fmt::Result {
        match self {
            ClientError::Other(text) => write!(f, "nats: {text}"),
            ClientError::MaxReconnects => write!(f, "nats: max reconnects reached"),
            ClientError::ServerNotInPool => {
                write!(f, "nats: reconnect callback returned server not in pool")
            }
        }
    }
}

impl Error for ClientError {}

/// An error of either side, as callbacks are told it. The crate's `CallbackError`.
#[derive(Debug, Drop, PartialEq, Eq)]
pub enum CallbackError {
    /// The client found it.
    Client(ClientError),
    /// The server sent it.
    Server(ServerError),
}

impl CallbackError {
    /// An equal error. Own call of this library, for the Rust's `Clone`.
    pub fn copy(&self, alloc: Global) -> Result<CallbackError, NoMemory>
        ensures { IfOk result (λ error. error ≡ self.now) }
    {
        Ok(match self {
            CallbackError::Client(error) => CallbackError::Client(error.copy(alloc)?),
            CallbackError::Server(error) => CallbackError::Server(error.copy(alloc)?),
        })
    }
}

/// Prints the error that it holds.
impl fmt::Display for CallbackError {
    ghost output = { λ error. Some (callback_error_text error) };

    fn fmt<W: fmt::Write>(&self, f: &mut fmt::Formatter<W>) -> fmt::Result {
        match self {
            CallbackError::Client(error) => write!(f, "{error}"),
            CallbackError::Server(error) => write!(f, "{error}"),
        }
    }
}

impl Error for CallbackError {}

impl From<ClientError> for CallbackError {
    ghost from_gives = { λ client either. either ≡ callback.Client client };

    fn from(client: ClientError) -> CallbackError {
        CallbackError::Client(client)
    }
}

impl From<ServerError> for CallbackError {
    ghost from_gives = { λ server either. either ≡ callback.Server server };

    fn from(server: ServerError) -> CallbackError {
        CallbackError::Server(server)
    }
}
