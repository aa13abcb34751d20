//! Names, events and small values of the NATS client that every crate above stands on.
#![tactic(auto)]

mod addr_error;
mod auth_error;
mod cause;
mod client_error;
mod error;
mod event;
mod failed;
mod seq;
mod server_error;
mod state;
mod status;
mod subject;
mod subject_error;
mod text;
mod token;

pub use addr_error::AddrError;
pub use auth_error::AuthError;
pub use bytes::Bytes;
pub use cause::{Cause, OpWord};
pub use client_error::{CallbackError, ClientError};
pub use error::Error;
pub use event::Event;
pub use failed::{Failed, NoMemory};
pub use seq::Seq;
pub use server_error::ServerError;
pub use state::State;
pub use status::{InvalidStatusCode, StatusCode};
pub use subject::{Subject, ToSubject};
pub use subject_error::SubjectError;
pub use text::Text;
pub use token::Token;
