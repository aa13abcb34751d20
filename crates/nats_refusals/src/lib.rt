//! Why a call of a client came to nothing, and what each error says of that: one table of what replies come to, one of
//! the kinds of each error, and one of the sources of all. Sizes are in bytes.
#![tactic(auto)]

mod closing;
mod errors;
mod kinds;
mod refusal;

pub use closing::{DrainError, ReconnectError, UnsubscribeError};
pub use errors::{closing_cause, flush_error, publish_error, request_error, subscribe_error};
pub use kinds::{
    FlushError, FlushErrorKind, RequestError, RequestErrorKind, ServerPoolError,
    ServerPoolErrorKind,
};
pub use nats_names::{Cause, Error};
pub use nats_system::{PublishError, PublishErrorKind, SubscribeError, SubscribeErrorKind};
pub use refusal::{Refusal, answer, asked, flushed};
