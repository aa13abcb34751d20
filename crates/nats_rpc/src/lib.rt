//! Requests that are tried again, and services that answer, over a core that is lent: a caller asks for replies and
//! polls for them, and each attempt has a token of its own; a service answers the messages of a subscription by a
//! function. Neither has a clock, a lock or a thread: whoever polls says what the time is. Times are in milliseconds;
//! calls, tickets and attempts are numbered from 1.
#![tactic(auto)]

mod answering;
mod asked;
mod attempt;
mod caller;
mod outcome;
mod service;
mod terms;

pub use answering::{OpenError, Served};
pub use caller::{AskError, Caller};
pub use outcome::Outcome;
pub use service::Service;
pub use terms::NAME_LIMIT;
