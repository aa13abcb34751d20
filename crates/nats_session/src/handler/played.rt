//! How a step that was played is named.
ghost use Rattle.std.specs.Prelude.{◌≡◌};
ghost use Rattle.nats_session.specs.Handler.{played_name};

use nats_history::{Due, Message};

/// A `Due` whose message is in its box still, so that it costs little to hand on.
#[derive(Drop)]
pub enum Played {
    /// No step was due.
    Nothing,
    /// An operation was read.
    Read,
    /// A message was put into the queue of this subscription.
    Put(u64),
    /// A message met the full queue of this subscription.
    Dropped(u64, Box<Message>),
    /// A call was handled.
    Handled,
    /// The link ended.
    Ended,
}

impl Played {
    /// The name itself.
    pub fn due(self) -> Due
        ensures { result ≡ played_name self }
    {
        match self {
            Played::Nothing => Due::Nothing,
            Played::Read => Due::Read,
            Played::Put(sid) => Due::Put(sid),
            Played::Dropped(sid, message) => Due::Dropped(sid, Box::into_inner(message)),
            Played::Handled => Due::Handled,
            Played::Ended => Due::Ended,
        }
    }
}
