//! What a take is answered with.
ghost use Rattle.std.specs.Prelude.{◌≡◌};
ghost use Rattle.nats_subs.specs.Boxes.{boxed_view};

use nats_history::{Message, TakeReply};
use std::marker::Model;

/// A `TakeReply` whose message is in its box still.
#[derive(Drop)]
pub enum BoxedReply {
    /// The oldest waiting message.
    Message(Box<Message>),
    /// None waits.
    Empty,
    /// None waits and none will.
    Ended,
}

/// What a take is answered with, a message in its box, so that it costs little to hand on. Contracts see the reply.
#[derive(Drop)]
pub struct Taken {
    boxed: BoxedReply,
}

impl Model for Taken {
    ghost use Rattle.nats_history.specs.declared.call.TakeReply.{TakeReply};
    ghost use Rattle.nats_subs.specs.Boxes.{boxed_view};

    ghost Value = { TakeReply };

    ghost view = { λ t. boxed_view t.boxed };
}

impl Taken {
    pub fn new(boxed: BoxedReply) -> Taken
        ensures { result ≡ boxed_view boxed }
    {
        Taken { boxed }
    }

    /// The reply, a message in its box.
    pub fn boxed(self) -> BoxedReply
        ensures { boxed_view result ≡ self }
    {
        self.boxed
    }

    /// The reply itself.
    pub fn reply(self) -> TakeReply
        ensures { result ≡ self }
    {
        match self.boxed {
            BoxedReply::Message(message) => TakeReply::Message(Box::into_inner(message)),
            BoxedReply::Empty => TakeReply::Empty,
            BoxedReply::Ended => TakeReply::Ended,
        }
    }
}
