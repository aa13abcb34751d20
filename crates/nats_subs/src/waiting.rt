//! The messages that wait to be taken.
ghost use Rattle.std.specs.Prelude.{◌≡◌, [], ◌∷◌, ◌++◌, length, drop, OnOk, OnErr, option_map};
ghost use Rattle.std.specs.Option.{option_copied};
ghost use Rattle.nats_history.specs.Queue.{first, last};
ghost use Rattle.nats_subs.specs.Boxes.{inner};

use crate::queue::Queue;
use nats_history::{Message, NoMemory};
use std::alloc::Global;
use std::marker::Model;

/// Messages, first in, first out, each of which stays in its box from its coming to its leaving. Contracts see what
/// is in the boxes, oldest first.
#[derive(Drop)]
pub struct Waiting {
    boxes: Queue<Box<Message>>,
}

impl Model for Waiting {
    ghost use Rattle.std.specs.Prelude.{List, map};
    ghost use Rattle.nats_message.specs.declared.message.Message.{Message};
    ghost use Rattle.nats_subs.specs.Boxes.{inner};

    ghost Value = { List Message };

    ghost view = { λ w. map inner w.boxes };
}

impl Waiting {
    /// None waits. It takes no memory.
    pub fn new(alloc: Global) -> Waiting
        ensures { result ≡ [] }
    {
        Waiting {
            boxes: Queue::new(alloc),
        }
    }

    /// How many wait.
    pub fn len(&self) -> usize
        ensures { result ≡ length self.now }
    {
        self.boxes.len()
    }

    /// The oldest one.
    pub fn first(&self) -> Option<&Message>
        ensures { option_copied result ≡ first self.now }
    {
        match self.boxes.front() {
            Some(message) => Some(message),
            None => None,
        }
    }

    /// The youngest one.
    pub fn last(&self) -> Option<&Message>
        ensures { option_copied result ≡ last self.now }
    {
        match self.boxes.back() {
            Some(message) => Some(message),
            None => None,
        }
    }

    /// Puts a message last. Where memory is wanting it is let go, and those that wait are as they were.
    pub fn push(&mut self, message: Box<Message>) -> Result<(), NoMemory>
        ensures ok { OnOk result (self.new ≡ self.old ++ message.value ∷ []) }
        ensures err { OnErr result (self.new ≡ self.old) }
    {
        self.boxes.append(message)
    }

    /// Takes the oldest one out.
    pub fn pop(&mut self) -> Option<Box<Message>>
        ensures message { option_map inner result ≡ first self.old }
        ensures rest { self.new ≡ drop 1 self.old }
    {
        self.boxes.pop()
    }

    /// Lets all go. It takes no memory.
    pub fn clear(&mut self)
        ensures { self.new ≡ [] }
    {
        self.boxes.clear();
    }
}
