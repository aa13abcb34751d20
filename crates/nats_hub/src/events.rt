//! The events that wait until they are handed out.
ghost use Rattle.std.specs.Prelude.{◌≡◌, [], IfOk, drop};
ghost use Rattle.nats_history.specs.Queue.{first};
ghost use Rattle.nats_hub.specs.Waiting.{events_with};

use nats_core::{Event, NoMemory};
use std::alloc::Global;
use std::collections::VecDeque;
use std::marker::Model;

/// How many events wait at most; later ones are dropped.
pub const MAX_EVENTS: usize = 128;

/// Events that wait, oldest first, in memory that was taken once for all. Contracts see them as their list.
#[derive(Drop)]
pub(crate) struct Events {
    waiting: VecDeque<Event>,
}

impl Model for Events {
    ghost use Rattle.std.specs.Prelude.{◌≡◌, ◌≤◌, List, length};
    ghost use Rattle.std.specs.VecDeque.{deque_len, deque_capacity};
    ghost use Rattle.nats_names.specs.declared.event.Event.{Event};

    ghost Value = { List Event };

    ghost view = { λ e. e.waiting.items };

    ghost invariant = { λ e. (128 ≤ deque_capacity e.waiting) × (deque_len e.waiting ≤ 128) };
}

impl Events {
    /// None waits.
    pub(crate) fn new(alloc: Global) -> Result<Events, NoMemory>
        ensures { IfOk result (λ events. events ≡ []) }
    {
        Ok(Events {
            waiting: VecDeque::with_capacity(alloc, MAX_EVENTS)?,
        })
    }

    /// One more waits behind the others; it is dropped where as many wait as may.
    pub(crate) fn put(&mut self, event: Event)
        ensures { self.new ≡ events_with self.old event }
    {
        if self.waiting.len() < MAX_EVENTS {
            self.waiting.push_back_reserved(event);
        }
    }

    /// Hands out the oldest.
    pub(crate) fn take(&mut self) -> Option<Event>
        ensures event { result ≡ first self.old }
        ensures rest { self.new ≡ drop 1 self.old }
    {
        self.waiting.pop_front()
    }
}
