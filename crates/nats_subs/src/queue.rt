//! First in, first out.
ghost use Rattle.std.specs.Prelude.{◌≡◌, ◌==◌, [], ◌∷◌, ◌++◌, length, drop, OnOk, OnErr, IfErr};
ghost use Rattle.std.specs.Option.{option_copied};
ghost use Rattle.nats_history.specs.Queue.{first, last};

use nats_history::NoMemory;
use std::alloc::{AllocFailed, Global};
use std::collections::VecDeque;
use std::marker::Model;

/// A queue that contracts see as its items, oldest first.
#[derive(Drop)]
pub struct Queue<T> {
    items: VecDeque<T>,
}

impl<T> Model for Queue<T> {
    ghost use Rattle.std.specs.Prelude.{List};

    ghost Value = { List T };

    ghost view = { λ q. q.items.items };
}

impl<T> Queue<T> {
    /// An empty queue. It takes no memory.
    pub fn new(alloc: Global) -> Queue<T>
        ensures { result ≡ [] }
    {
        Queue {
            items: VecDeque::new(alloc),
        }
    }

    /// The number of items.
    pub fn len(&self) -> usize
        ensures { result ≡ length self.now }
    {
        self.items.len()
    }

    /// Whether there is none.
    pub fn is_empty(&self) -> bool
        ensures { result ≡ (length self.now == 0) }
    {
        self.items.is_empty()
    }

    /// The oldest item.
    pub fn front(&self) -> Option<&T>
        ensures { option_copied result ≡ first self.now }
    {
        self.items.front()
    }

    /// The youngest item.
    pub fn back(&self) -> Option<&T>
        ensures { option_copied result ≡ last self.now }
    {
        self.items.back()
    }

    /// Puts an item last. Where memory is wanting the item comes back and the queue is as it was.
    pub fn push(&mut self, item: T) -> Result<(), AllocFailed<T>>
        ensures ok { OnOk result (self.new ≡ self.old ++ item ∷ []) }
        ensures err { IfErr result (λ refused. (self.new ≡ self.old) × (refused.value ≡ item)) }
    {
        self.items.push_back(item)
    }

    /// Takes the oldest item out.
    pub fn pop(&mut self) -> Option<T>
        ensures item { result ≡ first self.old }
        ensures rest { self.new ≡ drop 1 self.old }
    {
        self.items.pop_front()
    }

    /// Takes the youngest item out.
    pub fn pop_back(&mut self) -> Option<T>
        ensures { (items : _) (item : T) → self.old ≡ items ++ item ∷ [] → (self.new ≡ items) × (result ≡ Some item) }
    {
        self.items.pop_back()
    }
}

impl<T: Drop> Queue<T> {
    /// Puts an item last. Where memory is wanting the item is let go and the queue is as it was. It hands no item
    /// back, so it costs less than `push` where an item is large.
    pub fn append(&mut self, item: T) -> Result<(), NoMemory>
        ensures ok { OnOk result (self.new ≡ self.old ++ item ∷ []) }
        ensures err { OnErr result (self.new ≡ self.old) }
    {
        self.items.reserve(1)?;
        self.items.push_back_reserved(item);
        Ok(())
    }

    /// Lets all items go. It takes no memory.
    pub fn clear(&mut self)
        ensures { self.new ≡ [] }
    {
        self.items.clear();
    }

    /// Lets the oldest item go.
    pub fn discard(&mut self)
        ensures { self.new ≡ drop 1 self.old }
    {
        let _ = self.pop();
    }
}
