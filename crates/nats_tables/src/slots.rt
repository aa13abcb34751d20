//! A page of a table: slots in a row, each with a row or none.
#![tactic(auto)]

ghost use Rattle.std.specs.Prelude.{◌≡◌, ◌++◌, [], ◌∷◌, ◌==◌, ◌^◌, ◌<◌, length, is_some, count_by, slice_index_or, slice_set, Some, None, OnOk, OnErr};
ghost use Rattle.std.specs.Option.{option_copied, option_copied_mut};
ghost use Rattle.std.specs.Borrow.{sem};

use nats_names::NoMemory;
use std::alloc::Global;
use std::marker::Model;

/// Slots in a row, and how many of them have a row.
#[derive(Drop)]
pub struct Slots<T> {
    slots: Vec<Option<T>>,
    filled: usize,
}

impl<T> Model for Slots<T> {
    ghost use Rattle.std.specs.Prelude.{◌≡◌, List, Option, is_some, count_by};

    ghost Value = { List (Option T) };

    ghost view = { λ s. s.slots.items };

    ghost invariant = { λ s. s.filled ≡ count_by is_some s.slots.items };
}

impl<T> Slots<T> {
    ghost use Rattle.nats_tables.specs.Slots.{lends_slot};

    /// No slot. It takes no memory.
    pub fn new(alloc: Global) -> Slots<T>
        ensures { result ≡ [] }
    {
        Slots {
            slots: Vec::new(alloc),
            filled: 0,
        }
    }

    /// How many slots there are.
    pub fn len(&self) -> usize
        ensures { result ≡ length self.now }
    {
        self.slots.len()
    }

    /// Whether no slot has a row.
    pub fn is_bare(&self) -> bool
        ensures { result ≡ (count_by is_some self.now == 0) }
    {
        self.filled == 0
    }

    /// The row of a slot.
    pub fn get(&self, slot: usize) -> Option<&T>
        ensures { option_copied result ≡ slice_index_or self.now slot None }
    {
        match self.slots.get(slot) {
            Some(Some(row)) => Some(row),
            _ => None,
        }
    }

    /// The row of a slot, to change.
    pub fn get_mut(&mut self, slot: usize) -> Option<&mut T>
        ensures* writes_back { sem 𝓛 (lends_slot T.row self.entry slot result) }
        ensures value { option_copied_mut result ≡ slice_index_or self.old slot None }
    {
        match self.slots.get_mut(slot) {
            Some(Some(row)) => Some(row),
            _ => None,
        }
    }
}

impl<T: Drop> Slots<T> {
    /// One more slot, with a row.
    ///
    /// # Errors
    ///
    /// `NoMemory` where memory is wanting; the slots are unchanged then.
    pub fn push(&mut self, row: T) -> Result<(), NoMemory>
        requires { length self.old < 2 ^ 63 }
        ensures ok { OnOk result (self.new ≡ self.old ++ Some row ∷ []) }
        ensures err { OnErr result (self.new ≡ self.old) }
    {
        let Ok(()) = self.slots.push(Some(row)) else {
            return Err(NoMemory);
        };
        self.filled += 1;
        Ok(())
    }

    /// The row of a slot goes, if there is one.
    pub fn clear(&mut self, slot: usize)
        ensures { self.new ≡ slice_set self.old slot None }
    {
        let Some(place) = self.slots.get_mut(slot) else {
            return;
        };
        if place.take().is_some() {
            self.filled -= 1;
        }
    }
}
