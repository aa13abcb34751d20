//! Rows by their numbers, in pages.
#![tactic(auto)]

ghost use Rattle.std.specs.Prelude.{◌≡◌, ◌^◌, ◌<◌, ◌≤◌, [], ◌∷◌, suc, cond, length, Some, None, OnOk, OnErr};
ghost use Rattle.std.specs.Option.{option_copied, option_copied_mut};
ghost use Rattle.std.specs.Borrow.{sem};
ghost use Rattle.std.specs.Ordering.{nat_cmp};
ghost use Rattle.std.specs.BTreeMap.{is_at};
ghost use Rattle.nats_tables.specs.Rows.{look, ChangedAt};
ghost use Rattle.nats_tables.specs.Pages.{row_of, given_in, turned, left, NoneBare};

use crate::slots::Slots;
use nats_names::NoMemory;
use std::alloc::Global;
use std::collections::BTreeMap;
use std::marker::Model;
use std::mem;

/// How many successive numbers have their rows in one page.
const PAGE_ROWS: u64 = 64;

/// Rows by their numbers, from 1, `PAGE_ROWS` successive ones to a page. The newest page is at hand, and the older
/// ones are found by their places. An older page without a row is given back.
#[derive(Drop)]
pub struct Pages<T> {
    place: u64,
    newest: Slots<T>,
    older: BTreeMap<u64, Slots<T>>,
    alloc: Global,
}

impl<T> Model for Pages<T> {
    ghost use Rattle.std.specs.Prelude.{ℕ, List, Option, ◌∷◌};

    ghost Value = { List (ℕ × List (Option T)) };

    ghost use Rattle.nats_tables.specs.Pages.{Paged};

    ghost view = { λ p. (p.place, p.newest) ∷ p.older.entries };

    ghost invariant = { λ p. Paged p.place p.newest p.older.entries };
}

/// The row of a slot goes, if there is one, and so does its page if it was the last.
fn forget_older<T: Drop>(older: &mut BTreeMap<u64, Slots<T>>, place: u64, slot: usize)
    requires { NoneBare older.old.entries }
    ensures { (p : _)
        → look p older.new.entries
        ≡ cond (is_at (nat_cmp place) p) (left slot (look place older.old.entries)) (look p older.old.entries) }
{
    let Some(page) = older.get_mut(&place) else {
        return;
    };
    page.clear(slot);
    if page.is_bare() {
        let _ = older.remove(&place);
    }
}

impl<T> Pages<T> {
    ghost use Rattle.nats_tables.specs.Lent.{lends_row};

    /// No row. It takes no memory.
    pub fn new(alloc: Global) -> Pages<T>
        ensures { result ≡ (0, []) ∷ [] }
    {
        Pages {
            place: 0,
            newest: Slots::new(alloc),
            older: BTreeMap::new(alloc),
            alloc,
        }
    }

    /// The row of a number.
    pub fn get(&self, number: u64) -> Option<&T>
        ensures { option_copied result ≡ row_of self.now number }
    {
        let index = number.checked_sub(1)?;
        let slot = (index % PAGE_ROWS) as usize;
        if index / PAGE_ROWS == self.place {
            return self.newest.get(slot);
        }
        self.older.get(&(index / PAGE_ROWS))?.get(slot)
    }

    /// The row of a number, to change.
    pub fn get_mut(&mut self, number: u64) -> Option<&mut T>
        ensures* writes_back { sem 𝓛 (lends_row T.row self.entry number result) }
        ensures value { option_copied_mut result ≡ row_of self.old number }
    {
        let index = number.checked_sub(1)?;
        let slot = (index % PAGE_ROWS) as usize;
        if index / PAGE_ROWS == self.place {
            return self.newest.get_mut(slot);
        }
        self.older.get_mut(&(index / PAGE_ROWS))?.get_mut(slot)
    }
}

impl<T: Drop> Pages<T> {
    /// Begins a new page with these slots.
    fn turn(&mut self, page: Slots<T>) -> Result<(), NoMemory>
        requires fits { given_in self.old < 2 ^ 64 }
        requires few { length page ≤ PAGE_ROWS }
        ensures rows { OnOk result ((q : _) → row_of self.new q ≡ row_of (turned page self.old) q) }
        ensures given { OnOk result (given_in self.new ≡ given_in (turned page self.old)) }
        ensures err { OnErr result (self.new ≡ self.old) }
    {
        let full = mem::replace(&mut self.newest, page);
        if !full.is_bare() {
            if let Err(failed) = self.older.insert(self.place, full) {
                self.newest = failed.value.1;
                return Err(NoMemory);
            }
        }
        self.place += 1;
        Ok(())
    }

    /// Gives the next number to a row.
    ///
    /// # Errors
    ///
    /// `NoMemory` where memory is wanting; the pages are unchanged then.
    pub fn push(&mut self, row: T) -> Result<(), NoMemory>
        requires { given_in self.old < 2 ^ 64 }
        ensures ok { OnOk result (ChangedAt (suc (given_in self.old)) (Some row) (row_of self.old) (row_of self.new)) }
        ensures given { OnOk result (given_in self.new ≡ suc (given_in self.old)) }
        ensures err { OnErr result (self.new ≡ self.old) }
    {
        if self.newest.len() < PAGE_ROWS as usize {
            return self.newest.push(row);
        }
        let mut page = Slots::new(self.alloc);
        page.push(row)?;
        self.turn(page)
    }

    /// The row of a number goes, if there is one.
    pub fn forget(&mut self, number: u64)
        ensures rows { ChangedAt number None (row_of self.old) (row_of self.new) }
        ensures given { given_in self.new ≡ given_in self.old }
    {
        let Some(index) = number.checked_sub(1) else {
            return;
        };
        let slot = (index % PAGE_ROWS) as usize;
        if index / PAGE_ROWS == self.place {
            self.newest.clear(slot);
        } else {
            forget_older(&mut self.older, index / PAGE_ROWS, slot);
        }
    }
}
