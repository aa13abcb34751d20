//! A table of numbered rows that forgets those that are over.
ghost use Rattle.std.specs.Prelude.{◌≡◌, ◌++◌, [], ◌∷◌, Bool, true, false, length, drop, suc, OnOk, OnErr, IfOk, Some, None};
ghost use Rattle.std.specs.Option.{option_copied};
ghost use Rattle.nats_tables.specs.Numbers.{item_of, at_number};
ghost use Rattle.nats_tables.specs.Rows.{row_at, kept_row, tidied, first_awake, Tidy, UpdatedIf, ChangedIf};
ghost use Rattle.nats_tables.specs.Pages.{row_of, given_in};

use crate::pages::Pages;
use nats_names::NoMemory;
use std::alloc::Global;
use std::collections::BTreeMap;
use std::marker::Model;
use std::ops::Bound;

/// A row of a table, which may rest and be over.
pub trait Row: Drop {
    /// What stands for a row that is forgotten.
    ghost forgotten: { Self };

    ghost over: { Self → Bool };

    /// Whether nothing can change it any more, so that a table may forget it.
    fn is_over(&self) -> bool
        ensures { result ≡ over self.now };

    /// Where a row can be over, what stands for a forgotten one is.
    ghost forgotten_is_over: { (row : Self) → over row ≡ true → over forgotten ≡ true };

    ghost rests: { Self → Bool };

    /// Whether what goes through all rows may pass over it.
    fn is_resting(&self) -> bool
        ensures { result ≡ rests self.now };

    /// One that is over rests.
    ghost over_rests: { (row : Self) → over row ≡ true → rests row ≡ true };
}

/// A change of a row that takes no memory, and that answers something.
pub trait Change<T: Row> {
    type Answer;

    ghost changes: { Self → T → T };

    ghost answers: { Self → T → Self.Answer };

    /// Changes the row, and answers what became of it.
    fn change(&self, row: &mut T) -> Self::Answer
        ensures row { row.new ≡ changes self.now row.old }
        ensures answer { result ≡ answers self.now row.old };

    /// The answer where there is no row to change.
    fn refuse(&self) -> Self::Answer
        ensures { result ≡ answers self.now T.forgotten };

    /// What is forgotten stays so.
    ghost leaves_forgotten: { (c : Self) → T.over T.forgotten ≡ true
        → tidied T.over T.forgotten (changes c T.forgotten) ≡ T.forgotten };

    /// One that rests does so for good.
    ghost leaves_resting: { (c : Self) (row : T) → T.rests row ≡ true → T.rests (changes c row) ≡ true };
}

/// A change of a row that may want memory, and that answers something.
pub trait TryChange<T: Row> {
    type Answer;

    ghost changes: { Self → T → T };

    ghost answers: { Self → T → Self.Answer };

    /// Changes the row, and answers what became of it.
    fn try_change(self, row: &mut T) -> Result<Self::Answer, NoMemory>
        ensures ok { OnOk result (row.new ≡ changes self row.old) }
        ensures answer { IfOk result (λ a. a ≡ answers self row.old) }
        ensures err { OnErr result (row.new ≡ row.old) };

    /// The answer where there is no row to change.
    fn refuse(self) -> Self::Answer
        ensures { result ≡ answers self T.forgotten };

    /// What is forgotten stays so.
    ghost leaves_forgotten: { (c : Self) → T.over T.forgotten ≡ true
        → tidied T.over T.forgotten (changes c T.forgotten) ≡ T.forgotten };

    /// One that rests does so for good.
    ghost leaves_resting: { (c : Self) (row : T) → T.rests row ≡ true → T.rests (changes c row) ≡ true };
}

/// Rows by their numbers, from 1. Contracts see all rows that got a number, in the order of their numbers; in
/// memory are those that are not over, in pages of `PAGE_ROWS` successive numbers, and once more the numbers of
/// those that do not rest. A page without a row is given back, but for the newest: so a page with one row that stays
/// takes the memory of a whole page at most. A call costs at most the logarithm of what is in memory, and one of the
/// newest page less. Our own; the crate has a `HashMap`.
#[derive(Drop)]
pub struct Table<T: Row> {
    given: u64,
    kept: Pages<T>,
    awake: BTreeMap<u64, ()>,
}

impl<T: Row> Model for Table<T> {
    ghost use Rattle.std.specs.Prelude.{◌≡◌, List};
    ghost use Rattle.nats_tables.specs.Rows.{rows_in, Keeps, Indexes};
    ghost use Rattle.nats_tables.specs.Pages.{row_of, given_in};

    ghost Value = { List T };

    ghost view = { λ t. rows_in T.forgotten t.given (row_of t.kept) };

    ghost invariant = { λ t. Keeps T.over T.forgotten t.given (row_of t.kept)
        × Indexes T.rests (row_of t.kept) t.awake.entries
        × (given_in t.kept ≡ t.given) };
}

#[inline(always)]
fn forget_if<T: Drop>(kept: &mut Pages<T>, number: u64, goes: bool)
    ensures rows { ChangedIf goes number None (row_of kept.old) (row_of kept.new) }
    ensures given { given_in kept.new ≡ given_in kept.old }
{
    if goes {
        kept.forget(number);
    }
}

#[inline(always)]
fn rest_if(awake: &mut BTreeMap<u64, ()>, number: u64, rests: bool)
    ensures { UpdatedIf rests number None awake.old.entries awake.new.entries }
{
    if rests {
        let _ = awake.remove(&number);
    }
}

fn wake_if(awake: &mut BTreeMap<u64, ()>, number: u64, wakes: bool) -> Result<(), NoMemory>
    ensures ok { OnOk result (UpdatedIf wakes number (Some tt) awake.old.entries awake.new.entries) }
    ensures err { OnErr result (awake.new.entries ≡ awake.old.entries) }
{
    if !wakes {
        return Ok(());
    }
    let Ok(_) = awake.insert(number, ()) else {
        return Err(NoMemory);
    };
    Ok(())
}

impl<T: Row> Table<T> {
    /// No row. It takes no memory.
    pub fn new(alloc: Global) -> Table<T>
        ensures { result ≡ [] }
    {
        Table {
            given: 0,
            kept: Pages::new(alloc),
            awake: BTreeMap::new(alloc),
        }
    }

    /// How many numbers were given.
    pub fn len(&self) -> u64
        ensures { result ≡ length self.now }
    {
        self.given
    }

    /// Gives the next number to a row.
    ///
    /// # Errors
    ///
    /// `NoMemory` where memory is wanting, or where all 2^64 - 1 numbers were given; the table is unchanged then.
    pub fn give(&mut self, row: T) -> Result<(), NoMemory>
        requires { T.over row ≡ false }
        ensures ok { OnOk result (self.new ≡ self.old ++ row ∷ []) }
        ensures err { OnErr result (self.new ≡ self.old) }
    {
        let Some(number) = self.given.checked_add(1) else {
            return Err(NoMemory);
        };
        let is_awake = !row.is_resting();
        wake_if(&mut self.awake, number, is_awake)?;
        let Ok(()) = self.kept.push(row) else {
            rest_if(&mut self.awake, number, is_awake);
            return Err(NoMemory);
        };
        self.given = number;
        Ok(())
    }

    /// The row of a number; `None` where that number was not given or its row is over.
    pub fn item(&self, number: u64) -> Option<&T>
        ensures { option_copied result ≡ kept_row T.over (item_of number self.now) }
    {
        self.kept.get(number)
    }

    /// The first number above this one whose row does not rest, so that those can be gone through in order; `None`
    /// where each row above it rests. It takes no memory. Our own; the crate goes through its `HashMap`, in no
    /// order.
    pub fn next_after(&self, number: u64) -> Option<u64>
        ensures { result ≡ first_awake T.rests (suc number) (drop number self.now) }
    {
        let above = (Bound::Excluded(number), Bound::Unbounded);
        match self.awake.range(above).next() {
            Some((next, _)) => Some(*next),
            None => None,
        }
    }

    /// Each row that is over is seen as forgotten. It does nothing.
    pub fn tidy(&self)
        ensures { Tidy T.over T.forgotten self.now }
    {
        let _given = self.given;
    }

    /// Changes the row of a number, if it was given, and forgets it where it is over then. It takes no memory.
    pub fn alter<C: Change<T>>(&mut self, number: u64, change: &C) -> C::Answer
        ensures changed { self.new
            ≡ at_number number (λ row. tidied T.over T.forgotten (C.changes change.now row)) self.old }
        ensures answer { result ≡ C.answers change.now (row_at T.forgotten number self.old) }
    {
        let Some(row) = self.kept.get_mut(number) else {
            return change.refuse();
        };
        let answer = change.change(row);
        let rests = row.is_resting();
        let over = row.is_over();
        rest_if(&mut self.awake, number, rests);
        forget_if(&mut self.kept, number, over);
        answer
    }

    /// Changes the row of a number where memory may be wanting, and forgets it where it is over then.
    ///
    /// # Errors
    ///
    /// `NoMemory` leaves the table unchanged.
    pub fn try_alter<C: TryChange<T>>(
        &mut self,
        number: u64,
        change: C,
    ) -> Result<C::Answer, NoMemory>
        ensures ok { OnOk result (self.new
            ≡ at_number number (λ row. tidied T.over T.forgotten (C.changes change row)) self.old) }
        ensures answer { IfOk result (λ a. a ≡ C.answers change (row_at T.forgotten number self.old)) }
        ensures err { OnErr result (self.new ≡ self.old) }
    {
        let Some(row) = self.kept.get_mut(number) else {
            return Ok(change.refuse());
        };
        let answer = change.try_change(row)?;
        let rests = row.is_resting();
        let over = row.is_over();
        rest_if(&mut self.awake, number, rests);
        forget_if(&mut self.kept, number, over);
        Ok(answer)
    }
}
