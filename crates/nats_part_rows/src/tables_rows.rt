//! A small table of counters, of which one that is stopped is over, and one that is done rests.
ghost use Rattle.std.specs.Prelude.{◌≡◌, ◌||◌, true, false};
ghost use Rattle.std.proofs.lemmas.Bool.{or_left, or_right};
ghost use Rattle.std.proofs.Common.{refl};

use nats_tables::{Change, NoMemory, Row, Table, TryChange};
use std::alloc::Global;

#[derive(Clone, Copy, PartialEq, Eq, Debug, Drop)]
struct Counter {
    count: u64,
    is_done: bool,
    is_stopped: bool,
}

impl Row for Counter {
    ghost forgotten = { record { count = 0; is_done = true; is_stopped = true } };

    ghost over = { λ c. c.is_stopped };

    fn is_over(&self) -> bool {
        self.is_stopped
    }

    ghost forgotten_is_over = { λ row over. refl };

    ghost rests = { λ c. c.is_stopped || c.is_done };

    fn is_resting(&self) -> bool {
        self.is_stopped || self.is_done
    }

    ghost over_rests = { λ row over. or_left row.is_stopped row.is_done over };
}

/// Has a counter rest, and answers whether it is stopped.
#[derive(Clone, Copy, Drop)]
struct Finish;

impl Change<Counter> for Finish {
    type Answer = bool;

    ghost changes = { λ _ c. record c { is_done = true } };

    ghost answers = { λ _ c. c.is_stopped };

    fn change(&self, row: &mut Counter) -> bool {
        row.is_done = true;
        row.is_stopped
    }

    fn refuse(&self) -> bool {
        true
    }

    ghost leaves_forgotten = { λ c over. refl };

    ghost leaves_resting = { λ c row rests. or_right row.is_stopped true refl };
}

#[derive(Clone, Copy, Drop)]
struct Stop;

impl Change<Counter> for Stop {
    type Answer = bool;

    ghost changes = { λ _ c. record c { is_stopped = true } };

    ghost answers = { λ _ c. c.is_stopped };

    fn change(&self, row: &mut Counter) -> bool {
        let was = row.is_stopped;
        row.is_stopped = true;
        was
    }

    fn refuse(&self) -> bool {
        true
    }

    ghost leaves_forgotten = { λ c over. refl };

    ghost leaves_resting = { λ c row rests. refl };
}

/// Sets a counter, and answers what it was.
#[derive(Clone, Copy, Drop)]
struct Set {
    count: u64,
}

impl TryChange<Counter> for Set {
    type Answer = u64;

    ghost changes = { λ s c. record c { count = s.count } };

    ghost answers = { λ _ c. c.count };

    fn try_change(self, row: &mut Counter) -> Result<u64, NoMemory> {
        let was = row.count;
        row.count = self.count;
        Ok(was)
    }

    fn refuse(self) -> u64 {
        0
    }

    ghost leaves_forgotten = { λ c over. refl };

    ghost leaves_resting = { λ c row rests. rests };
}

fn started() -> Counter
    ensures { result.is_stopped ≡ false }
{
    Counter {
        count: 7,
        is_done: false,
        is_stopped: false,
    }
}

fn count_of(table: &Table<Counter>, n: u64) -> Option<u64> {
    table.item(n).map(|row| row.count)
}

fn give_two(table: &mut Table<Counter>) -> Result<(), NoMemory> {
    table.give(started())?;
    table.give(started())
}

/// Whether of two counters the second is gone, and refuses each change.
fn is_second_gone(table: &mut Table<Counter>) -> Result<bool, NoMemory> {
    Ok(
        table.item(2).is_none()
            && table.item(1).is_some()
            && table.item(3).is_none()
            && table.try_alter(2, Set { count: 1 })? == 0
            && table.alter(2, &Stop),
    )
}

/// Two counters are given, one is set and stopped: its number stays given, and its row is gone.
fn a_row_that_is_over_is_forgotten(table: &mut Table<Counter>) -> Result<bool, NoMemory> {
    let mut holds = true;
    give_two(table)?;
    holds = holds && table.try_alter(2, Set { count: 9 })? == 7;
    holds = holds && count_of(table, 2) == Some(9);
    holds = holds && !table.alter(2, &Stop);
    holds = holds && is_second_gone(table)?;
    holds = holds && table.len() == 2;
    holds = holds && table.next_after(0) == Some(1);
    holds = holds && table.next_after(1).is_none();
    Ok(holds)
}

/// Three counters are given, and the second one rests: going through them passes over it, and it is still there.
fn a_row_that_rests_is_passed_over(table: &mut Table<Counter>) -> Result<bool, NoMemory> {
    let mut holds = true;
    table.give(started())?;
    table.give(started())?;
    table.give(started())?;
    holds = holds && !table.alter(2, &Finish);
    holds = holds && table.next_after(1) == Some(3);
    holds = holds && table.try_alter(2, Set { count: 9 })? == 7;
    holds = holds && table.item(2).map(|row| row.count) == Some(9);
    holds = holds && !table.alter(2, &Stop);
    holds = holds && table.item(2).is_none();
    holds = holds && table.next_after(3).is_none();
    Ok(holds)
}

fn give_many(table: &mut Table<Counter>, count: u64) -> Result<(), NoMemory> {
    for _ in 0..count {
        table.give(started())?;
    }
    Ok(())
}

fn stop_all(table: &mut Table<Counter>, first: u64, past: u64) {
    for number in first..past {
        let _ = table.alter(number, &Stop);
    }
}

/// How many of these numbers have a row.
fn rows_among(table: &Table<Counter>, first: u64, past: u64) -> u64 {
    let mut count = 0u64;
    for number in first..past {
        if table.item(number).is_some() {
            count = count.saturating_add(1);
        }
    }
    count
}

/// Sets the rows of numbers about the ends of pages, each to its number.
fn set_about_ends(table: &mut Table<Counter>) -> Result<(), NoMemory> {
    for number in [1, 2, 63, 64, 65, 66, 127, 128, 129, 130] {
        let _ = table.try_alter(number, Set { count: number })?;
    }
    Ok(())
}

/// 130 counters are given: those about the ends of pages are set, and each is found by its number, and no other is.
fn rows_of_several_pages_are_found(table: &mut Table<Counter>) -> Result<bool, NoMemory> {
    let mut holds = true;
    give_many(table, 130)?;
    holds = holds && table.len() == 130;
    set_about_ends(table)?;
    for (number, count) in [
        (0, None),
        (1, Some(1)),
        (62, Some(7)),
        (63, Some(63)),
        (64, Some(64)),
        (65, Some(65)),
        (67, Some(7)),
        (127, Some(127)),
        (128, Some(128)),
        (129, Some(129)),
        (130, Some(130)),
        (131, None),
    ] {
        holds = holds && count_of(table, number) == count;
    }
    Ok(holds)
}

/// 129 counters are given, and those of the second page stopped: the others stay, and so do they where another
/// page loses all but its last row.
fn a_page_without_a_row_is_given_back(table: &mut Table<Counter>) -> Result<bool, NoMemory> {
    let mut holds = true;
    give_many(table, 129)?;
    stop_all(table, 65, 129);
    holds = holds && rows_among(table, 1, 65) == 64;
    holds = holds && rows_among(table, 65, 129) == 0;
    holds = holds && count_of(table, 129) == Some(7);
    holds = holds && table.next_after(64) == Some(129);
    stop_all(table, 1, 64);
    holds = holds && rows_among(table, 1, 130) == 2;
    holds = holds && count_of(table, 64) == Some(7);
    holds = holds && table.alter(65, &Stop);
    holds = holds && !table.alter(64, &Stop);
    holds = holds && table.next_after(0) == Some(129);
    Ok(holds)
}

/// Counters are given and stopped one after another, over several pages, beside one that stays: each is found
/// while it is there.
fn rows_come_and_go(table: &mut Table<Counter>) -> Result<bool, NoMemory> {
    let mut holds = true;
    table.give(started())?;
    for number in 2..300u64 {
        table.give(started())?;
        holds = holds && rows_among(table, 1, number.saturating_add(1)) == 2;
        holds = holds && !table.alter(number, &Stop);
        holds = holds && table.item(number).is_none();
    }
    holds = holds && count_of(table, 1) == Some(7);
    holds = holds && table.len() == 299;
    Ok(holds)
}

/// Whether a new table does what is asked for by a number below 5.
fn plays(alloc: Global, which: u8) -> Result<bool, NoMemory> {
    let mut table = Table::new(alloc);
    match which {
        0 => a_row_that_is_over_is_forgotten(&mut table),
        1 => a_row_that_rests_is_passed_over(&mut table),
        2 => rows_of_several_pages_are_found(&mut table),
        3 => a_page_without_a_row_is_given_back(&mut table),
        _ => rows_come_and_go(&mut table),
    }
}

/// Whether tables keep, forget and find their rows.
pub fn hold(alloc: Global) -> Result<bool, NoMemory> {
    let mut holds = true;
    for which in 0..5u8 {
        holds = plays(alloc, which)? && holds;
    }
    Ok(holds)
}
