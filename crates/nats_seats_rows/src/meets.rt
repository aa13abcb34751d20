//! Two seats on two threads, each of which waits until it sees the other's entry.
ghost use Rattle.std.specs.Prelude.{◌≡◌, IfSome, IsTrue};

use crate::alone::publish;
use anyhow::{Result, anyhow};
use nats_seats::{Config, PlayError, Receipt, SeatEntry, Seated};
use std::alloc::Global;
use std::sync::Wait;
use std::thread;
use std::thread::Threads;

/// How often a seat looks for the other's entry before it gives up.
const LOOKS: u64 = 1_000_000;

/// Makes a publish; whether it was played.
fn publishes<R: Wait>(rt: &R, alloc: Global, seat: &mut Seated) -> bool
    ensures { IsTrue result → seat.new.0 ≡ seat.old.0 }
{
    let played = seat.submit(rt, alloc, publish());
    let is_played = played.is_ok();
    drop(played);
    is_played
}

/// Publishes, and looks until the journal has the other's entry too.
fn publish_and_look<R: Wait>(rt: &R, alloc: Global, mut seat: Seated) -> Option<Seated>
    ensures { IfSome result (λ done. done.0 ≡ seat.0) }
{
    if !publishes(rt, alloc, &mut seat) {
        return None;
    }
    'looks: for _ in 0..LOOKS {
        if seat.seen(rt) == 2 {
            return Some(seat);
        }
        thread::yield_now();
    }
    None
}

/// Lets two seats wait for each other, and joins them.
fn meet<R: Threads + Wait + Sync>(
    rt: &R,
    alloc: Global,
    main: Seated,
    other: Seated,
) -> Option<Seated>
    requires { other.0 ≡ main.0 }
    ensures { IfSome result (λ done. done.0 ≡ main.0) }
{
    let (one, two) = thread::join(
        rt,
        move ||
            ensures { IfSome result (λ done. done.0 ≡ main.0) }
        { publish_and_look(rt, alloc, main) },
        move ||
            ensures { IfSome result (λ done. done.0 ≡ other.0) }
        { publish_and_look(rt, alloc, other) },
    );
    let mut one = one?;
    let two = two?;
    one.join(two);
    Some(one)
}

/// The closed journal of two seats that saw each other's entry.
fn journal_of_two<R: Threads + Wait + Sync>(rt: &R, alloc: Global) -> Option<Vec<SeatEntry>> {
    let config = Config::new(alloc).ok()?;
    let Ok(mut main) = Seated::open(alloc, config) else {
        return None;
    };
    let Ok(other) = main.split(rt, alloc) else {
        return None;
    };
    let seat = meet(rt, alloc, main, other)?;
    seat.close(rt).ok()
}

/// Whether both seats have one entry each.
fn has_one_of_each(journal: &[SeatEntry]) -> bool {
    match journal {
        [one, two] => matches!((one.seat, two.seat), (1, 2) | (2, 1)),
        _ => false,
    }
}

/// Prints what two seats that waited for each other came to.
pub(crate) fn play_meets<R: Threads + Wait + Print + Sync>(rt: &R, alloc: Global) -> Result<()> {
    let Some(journal) = journal_of_two(rt, alloc) else {
        return Err(anyhow!("one did not see the other"));
    };
    println!(rt;
        "two seats see each other: one entry of each {}",
        has_one_of_each(journal.as_slice())
    )?;
    Ok(())
}
