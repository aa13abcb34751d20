//! One seat, at whose session no call may wait: a turn out of turn has no entry, a refused call has one, and the
//! session is closed once the seat that was split is joined.
ghost use Rattle.std.specs.Prelude.{◌≡◌, IfOk};

use anyhow::{Result, anyhow};
use nats_seats::{
    Bytes, Call, CallReply, Config, NoMemory, OutboundMessage, PlayError, Receipt, SeatEntry,
    Seated, StepReply, Subject, Turn,
};
use std::alloc::Global;
use std::sync::Wait;

/// A publish.
pub(crate) fn publish() -> Call {
    Call::Publish(OutboundMessage {
        subject: Subject::from_static("a"),
        reply: None,
        payload: Bytes::from_static(b"hi"),
        headers: None,
    })
}

/// A seat at a session at which no call may wait.
fn open_full(alloc: Global) -> Result<Seated, NoMemory> {
    let mut config = Config::new(alloc)?;
    config.client_capacity = 0;
    Seated::open(alloc, config)
}

fn is_tick_out_of_turn(played: &Result<Receipt, PlayError>) -> bool {
    matches!(played, Err(PlayError::OutOfTurn(Turn::Tick)))
}

/// Whether a tick for which no timer waits comes back.
fn tick_comes_back<R: Wait>(rt: &R, alloc: Global, seat: &mut Seated) -> bool {
    let played = seat.play(rt, alloc, Turn::Tick);
    let comes_back = is_tick_out_of_turn(&played);
    drop(played);
    comes_back
}

fn is_full(reply: &StepReply) -> bool {
    matches!(reply, StepReply::Call(CallReply::Full))
}

/// The place of a call that was refused as one too many; 0 of any other outcome.
fn refused_place(played: &Result<Receipt, PlayError>) -> u64 {
    match played {
        Ok(receipt) => {
            if is_full(&receipt.reply) {
                receipt.place
            } else {
                0
            }
        }
        Err(_) => 0,
    }
}

/// The place of a publish that is refused as one too many.
fn refused_publish<R: Wait>(rt: &R, alloc: Global, seat: &mut Seated) -> u64 {
    let played = seat.submit(rt, alloc, publish());
    let place = refused_place(&played);
    drop(played);
    place
}

fn is_refused_publish(entry: &SeatEntry) -> bool {
    matches!(entry.turn, Turn::Do(Call::Publish(_))) && is_full(&entry.reply)
}

/// Prints the seat and the kind of each entry.
fn print_journal<R: Print>(rt: &R, journal: &[SeatEntry]) -> Result<()> {
    for entry in journal {
        println!(rt;
            "entry of seat {}: a refused publish {}",
            entry.seat,
            is_refused_publish(entry)
        )?;
    }
    Ok(())
}

/// The journal of a seat's session once another seat of it is joined. The first try to close, before that, gives the
/// seat back.
fn close_twice<R: Wait>(rt: &R, seat: Seated, other: Seated) -> Option<Vec<SeatEntry>>
    requires { other.0 ≡ seat.0 }
{
    let Err(mut seat) = seat.close(rt) else {
        return None;
    };
    seat.join(other);
    seat.close(rt).ok()
}

/// Splits a seat off, and prints the numbers of both and the closed journal.
fn split_and_close<R: Wait + Print>(rt: &R, alloc: Global, mut seat: Seated) -> Result<()> {
    let Ok(other) = seat.split(rt, alloc) else {
        return Err(anyhow!("no seat"));
    };
    let (first, second) = (seat.number(), other.number());
    let Some(journal) = close_twice(rt, seat, other) else {
        return Err(anyhow!("closed too early, or not at all"));
    };
    println!(rt; "numbers: {first} {second}")?;
    print_journal(rt, journal.as_slice())
}

/// What one seat is told.
pub(crate) fn play_alone<R: Wait + Print>(rt: &R, alloc: Global) -> Result<()> {
    let mut seat = open_full(alloc)?;
    let back = tick_comes_back(rt, alloc, &mut seat);
    let before = seat.seen(rt);
    let place = refused_publish(rt, alloc, &mut seat);
    let after = seat.seen(rt);
    println!(rt;
        "a tick out of turn comes back {back}: entries {before}; a refused call: place {place}, entries {after}"
    )?;
    split_and_close(rt, alloc, seat)
}
