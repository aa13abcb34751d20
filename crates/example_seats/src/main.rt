//! Three sensors publish their readings at one session, each in a thread of its own and with a seat of its own. When
//! all are done the session is closed, and what its journal has under each seat is printed: what each sensor sent, in
//! its order, whatever the others did meanwhile.
#![tactic(auto)]

ghost use Rattle.std.specs.Prelude.{◌≡◌, IfSome, IsTrue};

use anyhow::Result;
use nats_seats::{
    Bytes, Call, Config, OutboundMessage, SeatEntry, Seated, Subject, Turn, usual_server,
};
use std::alloc::Global;
use std::process::ExitCode;
use std::sync::Wait;
use std::thread::Threads;
use std::{str, thread};

/// What each sensor reads.
const READINGS: [&str; 3] = ["20.5", "20.7", "20.6"];

/// The number of the last of the three seats.
const LAST: u64 = 3;

/// Publishes a reading; whether the call was played.
fn publish<R: Wait>(
    rt: &R,
    alloc: Global,
    seat: &mut Seated,
    subject: &'static str,
    reading: &'static str,
) -> bool
    ensures { IsTrue result → seat.new.0 ≡ seat.old.0 }
{
    let call = Call::Publish(OutboundMessage {
        subject: Subject::from_static(subject),
        reply: None,
        payload: Bytes::from_static(reading.as_bytes()),
        headers: None,
    });
    let played = seat.submit(rt, alloc, call);
    let is_played = played.is_ok();
    drop(played);
    is_played
}

/// Publishes the readings of a sensor on its subject; answers the seat where each publish was played.
fn report<R: Wait>(rt: &R, alloc: Global, mut seat: Seated, subject: &'static str) -> Option<Seated>
    ensures { IfSome result (λ done. done.0 ≡ seat.0) }
{
    'readings: for reading in READINGS {
        if !publish(rt, alloc, &mut seat, subject, reading) {
            return None;
        }
    }
    Some(seat)
}

/// Lets two sensors report at once, and joins their seats.
fn report_both<R: Threads + Wait + Sync>(
    rt: &R,
    alloc: Global,
    one: Seated,
    two: Seated,
) -> Option<Seated>
    requires { two.0 ≡ one.0 }
    ensures { IfSome result (λ done. done.0 ≡ one.0) }
{
    let (cellar, attic) = thread::join(
        rt,
        move ||
            ensures { IfSome result (λ done. done.0 ≡ one.0) }
        { report(rt, alloc, one, "temp.cellar") },
        move ||
            ensures { IfSome result (λ done. done.0 ≡ two.0) }
        { report(rt, alloc, two, "temp.attic") },
    );
    let mut cellar = cellar?;
    let attic = attic?;
    cellar.join(attic);
    Some(cellar)
}

/// Lets all three report at once, and joins their seats.
fn report_all<R: Threads + Wait + Sync>(
    rt: &R,
    alloc: Global,
    main: Seated,
    one: Seated,
    two: Seated,
) -> Option<Seated>
    requires { (one.0 ≡ main.0) × (two.0 ≡ main.0) }
    ensures { IfSome result (λ done. done.0 ≡ main.0) }
{
    let (hall, others) = thread::join(
        rt,
        move ||
            ensures { IfSome result (λ done. done.0 ≡ main.0) }
        { report(rt, alloc, main, "temp.hall") },
        move ||
            requires { two.0 ≡ one.0 }
            ensures { IfSome result (λ done. done.0 ≡ one.0) }
        { report_both(rt, alloc, one, two) },
    );
    let mut hall = hall?;
    let others = others?;
    hall.join(others);
    Some(hall)
}

/// Opens a session; its first seat.
fn open(alloc: Global) -> Option<Seated> {
    let config = Config::new(alloc).ok()?;
    Seated::open(alloc, config).ok()
}

/// Brings a link up; whether the turn was played.
fn bring_up<R: Wait>(rt: &R, alloc: Global, main: &mut Seated) -> bool {
    let played = main.play(rt, alloc, Turn::Up(usual_server(alloc)));
    let is_played = played.is_ok();
    drop(played);
    is_played
}

/// Opens a session whose link is up, lets the sensors report, and closes it.
fn run<R: Threads + Wait + Sync>(rt: &R, alloc: Global) -> Option<Vec<SeatEntry>> {
    let mut main = open(alloc)?;
    if !bring_up(rt, alloc, &mut main) {
        return None;
    }
    let Ok(one) = main.split(rt, alloc) else {
        return None;
    };
    let Ok(two) = main.split(rt, alloc) else {
        return None;
    };
    let main = report_all(rt, alloc, main, one, two)?;
    main.close(rt).ok()
}

/// What an entry's turn was, in one line.
fn print_entry<R: Print>(rt: &R, entry: &SeatEntry) -> Result<()> {
    match &entry.turn {
        Turn::Up(_) => println!(rt; "  a link came up")?,
        Turn::Do(Call::Publish(message)) => println!(rt;
            "  {} {}: {:?}",
            message.subject.as_str(),
            str::from_utf8(message.payload.as_slice()).unwrap_or("(bytes)"),
            entry.reply,
        )?,
        _ => println!(rt; "  another turn")?,
    }
    Ok(())
}

fn print_journal<R: Print>(rt: &R, journal: &[SeatEntry]) -> Result<()> {
    for seat in 1..=LAST {
        println!(rt; "seat {seat}")?;
        for entry in journal {
            if entry.seat == seat {
                print_entry(rt, entry)?;
            }
        }
    }
    Ok(())
}

fn main(rt: HostRuntime) -> ExitCode {
    let Some(journal) = run(&rt, rt.alloc()) else {
        let _ = eprintln!(rt; "the sensors did not come to their end");
        return ExitCode::FAILURE;
    };
    match print_journal(&rt, journal.as_slice()) {
        Ok(()) => ExitCode::SUCCESS,
        Err(failure) => {
            let _ = eprintln!(rt; "{failure:?}");
            ExitCode::FAILURE
        }
    }
}
