//! Workers at a session of their own, up to its closed journal.
ghost use Rattle.std.specs.Prelude.{◌≡◌, ◌+◌, ◌^◌, ◌<◌, IfOk, OnOk};
ghost use Rattle.nats_desk.specs.Journal.{IsRightBySeat};
ghost use Rattle.nats_seats.specs.Seats.{IsSame};
ghost use Rattle.nats_seat_workers.specs.Publishing as words;
ghost use Rattle.nats_seat_workers.specs.Publishing.{EachAccepted, EachPublished, HasNoOthers};

use crate::error::{WorkError, refusal_by};
use crate::publishing::is_accepted;
use crate::workers::run_workers;
use nats_core::{Config, ServerInfo, Turn};
use nats_desk::{PlayError, SeatEntry};
use nats_seats::{Receipt, Seated};
use std::alloc::Global;
use std::sync::Wait;
use std::thread::Threads;

/// How large a payload the server of the link takes, in bytes.
const MAX_PAYLOAD: u64 = 1_048_576;

/// That a turn was played, or what stood against it.
fn once_played(played: &Result<Receipt, PlayError>) -> Result<(), WorkError>
    ensures { OnOk result (words.WasPlayed played.now) }
{
    match played {
        Ok(_) => Ok(()),
        Err(error) => Err(refusal_by(error)),
    }
}

/// Plays a turn with a seat.
fn play_one<R: Wait>(rt: &R, alloc: Global, first: &mut Seated, turn: Turn) -> Result<(), WorkError>
    ensures { OnOk result (words.PlaysOne first.old first.new turn) }
{
    let played = first.play(rt, alloc, turn);
    let told = once_played(&played);
    drop(played);
    told
}

/// A link comes up, whose server takes payloads of `MAX_PAYLOAD`.
fn bring_up<R: Wait>(rt: &R, alloc: Global, first: &mut Seated) -> Result<(), WorkError>
    requires { words.IsNew first.old }
    ensures { OnOk result (IsSame first.old first.new × words.IsUp first.new) }
{
    let mut info = ServerInfo::default(alloc);
    info.max_payload = MAX_PAYLOAD;
    play_one(rt, alloc, first, Turn::Up(info))
}

/// Opens a session, brings a link up, lets so many workers publish at once, `count` times each, and closes the session;
/// answers its journal. Worker i publishes on the subject `t.` with i in decimal the decimal texts of 1 to `count`,
/// with the seat of number i + 1. The journal has these publishes, and that the link came up, and nothing else. The
/// settings are to let as many calls wait as all workers make.
///
/// # Errors
///
/// `Refused` where a publish is refused, as where more calls wait than may. `NoMemory` for want of memory.
pub fn publish_by_seats<R: Threads + Wait + Sync>(
    rt: &R,
    alloc: Global,
    config: Config,
    workers: u64,
    count: u64,
) -> Result<Vec<SeatEntry>, WorkError>
    requires { workers + 1 < 2 ^ 64 }
    ensures published { IfOk result (λ journal. EachPublished workers count journal.items) }
    ensures accepted { IfOk result (λ journal. EachAccepted workers count journal.items) }
    ensures alone { IfOk result (λ journal. HasNoOthers workers journal.items) }
    ensures right { IfOk result (λ journal. IsRightBySeat config journal.items) }
{
    let mut first = Seated::open(alloc, config)?;
    bring_up(rt, alloc, &mut first)?;
    let done = run_workers(rt, alloc, first, 1, workers, count)?;
    match done.close(rt) {
        Ok(journal) => Ok(journal),
        Err(_) => Err(WorkError::Refused),
    }
}

/// Whether an entry is of this seat, and says that its call was accepted.
fn is_accepted_by(entry: &SeatEntry, number: u64) -> bool
    ensures { result ≡ words.is_accepted_by number entry.now }
{
    entry.seat == number && is_accepted(&entry.reply)
}

/// How many of a journal's entries are calls of the seat of this number that were accepted with no number, as a publish
/// is.
pub fn accepted_by(journal: &[SeatEntry], number: u64) -> u64
    ensures { result ≡ words.accepted_by number journal.now }
{
    let mut count = 0;
    for entry in journal {
        if is_accepted_by(entry, number) {
            count += 1;
        }
    }
    count
}
