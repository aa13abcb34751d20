//! The turns of a journal by seats.
ghost use Rattle.std.specs.Prelude.{◌≡◌, ◌<◌, IfOk, None};
ghost use Rattle.nats_history.specs.Schedule.{out_of_turn};
ghost use Rattle.nats_seat_text.specs.Report as words;

use nats_core::{Config, NoMemory, Turn};
use nats_desk::SeatEntry;
use nats_worker_text::taken_with_writes;
use std::alloc::Global;

fn turn_of(entry: SeatEntry) -> Turn
    ensures { result ≡ entry.turn }
{
    let SeatEntry {
        seat: _,
        turn,
        reply: _,
    } = entry;
    turn
}

/// The turns of a journal, in order.
fn turns_in(alloc: Global, journal: Vec<SeatEntry>) -> Result<Vec<Turn>, NoMemory>
    ensures { IfOk result (λ turns. turns.items ≡ words.turns_in journal.items) }
{
    let mut turns = Vec::new(alloc);
    'entries: for entry in journal {
        turns.push(turn_of(entry))?;
    }
    Ok(turns)
}

/// How many bytes link 1 takes of a right journal's turns, and of so many whole writes behind them where a link is up
/// there.
pub(crate) fn text_length(
    alloc: Global,
    config: Config,
    journal: Vec<SeatEntry>,
    count: u64,
) -> Result<u64, NoMemory>
    requires valid { out_of_turn config (words.turns_in journal.items) ≡ None }
    requires some { 0 < count }
    ensures { IfOk result (λ n. n ≡ words.text_length config count journal.items) }
{
    let turns = turns_in(alloc, journal)?;
    taken_with_writes(alloc, config, turns, count)
}
