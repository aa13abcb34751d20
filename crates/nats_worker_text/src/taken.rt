//! How many bytes the link takes of turns, and of whole writes behind them.
ghost use Rattle.std.specs.Prelude.{◌≡◌, ◌<◌, ◌++◌, IfOk, OnOk, None};
ghost use Rattle.nats_history.specs.Schedule.{out_of_turn};
ghost use Rattle.nats_worker_text.specs.Taken as words;

use nats_session::{Config, LinkRow, NoMemory, RunError, Turn, run};
use std::alloc::Global;

/// So many turns more, at each of which the link takes all that waits.
fn push_writes(turns: &mut Vec<Turn>, count: u64) -> Result<(), NoMemory>
    ensures { OnOk result (turns.new.items ≡ turns.old.items ++ words.writes count) }
{
    let mut done = 0;
    'writes: while done < count {
        turns.push(Turn::Write(u64::MAX))?;
        done += 1;
    }
    Ok(())
}

/// How many bytes link 1 took; 0 where there is none.
fn first_taken(links: &[LinkRow]) -> u64
    ensures { result ≡ words.first_taken links.now }
{
    match links {
        [row, ..] => row.taken.as_slice().len() as u64,
        [] => 0,
    }
}

/// How many bytes link 1 takes as the turns are played; 0 where one of them may not come where it stands.
fn bytes_taken(alloc: Global, config: Config, turns: &[Turn]) -> Result<u64, NoMemory>
    ensures { IfOk result (λ n. n ≡ words.bytes_taken config turns.now) }
{
    match run(alloc, config, turns) {
        Ok(transcript) => Ok(first_taken(transcript.links.as_slice())),
        Err(RunError::OutOfTurn { place: _ }) => Ok(0),
        Err(RunError::NoMemory) => Err(NoMemory),
    }
}

/// How many bytes link 1 takes as the turns are played, which each may come where they stand, and so many whole writes
/// behind them where a link is up there; 0 where one of these may not come, as where the link goes down meanwhile, and
/// where there is no link. Own call.
///
/// # Errors
///
/// `NoMemory` for want of memory.
pub fn taken_with_writes(
    alloc: Global,
    config: Config,
    mut turns: Vec<Turn>,
    count: u64,
) -> Result<u64, NoMemory>
    requires valid { out_of_turn config turns.items ≡ None }
    requires some { 0 < count }
    ensures { IfOk result (λ n. n ≡ words.bytes_taken config (words.written_out config count turns.items)) }
{
    let before = turns.len();
    let again = config.copy(alloc)?;
    push_writes(&mut turns, count)?;
    match run(alloc, config, turns.as_slice()) {
        Ok(transcript) => Ok(first_taken(transcript.links.as_slice())),
        // The turn behind the turns is out of turn exactly where no link is up there.
        Err(RunError::OutOfTurn { place }) => {
            if place == before as u64 + 1 {
                bytes_taken(alloc, again, &turns.as_slice()[..before])
            } else {
                Ok(0)
            }
        }
        Err(RunError::NoMemory) => Err(NoMemory),
    }
}
