//! Playing a whole list of turns, with what its links carry.
ghost use Rattle.std.specs.Prelude.{◌≡◌, false, IfOk};
ghost use Rattle.nats_history.specs.Transcripts.{Plays};
ghost use Rattle.nats_link_text.specs.Law.{ReadsSent};

use crate::laws::no_smuggling;
use crate::told::{tell_config, tell_turns};
use nats_session::{Config, RunError, Transcript, Turn, run};
use std::alloc::Global;

/// The transcript that `nats_session::run` answers, or its refusal. With it goes what the links carry: where the
/// settings have `skip_subject_validation` false, `read_link` of each link's row answers exactly the commands of the
/// link's part of the history, and that the text ends behind the last of them. It looks through the turns once more
/// than `run`. Own call.
///
/// # Errors
///
/// `RunError::OutOfTurn` with the place of the first turn that may not come where it stands, `RunError::NoMemory` for
/// want of memory.
pub fn checked_run(alloc: Global, config: Config, turns: &[Turn]) -> Result<Transcript, RunError>
    ensures plays { Plays config turns.now result }
    ensures carries { IfOk result (λ t. config.skip_subject_validation ≡ false → ReadsSent config turns.now t) }
{
    no_smuggling();
    tell_config(&config);
    tell_turns(turns);
    run(alloc, config, turns)
}
