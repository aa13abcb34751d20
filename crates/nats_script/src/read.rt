//! Reading a whole script.
ghost use Rattle.std.specs.Prelude.{◌≡◌, IfOk};
ghost use Rattle.nats_spelling.specs.Cut.{lines_of};
ghost use Rattle.nats_script.specs.Script.{turns_from, script_with, script};

use crate::script::Script;
use crate::turn_lines::{config_of_line, turn_of_line};
use nats_history::Config;
use nats_names::{NoMemory, Seq};
use nats_spelling::cut::first_line;
use std::alloc::Global;

fn read_turns(alloc: Global, config: Config, lines: &[u8]) -> Result<Script, NoMemory>
    ensures { IfOk result (λ s. s ≡ script_with config (turns_from 2 (lines_of lines.now))) }
{
    let mut turns = Seq::new(alloc);
    let mut k = 2;
    let mut rest = lines;
    while let Some((line, more)) = first_line(rest) {
        let Some(turn) = turn_of_line(alloc, line)? else {
            return Ok(Script::Bad(k));
        };
        turns.push(alloc, turn)?;
        rest = more;
        k += 1;
    }
    Ok(Script::Good { config, turns })
}

/// What `bytes` say as a script. It is our own format: a line of settings, then a line for each turn.
pub fn read_script(alloc: Global, bytes: &[u8]) -> Result<Script, NoMemory>
    ensures { IfOk result (λ s. s ≡ script bytes.now) }
{
    let Some((line, lines)) = first_line(bytes) else {
        return Ok(Script::Bad(1));
    };
    match config_of_line(alloc, line)? {
        Some(config) => read_turns(alloc, config, lines),
        None => Ok(Script::Bad(1)),
    }
}
