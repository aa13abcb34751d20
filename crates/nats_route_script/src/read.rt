//! Reading a whole script.
ghost use Rattle.std.specs.Prelude.{◌≡◌, IfOk};
ghost use Rattle.nats_spelling.specs.Cut.{lines_of};
ghost use Rattle.nats_route_script.specs.Script.{turns_from, script_with, script};

use crate::lines::{max_of_line, turn_of_line};
use crate::script::RouteScript;
use nats_broker::{NoMemory, Seq};
use nats_spelling::cut::first_line;
use std::alloc::Global;

fn read_turns(alloc: Global, max_payload: u64, lines: &[u8]) -> Result<RouteScript, NoMemory>
    ensures { IfOk result (λ s. s ≡ script_with max_payload (turns_from 2 (lines_of lines.now))) }
{
    let mut turns = Seq::new(alloc);
    let mut k = 2;
    let mut rest = lines;
    while let Some((line, more)) = first_line(rest) {
        let Some(turn) = turn_of_line(alloc, line)? else {
            return Ok(RouteScript::Bad(k));
        };
        turns.push(alloc, turn)?;
        rest = more;
        k += 1;
    }
    Ok(RouteScript::Good { max_payload, turns })
}

/// What bytes say as a script of a broker.
///
/// # Errors
///
/// `NoMemory` for want of memory.
pub fn read_script(alloc: Global, bytes: &[u8]) -> Result<RouteScript, NoMemory>
    ensures { IfOk result (λ s. s ≡ script bytes.now) }
{
    let Some((line, lines)) = first_line(bytes) else {
        return Ok(RouteScript::Bad(1));
    };
    match max_of_line(line) {
        Some(max_payload) => read_turns(alloc, max_payload, lines),
        None => Ok(RouteScript::Bad(1)),
    }
}
