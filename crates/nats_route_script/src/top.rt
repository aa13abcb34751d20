//! The one call: from the bytes of a script to what is printed.
ghost use Rattle.std.specs.Prelude.{◌≡◌, IfOk};
ghost use Rattle.nats_route_script.specs.Output.{loopback, output_of_turns, output};
ghost use Rattle.nats_route_script.specs.Printed.{printed};

use crate::print::{out_of_turn_text, push_rows, unreadable_text};
use crate::read::read_script;
use crate::script::RouteScript;
use nats_broker::{BrokerInfo, BrokerTurn, NoMemory, PeerRow, RouteError, Seq, Token, route};
use std::alloc::Global;

/// How the bytes of a script end. Own type.
#[derive(Clone, Copy, Debug, PartialEq, Eq)]
pub enum RouteEnding {
    /// Its turns were played, and each peer has its two lines.
    Rows,
    /// A line cannot be read.
    Unreadable,
    /// A turn may not come where it stands.
    OutOfTurn,
}

/// What is printed of a script. Own type.
#[derive(Drop)]
pub struct RouteOutput {
    /// How it ends.
    pub ending: RouteEnding,
    /// What is printed.
    pub text: Seq<u8>,
}

fn output(ending: RouteEnding, text: Vec<u8>) -> RouteOutput
    ensures { result ≡ record { ending = ending; text = text.items } }
{
    RouteOutput {
        ending,
        text: Seq::from_vec(text),
    }
}

fn loopback(max_payload: u64) -> BrokerInfo
    ensures { result ≡ loopback max_payload }
{
    match Token::new("LOOPBACK") {
        Some(server_id) => BrokerInfo {
            server_id,
            max_payload,
        },
        None => unreachable!(),
    }
}

fn rows_text(alloc: Global, rows: &[PeerRow]) -> Result<Vec<u8>, NoMemory>
    ensures { IfOk result (λ text. text.items ≡ printed rows.now) }
{
    let mut text = Vec::new(alloc);
    push_rows(&mut text, rows)?;
    Ok(text)
}

fn play_turns(
    alloc: Global,
    max_payload: u64,
    turns: &[BrokerTurn],
) -> Result<RouteOutput, NoMemory>
    ensures { IfOk result (λ o. o ≡ output_of_turns (loopback max_payload) turns.now) }
{
    match route(alloc, loopback(max_payload), turns) {
        Ok(rows) => Ok(output(RouteEnding::Rows, rows_text(alloc, rows.as_slice())?)),
        Err(RouteError::OutOfTurn { place }) => Ok(output(
            RouteEnding::OutOfTurn,
            out_of_turn_text(alloc, place)?,
        )),
        Err(RouteError::NoMemory) => Err(NoMemory),
    }
}

/// What the bytes of a script of a broker print, and how they end. Its first line is `max N`, the most bytes of a
/// message, in decimal; each other line is a turn: `join`, `feed p B` for bytes of peer p, or `leave p`, where B spells
/// bytes as in the scripts of a session: a byte from `!` to `}` but `%` stands for itself, another is `%` and two
/// hexadecimal digits in upper case, and no bytes are `%` alone. The turns are played on a new broker named `LOOPBACK`,
/// and two lines are printed for each peer: `peer p WORD`, its word `up`, `left`, `bad` or `size`, and `text B`, what
/// it was told behind the broker's INFO. Where a line has no such form `script line k` names the first, from 1, and
/// where a turn may not come where it stands `turn k out of turn` names the first, from 1. Own call.
///
/// # Errors
///
/// `NoMemory` for want of memory.
pub fn route_output(alloc: Global, bytes: &[u8]) -> Result<RouteOutput, NoMemory>
    ensures { IfOk result (λ o. o ≡ output bytes.now) }
{
    match read_script(alloc, bytes)? {
        RouteScript::Good { max_payload, turns } => play_turns(
            alloc,
            max_payload,
            turns.as_slice(),
        ),
        RouteScript::Bad(line) => Ok(output(
            RouteEnding::Unreadable,
            unreadable_text(alloc, line)?,
        )),
    }
}
