//! The lines of a script: the most bytes of a message, and the turns.
ghost use Rattle.std.specs.Prelude.{◌≡◌, ◌∷◌, [], None, IfOk, MatchOption, option_and_then};
ghost use Rattle.std.specs.Option.{option_copied, option_map};
ghost use Rattle.nats_spelling.specs.Spelling.{field_number};
ghost use Rattle.nats_spelling.specs.Cut.{fields_of, only, parts_behind};
ghost use Rattle.nats_broker.specs.declared.turn.BrokerTurn.TheVariants.{Leave};
ghost use Rattle.nats_route_script.specs.Script.{max_of_line, feed_with, feed_of, leave_of, turn_of_line};

use nats_broker::{BrokerTurn, Bytes, NoMemory};
use nats_spelling::cut::{cut, only};
use nats_spelling::{bytes_field, field_number};
use std::alloc::Global;

fn number_in(fields: Option<&[u8]>) -> Option<u64>
    ensures { result ≡ option_and_then field_number (only (parts_behind 32 (option_copied fields.entry))) }
{
    field_number(only(fields)?)
}

/// The number of a line `max N`; `None` where the line has another form.
pub fn max_of_line(line: &[u8]) -> Option<u64>
    ensures { result ≡ max_of_line line.now }
{
    let (word, fields) = cut(line, b' ');
    if word != b"max".as_slice() {
        return None;
    }
    number_in(fields)
}

/// The two fields that are left, where they are two.
fn two(fields: Option<&[u8]>) -> Option<(&[u8], &[u8])>
    ensures { MatchOption result (feed_of (parts_behind 32 (option_copied fields.entry)) ≡ None)
        (λ f. parts_behind 32 (option_copied fields.entry) ≡ f.0.now ∷ f.1.now ∷ []) }
{
    let (first, rest) = cut(fields?, b' ');
    let second = only(rest)?;
    Some((first, second))
}

fn feed_with(p: Option<u64>, bytes: Option<Bytes>) -> Option<BrokerTurn>
    ensures { result ≡ feed_with p bytes }
{
    Some(BrokerTurn::Feed(p?, bytes?))
}

fn feed_of(alloc: Global, fields: Option<&[u8]>) -> Result<Option<BrokerTurn>, NoMemory>
    ensures { IfOk result (λ t. t ≡ feed_of (parts_behind 32 (option_copied fields.entry))) }
{
    let Some((p, bytes)) = two(fields) else {
        return Ok(None);
    };
    Ok(feed_with(field_number(p), bytes_field(alloc, bytes)?))
}

fn leave_of(fields: Option<&[u8]>) -> Option<BrokerTurn>
    ensures { result ≡ leave_of (parts_behind 32 (option_copied fields.entry)) }
{
    number_in(fields).map(BrokerTurn::Leave)
}

/// The turn that a line `join`, `feed p B` or `leave p` gives; `None` where the line has another form.
///
/// # Errors
///
/// `NoMemory` for want of memory.
pub fn turn_of_line(alloc: Global, line: &[u8]) -> Result<Option<BrokerTurn>, NoMemory>
    ensures { IfOk result (λ t. t ≡ turn_of_line line.now) }
{
    if line == b"join".as_slice() {
        return Ok(Some(BrokerTurn::Join));
    }
    let (word, fields) = cut(line, b' ');
    if word == b"feed".as_slice() {
        return feed_of(alloc, fields);
    }
    if word == b"leave".as_slice() {
        return Ok(leave_of(fields));
    }
    Ok(None)
}
