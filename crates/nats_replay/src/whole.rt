//! Reading a source to its end, and writing a text whole.
ghost use Rattle.std.specs.Prelude.{◌<◌, length, OnOk, OnErr};
ghost use Rattle.std.specs.Io.KnownBytes.{Appends};
ghost use Rattle.nats_replay.specs.Outside.{Rose, AppendsFront};
ghost use Rattle.nats_replay.specs.Whole.{WholeRead};

use crate::outside::{Sink, Source};
use nats_names::Failed;
use std::alloc::Global;

/// The greatest length of a script, in bytes. Own choice.
pub const SCRIPT_LIMIT: usize = 16_777_216;

/// How many bytes one read asks for.
const PIECE: usize = 65_536;

/// Why a source was not read to its end.
#[derive(Clone, Copy, Debug, PartialEq, Eq)]
pub enum ReadRefusal {
    /// The source failed.
    Fault,
    /// It gave more bytes than a script may have.
    TooLong,
    /// Want of memory.
    NoMemory,
}

/// Reads by pieces, each into the front of `piece`.
fn read_pieces<S: Source>(
    alloc: Global,
    source: &mut S,
    piece: &mut [u8],
) -> Result<Vec<u8>, ReadRefusal>
    requires { 0 < length piece.old }
    ensures { WholeRead (S.left source.old)
        (record { given = S.given source.old; ends = S.ends source.old; faults = S.faults source.old })
        (record { given = S.given source.new; ends = S.ends source.new; faults = S.faults source.new }) result }
{
    let mut bytes = Vec::new(alloc);
    loop {
        let Ok(count) = source.read(piece) else {
            return Err(ReadRefusal::Fault);
        };
        if count == 0 {
            return Ok(bytes);
        }
        if count > SCRIPT_LIMIT - bytes.len() {
            return Err(ReadRefusal::TooLong);
        }
        if bytes.extend_from_slice(&piece[..count]).is_err() {
            return Err(ReadRefusal::NoMemory);
        }
    }
}

/// All bytes that a source holds, at most as many as a script may have.
pub fn read_all<S: Source>(alloc: Global, source: &mut S) -> Result<Vec<u8>, ReadRefusal>
    ensures { WholeRead (S.left source.old)
        (record { given = S.given source.old; ends = S.ends source.old; faults = S.faults source.old })
        (record { given = S.given source.new; ends = S.ends source.new; faults = S.faults source.new }) result }
{
    let Ok(mut piece) = vec![in alloc; 0u8; PIECE] else {
        return Err(ReadRefusal::NoMemory);
    };
    read_pieces(alloc, source, piece.as_mut_slice())
}

/// Writes a text whole, or a first part of it where the sink fails.
pub fn write_all<K: Sink>(text: &[u8], sink: &mut K) -> Result<(), Failed>
    ensures whole { OnOk result (Appends (K.written sink.old) (K.written sink.new) text.now) }
    ensures front { OnErr result (AppendsFront (K.written sink.old) (K.written sink.new) text.now) }
    ensures cause { OnErr result (Rose (K.faults sink.old) (K.faults sink.new)) }
{
    let mut taken = 0;
    while taken < text.len() {
        taken += sink.write(&text[taken..])?;
    }
    Ok(())
}
