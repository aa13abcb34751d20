//! One read of a link, or one write to it.
ghost use Rattle.std.specs.Prelude.{◌≡◌, ◌≢◌, ◌<◌, length, IfOk, false};
ghost use Rattle.std.specs.List.{concat};
ghost use Rattle.nats_core.specs.Links.{Gives, GivesNone, TakesSome};
ghost use Rattle.nats_core.specs.declared.answers.ReadOnce.TheVariants as reads;
ghost use Rattle.nats_core.specs.declared.answers.WriteOnce.TheVariants as writes;
ghost use Rattle.nats_hub.specs.Tallying.{is_do};
ghost use Rattle.nats_links.specs.Living.{ReadsOn};
ghost use Rattle.nats_outside.specs.Counts.{Rose, RoseBy};

use nats_core::{Bytes, NoMemory, ReadOnce, StepError, Turn, WriteOnce};
use nats_hub::{Hub, Tallies};
use nats_outside::{Failed, LinkRead, LinkWrite};
use std::alloc::Global;
use std::sync::Wait;

/// One read: how many bytes the link gave, or 0 where it ended or failed.
fn read_some<L: LinkRead>(from: &mut L, buf: &mut [u8]) -> usize
    requires { 0 < length buf.old }
    ensures { Gives result buf.new (L.read_told from.old) (L.read_told from.new) }
{
    match from.read(buf) {
        Ok(count) => count,
        Err(Failed) => 0,
    }
}

/// One write of pieces: how many of their bytes the link took; none where it failed.
fn write_some<L: LinkWrite>(out: &mut L, pieces: &[Bytes]) -> Option<usize>
    requires { 0 < length (concat pieces.now) }
    ensures { TakesSome result (concat pieces.now) (L.write_told out.old) (L.write_told out.new) }
{
    match out.write_pieces(pieces) {
        Ok(count) => Some(count),
        Err(Failed) => None,
    }
}

/// Plays a turn on a link. Whether that link was the one that is up.
pub(crate) fn play_on<G: Tallies, R: Wait>(
    rt: &R,
    alloc: Global,
    hub: &Hub<G>,
    link: u64,
    turn: Turn,
) -> Result<bool, NoMemory>
    requires { is_do turn ≡ false }
{
    match hub.play_on(rt, alloc, link, turn) {
        Ok(_) => Ok(true),
        Err(StepError::OutOfTurn | StepError::LinkGone { .. }) => Ok(false),
        Err(StepError::NoMemory) => Err(NoMemory),
    }
}

/// Plays the loss of a link that was read.
fn lose_read<G: Tallies, R: Wait>(
    rt: &R,
    alloc: Global,
    hub: &Hub<G>,
    link: u64,
) -> Result<ReadOnce, NoMemory>
    ensures { IfOk result (λ r. r ≢ reads.Played 0) }
{
    if play_on(rt, alloc, hub, link, Turn::Lost)? {
        Ok(ReadOnce::Lost)
    } else {
        Ok(ReadOnce::Gone)
    }
}

/// Reads once from the link of this number and plays what it gave, or its loss: `Played` with the number of bytes,
/// at least one; `Lost`, only where the link failed or ended, which its counts show; `Gone` where the link is not
/// the one that is up, and what was read is dropped. The hub's lock is free while it reads. Own call.
///
/// # Errors
///
/// `NoMemory` for want of memory: what was read stays in the front of `buf`.
pub fn read_once<G: Tallies, R: Wait, L: LinkRead>(
    rt: &R,
    alloc: Global,
    hub: &Hub<G>,
    link: u64,
    from: &mut L,
    buf: &mut [u8],
) -> Result<ReadOnce, NoMemory>
    requires { 0 < length buf.old }
    ensures lost { IfOk result (λ r. r ≡ reads.Lost → GivesNone (L.read_told from.old) (L.read_told from.new)) }
    ensures on { ReadsOn (L.read_told from.old) (L.read_told from.new) }
    ensures some { IfOk result (λ r. r ≢ reads.Played 0) }
    ensures room { length buf.new ≡ length buf.old }
{
    let count = read_some(from, buf);
    if count == 0 {
        return lose_read(rt, alloc, hub, link);
    }
    let piece = Bytes::copy_from_slice(alloc, &buf[..count])?;
    let is_up = play_on(rt, alloc, hub, link, Turn::Piece(piece))?;
    Ok(if is_up {
        ReadOnce::Played(count as u64)
    } else {
        ReadOnce::Gone
    })
}

/// Writes once to the link of this number what waits for it, and plays how much it took, or its loss: `Wrote` with
/// the number of bytes, at least one; `Idle` where nothing waits; `Lost`, only where the link failed, which its
/// count shows; `Gone` where the link is not the one that is up. The hub's lock is free while it writes. Own call.
///
/// # Errors
///
/// `NoMemory` for want of memory. Bytes may have been taken, so that the link is used no more.
pub fn write_once<G: Tallies, R: Wait, L: LinkWrite>(
    rt: &R,
    alloc: Global,
    hub: &Hub<G>,
    link: u64,
    out: &mut L,
) -> Result<WriteOnce, NoMemory>
    ensures lost { IfOk result (λ r. r ≡ writes.Lost
        → Rose (L.write_told out.old).faults (L.write_told out.new).faults) }
    ensures on { RoseBy 0 (L.write_told out.old).faults (L.write_told out.new).faults }
    ensures some { IfOk result (λ r. r ≢ writes.Wrote 0) }
{
    let Some(pieces) = hub.pieces_on(rt, alloc, link)? else {
        return Ok(WriteOnce::Gone);
    };
    if pieces.is_empty() {
        return Ok(WriteOnce::Idle);
    }
    match write_some(out, pieces.as_slice()) {
        Some(count) => {
            let is_up = play_on(rt, alloc, hub, link, Turn::Write(count as u64))?;
            Ok(if is_up {
                WriteOnce::Wrote(count as u64)
            } else {
                WriteOnce::Gone
            })
        }
        None => {
            let is_up = play_on(rt, alloc, hub, link, Turn::Lost)?;
            Ok(if is_up {
                WriteOnce::Lost
            } else {
                WriteOnce::Gone
            })
        }
    }
}
