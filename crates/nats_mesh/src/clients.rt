//! The clients of a broker, by their numbers from 1.
ghost use Rattle.std.specs.Prelude.{◌≡◌, IfOk, take};
ghost use Rattle.nats_outboxes.specs.Outboxes.{item_of};
ghost use Rattle.nats_mesh.specs.Clients.{SteppedAt, BroughtAt, left_at};

use crate::client::Client;
use nats_core::Turn;
use nats_names::{Bytes, NoMemory};
use std::alloc::Global;

/// The client of a number plays a turn: whether there is one, and its turn may come.
pub(crate) fn step_at(
    clients: &mut [Client],
    alloc: Global,
    i: u64,
    turn: Turn,
) -> Result<bool, NoMemory>
    ensures { SteppedAt i turn clients.old result clients.new }
{
    if i == 0 {
        return Ok(false);
    }
    if clients.len() < i as usize {
        return Ok(false);
    }
    clients[i as usize - 1].step(alloc, turn)
}

/// Bytes of a text are brought to the client of a number: whether there is one, and they may come.
pub(crate) fn bring_at(
    clients: &mut [Client],
    alloc: Global,
    i: u64,
    text: &[u8],
    n: u64,
) -> Result<bool, NoMemory>
    ensures { BroughtAt i text.now n clients.old result clients.new }
{
    if i == 0 {
        return Ok(false);
    }
    if clients.len() < i as usize {
        return Ok(false);
    }
    clients[i as usize - 1].bring(alloc, text, n)
}

/// So many of the bytes that wait for the link of the client of a number; none where there is no client.
pub(crate) fn waiting_at(
    clients: &[Client],
    alloc: Global,
    i: u64,
    n: u64,
) -> Result<Bytes, NoMemory>
    ensures { IfOk result (λ bytes. bytes ≡ left_at n (item_of i clients.now)) }
{
    if i == 0 {
        return Ok(Bytes::new());
    }
    match clients.get(i as usize - 1) {
        Some(client) => client.waiting(alloc, n),
        None => Ok(Bytes::new()),
    }
}
