//! What a client is told of its rounds of connecting, as events.
ghost use Rattle.std.specs.Prelude.{◌≡◌, ◌++◌, IfOk};
ghost use Rattle.nats_names.specs.declared.client_error.ClientError.TheVariants as told;

use nats_core::Event;
use nats_hub::{Hub, Tallies};
use nats_names::{ClientError, NoMemory, Text};
use nats_pool::Choice;
use std::alloc::Global;
use std::sync::Wait;

/// Puts an error behind the events that wait. Own call.
pub fn note<G: Tallies, R: Wait>(rt: &R, hub: &Hub<G>, error: ClientError) {
    hub.note(rt, Event::ClientError(error))
}

/// An error in words: the first words, and those behind them. Own call.
///
/// # Errors
///
/// `NoMemory` for want of memory.
pub fn other(alloc: Global, first: &str, behind: &str) -> Result<ClientError, NoMemory>
    ensures { IfOk result (λ error. error ≡ told.Other (first.now ++ behind.now)) }
{
    let mut words = String::new(alloc);
    words.push_str(first)?;
    words.push_str(behind)?;
    Ok(ClientError::Other(Text::from_text(alloc, words.as_str())?))
}

/// Puts an event behind those that wait for each text of an address that a server told of and that spells none. Where
/// memory is wanting the event is left out. Own call.
pub fn note_skipped<G: Tallies, R: Wait>(rt: &R, alloc: Global, hub: &Hub<G>, skipped: &[Text]) {
    for text in skipped {
        if let Ok(error) = other(alloc, "skipped server address ", text.as_str()) {
            note(rt, hub, error);
        }
    }
}

/// Tells that a round's servers were not chosen from the pool, where that is so. Own call.
pub fn note_choice<G: Tallies, R: Wait>(rt: &R, hub: &Hub<G>, choice: Choice) {
    if choice == Choice::NotInPool {
        note(rt, hub, ClientError::ServerNotInPool);
    }
}
