//! A holder's seat.

use nats_core::Config;
use nats_desk::{Desk, SeatEntry};
use nats_ticket_lock::rule::Place;
use nats_ticket_lock::ticket::TicketLock;
use std::alloc::Global;
use std::marker::Model;
use std::sync::Arc;

/// A holder's seat at a session that several threads share. Contracts say of a seat what it has seen of the common
/// journal and what stands there under its number, and that holds whatever the others do. A seat moves between
/// threads; the turn to play is first come, first served.
///
/// 1. `open` makes a session and its first seat; `split` makes a further one.
/// 2. `submit` and `play` play with a seat; `seen` looks.
/// 3. `join` takes a seat that is done with into another; `close` gives the journal, once all seats are joined.
///
/// A seat that is dropped is not joined: its session is never closed. Our own: the crate has no seats.
#[derive(Drop)]
pub struct Seated {
    pub(crate) lock: Arc<TicketLock<Desk, Config, SeatEntry>, Global>,
    pub(crate) place: Place<Desk, Config, SeatEntry>,
    pub(crate) number: u64,
    pub(crate) joined: u64,
}

/// To a contract it is its session and what it knows of it: its numbers with their entries, and what it has seen.
impl Model for Seated {
    ghost use Rattle.nats_seats.specs.Seats.{IsSeated, Known};

    ghost Value = { Known };

    ghost view = { λ seat. (seat.place.table_id, seat.place.me.0) };

    ghost invariant = { λ seat. IsSeated seat.lock.value seat.place seat.number seat.joined };
}
