//! The lock's type.
ghost use Rattle.std.specs.Prelude.{◌≡◌};

use crate::rule::{Journaled, Lock};

/// A value that holders on many threads change in turn, first come, first served. Each holder has a `Place`; contracts
/// say of a place what it has seen and what stands under its numbers, and that holds whatever the others do. Our own:
/// the crate has no such lock.
#[derive(Drop)]
pub struct TicketLock<D: Journaled<K, E>, K, E> {
    pub(crate) table: Lock<D, K, E>,
    ghost sized: { (table.shared.table_id.words ≡ 3) × (table.shared.table_id.slots ≡ 1) },
}
