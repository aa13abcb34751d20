//! The table, its rule, and what a seat knows.
ghost use Rattle.std.specs.Prelude.{ℕ, List};

use atomic_table::{Join, Play, Seat, Split, Table, TableRule};
use std::alloc::Global;
use std::collections::LinkedList;
use std::marker::PhantomData;

/// What a value in the lock tells of itself: a list of entries, each of which stands under the number of a seat, and
/// how many seats were made. `E` is an entry, and `K` is what was told of the value when the lock was made.
pub trait Journaled<K, E> {
    /// Its entries, oldest first.
    ghost entries: { Self → List E };

    /// How many seats were made.
    ghost made: { Self → ℕ };

    /// The number of the seat that an entry is of.
    ghost by: { E → ℕ };

    /// The value is under this.
    ghost suits: { K → Self → Type 0 };
}

/// How far a place has come with its ticket.
pub enum Stage {
    /// It has none.
    Idle,
    /// It drew this one.
    Waits(u64),
    /// This one is served, and the value is in the slot.
    Turn(u64),
    /// This one is served, and the value was taken out.
    Held(u64),
}

/// A number that was given, and the entries under it.
pub struct Account<E> {
    /// The number.
    pub number: u64,
    /// All entries under it, oldest first.
    pub own: LinkedList<E>,
}

/// What a place knows. It stands in contracts alone: no value of it is made.
pub struct View<K, E> {
    /// What the value is under, where the place was not joined into another.
    pub about: Option<K>,
    /// How far it has come with its ticket.
    pub stage: Stage,
    /// The entries that it has seen, a beginning of all.
    pub seen: LinkedList<E>,
    /// How many seats it has seen made.
    pub made: u64,
    /// Its numbers with their entries, its own first.
    pub accounts: LinkedList<Account<E>>,
    /// What it and the places that it joined had seen at each join.
    pub heard: LinkedList<LinkedList<E>>,
}

/// The rule of the table: what holds of its words, its slot and all views at any time.
pub struct Turns<D> {
    value: PhantomData<D>,
}

impl<K, E, D: Journaled<K, E>> TableRule<Option<D>, View<K, E>, K> for Turns<D> {
    ghost use Rattle.nats_ticket_lock.specs.Rule.{Kept, newcomer};

    ghost holds = { Kept D.by D.entries D.made D.suits };

    ghost first = { newcomer };
}

/// The table behind a lock: three words and one slot.
pub type Lock<D, K, E> = Table<Option<D>, View<K, E>, K, Turns<D>, Global>;

/// What a holder has of a lock: its view, and the value while that is taken out.
pub type Place<D, K, E> = Seat<Option<D>, View<K, E>>;
