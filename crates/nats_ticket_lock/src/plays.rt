//! What each step tells. These types are for the proofs alone.
ghost use Rattle.nats_ticket_lock.specs.Steps.{told, joined, spent_view, drew, looked, compared, passed, counted, gave, took, added, was_numbered};

use crate::rule::{Journaled, View};
use atomic_table::{Join, Play, Split};

/// A place is made or done with.
pub struct Tells;

impl<K, E> Split<View<K, E>> for Tells {
    ghost left = { λ v. v };

    ghost right = { told };
}

impl<K, E> Join<View<K, E>> for Tells {
    ghost both = { joined };

    ghost spent = { spent_view };
}

/// A ticket is drawn, where the word was as expected.
pub struct Draws;

impl<K, E, D> Play<Option<D>, View<K, E>> for Draws {
    ghost then = { drew };
}

/// Whether the ticket is served.
pub struct Looks;

impl<K, E, D> Play<Option<D>, View<K, E>> for Looks {
    ghost then = { looked };
}

/// What the joined places had seen is compared.
pub struct Compares;

impl<K, E, D: Journaled<K, E>> Play<Option<D>, View<K, E>> for Compares {
    ghost then = { compared D.by };
}

/// The turn is passed on.
pub struct Passes;

impl<K, E, D> Play<Option<D>, View<K, E>> for Passes {
    ghost then = { passed };
}

/// The value is taken out.
pub struct Takes;

impl<K, E, D: Journaled<K, E>> Play<Option<D>, View<K, E>> for Takes {
    ghost then = { took D.by D.entries D.made D.suits };
}

/// Entries and seats are counted.
pub struct Counts;

impl<K, E, D: Journaled<K, E>> Play<Option<D>, View<K, E>> for Counts {
    ghost then = { counted D.by };
}

/// An entry was added.
pub struct Adds;

impl<K, E, D: Journaled<K, E>> Play<Option<D>, View<K, E>> for Adds {
    ghost then = { added D.by D.entries };
}

/// A seat was made.
pub struct Numbers;

impl<K, E, D> Play<Option<D>, View<K, E>> for Numbers {
    ghost then = { was_numbered };
}

/// The value is given back.
pub struct Gives;

impl<K, E, D> Play<Option<D>, View<K, E>> for Gives {
    ghost then = { gave };
}
