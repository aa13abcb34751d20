//! The lock: each function is one step on the table, or a loop of one kind of step.
ghost use Rattle.std.specs.Prelude.{◌≡◌, ◌≢◌, ℕ, suc, ◌+◌, ◌^◌, ◌<◌, ◌≤◌, List, [], ◌∷◌, ◌++◌, length, IfOk, Some, None};
ghost use Rattle.nats_ticket_lock.specs.declared.rule.Stage.TheVariants.{Idle, Waits, Turn, Held};
ghost use Rattle.nats_ticket_lock.specs.Rule.{Begins, Owns, newcomer};
ghost use Rattle.nats_ticket_lock.specs.Steps.{staged, told, joined, caught_up, recorded, numbered, first_number, Earlier, Counted, OnlyGiven};
ghost use Rattle.nats_ticket_lock.specs.Places.{view, hand, IsAt, IsSame};

use crate::plays::{Adds, Compares, Counts, Draws, Gives, Looks, Numbers, Passes, Takes, Tells};
use crate::rule::{Journaled, Place};
use crate::ticket::TicketLock;
use atomic_table::Table;
use std::alloc::{AllocError, Global};
use std::sync::Wait;
use std::thread;

/// The word that counts the entries and the seats made, together.
const SUM: usize = 0;

/// The word that counts the tickets drawn.
const DRAWN: usize = 1;

/// The word with the ticket that is served.
const SERVED: usize = 2;

impl<D: Journaled<K, E>, K, E> TicketLock<D, K, E> {
    /// Makes the lock round a value that has no entry and one seat made, and the place of that first seat, which has
    /// number 1. `about` is what the value is under, such as its settings, and stays so.
    ///
    /// # Errors
    ///
    /// `AllocError` for want of memory; the value is dropped then.
    pub fn open(
        alloc: Global,
        value: D,
        about: &K,
    ) -> Result<(TicketLock<D, K, E>, Place<D, K, E>), AllocError>
    where
        D: Drop,
        requires { (D.entries value ≡ []) × (D.made value ≡ 1) × D.suits about.now value }
        ensures { IfOk result (λ t. IsAt t.0 t.1 × (t.1.me ≡ (newcomer about.now, []))) }
    {
        let mut slots = Vec::new(alloc);
        slots.push(Some(value))?;
        match Table::new(alloc, &[1, 0, 0], slots, about) {
            Ok((table, place)) => Ok((TicketLock { table }, place)),
            Err(_) => Err(AllocError),
        }
    }

    /// Makes the place of a further seat, which has seen what this one has seen, and has no number until one is given
    /// to it by `leave_number`. This place stays as it was. It takes no turn and no memory.
    pub fn split(&self, place: &mut Place<D, K, E>) -> Place<D, K, E>
        requires { IsAt self.now place.old }
        ensures kept { IsSame place.old place.new × (place.new.me ≡ place.old.me) }
        ensures given { (result.table_id ≡ place.old.table_id) × (result.me ≡ (told (view place.old), [])) }
    {
        self.table.shared.split_seat::<Tells>(place)
    }

    /// Takes a place that is done with into this one: the numbers of both with the entries under them are this one's
    /// then, and it has seen the longer of the two lists. Both have no ticket, and the other holds no value. It takes
    /// no turn.
    pub fn join(&self, place: &mut Place<D, K, E>, other: Place<D, K, E>)
        requires at { IsAt self.now place.old × IsAt self.now other × (hand other ≡ []) }
        requires idle { ((view place.old).stage ≡ Idle) × ((view other).stage ≡ Idle) }
        ensures { IsSame place.old place.new
            × (place.new.me ≡ (joined (view place.old) (view other), hand place.old)) }
    {
        self.table.shared.join_seat::<Tells>(place, other);
    }

    /// Draws the next ticket, a number from 0 on. It tries until the draw succeeds, and gives way to other threads
    /// meanwhile; where the tickets of a lock are used up, at 2^64 - 1, it never returns.
    pub fn draw<R: Wait>(&self, rt: &R, place: &mut Place<D, K, E>) -> u64
        requires { IsAt self.now place.old × ((view place.old).stage ≡ Idle) }
        ensures { IsSame place.old place.new
            × (place.new.me ≡ (staged (Waits result) (view place.old), hand place.old))
            × (result + 1 < 2 ^ 64) }
    {
        for _ in rt.forever() {
            let ticket = self.table.shared.peek(DRAWN);
            if ticket < u64::MAX {
                let found = self
                    .table
                    .shared
                    .compare_exchange::<Draws>(place, DRAWN, ticket, ticket + 1);
                if found == ticket {
                    return ticket;
                }
            }
            thread::yield_now();
        }
        unreachable!()
    }

    /// Waits until this place's ticket is served, asleep while another one is.
    pub fn wait<R: Wait>(&self, rt: &R, place: &mut Place<D, K, E>, ticket: u64)
        requires { IsAt self.now place.old × ((view place.old).stage ≡ Waits ticket) }
        ensures { IsSame place.old place.new
            × (place.new.me ≡ (staged (Turn ticket) (view place.old), hand place.old)) }
    {
        for _ in rt.forever() {
            let served = self.table.shared.load::<Looks>(place, SERVED);
            if served == ticket {
                return;
            }
            self.table
                .shared
                .park(rt, SERVED, (served & 0xffff_ffff) as u32);
        }
        unreachable!()
    }

    /// Tells of a place that joined others that what each of them had seen is a beginning of what it has seen now,
    /// where it is no longer. It changes nothing.
    pub fn compare(&self, place: &mut Place<D, K, E>)
        requires { IsAt self.now place.old }
        ensures { IsSame place.old place.new × (place.new.me ≡ place.old.me)
            × Earlier (view place.old).seen (view place.old).heard
            × (length (view place.old).accounts ≤ 2 ^ 63)
            × Owns D.by (view place.old).seen (view place.old).accounts }
    {
        self.table.shared.load::<Compares>(place, SERVED);
    }

    /// Passes the turn on to the next ticket, and wakes whoever waits.
    pub fn pass(&self, place: &mut Place<D, K, E>, ticket: u64)
        requires { IsAt self.now place.old × ((view place.old).stage ≡ Turn ticket) × (ticket + 1 < 2 ^ 64) }
        ensures { IsSame place.old place.new × (place.new.me ≡ (staged Idle (view place.old), hand place.old)) }
    {
        self.table.shared.store::<Passes>(place, SERVED, ticket + 1);
        self.table.shared.wake_all(SERVED);
    }

    /// Takes the value out, in turn. It has all that this place had seen, and under this place's numbers just the
    /// entries that it knows.
    pub fn take(&self, place: &mut Place<D, K, E>, ticket: u64) -> D
        requires { IsAt self.now place.old × ((view place.old).stage ≡ Turn ticket) × (hand place.old ≡ []) }
        ensures place { IsSame place.old place.new
            × (place.new.me ≡ (
              caught_up (Held ticket) (D.entries result) (D.made result) (view place.old),
              (0, None) ∷ [],
            )) }
        ensures seen { Begins (D.entries result) (view place.old).seen × ((view place.old).made ≤ D.made result)
            × Owns D.by (D.entries result) (view place.old).accounts
            × ((k : K) → (view place.old).about ≡ Some k → D.suits k result) }
    {
        self.table.shared.load::<Takes>(place, SUM);
        self.table.shared.exchange(place, 0, None).unwrap()
    }

    /// How many entries and seats there are in all, in turn; and whether this place has the numbers of all seats. No
    /// entry is under a number that was not given.
    pub fn count(&self, place: &mut Place<D, K, E>, ticket: u64) -> u64
        requires { IsAt self.now place.old × ((view place.old).stage ≡ Held ticket) }
        ensures { IsSame place.old place.new × (place.new.me ≡ place.old.me)
            × (result ≡ length (view place.old).seen + (view place.old).made) × Counted (view place.old)
            × OnlyGiven D.by (view place.old) }
    {
        self.table.shared.load::<Counts>(place, SUM)
    }

    // The value goes into the seat's hand.
    fn hold(&self, place: &mut Place<D, K, E>, value: D)
        requires { IsAt self.now place.old × (hand place.old ≡ (0, None) ∷ []) }
        ensures { IsSame place.old place.new × (place.new.me ≡ (view place.old, (0, Some value) ∷ [])) }
    {
        match self.table.shared.exchange(place, 0, Some(value)) {
            None => {}
            Some(_) => unreachable!(),
        }
    }

    /// Gives the value back as it was.
    pub fn give(&self, place: &mut Place<D, K, E>, ticket: u64, value: D)
        requires held { IsAt self.now place.old × ((view place.old).stage ≡ Held ticket)
            × (hand place.old ≡ (0, None) ∷ []) }
        requires same { (D.entries value ≡ (view place.old).seen) × (D.made value ≡ (view place.old).made)
            × ((k : K) × ((view place.old).about ≡ Some k) × D.suits k value) }
        ensures { IsSame place.old place.new × (place.new.me ≡ (staged (Turn ticket) (view place.old), [])) }
    {
        self.hold(place, value);
        self.table.shared.load::<Gives>(place, SUM);
    }

    /// Gives the value back with one entry more.
    pub fn give_entry(&self, place: &mut Place<D, K, E>, ticket: u64, value: D)
        requires held { IsAt self.now place.old × ((view place.old).stage ≡ Held ticket)
            × (hand place.old ≡ (0, None) ∷ []) }
        requires entry { (e : E) × (D.entries value ≡ (view place.old).seen ++ e ∷ []) × (0 < D.by e)
            × (first_number (view place.old).accounts ≡ D.by e) }
        requires same { (D.made value ≡ (view place.old).made)
            × (length (view place.old).seen + (view place.old).made < 2 ^ 63)
            × ((k : K) × ((view place.old).about ≡ Some k) × D.suits k value) }
        ensures { IsSame place.old place.new
            × ((e : E) → D.entries value ≡ (view place.old).seen ++ e ∷ []
            → (place.new.me ≡ (staged (Turn ticket) (recorded e (view place.old)), []))
            × Owns D.by (recorded e (view place.old)).seen (recorded e (view place.old)).accounts) }
    {
        self.hold(place, value);
        self.table.shared.fetch_add::<Adds>(place, SUM, 1);
        self.table.shared.load::<Gives>(place, SUM);
    }

    /// Gives the value back with one seat more, and the seat has that number.
    pub fn give_number(&self, place: &mut Place<D, K, E>, ticket: u64, value: D)
        requires held { IsAt self.now place.old × ((view place.old).stage ≡ Held ticket)
            × (hand place.old ≡ (0, None) ∷ []) }
        requires number { (D.entries value ≡ (view place.old).seen) × (D.made value ≡ suc (view place.old).made) }
        requires same { (length (view place.old).seen + (view place.old).made < 2 ^ 63)
            × ((k : K) × ((view place.old).about ≡ Some k) × D.suits k value) }
        ensures { IsSame place.old place.new
            × (place.new.me ≡ (staged (Turn ticket) (numbered (view place.old)), [])) }
    {
        self.hold(place, value);
        self.table.shared.fetch_add::<Numbers>(place, SUM, 1);
        self.table.shared.load::<Gives>(place, SUM);
    }

    /// Waits for a turn and takes the value out; answers the turn's ticket and the value. It waits as long as others
    /// hold the value.
    pub fn enter<R: Wait>(&self, rt: &R, place: &mut Place<D, K, E>) -> (u64, D)
        requires { IsAt self.now place.old × ((view place.old).stage ≡ Idle) × (hand place.old ≡ []) }
        ensures place { IsSame place.old place.new
            × (place.new.me ≡ (
              caught_up (Held result.0) (D.entries result.1) (D.made result.1) (view place.old),
              (0, None) ∷ [],
            )) }
        ensures seen { Begins (D.entries result.1) (view place.old).seen × ((view place.old).made ≤ D.made result.1)
            × Owns D.by (D.entries result.1) (view place.old).accounts
            × ((k : K) → (view place.old).about ≡ Some k → D.suits k result.1) }
        ensures ticket { result.0 + 1 < 2 ^ 64 }
    {
        let ticket = self.draw(rt, place);
        self.wait(rt, place, ticket);
        let value = self.take(place, ticket);
        (ticket, value)
    }

    /// Gives the value back as it was, and passes the turn.
    pub fn leave(&self, place: &mut Place<D, K, E>, ticket: u64, value: D)
        requires held { IsAt self.now place.old × ((view place.old).stage ≡ Held ticket)
            × (hand place.old ≡ (0, None) ∷ []) × (ticket + 1 < 2 ^ 64) }
        requires same { (D.entries value ≡ (view place.old).seen) × (D.made value ≡ (view place.old).made)
            × ((k : K) × ((view place.old).about ≡ Some k) × D.suits k value) }
        ensures { IsSame place.old place.new × (place.new.me ≡ (staged Idle (view place.old), [])) }
    {
        self.give(place, ticket, value);
        self.pass(place, ticket);
    }

    /// Gives the value back with one entry more, and passes the turn.
    pub fn leave_entry(&self, place: &mut Place<D, K, E>, ticket: u64, value: D)
        requires held { IsAt self.now place.old × ((view place.old).stage ≡ Held ticket)
            × (hand place.old ≡ (0, None) ∷ []) × (ticket + 1 < 2 ^ 64) }
        requires entry { (e : E) × (D.entries value ≡ (view place.old).seen ++ e ∷ []) × (0 < D.by e)
            × (first_number (view place.old).accounts ≡ D.by e) }
        requires same { (D.made value ≡ (view place.old).made)
            × (length (view place.old).seen + (view place.old).made < 2 ^ 63)
            × ((k : K) × ((view place.old).about ≡ Some k) × D.suits k value) }
        ensures { IsSame place.old place.new
            × ((e : E) → D.entries value ≡ (view place.old).seen ++ e ∷ []
            → (place.new.me ≡ (staged Idle (recorded e (view place.old)), []))
            × Owns D.by (recorded e (view place.old)).seen (recorded e (view place.old)).accounts) }
    {
        self.give_entry(place, ticket, value);
        self.pass(place, ticket);
    }

    /// Gives the value back with one seat more, and passes the turn.
    pub fn leave_number(&self, place: &mut Place<D, K, E>, ticket: u64, value: D)
        requires held { IsAt self.now place.old × ((view place.old).stage ≡ Held ticket)
            × (hand place.old ≡ (0, None) ∷ []) × (ticket + 1 < 2 ^ 64) }
        requires number { (D.entries value ≡ (view place.old).seen) × (D.made value ≡ suc (view place.old).made) }
        requires same { (length (view place.old).seen + (view place.old).made < 2 ^ 63)
            × ((k : K) × ((view place.old).about ≡ Some k) × D.suits k value) }
        ensures { IsSame place.old place.new × (place.new.me ≡ (staged Idle (numbered (view place.old)), [])) }
    {
        self.give_number(place, ticket, value);
        self.pass(place, ticket);
    }
}
