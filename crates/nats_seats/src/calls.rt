//! What a holder does with its seat.
ghost use Rattle.std.specs.Prelude.{◌≡◌, length, IfErr, IfOk};
ghost use Rattle.nats_history.specs.declared.turn.Turn.TheVariants as turns;
ghost use Rattle.nats_ticket_lock.specs.Rule.{newcomer};
ghost use Rattle.nats_ticket_lock.specs.Steps.{Lacks};
ghost use Rattle.nats_seats.specs.Seats.{number_of, seen, Sees, SeesRight, Plays, Refuses, Made, NoSeat, Stays, Joined, Closes, IsRightFor};

use crate::receipt::Receipt;
use crate::seat::Seated;
use nats_core::{Call, Config, NoMemory, Turn};
use nats_desk::{Desk, PlayError, SeatEntry, SplitError};
use nats_ticket_lock::ticket::TicketLock;
use std::alloc::Global;
use std::sync::{Arc, Wait};

impl Seated {
    /// A session with these settings and its first seat, which has number 1: no link came up and the journal is
    /// empty.
    ///
    /// # Errors
    ///
    /// `NoMemory` for want of memory.
    pub fn open(alloc: Global, config: Config) -> Result<Seated, NoMemory>
        ensures { IfOk result (λ seat. seat.1 ≡ newcomer config) }
    {
        let about = config.copy(alloc)?;
        let desk = Desk::new(alloc, config)?;
        let (lock, place) = TicketLock::open(alloc, desk, &about)?;
        let lock = Arc::new(alloc, lock)?;
        Ok(Seated {
            lock,
            place,
            number: 1,
            joined: 0,
        })
    }

    /// The seat's number, from 1. No other seat of the session has it.
    pub fn number(&self) -> u64
        ensures { result ≡ number_of self.now }
    {
        self.number
    }

    /// Looks at the journal, and answers how many entries it has. It waits for its turn.
    pub fn seen<R: Wait>(&mut self, rt: &R) -> u64
        ensures sees { Sees self.old self.new × (result ≡ length (seen self.new)) }
        ensures right { SeesRight self.new }
    {
        let (ticket, desk) = self.lock.enter(rt, &mut self.place);
        let count = desk.len();
        self.lock.leave(&mut self.place, ticket, desk);
        count
    }

    /// Plays a turn with this seat, once all steps that were due are played, and then due steps, as memory allows.
    /// The journal has one entry more then, with this seat's number, the turn and the reply that is answered, also
    /// where a call is refused. It waits for its turn.
    ///
    /// # Errors
    ///
    /// The turn comes back, and the journal is as it was; the seat has seen all of it. `OutOfTurn` exactly where the
    /// turn may not come behind that journal. `NoMemory` for want of memory, or where entries and seats together are
    /// 2^63.
    pub fn play<R: Wait>(&mut self, rt: &R, alloc: Global, turn: Turn) -> Result<Receipt, PlayError>
        ensures played { IfOk result (λ receipt. Plays self.old self.new turn receipt) }
        ensures refused { IfErr result (λ error. Sees self.old self.new × Refuses self.new turn error) }
        ensures right { SeesRight self.new }
    {
        let (ticket, mut desk) = self.lock.enter(rt, &mut self.place);
        match desk.play(alloc, self.number, turn) {
            Ok(reply) => {
                let place = desk.len();
                self.lock.leave_entry(&mut self.place, ticket, desk);
                Ok(Receipt { place, reply })
            }
            Err(error) => {
                self.lock.leave(&mut self.place, ticket, desk);
                Err(error)
            }
        }
    }

    /// Makes a call with this seat: `play` of the turn `Do` of it.
    ///
    /// # Errors
    ///
    /// Those of `play`, with the call in that turn. `OutOfTurn` exactly where the call names a subscription that was
    /// not accepted or was let go.
    pub fn submit<R: Wait>(
        &mut self,
        rt: &R,
        alloc: Global,
        call: Call,
    ) -> Result<Receipt, PlayError>
        ensures played { IfOk result (λ receipt. Plays self.old self.new (turns.Do call) receipt) }
        ensures refused { IfErr result (λ error. Sees self.old self.new × Refuses self.new (turns.Do call) error) }
        ensures right { SeesRight self.new }
    {
        self.play(rt, alloc, Turn::Do(call))
    }

    /// Makes a further seat, whose number is one more than the seats made before; this seat stays as it was. It waits
    /// for its turn. Today it takes no memory.
    ///
    /// # Errors
    ///
    /// `NoNumber` exactly where the number 2^32 - 1 was given: this seat has seen all of the journal then. `NoMemory`
    /// for want of memory, or where entries and seats together are 2^63. No seat was made then.
    pub fn split<R: Wait>(&mut self, rt: &R, _alloc: Global) -> Result<Seated, SplitError>
        ensures made { IfOk result (λ seat. Made self.old seat × (self.new ≡ self.old)) }
        ensures right { IfOk result (λ seat. SeesRight seat) }
        ensures refused { IfErr result (λ error. Stays self.old self.new × NoSeat self.new.1.made error) }
    {
        let lock = match Arc::try_clone(&self.lock) {
            Ok(lock) => lock,
            Err(_) => return Err(SplitError::NoMemory),
        };
        let mut place = self.lock.split(&mut self.place);
        let (ticket, mut desk) = lock.enter(rt, &mut place);
        match desk.make_seat() {
            Ok(number) => {
                lock.leave_number(&mut place, ticket, desk);
                Ok(Seated {
                    lock,
                    place,
                    number,
                    joined: 0,
                })
            }
            Err(error) => {
                lock.leave(&mut place, ticket, desk);
                self.lock.join(&mut self.place, place);
                Err(error)
            }
        }
    }

    /// Takes a seat that is done with into this one, which has the numbers of both then, with the entries under them.
    /// Its condition is that both are of one session. It does not wait.
    pub fn join(&mut self, other: Seated)
        requires { other.0 ≡ self.old.0 }
        ensures { Joined self.old other self.new }
    {
        let Seated {
            lock: _,
            place,
            number: _,
            joined,
        } = other;
        self.lock.join(&mut self.place, place);
        self.lock.compare(&mut self.place);
        self.joined += joined + 1;
    }

    /// Ends the session, and gives its journal, which has entries of the joined seats alone. It waits for its turn.
    ///
    /// # Errors
    ///
    /// The seat comes back exactly where a seat was made that this one, or a seat that it joined, did not join; it
    /// has seen all of the journal then.
    pub fn close<R: Wait>(mut self, rt: &R) -> Result<Vec<SeatEntry>, Seated>
        ensures closed { IfOk result (λ journal. Closes self journal.items) }
        ensures right { IfOk result (λ journal. IsRightFor self journal.items) }
        ensures open { IfErr result (λ seat. Sees self seat × Lacks seat.1) }
    {
        let (ticket, desk) = self.lock.enter(rt, &mut self.place);
        self.lock.count(&mut self.place, ticket);
        let made = desk.made();
        if made == self.joined + 1 {
            return Ok(desk.into_journal());
        }
        self.lock.leave(&mut self.place, ticket, desk);
        Err(self)
    }
}
