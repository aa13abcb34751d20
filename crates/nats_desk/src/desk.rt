//! The core with its journal by seats.
ghost use Rattle.std.specs.Prelude.{◌≡◌, ◌+◌, ◌^◌, ◌<◌, ◌≤◌, ◌↔◌, length, true, IfErr, IfOk, OnOk, IsTrue};
ghost use Rattle.nats_desk.specs.Journal.{IsRightBySeat, entry, last_seat, may_come, new_desk, noted, reply_at};
ghost use Rattle.nats_desk.specs.Refusals.{Refused, Unnumbered};

use crate::entry::SeatEntry;
use crate::errors::{PlayError, SplitError};
use crate::notes::play_turn;
use nats_core::{Config, Core, NoMemory, StepReply, Turn};
use nats_ticket_lock::rule::Journaled;
use std::alloc::Global;
use std::marker::Model;

/// The last number that is given to a seat.
pub const LAST_SEAT: u64 = (1 << 32) - 1;

/// How many entries and seats there may be, together.
pub const MOST_NOTES: u64 = 1 << 63;

/// A session's core, the journal of its turns by seats, and how many seats were made. The journal is right at any
/// time: less the numbers of the seats it is the core's, so that each turn may come where it stands and has the reply
/// that a session gives there. Our own: the crate has no journal and no seats.
#[derive(Drop)]
pub struct Desk {
    core: Core,
    journal: Vec<SeatEntry>,
    made: u64,
}

/// To a contract it is the settings of its session, its journal and the number of seats made. Whether steps are due
/// does not show.
impl Model for Desk {
    ghost use Rattle.std.specs.Prelude.{◌≤◌};
    ghost use Rattle.nats_desk.specs.Journal.{DeskSeen, IsNoted, desk_of, last_seat};

    ghost Value = { DeskSeen };

    ghost view = { λ desk. desk_of desk.core desk.journal.items desk.made };

    ghost invariant = { λ desk. IsNoted desk.core desk.journal.items × (desk.made ≤ last_seat) };
}

impl Journaled<Config, SeatEntry> for Desk {
    ghost use Rattle.std.specs.Prelude.{◌≡◌};

    ghost entries = { λ desk. desk.journal };

    ghost made = { λ desk. desk.made };

    ghost by = { λ entry. entry.seat };

    ghost suits = { λ config desk. desk.config ≡ config };
}

impl Desk {
    /// A desk whose session has these settings: no link came up, its journal is empty and one seat was made.
    ///
    /// # Errors
    ///
    /// `NoMemory` for want of memory.
    #[tactic(auto, unfolding(crate::specs::Journal::IsRightBySeat))]
    pub fn new(alloc: Global, config: Config) -> Result<Desk, NoMemory>
        ensures { IfOk result (λ desk. desk ≡ new_desk config) }
    {
        let core = Core::new(alloc, config, true)?;
        Ok(Desk {
            core,
            journal: Vec::new(alloc),
            made: 1,
        })
    }

    /// How many entries the journal has.
    pub fn len(&self) -> u64
        ensures count { result ≡ length self.now.journal }
        ensures right { IsRightBySeat self.now.config self.now.journal }
    {
        self.journal.len() as u64
    }

    /// Whether the journal has no entry.
    pub fn is_empty(&self) -> bool
        ensures { IsTrue result ↔ (length self.now.journal ≡ 0) }
    {
        self.journal.is_empty()
    }

    /// How many seats were made, and so the last number that was given.
    pub fn made(&self) -> u64
        ensures made { result ≡ self.now.made }
        ensures few { self.now.made ≤ last_seat }
    {
        self.made
    }

    /// Whether one entry more, or one seat more, still makes no more than 2^63 of both together.
    fn has_room(&self) -> bool
        ensures { IsTrue result ↔ length self.now.journal + self.now.made < 2 ^ 63 }
    {
        (self.journal.len() as u64) < MOST_NOTES - self.made
    }

    /// Makes one seat more, and answers its number, one more than the seats made before. It takes no memory.
    ///
    /// # Errors
    ///
    /// `NoNumber` exactly where the number 2^32 - 1 was given. `NoMemory` exactly where another is left and entries
    /// and seats together are 2^63. Nothing changed then.
    pub fn make_seat(&mut self) -> Result<u64, SplitError>
        ensures made { IfOk result (λ number. (number ≡ self.old.made + 1) × (number ≤ last_seat)
            × (self.new ≡ record self.old { made = number })) }
        ensures room { OnOk result (length self.old.journal + self.old.made < 2 ^ 63) }
        ensures refused { IfErr result (λ error. (self.new ≡ self.old) × Unnumbered self.old error) }
        ensures right { IsRightBySeat self.new.config self.new.journal }
    {
        if self.made == LAST_SEAT {
            return Err(SplitError::NoNumber);
        }
        if !self.has_room() {
            return Err(SplitError::NoMemory);
        }
        self.made += 1;
        Ok(self.made)
    }

    /// Plays a turn for a seat, once all steps that were due are played, and then due steps, as memory allows. The
    /// journal has one more entry then: the number, this turn and the reply that is answered.
    ///
    /// # Errors
    ///
    /// The turn comes back, and the journal is as it was. `OutOfTurn` exactly where the turn may not come behind the
    /// journal. `NoMemory` for want of memory, or where entries and seats together are 2^63; it is never answered for
    /// a turn that may not come, once all steps that were due are played.
    pub fn play(&mut self, alloc: Global, seat: u64, turn: Turn) -> Result<StepReply, PlayError>
        ensures played { IfOk result (λ reply. self.new ≡ noted (entry seat turn reply) self.old) }
        ensures exact { IfOk result (λ reply. (may_come self.old.config self.old.journal turn ≡ true)
            × (reply ≡ reply_at self.old.config self.old.journal turn)) }
        ensures room { OnOk result (length self.old.journal + self.old.made < 2 ^ 63) }
        ensures refused { IfErr result (λ error. (self.new ≡ self.old)
            × Refused self.old.config self.old.journal turn error) }
        ensures right { IsRightBySeat self.new.config self.new.journal }
    {
        let has_room = self.has_room();
        play_turn(
            alloc,
            seat,
            has_room,
            &mut self.core,
            &mut self.journal,
            turn,
        )
    }

    /// The journal, for good.
    pub fn into_journal(self) -> Vec<SeatEntry>
        ensures entries { result.items ≡ self.journal }
        ensures right { IsRightBySeat self.config self.journal }
    {
        let Desk {
            core: _,
            journal,
            made: _,
        } = self;
        journal
    }
}
