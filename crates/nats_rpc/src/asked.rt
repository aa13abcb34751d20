//! One call as its caller keeps it.
ghost use Rattle.std.specs.Prelude.{◌≡◌, ◌<◌, ◌^◌, ◌-◌, IfOk, OnErr, true};
ghost use Rattle.nats_rpc.specs.Calls.{outcome_in, takes_memory, phase_of, settled_as, rested, live_at, is_numbered, answered};

use crate::outcome::Outcome;
use nats_core::{Bytes, CallReply, NoMemory, Subject};
use std::alloc::Global;

/// An attempt that waits for its reply: the ticket of its request, and when it was made, in milliseconds.
#[derive(Clone, Copy, Drop)]
pub struct Attempt {
    pub ticket: u64,
    pub start: u64,
}

/// How far a call is.
#[derive(Drop)]
pub enum Stage {
    /// No attempt waits for its reply.
    Resting,
    /// One does.
    Live(Attempt),
    /// The call came to this.
    Settled(Outcome),
}

/// How far a call is, but for what it came to.
#[derive(Clone, Copy)]
pub enum Phase {
    Resting,
    Live(Attempt),
    Settled,
}

/// One call: where it is asked, what with, how many of its requests were accepted, and how far it is.
#[derive(Drop)]
pub struct Asked {
    pub subject: Subject,
    pub payload: Bytes,
    pub tried: u64,
    pub stage: Stage,
}

impl Asked {
    /// How far it is.
    pub fn phase(&self) -> Phase
        ensures { result ≡ phase_of self.now.stage }
    {
        match &self.stage {
            Stage::Resting => Phase::Resting,
            Stage::Live(attempt) => Phase::Live(*attempt),
            Stage::Settled(_) => Phase::Settled,
        }
    }

    /// What a poll answers of it.
    pub fn outcome(&self, alloc: Global) -> Result<Outcome, NoMemory>
        ensures ok { IfOk result (λ o. o ≡ outcome_in self.now.stage) }
        ensures wants { OnErr result (takes_memory (outcome_in self.now.stage) ≡ true) }
    {
        match &self.stage {
            Stage::Settled(outcome) => outcome.copy(alloc),
            Stage::Resting | Stage::Live(_) => Ok(Outcome::Waiting),
        }
    }

    /// It came to this.
    pub fn settle(&mut self, outcome: Outcome)
        ensures { self.new ≡ settled_as outcome self.old }
    {
        self.stage = Stage::Settled(outcome);
    }

    /// No attempt waits any more.
    pub fn rest(&mut self)
        ensures { self.new ≡ rested self.old }
    {
        self.stage = Stage::Resting;
    }

    /// An attempt was made.
    fn go_live(&mut self, ticket: u64, start: u64)
        requires { self.old.tried < 2 ^ 64 - 1 }
        ensures { self.new ≡ live_at ticket start self.old }
    {
        self.tried += 1;
        self.stage = Stage::Live(Attempt { ticket, start });
    }

    /// The request of an attempt was answered at this time. Whether it was accepted.
    pub fn take_reply(&mut self, reply: CallReply, now: u64) -> bool
        requires { self.old.tried < 2 ^ 64 - 1 }
        ensures asked { self.new ≡ answered now reply self.old }
        ensures accepted { result ≡ is_numbered reply }
    {
        match reply {
            CallReply::Numbered(ticket) => {
                self.go_live(ticket, now);
                true
            }
            CallReply::Full => false,
            refused => {
                self.settle(Outcome::Refused(refused));
                false
            }
        }
    }
}
