//! Which tickets are of requests, for ever.
ghost use Rattle.std.specs.Prelude.{◌≡◌, ◌<◌, ◌++◌, [], ◌∷◌, true, OnOk, OnErr};
ghost use Rattle.nats_tables.specs.Numbers.{item_of};
ghost use Rattle.nats_history.specs.Schedule.{is_of_request};
ghost use Rattle.nats_tickets.specs.Runs.{kind_in, last_kind, Runs, Extended};

use nats_history::NoMemory;
use std::alloc::Global;
use std::marker::Model;

/// Tickets of one kind, from the one after `before` to the next run.
#[derive(Clone, Copy, Drop)]
pub struct Run {
    before: u64,
    is_request: bool,
}

/// Of each ticket whether it is of a request. They are kept as runs of tickets of one kind.
#[derive(Drop)]
pub struct Kinds {
    given: u64,
    runs: Vec<Run>,
}

impl Model for Kinds {
    ghost use Rattle.std.specs.Prelude.{List, Bool};
    ghost use Rattle.nats_tickets.specs.Runs.{kinds_in, Runs};

    ghost Value = { List Bool };

    ghost view = { λ k. kinds_in k.given k.runs.items };

    ghost invariant = { λ k. Runs 0 k.given k.runs.items };
}

fn last_kind(runs: &[Run]) -> bool
    ensures { result ≡ last_kind runs.now }
{
    let count = runs.len();
    if count == 0 {
        return false;
    }
    runs[count - 1].is_request
}

/// The last run goes on, or one begins.
fn extend(runs: &mut Vec<Run>, given: u64, is_request: bool) -> Result<(), NoMemory>
    ensures ok { OnOk result (Extended given is_request runs.old.items runs.new.items) }
    ensures err { OnErr result (runs.new.items ≡ runs.old.items) }
{
    if last_kind(runs.as_slice()) == is_request {
        return Ok(());
    }
    runs.push(Run {
        before: given,
        is_request,
    })?;
    Ok(())
}

fn kind_at(runs: &[Run], given: u64, ticket: u64) -> bool
    requires { Runs 0 given runs.now }
    ensures { result ≡ kind_in runs.now ticket }
{
    let _given = given;
    let behind = runs.partition_point(|run| run.before < ticket);
    if behind == 0 {
        return false;
    }
    runs[behind - 1].is_request
}

impl Kinds {
    /// No ticket. It takes no memory.
    pub fn new(alloc: Global) -> Kinds
        ensures { result ≡ [] }
    {
        Kinds {
            given: 0,
            runs: Vec::new(alloc),
        }
    }

    /// One more ticket, of a request or not.
    pub fn push(&mut self, is_request: bool) -> Result<(), NoMemory>
        ensures ok { OnOk result (self.new ≡ self.old ++ is_request ∷ []) }
        ensures err { OnErr result (self.new ≡ self.old) }
    {
        let Some(given) = self.given.checked_add(1) else {
            return Err(NoMemory);
        };
        extend(&mut self.runs, self.given, is_request)?;
        self.given = given;
        Ok(())
    }

    /// Whether a ticket was given to a request. It takes no memory, and at most logarithmic time.
    pub fn is_request(&self, ticket: u64) -> bool
        ensures { result ≡ is_of_request (item_of ticket self.now) }
    {
        if ticket == 0 {
            return false;
        }
        if ticket > self.given {
            return false;
        }
        kind_at(self.runs.as_slice(), self.given, ticket)
    }
}
