//! Requests that wait for their reply.
ghost use Rattle.std.specs.Prelude.{◌≡◌, ◌++◌, [], ◌∷◌, cond, drop, length, Some, None, OnOk, OnErr, IfOk};
ghost use Rattle.std.specs.Option.{option_map};
ghost use Rattle.std.specs.Ordering.{nat_cmp};
ghost use Rattle.std.specs.Map.{keys_of, remove_entry};
ghost use Rattle.std.specs.BTreeMap.{is_at, insert_entry};
ghost use Rattle.std.specs.List.Sorted.{IsStrictlySortedBy};
ghost use Rattle.nats_history.specs.Queue.{first};
ghost use Rattle.nats_history.specs.Tickets.{request_at, requests_elsewhere, waits_for_reply, requests_but, ticket_in};
ghost use Rattle.nats_tables.specs.Rows.{look, UpdatedAt};
ghost use Rattle.nats_tickets.specs.Asking.{AllUnder, is_it, find, found_but, found_but_if, but_if, gone_at};

use nats_history::{NoMemory, Subject};
use std::alloc::Global;
use std::collections::BTreeMap;
use std::marker::Model;

/// The requests that wait for their reply, each with its ticket and the subject of its reply. One is found by
/// either in at most logarithmic time, and no two wait for the same subject.
#[derive(Drop)]
pub struct Asking {
    subjects: BTreeMap<u64, Subject>,
    tickets: BTreeMap<Subject, u64>,
}

impl Model for Asking {
    ghost use Rattle.std.specs.Prelude.{List, ℕ};
    ghost use Rattle.nats_tickets.specs.Asking.{Indexed};

    ghost Value = { List (ℕ × List ℕ) };

    ghost view = { λ a. a.subjects.entries };

    ghost invariant = { λ a. Indexed a.subjects.entries a.tickets.entries };
}

impl Asking {
    /// None. It takes no memory.
    pub fn new(alloc: Global) -> Asking
        ensures { result ≡ [] }
    {
        Asking {
            subjects: BTreeMap::new(alloc),
            tickets: BTreeMap::new(alloc),
        }
    }

    /// How many wait.
    pub fn len(&self) -> usize
        ensures { result ≡ length self.now }
    {
        self.subjects.len()
    }

    /// One more waits, for a later ticket than all others; one that waits for the same subject waits no more, and
    /// is the result.
    pub fn ask(
        &mut self,
        alloc: Global,
        ticket: u64,
        subject: &Subject,
    ) -> Result<Option<u64>, NoMemory>
        requires { AllUnder ticket self.old }
        ensures displaced { IfOk result (λ displaced. displaced ≡ request_at subject.now self.old) }
        ensures ok { OnOk result (self.new ≡ requests_elsewhere subject.now self.old ++ (ticket, subject.now) ∷ []) }
        ensures err { OnErr result (self.new ≡ self.old) }
    {
        ordered(&self.subjects);
        put_last(&mut self.subjects, alloc, ticket, subject)?;
        let note = note(&mut self.tickets, alloc, subject, ticket);
        match note {
            Ok(displaced) => {
                forget_if(&mut self.subjects, displaced);
                Ok(displaced)
            }
            Err(NoMemory) => {
                forget(&mut self.subjects, ticket);
                Err(NoMemory)
            }
        }
    }

    /// The one that waits for a subject waits no more: its ticket, if there is one. It takes no memory.
    pub fn take_subject(&mut self, subject: &Subject) -> Option<u64>
        ensures ticket { result ≡ request_at subject.now self.old }
        ensures rest { self.new ≡ requests_elsewhere subject.now self.old }
    {
        ordered(&self.subjects);
        let ticket = find_out(&mut self.tickets, subject);
        forget_if(&mut self.subjects, ticket);
        ticket
    }

    /// The one of a ticket waits no more: whether there is one. It takes no memory.
    pub fn take_ticket(&mut self, ticket: u64) -> bool
        ensures asked { result ≡ waits_for_reply ticket self.old }
        ensures rest { self.new ≡ requests_but ticket self.old }
    {
        let subject = look_out(&mut self.subjects, ticket);
        forget_subject_if(&mut self.tickets, &subject);
        subject.is_some()
    }

    /// The oldest waits no more: its ticket. It takes no memory.
    pub fn pop(&mut self) -> Option<u64>
        ensures ticket { result ≡ option_map ticket_in (first self.old) }
        ensures rest { self.new ≡ drop 1 self.old }
    {
        match self.subjects.pop_first() {
            Some((ticket, subject)) => {
                forget_subject(&mut self.tickets, &subject);
                Some(ticket)
            }
            None => None,
        }
    }
}

/// The tickets ascend, as those of each map do. It does nothing.
fn ordered(subjects: &BTreeMap<u64, Subject>)
    ensures { IsStrictlySortedBy nat_cmp (keys_of subjects.now.entries) }
{
    let _count = subjects.len();
}

fn put_last(
    subjects: &mut BTreeMap<u64, Subject>,
    alloc: Global,
    ticket: u64,
    subject: &Subject,
) -> Result<(), NoMemory>
    ensures ok { OnOk result (subjects.new.entries ≡ insert_entry nat_cmp subjects.old.entries ticket subject.now) }
    ensures updated { OnOk result (UpdatedAt ticket (Some subject.now) subjects.old.entries subjects.new.entries) }
    ensures err { OnErr result (subjects.new.entries ≡ subjects.old.entries) }
{
    let kept = subject.copy(alloc)?;
    let Ok(_) = subjects.insert(ticket, kept) else {
        return Err(NoMemory);
    };
    Ok(())
}

fn note(
    tickets: &mut BTreeMap<Subject, u64>,
    alloc: Global,
    subject: &Subject,
    ticket: u64,
) -> Result<Option<u64>, NoMemory>
    ensures earlier { IfOk result (λ earlier. earlier ≡ find subject.now tickets.old.entries) }
    ensures ok { OnOk result ((other : _) → find other tickets.new.entries
        ≡ cond (is_it subject.now other) (Some ticket) (find other tickets.old.entries)) }
    ensures err { OnErr result (tickets.new.entries ≡ tickets.old.entries) }
{
    let key = subject.copy(alloc)?;
    let Ok(earlier) = tickets.insert(key, ticket) else {
        return Err(NoMemory);
    };
    Ok(earlier)
}

fn find_out(tickets: &mut BTreeMap<Subject, u64>, subject: &Subject) -> Option<u64>
    ensures ticket { result ≡ find subject.now tickets.old.entries }
    ensures rest { (other : _) → find other tickets.new.entries ≡ found_but subject.now other tickets.old.entries }
{
    tickets.remove(subject)
}

fn look_out(subjects: &mut BTreeMap<u64, Subject>, ticket: u64) -> Option<Subject>
    ensures subject { result ≡ look ticket subjects.old.entries }
    ensures entries { subjects.new.entries ≡ remove_entry (is_at (nat_cmp ticket)) subjects.old.entries }
    ensures updated { UpdatedAt ticket None subjects.old.entries subjects.new.entries }
{
    subjects.remove(&ticket)
}

fn forget(subjects: &mut BTreeMap<u64, Subject>, ticket: u64)
    ensures entries { subjects.new.entries ≡ requests_but ticket subjects.old.entries }
    ensures updated { UpdatedAt ticket None subjects.old.entries subjects.new.entries }
{
    let _subject = look_out(subjects, ticket);
}

fn forget_if(subjects: &mut BTreeMap<u64, Subject>, ticket: Option<u64>)
    ensures entries { subjects.new.entries ≡ but_if ticket subjects.old.entries }
    ensures updated { (k : _) → look k subjects.new.entries ≡ gone_at ticket k (look k subjects.old.entries) }
{
    if let Some(ticket) = ticket {
        forget(subjects, ticket);
    }
}

fn forget_subject(tickets: &mut BTreeMap<Subject, u64>, subject: &Subject)
    ensures { (other : _) → find other tickets.new.entries ≡ found_but subject.now other tickets.old.entries }
{
    let _ticket = find_out(tickets, subject);
}

fn forget_subject_if(tickets: &mut BTreeMap<Subject, u64>, subject: &Option<Subject>)
    ensures { (other : _) → find other tickets.new.entries ≡ found_but_if subject.now other tickets.old.entries }
{
    if let Some(subject) = subject {
        forget_subject(tickets, subject);
    }
}
