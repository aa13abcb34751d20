//! Which subscriptions may end with their link.
ghost use Rattle.std.specs.Prelude.{◌≡◌, ◌<◌, [], ℕ, true, length, OnOk, IfSome, IfNone};
ghost use Rattle.nats_subs.specs.Draining.{has, LeavesOthers};

use nats_history::NoMemory;
use std::alloc::Global;
use std::collections::BTreeMap;

/// The numbers of those that were noted, unless not all of them were.
#[derive(Drop)]
pub struct Drained {
    noted: BTreeMap<u64, ()>,
    is_partial: bool,
}

impl Drained {
    /// None. It takes no memory.
    pub fn new(alloc: Global) -> Drained
        ensures { result.noted.entries ≡ [] }
    {
        Drained {
            noted: BTreeMap::new(alloc),
            is_partial: false,
        }
    }

    /// Notes one more, before it is drained: only this takes memory.
    pub fn note(&mut self, sid: u64) -> Result<(), NoMemory>
        ensures ok { OnOk result (has self.new sid ≡ true) }
        ensures others { (s : ℕ) → has self.old s ≡ true → has self.new s ≡ true }
    {
        let Ok(_) = self.noted.insert(sid, ()) else {
            return Err(NoMemory);
        };
        Ok(())
    }

    /// One was changed, and is drained or is not.
    pub fn settle(&mut self, sid: u64, is_drained: bool)
        ensures here { is_drained ≡ true → has self.new sid ≡ true }
        ensures others { LeavesOthers sid self.old self.new }
    {
        if !is_drained {
            let _ = self.noted.remove(&sid);
        } else if !self.noted.contains_key(&sid) {
            self.is_partial = true;
        }
    }

    /// One that was noted leaves.
    pub fn pop(&mut self) -> Option<u64>
        ensures some { IfSome result (λ sid. LeavesOthers sid self.old self.new) }
        ensures fewer { IfSome result (λ _. length self.new.noted.entries < length self.old.noted.entries) }
        ensures none { IfNone result ((s : ℕ) → has self.old s ≡ true → self.new.is_partial ≡ true) }
    {
        let (sid, _) = self.noted.pop_first()?;
        Some(sid)
    }

    /// Whether not all of them were noted. None is, from then on.
    pub fn forget_others(&mut self) -> bool
        ensures { result ≡ self.old.is_partial }
    {
        let was = self.is_partial;
        self.is_partial = false;
        was
    }
}
