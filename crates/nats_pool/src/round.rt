//! A round: the servers to try, in order, and how many of them were handed out.
ghost use Rattle.std.specs.Prelude.{◌≡◌, [], length, nat_le};
ghost use Rattle.nats_pool.specs.Rounds.{TakesNext};

use crate::pool_parts::Planned;
use std::alloc::Global;
use std::marker::Model;
use std::vec;

/// The servers to try, in order, with the number of those that were handed out. Two copies are kept, since one of
/// them is handed out without taking memory. Contracts see the list and the number.
#[derive(Drop)]
pub struct Round {
    plan: Vec<Planned>,
    left: vec::IntoIter<Planned>,
    handed: usize,
}

impl Model for Round {
    ghost use Rattle.std.specs.Prelude.{List, ℕ, ◌≡◌, ◌≤◌, drop, length};
    ghost use Rattle.std.specs.Vec.Iter.{into_iter_items};
    ghost use Rattle.nats_pool.specs.declared.pool_parts.Planned.{Planned};

    ghost Value = { List Planned × ℕ };

    ghost view = { λ r. (r.plan.items, r.handed) };

    ghost invariant = { λ r. (into_iter_items r.left ≡ drop r.handed r.plan.items) × (r.handed ≤ length r.plan.items) };
}

impl Round {
    /// No servers.
    pub(crate) fn empty(alloc: Global) -> Round
        ensures { result ≡ ([], 0) }
    {
        Round::over(Vec::new(alloc), Vec::new(alloc))
    }

    /// A new round over `plan`, of which `copy` is a copy.
    pub(crate) fn over(plan: Vec<Planned>, copy: Vec<Planned>) -> Round
        requires { copy.items ≡ plan.items }
        ensures { result ≡ (plan.items, 0) }
    {
        Round {
            plan,
            left: copy.into_iter(),
            handed: 0,
        }
    }

    /// Whether all servers were handed out.
    pub(crate) fn is_over(&self) -> bool
        ensures { result ≡ nat_le (length self.now.0) self.now.1 }
    {
        self.plan.len() <= self.handed
    }

    /// Hands the next server out: none exactly where all were.
    pub(crate) fn next(&mut self) -> Option<Planned>
        ensures { TakesNext self.old self.new result }
    {
        let planned = self.left.next()?;
        self.handed += 1;
        Some(planned)
    }
}
