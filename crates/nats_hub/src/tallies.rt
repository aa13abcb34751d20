//! Which ledger the holders of a hub count in.
ghost use Rattle.std.specs.Prelude.{Bool, false};

use std::marker::Brand;
use std::sync::ledger::Ledger;

/// Which ledger the holders of one hub count in, and whether that hub keeps its journal. The caller that makes the hub
/// picks both, by passing `Brand`. Own trait: the crate counts nothing.
pub trait Tallies: Ledger {
    /// The hub keeps its journal.
    ghost is_kept: { Bool };
}

impl Tallies for Brand {
    ghost is_kept = { false };
}
