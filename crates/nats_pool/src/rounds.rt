//! What hands out the servers of a round and is told how it went with them.
ghost use Rattle.std.specs.Prelude.{◌≡◌, ℕ, List, IfOk, OnErr};
ghost use Rattle.url.specs.Parts.{Parts};
ghost use Rattle.nats_info.specs.declared.info.ServerInfo.{ServerInfo};
ghost use Rattle.nats_pool.specs.declared.pool_parts.Choice.{Choice};
ghost use Rattle.nats_pool.specs.declared.pool_parts.Next.{Next};
ghost use Rattle.nats_pool.specs.declared.pool_parts.Outcome.{Outcome};
ghost use Rattle.nats_pool.specs.Handing.{HandsNext, IsBegun, RoundTold, told_of};

use crate::{Choice, ChoiceBox, DelayBox, Next, Outcome, Pool, ServerAddr, ServerInfo, ServerList};
use nats_names::NoMemory;
use std::alloc::Global;

/// What hands out the servers of a round and is told how it went with them. A `Pool` is one. Own trait: a round of
/// connecting needs no more of a pool.
pub trait Rounds: ServerList {
    /// The servers of the last round, how many of them were handed out, the attempts since the last success, and
    /// their limit.
    ghost round_told: { Self → RoundTold };

    /// `Begins last before after chosen` says that a round begins, its servers chosen so, where `last` is the last
    /// INFO.
    ghost Begins: { ServerInfo → Self → Self → Choice → Type 0 };

    /// `Hands before after next` says what is handed out next.
    ghost Hands: { Self → Self → Next → Type 0 };

    /// `Counts addr outcome before after` says that it was told how an attempt at `addr` went.
    ghost Counts: { Parts → Outcome → Self → Self → Type 0 };

    /// Begins a round. Without memory for it nothing changes.
    fn start_round(&mut self, alloc: Global, last: &ServerInfo) -> Result<Choice, NoMemory>
        ensures begins { IfOk result (λ chosen. Begins last.now self.old self.new chosen) }
        ensures err { OnErr result (self.new ≡ self.old) };

    /// The next attempt of the round.
    fn hand_out(&mut self) -> Next
        ensures hands { Hands self.old self.new result };

    /// Counts how an attempt at `addr` went.
    fn note(&mut self, addr: &ServerAddr, outcome: Outcome)
        ensures counts { Counts addr.now outcome self.old self.new };

    ghost takes_round: { (a b : Self) (urls skipped : List (List ℕ))
        → Self.Takes a b urls skipped → round_told b ≡ round_told a };

    ghost begins_round: { (last : ServerInfo) (a b : Self) (chosen : Choice)
        → Begins last a b chosen → IsBegun (round_told a) (round_told b) };

    ghost hands_round: { (a b : Self) (next : Next)
        → Hands a b next → HandsNext (round_told a) next (round_told b) };

    ghost counts_round: { (addr : Parts) (outcome : Outcome) (a b : Self)
        → Counts addr outcome a b → round_told b ≡ told_of outcome (round_told a) };
}

impl Rounds for Pool {
    ghost use Rattle.nats_pool.specs.Pools as pools;
    ghost use Rattle.nats_pool.specs.Handing.{pool_told};
    ghost use Rattle.nats_pool.specs.PoolRounds.{pool_takes, pool_begins, pool_hands, pool_counts};

    ghost round_told = { pool_told };

    ghost Begins = { λ last before after chosen. pools.Begins
        (λ f servers info named. ChoiceBox.post f.f servers info named) last before after chosen };

    ghost Hands = { λ before after next. pools.HandsOut (λ f n ms. DelayBox.post f.f n ms) before after next };

    ghost Counts = { λ addr outcome before after. pools.Reports addr outcome before after };

    ghost takes_round = { pool_takes };

    ghost begins_round = { λ last a b chosen begins. pool_begins _ last a b chosen begins };

    ghost hands_round = { λ a b next hands. pool_hands _ a b next hands };

    ghost counts_round = { pool_counts };

    fn start_round(&mut self, alloc: Global, last: &ServerInfo) -> Result<Choice, NoMemory> {
        self.begin_round(alloc, last)
    }

    fn hand_out(&mut self) -> Next {
        self.next_attempt()
    }

    fn note(&mut self, addr: &ServerAddr, outcome: Outcome) {
        self.report(addr, outcome)
    }
}
