//! Settled tickets that were not handed out.
ghost use Rattle.std.specs.Prelude.{◌≡◌, ◌==◌};
ghost use Rattle.nats_tickets.specs.Kept.{IsPlaceIn};

use nats_history::CallReply;
use std::collections::VecDeque;

fn is_of(settled: &(u64, CallReply), ticket: u64) -> bool
    ensures { result ≡ (ticket == settled.now.0) }
{
    ticket == settled.0
}

/// Where a ticket stands among the settled ones.
pub fn place_in(ready: &VecDeque<(u64, CallReply)>, ticket: u64) -> Option<usize>
    ensures { IsPlaceIn ticket ready.now.items result }
{
    'ready: for place in 0..ready.len() {
        if is_of(&ready[place], ticket) {
            return Some(place);
        }
    }
    None
}
