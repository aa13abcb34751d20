//! A world in memory.
ghost use Rattle.std.specs.Prelude.{◌≡◌, false, [], Some, None, IfOk};
ghost use Rattle.nats_outside.specs.declared.dialer.DialWord.TheVariants as word;
ghost use Rattle.nats_outside.specs.Fakes.{dialer_told_of};

use crate::still_clock::StillClock;
use crate::{FakeSpawner, Whole};
use nats_outside::{FakeClock, FakeDialer, FakeDraw, FakeLink, FakeResolver, Joined, NoMemory};
use std::alloc::Global;
use std::net::{IpAddr, Ipv4Addr, SocketAddr};

/// A world in memory: each of its parts tells all.
pub type MemoryWorld = Whole<
    Joined<FakeDialer, FakeResolver, FakeClock, FakeDraw>,
    FakeSpawner,
    StillClock,
>;

/// The port of the one address of each host there.
const PORT: u16 = 4_222;

/// A world in memory where each host has one address, these links are dialed in order, time stands still, and
/// each number that is drawn is 0. Nothing fails but a dial where no link is left.
///
/// # Errors
///
/// `NoMemory` for want of memory.
pub fn memory_world(alloc: Global, links: Vec<FakeLink>) -> Result<MemoryWorld, NoMemory>
    ensures { IfOk result (λ world. dialer_told_of world.reach.dialer ≡ record {
      faults = 0;
      ends = 0;
      dials = 0;
      word = word.Fine;
      to = None;
      within = 0;
      links = 0;
      backs = 0;
      was_shut = false;
      ended = Some [];
    }) }
{
    let home = SocketAddr::new(IpAddr::V4(Ipv4Addr::LOCALHOST), PORT);
    Ok(Whole {
        reach: Joined {
            dialer: FakeDialer::told(alloc, links),
            resolver: FakeResolver::told(alloc, vec![in alloc; home]?),
            clock: FakeClock::told(Vec::new(alloc)),
            draw: FakeDraw::told(Vec::new(alloc)),
        },
        spawner: FakeSpawner::new(alloc),
        clock: StillClock::new(),
    })
}
