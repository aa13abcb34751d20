//! Each call of the outside, over all that its parts tell. Own functions: a caller that goes by them alone knows
//! what every part tells after each call.
ghost use Rattle.std.specs.Prelude.{◌≡◌, IfOk};
ghost use Rattle.nats_addr.specs.Resolving.{resolved};
ghost use Rattle.nats_outside.specs.Told.{IsFresh, dialed, hung_up, started, looked, slept};

use crate::{Failed, Reach, ResolveError};
use std::alloc::Global;
use std::net::SocketAddr;

/// A new link to this address, within so many milliseconds.
pub fn dial<W: Reach>(
    world: &mut W,
    to: &SocketAddr,
    within: u64,
) -> Result<(W::Read, W::Write), Failed>
    ensures told { W.seen world.new
        ≡ record (W.seen world.old) { dialer = dialed to.now within result ((W.seen world.old).dialer) } }
    ensures fresh { IfOk result (λ link. IsFresh (W.Read.read_told link.0) (W.Write.write_told link.1)) }
    ensures beside { W.beside_reach world.new ≡ W.beside_reach world.old }
{
    world.dial(to, within)
}

/// Hands a link back.
pub fn hang_up<W: Reach>(world: &mut W, read: W::Read, write: W::Write)
    ensures told { W.seen world.new ≡ record (W.seen world.old) {
      dialer = hung_up (W.Read.read_told read) (W.Write.write_told write) ((W.seen world.old).dialer);
    } }
    ensures beside { W.beside_reach world.new ≡ W.beside_reach world.old }
{
    world.hang_up(read, write)
}

/// The addresses of a host.
pub fn resolve<W: Reach>(
    world: &mut W,
    alloc: Global,
    host: &str,
    port: u16,
) -> Result<Vec<SocketAddr>, ResolveError>
    ensures told { W.seen world.new
        ≡ record (W.seen world.old) { resolver = resolved host.now port result ((W.seen world.old).resolver) } }
    ensures beside { W.beside_reach world.new ≡ W.beside_reach world.old }
{
    world.resolve(alloc, host, port)
}

/// The time, from which a timeout is then counted.
pub fn start_ms<W: Reach>(world: &mut W) -> u64
    ensures told { W.seen world.new ≡ record (W.seen world.old) { clock = started result ((W.seen world.old).clock) } }
    ensures beside { W.beside_reach world.new ≡ W.beside_reach world.old }
{
    world.start_ms()
}

/// The time.
pub fn now_ms<W: Reach>(world: &mut W) -> u64
    ensures told { W.seen world.new ≡ record (W.seen world.old) { clock = looked result ((W.seen world.old).clock) } }
    ensures beside { W.beside_reach world.new ≡ W.beside_reach world.old }
{
    world.now_ms()
}

/// Comes back after that many milliseconds.
pub fn sleep_ms<W: Reach>(world: &mut W, ms: u64)
    ensures told { W.seen world.new ≡ record (W.seen world.old) { clock = slept ms ((W.seen world.old).clock) } }
    ensures beside { W.beside_reach world.new ≡ W.beside_reach world.old }
{
    world.sleep_ms(ms)
}

/// A number.
pub fn draw<W: Reach>(world: &mut W) -> u64
    ensures told { W.seen world.new ≡ W.seen world.old }
    ensures beside { W.beside_reach world.new ≡ W.beside_reach world.old }
{
    world.draw()
}
