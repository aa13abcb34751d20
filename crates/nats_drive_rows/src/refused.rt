//! Devices that fail as a client connects, and what the client is told.
ghost use Rattle.std.specs.Prelude.{◌≡◌, ◌^◌, false};

use anyhow::{Result, anyhow};
use nats_client::Tallies;
use nats_drive::{Starter, World, connect_with_options};
use nats_outside::{Failed, FakeResolver, Joined};
use nats_pool::ConnectOptions;
use nats_system::{NetDialer, SystemClock, SystemDraw, Whole};
use std::alloc::Global;
use std::net::{Ipv4Addr, SocketAddr};
use std::sync::Wait;
use std::sync::ledger::Blank;
use std::thread::Threads;

/// A port of the loopback where nobody listens.
const NOBODY: u16 = 1;

/// Who starts no job.
#[derive(Drop)]
pub struct NoThreads<R> {
    rt: R,
    faults: u64,
}

impl<R> NoThreads<R> {
    /// It refused nothing yet.
    pub fn new(rt: R) -> NoThreads<R> {
        NoThreads { rt, faults: 0 }
    }
}

impl<R: Threads> Starter for NoThreads<R> {
    type Rt = R;

    ghost start_faults = { λ s. s.faults };

    ghost BesideStarter = { Unit {0} };

    ghost beside_starter = { λ _. tt };

    fn threads(&self) -> &R {
        &self.rt
    }

    fn begin(&mut self) -> Result<(), Failed> {
        self.faults = self.faults.saturating_add(1);
        Err(Failed)
    }

    fn refuse(&mut self) -> Failed {
        self.faults = self.faults.saturating_add(1);
        Failed
    }
}

/// The device that fails.
#[derive(Clone, Copy)]
pub enum Device {
    /// A dial fails.
    Dialer,
    /// The resolver fails.
    Resolver,
    /// The resolver gives no address.
    NoAddress,
    /// No job starts.
    Starter,
}

impl Device {
    /// All of them.
    pub const ALL: [Device; 4] = [
        Device::Dialer,
        Device::Resolver,
        Device::NoAddress,
        Device::Starter,
    ];

    /// What fails.
    pub fn name(self) -> &'static str {
        match self {
            Device::Dialer => "a dial fails",
            Device::Resolver => "a resolver fails",
            Device::NoAddress => "a host has no address",
            Device::Starter => "no thread starts",
        }
    }
}

/// A world over the system whose resolver is in memory, and of which only one device fails.
pub type Failing<R> = Whole<
    Joined<NetDialer<R>, FakeResolver, SystemClock<R>, SystemDraw<R>>,
    NoThreads<R>,
    SystemClock<R>,
>;

/// A resolver that gives this address of a server to each host, unless one where nobody listens or none is to be given,
/// or it is to fail.
fn resolver_of(alloc: Global, device: Device, home: SocketAddr) -> Result<FakeResolver> {
    let nobody = SocketAddr::from((Ipv4Addr::LOCALHOST, NOBODY));
    Ok(match device {
        Device::Dialer => FakeResolver::told(alloc, vec![in alloc; nobody]?),
        Device::Resolver => FakeResolver::failing(vec![in alloc; home]?, vec![in alloc; 1u64]?),
        Device::NoAddress => FakeResolver::told(alloc, Vec::new(alloc)),
        Device::Starter => FakeResolver::told(alloc, vec![in alloc; home]?),
    })
}

/// The world of which this device fails, where a server greets at this address.
pub fn world<R: Copy>(
    rt: R,
    alloc: Global,
    device: Device,
    home: SocketAddr,
) -> Result<Failing<R>> {
    Ok(Whole {
        reach: Joined {
            dialer: NetDialer::new(rt),
            resolver: resolver_of(alloc, device, home)?,
            clock: SystemClock::new(rt),
            draw: SystemDraw::new(rt),
        },
        spawner: NoThreads::new(rt),
        clock: SystemClock::new(rt),
    })
}

/// What a client is told that does not come about.
pub fn told<
    G: Tallies + Send + Sync + 'static,
    R: Wait + Copy + Drop + Send + 'static,
    P: Starter,
    W: World + Drop + Send + 'static,
>(rt: &R, alloc: Global, blank: Blank, starter: &mut P, world: W) -> Result<String>
where
    W::Read: Send + 'static,
    W::Write: Send + 'static,
    W::Ticks: Send + 'static,
    requires name { blank.name ≡ G.name }
    requires parts { blank.parts ≡ G.parts }
    requires all { blank.parts ≡ 2 ^ 63 }
    requires kept { G.is_kept ≡ false }
{
    let addr = String::from_str(alloc, "nats://demo")?;
    let options = ConnectOptions::new();
    match connect_with_options::<G, R, P, W, String>(
        rt, alloc, blank, starter, world, addr, options,
    ) {
        Ok(_) => Err(anyhow!("a client came about")),
        Err(refused) => Ok(format!(in alloc; "{}", refused.error)?),
    }
}
