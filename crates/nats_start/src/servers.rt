//! The calls of a client on its pool of servers.
ghost use Rattle.std.specs.Prelude.{◌≡◌, Ok, IfErr, IfOk};
ghost use Rattle.std.specs.Arc.{arc_value};
ghost use Rattle.nats_start.specs.Pooling.{HeldBy, SetsOrNot, WhyNotParsed};

use crate::Shared;
use nats_hub::Tallies;
use nats_names::{AddrError, NoMemory};
use nats_pool::{Server, ServerAddr, ServerPool, SetServerPoolErrorKind, ToServerAddrs};
use std::alloc::Global;
use std::error::Error;
use std::fmt;
use std::sync::{Arc, Wait};

/// The servers that a client may connect to, under a lock of their own, which a driver holds for a round of connecting
/// at a time: a call waits for it so long. The crate's client has these calls itself.
#[derive(Drop)]
pub struct Servers<G: Tallies, Q> {
    /// What its client and the driver share.
    pub shared: Arc<Shared<G, Q>, Global>,
}

/// Why the servers were not told. The crate's `ServerPoolError`.
#[derive(Clone, Copy, Debug, PartialEq, Eq)]
pub enum ServerPoolError {
    /// The session is closed.
    Send,
    /// Want of memory. Own variant.
    NoMemory,
}

impl fmt::Display for ServerPoolError {
    ghost use Rattle.std.specs.Prelude.{Some};
    ghost use Rattle.nats_start.specs.Pooling.{server_pool_text};

    ghost output = { λ error. Some (server_pool_text error) };

    fn fmt<W: fmt::Write>(&self, f: &mut fmt::Formatter<W>) -> fmt::Result {
        match self {
            ServerPoolError::Send => write!(f, "failed to send server_pool command"),
            ServerPoolError::NoMemory => write!(f, "out of memory"),
        }
    }
}

impl Error for ServerPoolError {}

/// The addresses of servers that are to replace those of a pool.
fn addrs_of<A: ToServerAddrs>(
    alloc: Global,
    addrs: &A,
) -> Result<Vec<ServerAddr>, SetServerPoolErrorKind>
    ensures ok { IfOk result (λ v. A.addrs addrs.now ≡ Ok v.items) }
    ensures err { IfErr result (λ e. WhyNotParsed (A.addrs addrs.now) e) }
{
    match addrs.to_server_addrs(alloc) {
        Ok(addrs) => Ok(addrs),
        Err(AddrError::NoMemory) => Err(SetServerPoolErrorKind::NoMemory),
        Err(AddrError::Url | AddrError::Scheme) => Err(SetServerPoolErrorKind::InvalidAddress),
    }
}

impl<G: Tallies, Q: ServerPool> Servers<G, Q> {
    /// Another hold of the same servers. It takes memory for nothing but the count of holds.
    ///
    /// # Errors
    ///
    /// `NoMemory` where there are as many holds as may be.
    pub fn again(&self) -> Result<Servers<G, Q>, NoMemory>
        ensures { IfOk result (λ servers. arc_value servers.shared ≡ arc_value self.now.shared) }
    {
        match Arc::try_clone(&self.shared) {
            Ok(shared) => Ok(Servers { shared }),
            Err(_) => Err(NoMemory),
        }
    }

    /// A copy of the servers, in order. The crate's `server_pool`.
    ///
    /// # Errors
    ///
    /// `Send` where the session is closed; `NoMemory` for want of memory.
    pub fn server_pool<R: Wait>(
        &self,
        rt: &R,
        alloc: Global,
    ) -> Result<Vec<Server>, ServerPoolError>
        ensures { IfOk result (λ all. HeldBy Q.servers all.items) }
    {
        if self.shared.hub.is_closed(rt) {
            return Err(ServerPoolError::Send);
        }
        match self.shared.pool.lock(rt).copy_of_servers(alloc) {
            Ok(servers) => Ok(servers),
            Err(NoMemory) => Err(ServerPoolError::NoMemory),
        }
    }

    /// Replaces the servers by those of these addresses. The crate's `set_server_pool`.
    ///
    /// # Errors
    ///
    /// `InvalidAddress` exactly where an address does not parse; else `EmptyPool` exactly where there is none; else
    /// `Send` where the session is closed; else those of the pool: `MixedSchemes` where some addresses are of `ws` or
    /// `wss` and others are not. `NoMemory` for want of memory.
    pub fn set_server_pool<R: Wait, A: ToServerAddrs + Drop>(
        &self,
        rt: &R,
        alloc: Global,
        addrs: A,
    ) -> Result<(), SetServerPoolErrorKind>
        ensures { SetsOrNot Q.Sets (A.addrs addrs) result }
    {
        let addrs = addrs_of(alloc, &addrs)?;
        if addrs.is_empty() {
            return Err(SetServerPoolErrorKind::EmptyPool);
        }
        if self.shared.hub.is_closed(rt) {
            return Err(SetServerPoolErrorKind::Send);
        }
        self.shared.pool.lock(rt).replace_servers(alloc, addrs)
    }
}
