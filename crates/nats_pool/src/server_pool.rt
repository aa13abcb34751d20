//! What a driver of connections needs of a pool beside its rounds.
ghost use Rattle.std.specs.Prelude.{◌≡◌, List, Result, IfOk};
ghost use Rattle.url.specs.Parts.{Parts};
ghost use Rattle.nats_pool.specs.declared.pool_error.SetServerPoolErrorKind.{SetServerPoolErrorKind};
ghost use Rattle.nats_pool.specs.declared.pool_parts.Choice.{Choice};
ghost use Rattle.nats_pool.specs.declared.server.Server.{Server};

use crate::{Choice, Pool, Rounds, Server, ServerAddr, SetServerPoolErrorKind};
use nats_names::NoMemory;
use std::alloc::Global;

/// What a driver of connections needs of a pool beside its rounds: how a round was chosen, and the calls by which a
/// user looks at the servers and replaces them. A `Pool` is one. Own trait: a driver that is generic in its pool holds
/// no callback in its signature.
pub trait ServerPool: Rounds {
    /// How the servers of the last round were chosen.
    ghost chosen: { Self → Choice };

    /// The servers, in order.
    ghost servers: { Self → List Server };

    /// `Sets addrs before after result` says what becomes of the servers where these addresses are to replace them.
    ghost Sets: { List Parts → Self → Self → Result (Unit {0}) SetServerPoolErrorKind → Type 0 };

    /// How the servers of the last round were chosen.
    fn choice_of_round(&self) -> Choice
        ensures chosen { result ≡ chosen self.now };

    /// Replaces the servers.
    fn replace_servers(
        &mut self,
        alloc: Global,
        addrs: Vec<ServerAddr>,
    ) -> Result<(), SetServerPoolErrorKind>
        ensures sets { Sets addrs.items self.old self.new result };

    /// A copy of the servers, in order.
    fn copy_of_servers(&self, alloc: Global) -> Result<Vec<Server>, NoMemory>
        ensures servers { IfOk result (λ all. all.items ≡ servers self.now) };
}

impl ServerPool for Pool {
    ghost use Rattle.nats_pool.specs.Pools.{SetsPool, last_choice_of, servers_of};

    ghost chosen = { λ pool. last_choice_of pool };

    ghost servers = { λ pool. servers_of pool };

    ghost Sets = { λ addrs before after result. SetsPool addrs before after result };

    fn choice_of_round(&self) -> Choice {
        self.last_choice()
    }

    fn replace_servers(
        &mut self,
        alloc: Global,
        addrs: Vec<ServerAddr>,
    ) -> Result<(), SetServerPoolErrorKind> {
        self.set_server_pool(alloc, addrs)
    }

    fn copy_of_servers(&self, alloc: Global) -> Result<Vec<Server>, NoMemory> {
        self.server_pool(alloc)
    }
}
