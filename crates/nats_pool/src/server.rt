//! A server of the pool, and the choice of one.
ghost use Rattle.std.specs.Prelude.{◌≡◌, IfOk, Some};
ghost use Rattle.url.specs.Parts.{serialize};
ghost use Rattle.nats_pool.specs.Servers.{new_server, discovered_server, same_addr};

use nats_addr::ServerAddr;
use nats_names::{NoMemory, Text};
use std::alloc::Global;
use std::fmt;

/// A server of the pool, and how it went with it. The crate's `Server`.
#[derive(Debug, Drop)]
pub struct Server {
    /// The address.
    pub addr: ServerAddr,
    /// How many attempts failed since the last success.
    pub failed_attempts: usize,
    /// Whether an attempt ever succeeded.
    pub did_connect: bool,
    /// Whether a server told of it, in place of the user.
    pub is_discovered: bool,
    /// The text of the last error, where the last attempt failed.
    pub last_error: Option<Text>,
}

impl Server {
    pub(crate) fn new(addr: ServerAddr) -> Server
        ensures { result ≡ new_server addr }
    {
        Server {
            addr,
            failed_attempts: 0,
            did_connect: false,
            is_discovered: false,
            last_error: None,
        }
    }

    /// One that another server told of.
    pub(crate) fn discovered(addr: ServerAddr) -> Server
        ensures { result ≡ discovered_server addr }
    {
        Server {
            is_discovered: true,
            ..Server::new(addr)
        }
    }

    #[tactic(auto, unfolding(crate::specs::Servers::same_addr))]
    pub(crate) fn is_at(&self, addr: &ServerAddr) -> bool
        ensures { result ≡ same_addr self.now.addr addr.now }
    {
        self.addr == *addr
    }

    /// An equal server. Own call of this library, for the Rust's `Clone`.
    pub fn copy(&self, alloc: Global) -> Result<Server, NoMemory>
        ensures { IfOk result (λ server. server ≡ self.now) }
    {
        Ok(Server {
            addr: self.addr.copy(alloc)?,
            failed_attempts: self.failed_attempts,
            did_connect: self.did_connect,
            is_discovered: self.is_discovered,
            last_error: copy_text(alloc, &self.last_error)?,
        })
    }
}

pub(crate) fn copy_text(alloc: Global, text: &Option<Text>) -> Result<Option<Text>, NoMemory>
    ensures { IfOk result (λ t. t ≡ text.now) }
{
    match text {
        Some(text) => Ok(Some(text.copy(alloc)?)),
        None => Ok(None),
    }
}

/// Prints the address, as the crate does: a user and a password that stand in it with it.
impl fmt::Display for Server {
    ghost output = { λ server. Some (serialize server.addr) };

    fn fmt<W: fmt::Write>(&self, f: &mut fmt::Formatter<W>) -> fmt::Result {
        write!(f, "{}", self.addr.as_url_str())
    }
}

/// Which server to try, and how long to wait before. The crate's `ReconnectToServer`.
#[derive(Debug, Drop)]
pub struct ReconnectToServer {
    /// The address of a server of the pool.
    pub addr: ServerAddr,
    /// Milliseconds to wait; where there are none, as long as before any other attempt.
    pub delay: Option<u64>,
}

impl ReconnectToServer {
    /// An equal choice. Own call of this library, for the Rust's `Clone`.
    pub fn copy(&self, alloc: Global) -> Result<ReconnectToServer, NoMemory>
        ensures { IfOk result (λ target. target ≡ self.now) }
    {
        Ok(ReconnectToServer {
            addr: self.addr.copy(alloc)?,
            delay: self.delay,
        })
    }
}
