//! A resolver over the system's own.
ghost use Rattle.std.specs.Prelude.{◌≡◌, None};
ghost use Rattle.nats_addr.specs.declared.resolver.AskWord.TheVariants as ask;
ghost use Rattle.nats_system.specs.System.{resolver_told_of, given_list};

use nats_names::Text;
use nats_outside::{AskWord, ResolveError, Resolver};
use std::alloc::Global;
use std::io::{self, ErrorKind};
use std::net::{Net, SocketAddr, ToSocketAddrs};

/// A resolver that asks the system. An IP address stands for itself. Each `Err` of the system but want of
/// memory is a failure. It tells its counts, its words and what it was asked, and not the list.
#[derive(Drop)]
pub struct NetResolver<R> {
    rt: R,
    faults: u64,
    empties: u64,
    askings: u64,
    given: u64,
    word: AskWord,
    asked: Option<(Text, u16)>,
    fault: Option<(Text, io::Error)>,
}

impl<R> NetResolver<R> {
    /// It was asked nothing yet.
    pub fn new(rt: R) -> NetResolver<R>
        ensures { resolver_told_of result ≡ record {
          faults = 0;
          empties = 0;
          askings = 0;
          given = 0;
          word = ask.Empty;
          asked = None;
          list = None;
        } }
    {
        NetResolver {
            rt,
            faults: 0,
            empties: 0,
            askings: 0,
            given: 0,
            word: AskWord::Empty,
            asked: None,
            fault: None,
        }
    }

    /// The host that was asked for last where the system failed, and what it said of it: for whoever prints. None
    /// before any, and where memory was wanting to keep the host.
    pub fn last_fault(&self) -> Option<(&Text, io::Error)> {
        match &self.fault {
            Some((host, error)) => Some((host, *error)),
            None => None,
        }
    }

    // It gave these addresses.
    fn note(&mut self, addresses: &[SocketAddr])
        ensures { self.new ≡ given_list addresses.now self.old }
    {
        self.given = self.given.saturating_add(addresses.len() as u64);
        if addresses.is_empty() {
            self.empties = self.empties.saturating_add(1);
            self.word = AskWord::Empty;
        } else {
            self.word = AskWord::Given;
        }
    }
}

impl<R: Net> NetResolver<R> {
    // What the system answers. What it says of a failure is kept with the host, where memory is there for that.
    fn look(
        &mut self,
        alloc: Global,
        host: &str,
        port: u16,
    ) -> Result<Vec<SocketAddr>, ResolveError>
        ensures { self.new ≡ record self.old { fault = self.new.fault } }
    {
        match (host, port).to_socket_addrs(&self.rt) {
            Ok(found) => Ok(found.collect(alloc)?),
            Err(error) if error.kind() == ErrorKind::OutOfMemory => Err(ResolveError::NoMemory),
            Err(error) => {
                self.fault = Text::from_text(alloc, host).ok().map(|host| (host, error));
                Err(ResolveError::Failed)
            }
        }
    }
}

impl<R: Net> Resolver for NetResolver<R> {
    ghost resolver_told = { resolver_told_of };

    ghost BesideResolver = { Unit {0} };

    ghost beside_resolver = { λ _. tt };

    fn resolve(
        &mut self,
        alloc: Global,
        host: &str,
        port: u16,
    ) -> Result<Vec<SocketAddr>, ResolveError> {
        self.askings = self.askings.saturating_add(1);
        let Ok(text) = Text::from_text(alloc, host) else {
            self.word = AskWord::NoMemory;
            return Err(ResolveError::NoMemory);
        };
        match self.look(alloc, host, port) {
            Ok(addresses) => {
                self.asked = Some((text, port));
                self.note(addresses.as_slice());
                Ok(addresses)
            }
            Err(ResolveError::Failed) => {
                self.asked = Some((text, port));
                self.faults = self.faults.saturating_add(1);
                self.word = AskWord::Failed;
                Err(ResolveError::Failed)
            }
            Err(ResolveError::NoMemory) => {
                self.word = AskWord::NoMemory;
                Err(ResolveError::NoMemory)
            }
        }
    }
}
