//! Who turns a host's name into addresses of sockets, and one in memory.
ghost use Rattle.std.specs.Prelude.{◌≡◌, [], Some, IfOk, IfErr};
ghost use Rattle.nats_addr.specs.Resolving.{ResolverTold, resolved, resolved_all, resolve_error_text};
ghost use Rattle.nats_addr.specs.Addr.{host_name, port_of};
ghost use Rattle.nats_addr.specs.Noted.{noted, told_by, NewFake, FakeAnswers};
ghost use Rattle.nats_addr.specs.declared.resolver.Manner.TheVariants as manner;

use crate::{NoMemory, ServerAddr, SocketAddrs};
use nats_names::Text;
use std::alloc::{AllocError, Global};
use std::error::Error;
use std::fmt;
use std::net::SocketAddr;

/// Why a resolver gave no list.
#[derive(Clone, Copy, Debug, PartialEq, Eq)]
pub enum ResolveError {
    /// The resolver failed, and counted it.
    Failed,
    /// Want of memory.
    NoMemory,
}

impl fmt::Display for ResolveError {
    ghost output = { λ error. Some (resolve_error_text error) };

    fn fmt<W: fmt::Write>(&self, f: &mut fmt::Formatter<W>) -> fmt::Result {
        match self {
            ResolveError::Failed => write!(f, "the resolver failed"),
            ResolveError::NoMemory => write!(f, "out of memory"),
        }
    }
}

impl Error for ResolveError {}

impl From<NoMemory> for ResolveError {
    ghost use Rattle.std.specs.Prelude.{◌≡◌};
    ghost use Rattle.nats_addr.specs.declared.resolver.ResolveError.TheVariants as refusal;

    ghost from_gives = { λ _ error. error ≡ refusal.NoMemory };

    fn from(_refused: NoMemory) -> ResolveError {
        ResolveError::NoMemory
    }
}

impl From<AllocError> for ResolveError {
    ghost use Rattle.std.specs.Prelude.{◌≡◌};
    ghost use Rattle.nats_addr.specs.declared.resolver.ResolveError.TheVariants as refusal;

    ghost from_gives = { λ _ error. error ≡ refusal.NoMemory };

    fn from(_refused: AllocError) -> ResolveError {
        ResolveError::NoMemory
    }
}

/// The word of a resolver's last answer.
#[derive(Clone, Copy, Debug, PartialEq, Eq)]
pub enum AskWord {
    /// It gave addresses.
    Given,
    /// It gave an empty list.
    Empty,
    /// It failed.
    Failed,
    /// Memory was wanting.
    NoMemory,
}

/// Turns a host's name and a port into addresses of sockets, and counts how it went. No count falls.
pub trait Resolver {
    /// The counts, the last word, what was asked last, and the last list where it is known.
    ghost resolver_told: { Self → ResolverTold };

    /// What stands beside the resolver, which its call leaves as it was.
    ghost BesideResolver: { Type 0 };

    ghost beside_resolver: { Self → BesideResolver };

    /// The addresses of this host at this port.
    fn resolve(
        &mut self,
        alloc: Global,
        host: &str,
        port: u16,
    ) -> Result<Vec<SocketAddr>, ResolveError>
        ensures told { resolver_told self.new ≡ resolved host.now port result (resolver_told self.old) }
        ensures beside { beside_resolver self.new ≡ beside_resolver self.old };
}

impl ServerAddr {
    /// The addresses of sockets that `resolver` gives for the host and the port. The crate's call, which asks the
    /// system.
    pub fn socket_addrs<R: Resolver>(
        &self,
        alloc: Global,
        resolver: &mut R,
    ) -> Result<SocketAddrs, ResolveError>
        ensures told { R.resolver_told resolver.new
            ≡ resolved_all (host_name self.now) (port_of self.now) result (R.resolver_told resolver.old) }
        ensures beside { R.beside_resolver resolver.new ≡ R.beside_resolver resolver.old }
    {
        match resolver.resolve(alloc, self.host(), self.port()) {
            Ok(addresses) => Ok(SocketAddrs::over(addresses)),
            Err(error) => Err(error),
        }
    }
}

/// What a resolver in memory does at an asking.
#[derive(Clone, Copy, Debug, PartialEq, Eq)]
enum Manner {
    Tells,
    Refuses,
}

/// A resolver in memory: it gives the same list at each asking, fails at those that it was told to fail at, and
/// tells all.
#[derive(Drop)]
pub struct FakeResolver {
    addresses: Vec<SocketAddr>,
    failing: Vec<u64>,
    manner: Manner,
    faults: u64,
    empties: u64,
    askings: u64,
    given: u64,
    word: AskWord,
    has_given: bool,
    asked: Option<(Text, u16)>,
}

impl FakeResolver {
    /// It gives these addresses at each asking.
    pub fn told(alloc: Global, addresses: Vec<SocketAddr>) -> FakeResolver
        ensures { NewFake manner.Tells addresses.items [] result }
    {
        FakeResolver::failing(addresses, Vec::new(alloc))
    }

    /// It gives these addresses, and fails at the askings of these numbers, counted from 1.
    pub fn failing(addresses: Vec<SocketAddr>, failing: Vec<u64>) -> FakeResolver
        ensures { NewFake manner.Tells addresses.items failing.items result }
    {
        FakeResolver {
            addresses,
            failing,
            manner: Manner::Tells,
            faults: 0,
            empties: 0,
            askings: 0,
            given: 0,
            word: AskWord::Empty,
            has_given: false,
            asked: None,
        }
    }

    /// It answers want of memory at each asking.
    pub fn refusing(alloc: Global) -> FakeResolver
        ensures { NewFake manner.Refuses [] [] result }
    {
        let mut fake = FakeResolver::told(alloc, Vec::new(alloc));
        fake.manner = Manner::Refuses;
        fake
    }

    fn note(&mut self, addresses: &[SocketAddr])
        ensures { self.new ≡ noted addresses.now self.old }
    {
        self.given = self.given.saturating_add(addresses.len() as u64);
        self.has_given = true;
        if addresses.is_empty() {
            self.empties = self.empties.saturating_add(1);
            self.word = AskWord::Empty;
        } else {
            self.word = AskWord::Given;
        }
    }

    fn answer(&self, alloc: Global, host: &str) -> Result<(Vec<SocketAddr>, Text), ResolveError>
        ensures ok { IfOk result (λ a. (self.now.manner ≡ manner.Tells)
            × (a.0.items ≡ self.now.addresses.items) × (a.1 ≡ host.now)) }
        ensures err { IfErr result (λ error. error ≡ ResolveError.NoMemory) }
    {
        if self.manner == Manner::Refuses {
            return Err(ResolveError::NoMemory);
        }
        Ok((
            self.addresses.as_slice().to_vec(alloc)?,
            Text::from_text(alloc, host)?,
        ))
    }
}

impl Resolver for FakeResolver {
    ghost resolver_told = { told_by };

    ghost BesideResolver = { Unit {0} };

    ghost beside_resolver = { λ _. tt };

    fn resolve(
        &mut self,
        alloc: Global,
        host: &str,
        port: u16,
    ) -> Result<Vec<SocketAddr>, ResolveError>
        ensures told { told_by self.new ≡ resolved host.now port result (told_by self.old) }
        ensures answer { FakeAnswers self.old result }
    {
        self.askings = self.askings.saturating_add(1);
        let (addresses, text) = match self.answer(alloc, host) {
            Ok(answer) => answer,
            Err(error) => {
                self.word = AskWord::NoMemory;
                return Err(error);
            }
        };
        self.asked = Some((text, port));
        if self.failing.as_slice().contains(&self.askings) {
            self.faults = self.faults.saturating_add(1);
            self.word = AskWord::Failed;
            return Err(ResolveError::Failed);
        }
        self.note(addresses.as_slice());
        Ok(addresses)
    }
}
