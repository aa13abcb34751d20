//! The calls of a pool.
ghost use Rattle.std.specs.Prelude.{◌≡◌, not, map, IfOk, OnErr};
ghost use Rattle.std.specs.List.{list_any};
ghost use Rattle.nats_addr.specs.Addr.{is_websocket};
ghost use Rattle.nats_pool.specs.Delays.{WaitsBefore};
ghost use Rattle.nats_pool.specs.Servers.{new_server, is_mixed, kept, Told};
ghost use Rattle.nats_pool.specs.Pools.{NewPool, Begins, HandsOut, IsAnswer, NamedBy, Reports, SetsPool, servers_of, last_choice_of, passes};

use crate::choose::{copy_plans, find_server, place_of, plan_round};
use crate::round::Round;
use crate::server::copy_text;
use crate::{
    Attempt, Choice, ChoiceBox, ChoiceFn, Delay, DelayBox, Next, Outcome, Pool, PoolOptions,
    ReconnectToServer, Server, ServerInfo, SetServerPoolErrorKind, reconnect_delay_default,
};
use nats_addr::ServerAddr;
use nats_names::NoMemory;
use rand::rngs::SmallRng;
use rand_core::SeedableRng;
use std::alloc::Global;

pub(crate) fn copy_servers(alloc: Global, servers: &[Server]) -> Result<Vec<Server>, NoMemory>
    ensures { IfOk result (λ copies. copies.items ≡ servers.now) }
{
    let mut copies = Vec::new(alloc);
    'servers: for server in servers {
        copies.push(server.copy(alloc)?)?;
    }
    Ok(copies)
}

fn new_servers(alloc: Global, addrs: Vec<ServerAddr>) -> Result<Vec<Server>, NoMemory>
    ensures { IfOk result (λ servers. servers.items ≡ map new_server addrs.items) }
{
    let mut servers = Vec::new(alloc);
    'addrs: for addr in addrs {
        servers.push(Server::new(addr))?;
    }
    Ok(servers)
}

// The server at an address that a new pool has: with the counts that it had, where it had any.
fn keep(alloc: Global, servers: &[Server], addr: ServerAddr) -> Result<Server, NoMemory>
    ensures { IfOk result (λ server. server ≡ kept servers.now addr) }
{
    match find_server(servers, &addr) {
        Some(known) => Ok(Server {
            addr,
            failed_attempts: known.failed_attempts,
            did_connect: known.did_connect,
            is_discovered: false,
            last_error: copy_text(alloc, &known.last_error)?,
        }),
        None => Ok(Server::new(addr)),
    }
}

fn keep_all(
    alloc: Global,
    servers: &[Server],
    addrs: Vec<ServerAddr>,
) -> Result<Vec<Server>, NoMemory>
    ensures { IfOk result (λ all. all.items ≡ map (kept servers.now) addrs.items) }
{
    let mut all = Vec::new(alloc);
    'addrs: for addr in addrs {
        all.push(keep(alloc, servers, addr)?)?;
    }
    Ok(all)
}

fn has_websocket(addrs: &[ServerAddr]) -> bool
    ensures { result ≡ list_any is_websocket addrs.now }
{
    addrs.iter().any(|addr| addr.is_websocket())
}

fn has_other(addrs: &[ServerAddr]) -> bool
    ensures { result ≡ list_any (λ addr. not (is_websocket addr)) addrs.now }
{
    addrs.iter().any(|addr| !addr.is_websocket())
}

fn is_mixed(addrs: &[ServerAddr]) -> bool
    ensures { result ≡ is_mixed addrs.now }
{
    has_websocket(addrs) && has_other(addrs)
}

fn passes(max_reconnects: Option<usize>, attempts: usize) -> bool
    ensures { result ≡ passes max_reconnects attempts }
{
    match max_reconnects {
        None | Some(0) => false,
        Some(limit) => attempts > limit,
    }
}

fn tell(servers: &mut [Server], addr: &ServerAddr, outcome: Outcome)
    ensures { Told addr.now outcome servers.old servers.new }
{
    if let Some(place) = place_of(servers, addr) {
        let server = &mut servers[place];
        match outcome {
            Outcome::Connected => {
                server.failed_attempts = 0;
                server.did_connect = true;
                server.last_error = None;
            }
            Outcome::Failed(text) => {
                server.failed_attempts = server.failed_attempts.saturating_add(1);
                server.last_error = Some(text);
            }
        }
    }
}

// What the callback names of these servers.
fn ask_it(
    choice: &ChoiceFn,
    alloc: Global,
    servers: &[Server],
    last: &ServerInfo,
) -> Result<Option<ReconnectToServer>, NoMemory>
    ensures { IfOk result (IsAnswer (λ f servers info named. ChoiceBox.post f.f servers info named)
        choice.now servers.now last.now) }
{
    let copies = copy_servers(alloc, servers)?;
    let info = last.copy(alloc)?;
    let named = choice.call(copies, info);
    Ok(named)
}

// What the callback names of these servers, where there is one.
fn ask(
    choice: &Option<ChoiceFn>,
    alloc: Global,
    servers: &[Server],
    last: &ServerInfo,
) -> Result<Option<ReconnectToServer>, NoMemory>
    ensures { IfOk result (NamedBy (λ f servers info named. ChoiceBox.post f.f servers info named)
        choice.now servers.now last.now) }
{
    match choice {
        None => Ok(None),
        Some(choice) => ask_it(choice, alloc, servers, last),
    }
}

fn copy_generator(generator: &SmallRng) -> Result<SmallRng, NoMemory>
    ensures { IfOk result (λ copy. copy ≡ generator.now) }
{
    Ok(generator.clone()?)
}

impl Delay {
    fn before(&self, attempts: usize) -> u64
        ensures { WaitsBefore (λ f n ms. DelayBox.post f.f n ms) self.now attempts result }
    {
        match self {
            Delay::Default => reconnect_delay_default(attempts),
            Delay::Custom(f) => f.call(attempts),
        }
    }
}

impl Pool {
    /// The pool of these addresses, in this order. `start` is the generator's seed. Own call of this library.
    pub fn new(
        alloc: Global,
        addrs: Vec<ServerAddr>,
        options: PoolOptions,
        start: u64,
    ) -> Result<Pool, NoMemory>
        ensures { IfOk result (NewPool addrs.items options start) }
    {
        Ok(Pool {
            servers: new_servers(alloc, addrs)?,
            options,
            generator: SmallRng::seed_from_u64(start),
            attempts: 0,
            choice: Choice::Default,
            round: Round::empty(alloc),
        })
    }

    /// Replaces the servers. Those whose address was there keep their counts and their last error. `EmptyPool`
    /// exactly where there is no address, else `MixedSchemes` exactly where some are of `ws` or `wss` and others
    /// are not. A refusal changes nothing. The crate's call.
    pub fn set_server_pool(
        &mut self,
        alloc: Global,
        addrs: Vec<ServerAddr>,
    ) -> Result<(), SetServerPoolErrorKind>
        ensures { SetsPool addrs.items self.old self.new result }
    {
        if addrs.is_empty() {
            return Err(SetServerPoolErrorKind::EmptyPool);
        }
        if is_mixed(addrs.as_slice()) {
            return Err(SetServerPoolErrorKind::MixedSchemes);
        }
        self.servers = keep_all(alloc, self.servers.as_slice(), addrs)?;
        self.attempts = 0;
        Ok(())
    }

    /// A copy of the servers, in order. The crate's call.
    pub fn server_pool(&self, alloc: Global) -> Result<Vec<Server>, NoMemory>
        ensures { IfOk result (λ servers. servers.items ≡ servers_of self.now) }
    {
        copy_servers(alloc, self.servers.as_slice())
    }

    /// Begins a round: that of the server which the callback names, where it is in the pool; else that of all
    /// servers, which are shuffled and then stably sorted by their failures unless the pool's order is retained.
    /// `last` is the last INFO. The crate's rule.
    pub fn begin_round(&mut self, alloc: Global, last: &ServerInfo) -> Result<Choice, NoMemory>
        ensures ok { IfOk result (Begins (λ f servers info named. ChoiceBox.post f.f servers info named)
            last.now self.old self.new) }
        ensures err { OnErr result (self.new ≡ self.old) }
    {
        let named = ask(&self.options.choice, alloc, self.servers.as_slice(), last)?;
        let mut generator = copy_generator(&self.generator)?;
        let (choice, plan) = plan_round(
            alloc,
            named,
            self.servers.as_slice(),
            self.options.retain_servers_order,
            &mut generator,
        )?;
        let copy = copy_plans(alloc, plan.as_slice())?;
        self.round = Round::over(plan, copy);
        self.generator = generator;
        self.choice = choice;
        Ok(choice)
    }

    /// How the servers of the last round were chosen, `Default` before any. Own call of this library.
    pub fn last_choice(&self) -> Choice
        ensures { result ≡ last_choice_of self.now }
    {
        self.choice
    }

    /// The next attempt of the round, counted: `Over` exactly where all its servers were handed out, and then
    /// nothing is counted; `MaxReconnects` exactly where the attempt passes the limit. It takes no memory. The
    /// crate's rule.
    pub fn next_attempt(&mut self) -> Next
        ensures { HandsOut (λ f n ms. DelayBox.post f.f n ms) self.old self.new result }
    {
        if self.round.is_over() {
            return Next::Over;
        }
        self.attempts = self.attempts.saturating_add(1);
        if passes(self.options.max_reconnects, self.attempts) {
            return Next::MaxReconnects;
        }
        match self.round.next() {
            Some(planned) => {
                let delay = match planned.delay {
                    Some(delay) => delay,
                    None => self.options.delay.before(self.attempts),
                };
                Next::Try(Attempt {
                    addr: planned.addr,
                    delay,
                })
            }
            None => Next::Over,
        }
    }

    /// Counts how an attempt at `addr` went, at the first server of that address; where there is none, no server
    /// changes. A success begins the count of attempts anew. It takes no memory. The crate's rule.
    pub fn report(&mut self, addr: &ServerAddr, outcome: Outcome)
        ensures { Reports addr.now outcome self.old self.new }
    {
        if matches!(outcome, Outcome::Connected) {
            self.attempts = 0;
        }
        tell(self.servers.as_mut_slice(), addr, outcome);
    }
}
