//! The servers that a server tells of.
ghost use Rattle.std.specs.Prelude.{◌≡◌, ◌++◌, ◌∷◌, [], ℕ, List, IfOk, OnOk, OnErr};
ghost use Rattle.nats_addr.specs.Addr.{addr_of};
ghost use Rattle.nats_pool.specs.Discovery.{with_discovered, with_spelled, with_texts, onto_skipped, skipped_of, Discovers, WantsToDiscover};

use crate::choose::has_server;
use crate::pool::copy_servers;
use crate::{AddrError, Pool, Server};
use nats_addr::ServerAddr;
use nats_names::{NoMemory, Text};
use std::alloc::Global;

fn add(servers: &mut Vec<Server>, addr: ServerAddr) -> Result<(), NoMemory>
    ensures { OnOk result (servers.new.items ≡ with_discovered servers.old.items addr) }
{
    if !has_server(servers.as_slice(), &addr) {
        servers.push(Server::discovered(addr))?;
    }
    Ok(())
}

fn skip(alloc: Global, skipped: &mut Vec<Text>, text: &Text) -> Result<(), NoMemory>
    ensures { OnOk result (skipped.new.items ≡ skipped.old.items ++ text.now ∷ []) }
{
    skipped.push(text.copy(alloc)?)?;
    Ok(())
}

// Takes in the server of a text, or skips the text.
fn take_text(
    alloc: Global,
    servers: &mut Vec<Server>,
    skipped: &mut Vec<Text>,
    text: &Text,
) -> Result<(), NoMemory>
    ensures servers { OnOk result (servers.new.items ≡ with_spelled servers.old.items (addr_of text.now)) }
    ensures skipped { OnOk result ((more : List (List ℕ))
        → skipped.new.items ++ more ≡ skipped.old.items ++ onto_skipped text.now (addr_of text.now) more) }
{
    match ServerAddr::parse(alloc, text.as_str()) {
        Ok(addr) => add(servers, addr),
        Err(AddrError::NoMemory) => Err(NoMemory),
        Err(AddrError::Url | AddrError::Scheme) => skip(alloc, skipped, text),
    }
}

// The servers with those of these texts, and the texts that are skipped.
fn take_texts(
    alloc: Global,
    servers: &[Server],
    urls: &[Text],
) -> Result<(Vec<Server>, Vec<Text>), NoMemory>
    ensures servers { IfOk result (λ both. both.0.items ≡ with_texts servers.now urls.now) }
    ensures skipped { IfOk result (λ both. both.1.items ≡ skipped_of urls.now) }
{
    let mut all = copy_servers(alloc, servers)?;
    let mut skipped = Vec::new(alloc);
    let mut rest = urls;
    'texts: while let Some((text, behind)) = rest.split_first() {
        take_text(alloc, &mut all, &mut skipped, text)?;
        rest = behind;
    }
    Ok((all, skipped))
}

/// What takes in the servers that a server tells of. Own trait: a handshake needs no more of a pool.
pub trait ServerList {
    /// `Takes before after urls skipped` says that these texts come to `after`, and that those are skipped.
    ghost Takes: { Self → Self → List (List ℕ) → List (List ℕ) → Type 0 };

    /// Takes in the servers of these addresses and answers the texts that it skipped, in order. Without memory for
    /// it nothing changes.
    fn take_in(&mut self, alloc: Global, urls: &[Text]) -> Result<Vec<Text>, NoMemory>
        ensures takes { IfOk result (λ skipped. Takes self.old self.new urls.now skipped.items) }
        ensures refused { OnErr result (self.new ≡ self.old) };
}

impl ServerList for Pool {
    ghost Takes = { λ before after urls skipped. Discovers urls before after skipped };

    fn take_in(&mut self, alloc: Global, urls: &[Text]) -> Result<Vec<Text>, NoMemory> {
        self.discover(alloc, urls)
    }
}

impl Pool {
    /// Puts the servers of these addresses behind those of the pool, each that is new, in order; one that is there
    /// stays as it is. A text that spells no address is skipped; the answer is the skipped texts, in order. A pool
    /// that was told to leave such servers out does nothing. `NoMemory` changes nothing; it does not come where there
    /// is no text, nor in such a pool. The crate's rule, but that the crate refuses the link for one such text.
    pub fn discover(&mut self, alloc: Global, urls: &[Text]) -> Result<Vec<Text>, NoMemory>
        ensures takes { IfOk result (λ skipped. Discovers urls.now self.old self.new skipped.items) }
        ensures refused { OnErr result (WantsToDiscover urls.now self.old self.new) }
    {
        if self.options.ignore_discovered_servers || urls.is_empty() {
            return Ok(Vec::new(alloc));
        }
        let (servers, skipped) = take_texts(alloc, self.servers.as_slice(), urls)?;
        self.servers = servers;
        Ok(skipped)
    }
}
