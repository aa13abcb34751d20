//! A client: what it holds, and how it is made, cloned, settled and finished.
ghost use Rattle.std.specs.Prelude.{◌≡◌, ◌+◌, ◌-◌, ◌^◌, true, false, IfOk, OnOk, OnErr, IfErr, Some, max, min, ◌↔◌, ◌<◌, ◌/◌};
ghost use Rattle.nats_core.specs.Journal.{IsRight};
ghost use Rattle.nats_hub.specs.Tallying.{accepted_in};
ghost use Rattle.nats_hub.specs.declared.holder.CloneError.TheVariants as refused;
ghost use Rattle.nats_client.specs.Finishing.{Returned};
ghost use Rattle.nats_client.specs.Views.{client_of};

use nats_core::{Config, NoMemory};
use nats_hub::{Audit, CloneError, Holder, Hub, Tallies, Unfinished};
use std::alloc::Global;
use std::error::Error;
use std::fmt;
use std::marker::Model;
use std::sync::Wait;
use std::sync::ledger::Blank;

/// How many milliseconds a request waits for its reply by default. The crate's.
pub const REQUEST_TIMEOUT_MS: u64 = 10_000;

/// A client of a hub. Contracts see it as its parts, the accepted calls that it made, how long its requests wait, and
/// whether it was shut by `poll_close`. The crate's `Client`.
///
/// It is made by `over`, cloned by `clone` for each thread, and settled by `settle` into another once its thread is
/// done. Who has all parts again may `finish` the hub.
#[derive(Drop)]
pub struct Client<G: Tallies> {
    pub(crate) holder: Holder<G>,
    pub(crate) timeout: Option<u64>,
    pub(crate) is_shut: bool,
}

impl<G: Tallies> Model for Client<G> {
    ghost use Rattle.nats_client.specs.Views.{ClientView, client_of};

    ghost Value = { ClientView };

    ghost view = { λ c. client_of c.holder c.timeout c.is_shut };
}

/// Why a hub was not finished: the client comes back. Own type.
#[derive(Drop)]
pub enum FinishError<G: Tallies> {
    /// Another client or subscriber is not settled.
    Held(Client<G>),
    /// Want of memory.
    NoMemory(Client<G>),
}

impl<G: Tallies> fmt::Debug for FinishError<G> {
    fn fmt<W: fmt::Write>(&self, f: &mut fmt::Formatter<W>) -> fmt::Result {
        match self {
            FinishError::Held(_) => write!(f, "Held"),
            FinishError::NoMemory(_) => write!(f, "NoMemory"),
        }
    }
}

impl<G: Tallies> fmt::Display for FinishError<G> {
    ghost use Rattle.std.specs.Prelude.{Some};
    ghost use Rattle.nats_client.specs.Finishing.{finish_error_text};

    ghost output = { λ error. Some (finish_error_text error) };

    fn fmt<W: fmt::Write>(&self, f: &mut fmt::Formatter<W>) -> fmt::Result {
        match self {
            FinishError::Held(_) => write!(f, "another client or subscriber is not settled"),
            FinishError::NoMemory(_) => write!(f, "out of memory"),
        }
    }
}

impl<G: Tallies> Error for FinishError<G> {}

impl<G: Tallies> Client<G> {
    /// A client of a new hub, which has all parts. The session has these settings and no link: `Hub::play` drives
    /// it. The journal is kept where `journal` is true, and then takes memory for each turn. The hub's generator,
    /// from which inboxes and the tokens of requests are drawn, begins with the number `start`. Own call: the crate
    /// connects.
    ///
    /// # Errors
    ///
    /// `NoMemory` for want of memory.
    pub fn over(
        alloc: Global,
        blank: Blank,
        config: Config,
        journal: bool,
        start: u64,
    ) -> Result<Client<G>, NoMemory>
        requires name { blank.name ≡ G.name }
        requires parts { blank.parts ≡ G.parts }
        requires all { blank.parts ≡ 2 ^ 63 }
        requires kept { journal ≡ G.is_kept }
        ensures { IfOk result (λ client.
            client ≡ record { parts = 2 ^ 63; made = 0; timeout = Some REQUEST_TIMEOUT_MS; is_shut = false }) }
    {
        Ok(Client {
            holder: Holder::over(alloc, blank, config, journal, start)?,
            timeout: Some(REQUEST_TIMEOUT_MS),
            is_shut: false,
        })
    }

    /// A client over a holder of a hub, whose requests wait for so many milliseconds, if not for ever. Own call: what
    /// connects makes the hub and its holder first.
    pub fn over_holder(holder: Holder<G>, timeout: Option<u64>) -> Client<G>
        ensures { result ≡ client_of holder timeout false }
    {
        Client {
            holder,
            timeout,
            is_shut: false,
        }
    }

    /// Another client of this hub, which made no call yet and is not shut. It takes the 65,536th part of this one's
    /// parts, and at least one part. The crate's `clone`, which always succeeds.
    ///
    /// # Errors
    ///
    /// `NoPart` exactly where this one has one part alone; `NoMemory` for want of memory. This client is then as it
    /// was.
    pub fn clone(&mut self) -> Result<Client<G>, CloneError>
        ensures clone { IfOk result (λ client.
            client ≡ record self.old { parts = max 1 (self.old.parts / 65536); made = 0; is_shut = false }) }
        ensures left { OnOk result (self.new
            ≡ record self.old { parts = self.old.parts - max 1 (self.old.parts / 65536) }) }
        ensures same { OnErr result (self.new ≡ self.old) }
        ensures none { IfErr result (λ e. (e ≡ refused.NoPart) ↔ (self.old.parts ≡ 1)) }
        ensures some { OnOk result (1 < self.old.parts) }
    {
        Ok(Client {
            holder: self.holder.clone()?,
            timeout: self.timeout,
            is_shut: false,
        })
    }

    /// Takes over the parts and the tally of another client of this hub. It takes no memory and waits for nothing.
    /// Own call.
    pub fn settle(&mut self, other: Client<G>)
        requires { G.parts ≡ 2 ^ 63 }
        ensures { self.new
            ≡ record self.old { parts = self.old.parts + other.parts; made = self.old.made + other.made } }
    {
        let Client {
            holder,
            timeout: _,
            is_shut: _,
        } = other;
        self.holder.settle(holder)
    }

    /// Takes over what a subscriber holds.
    pub(crate) fn take_over(&mut self, holder: Holder<G>)
        requires { G.parts ≡ 2 ^ 63 }
        ensures { self.new
            ≡ record self.old { parts = self.old.parts + holder.parts; made = self.old.made + holder.made } }
    {
        self.holder.settle(holder)
    }

    /// The hub that it is a client of. Own call.
    pub fn hub(&self) -> &Hub<G> {
        self.holder.hub()
    }

    /// What the hub came to, where this client has all parts: copies of its settings and its journal, how many
    /// accepted calls its holders made together, and how many the journal has. The two numbers are equal where the
    /// journal is kept; the journal is empty where it is not. Own call.
    ///
    /// # Errors
    ///
    /// The client comes back as it was: `Held` exactly where it has fewer than all parts, which is while another
    /// client or subscriber is not settled; `NoMemory` for want of memory.
    pub fn finish<R: Wait>(self, rt: &R, alloc: Global) -> Result<Audit, FinishError<G>>
        requires { G.parts ≡ 2 ^ 63 }
        ensures right { IfOk result (λ audit. IsRight audit.config audit.journal.items) }
        ensures accepted { IfOk result (λ audit. audit.tally.accepted ≡ accepted_in audit.journal.items) }
        ensures made { IfOk result (λ audit. audit.tally.made ≡ min self.made (2 ^ 64 - 1)) }
        ensures equal { IfOk result (λ audit. G.is_kept ≡ true → audit.tally.made ≡ audit.tally.accepted) }
        ensures whole { OnOk result (self.parts ≡ 2 ^ 63) }
        ensures back { IfErr result (λ e. Returned self e) }
    {
        let Client {
            holder,
            timeout,
            is_shut,
        } = self;
        match holder.finish(rt, alloc) {
            Ok(audit) => Ok(audit),
            Err(Unfinished::Held(holder)) => Err(FinishError::Held(Client {
                holder,
                timeout,
                is_shut,
            })),
            Err(Unfinished::NoMemory(holder)) => Err(FinishError::NoMemory(Client {
                holder,
                timeout,
                is_shut,
            })),
        }
    }
}
