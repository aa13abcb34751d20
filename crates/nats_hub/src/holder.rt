//! A holder of a hub: its parts of the ledger, and the accepted calls that it made.
ghost use Rattle.std.specs.Prelude.{◌≡◌, ◌==◌, ◌↔◌, ◌+◌, ◌<◌, ◌^◌, ◌/◌, ◌-◌, OnOk, OnErr, IfOk, IfErr, true, false, max, min};
ghost use Rattle.nats_core.specs.Journal.{IsRight};
ghost use Rattle.nats_refusals.specs.Refusals.{MayAnswer, MayRefuseForPart, counts, is_numbered};
ghost use Rattle.nats_hub.specs.Tallying.{Holding, accepted_in};
ghost use Rattle.nats_hub.specs.Finishing.{Back};
ghost use Rattle.nats_hub.specs.declared.holder.CloneError.TheVariants as refused;

use crate::events::Events;
use crate::locked::Locked;
use crate::{Audit, Hub, Tallies};
use nats_core::{Call, Config, Core, NoMemory};
use nats_refusals::Refusal;
use std::alloc::Global;
use std::error::Error;
use std::fmt;
use std::marker::Model;
use std::sync::ledger::{Blank, Share};
use std::sync::{Arc, Wait};

/// How many parts all holders of a hub have together.
pub const ALL_PARTS: u64 = 1 << 63;

/// A clone takes this fraction of its source's parts, and at least one.
pub const CLONES: u64 = 65_536;

/// A holder of a hub. Contracts see it as its parts, and the accepted calls that it made. Own type: what a client and a
/// subscriber have in common.
#[derive(Drop)]
pub struct Holder<G: Tallies> {
    hub: Arc<Hub<G>, Global>,
    share: Share<G>,
    parts: u64,
    made: u64,
}

impl<G: Tallies> Model for Holder<G> {
    ghost use Rattle.std.specs.Prelude.{◌≡◌, ◌<◌, ◌≤◌, ◌^◌, ◌-◌, min};
    ghost use Rattle.nats_hub.specs.Tallying.{Holding};

    ghost Value = { Holding };

    ghost view = { λ c. record { parts = c.share.parts; made = c.share.amount } };

    ghost invariant = { λ c. (c.parts ≡ c.share.parts) × (0 < c.parts) × (c.parts ≤ 2 ^ 63)
        × (c.made ≡ min c.share.amount (2 ^ 64 - 1)) };
}

/// Why a holder was not cloned. Own type: the crate's clients are cloned without end.
#[derive(Clone, Copy, Debug, PartialEq, Eq)]
pub enum CloneError {
    /// It has one part alone.
    NoPart,
    /// Want of memory.
    NoMemory,
}

impl fmt::Display for CloneError {
    ghost use Rattle.std.specs.Prelude.{Some};
    ghost use Rattle.nats_hub.specs.Cloning.{clone_error_text};

    ghost output = { λ error. Some (clone_error_text error) };

    fn fmt<W: fmt::Write>(&self, f: &mut fmt::Formatter<W>) -> fmt::Result {
        match self {
            CloneError::NoPart => write!(f, "no part left"),
            CloneError::NoMemory => write!(f, "out of memory"),
        }
    }
}

impl Error for CloneError {}

/// Why a hub was not finished: the holder comes back. Own type.
#[derive(Drop)]
pub enum Unfinished<G: Tallies> {
    /// Another holder is not settled.
    Held(Holder<G>),
    /// Want of memory.
    NoMemory(Holder<G>),
}

impl<G: Tallies> Holder<G> {
    /// The first holder of a new hub, which has all parts. The session has these settings and no link, the journal is
    /// kept where `journal` is true, and the hub's generator begins with the number `start`.
    ///
    /// # Errors
    ///
    /// `NoMemory` for want of memory.
    pub fn over(
        alloc: Global,
        blank: Blank,
        config: Config,
        journal: bool,
        start: u64,
    ) -> Result<Holder<G>, NoMemory>
        requires name { blank.name ≡ G.name }
        requires parts { blank.parts ≡ G.parts }
        requires all { blank.parts ≡ 2 ^ 63 }
        requires kept { journal ≡ G.is_kept }
        ensures { IfOk result (λ holder. holder ≡ record { parts = 2 ^ 63; made = 0 }) }
    {
        let core = Core::new(alloc, config, journal)?;
        let events = Events::new(alloc)?;
        let (tallies, share) = blank.open::<G>();
        let hub = Arc::new(alloc, Hub::new(Locked::new(core, tallies, events), start))?;
        Ok(Holder {
            hub,
            share,
            parts: ALL_PARTS,
            made: 0,
        })
    }

    /// Another holder of this hub, which made no call yet. It takes the 65,536th part of this one's parts, and at least
    /// one part.
    ///
    /// # Errors
    ///
    /// `NoPart` exactly where this one has one part alone; `NoMemory` for want of memory. This holder is then as it
    /// was.
    pub fn clone(&mut self) -> Result<Holder<G>, CloneError>
        ensures clone { IfOk result (λ holder. holder ≡ record { parts = max 1 (self.old.parts / 65536); made = 0 }) }
        ensures left { OnOk result (self.new
            ≡ record self.old { parts = self.old.parts - max 1 (self.old.parts / 65536) }) }
        ensures same { OnErr result (self.new ≡ self.old) }
        ensures none { IfErr result (λ e. (e ≡ refused.NoPart) ↔ (self.old.parts ≡ 1)) }
        ensures some { OnOk result (1 < self.old.parts) }
    {
        if self.parts == 1 {
            return Err(CloneError::NoPart);
        }
        let parts = (self.parts / CLONES).max(1);
        let hub = match Arc::try_clone(&self.hub) {
            Ok(hub) => hub,
            Err(_) => return Err(CloneError::NoMemory),
        };
        let share = self.share.split_off(parts, 0);
        self.parts -= parts;
        Ok(Holder {
            hub,
            share,
            parts,
            made: 0,
        })
    }

    /// Takes over the parts and the tally of another holder of this hub. It takes no memory and waits for nothing.
    pub fn settle(&mut self, other: Holder<G>)
        requires { G.parts ≡ 2 ^ 63 }
        ensures { self.new ≡ record { parts = self.old.parts + other.parts; made = self.old.made + other.made } }
    {
        let Holder {
            hub: _,
            share,
            parts,
            made,
        } = other;
        self.share.merge(share);
        self.parts += parts;
        self.made = self.made.saturating_add(made);
    }

    /// What the hub came to, where this holder has all parts.
    ///
    /// # Errors
    ///
    /// The holder comes back as it was: `Held` exactly where it has fewer than all parts, so that another holder is not
    /// settled; `NoMemory` for want of memory.
    pub fn finish<R: Wait>(mut self, rt: &R, alloc: Global) -> Result<Audit, Unfinished<G>>
        requires { G.parts ≡ 2 ^ 63 }
        ensures right { IfOk result (λ audit. IsRight audit.config audit.journal.items) }
        ensures accepted { IfOk result (λ audit. audit.tally.accepted ≡ accepted_in audit.journal.items) }
        ensures made { IfOk result (λ audit. audit.tally.made ≡ min self.made (2 ^ 64 - 1)) }
        ensures equal { IfOk result (λ audit. G.is_kept ≡ true → audit.tally.made ≡ audit.tally.accepted) }
        ensures whole { OnOk result (self.parts ≡ 2 ^ 63) }
        ensures back { IfErr result (λ e. Back self e) }
    {
        if self.parts < ALL_PARTS {
            return Err(Unfinished::Held(self));
        }
        let made = self.made;
        let audit = self.hub.locked.lock(rt).audit(alloc, &mut self.share, made);
        match audit {
            Ok(audit) => Ok(audit),
            Err(NoMemory) => Err(Unfinished::NoMemory(self)),
        }
    }

    /// Another handle of the hub, for a job.
    ///
    /// # Errors
    ///
    /// `NoMemory` for want of memory.
    pub fn hub_again(&self) -> Result<Arc<Hub<G>, Global>, NoMemory> {
        match Arc::try_clone(&self.hub) {
            Ok(hub) => Ok(hub),
            Err(_) => Err(NoMemory),
        }
    }

    /// The hub.
    pub fn hub(&self) -> &Hub<G> {
        &self.hub
    }

    /// Whether it has one part alone, so that it can give none away.
    pub fn has_one_part(&self) -> bool
        ensures one { result ≡ (self.now.parts == 1) }
        ensures some { 0 < self.now.parts }
    {
        self.parts == 1
    }

    /// Makes a call as soon as there is room for it: the number or the ticket that it gave, if it gives one.
    ///
    /// # Errors
    ///
    /// Why it was refused, never for want of room; `NoMemory` for want of memory. This holder is then as it was.
    pub fn call<R: Wait>(
        &mut self,
        rt: &R,
        alloc: Global,
        call: Call,
    ) -> Result<Option<u64>, Refusal>
        ensures made { self.new ≡ record self.old { made = self.old.made + counts result } }
        ensures may { MayAnswer true call result }
    {
        let answer = self.hub.call(rt, alloc, &mut self.share, call);
        self.made = self.made.saturating_add(u64::from(answer.is_ok()));
        answer
    }

    /// Makes a call at once: the number or the ticket that it gave, if it gives one.
    ///
    /// # Errors
    ///
    /// Why it was refused: `Full` where as many calls wait as may; `NoMemory` for want of memory. This holder is then
    /// as it was.
    pub fn try_call<R: Wait>(
        &mut self,
        rt: &R,
        alloc: Global,
        call: Call,
    ) -> Result<Option<u64>, Refusal>
        ensures made { self.new ≡ record self.old { made = self.old.made + counts result } }
        ensures may { MayAnswer false call result }
    {
        let answer = self.hub.try_call(rt, alloc, &mut self.share, call);
        self.made = self.made.saturating_add(u64::from(answer.is_ok()));
        answer
    }

    /// Makes a call that gives a number as soon as there is room for it, and gives one part to a new holder for what it
    /// numbers.
    ///
    /// # Errors
    ///
    /// First of all `NoPart` exactly where this holder has one part alone; then why the call was refused, never for
    /// want of room; `NoMemory` for want of memory. This holder is then as it was.
    pub fn call_for_part<R: Wait>(
        &mut self,
        rt: &R,
        alloc: Global,
        call: Call,
    ) -> Result<(Holder<G>, u64), Refusal>
        requires { is_numbered call ≡ true }
        ensures holder { IfOk result (λ p. p.0 ≡ record { parts = 1; made = 0 }) }
        ensures left { OnOk result (self.new ≡ record { parts = self.old.parts - 1; made = self.old.made + 1 }) }
        ensures same { OnErr result (self.new ≡ self.old) }
        ensures may { IfErr result (λ r. MayRefuseForPart true call self.old.parts r) }
    {
        if self.parts == 1 {
            return Err(Refusal::NoPart);
        }
        let hub = match Arc::try_clone(&self.hub) {
            Ok(hub) => hub,
            Err(_) => return Err(Refusal::NoMemory),
        };
        match self.call(rt, alloc, call)? {
            Some(number) => Ok((self.part(hub), number)),
            None => unreachable!(),
        }
    }

    /// Makes a call that is given a number and splits off a holder of one part for it, as `call_for_part` does, but
    /// never waits for room.
    ///
    /// # Errors
    ///
    /// Those of `call_for_part`, and `Full` where as many calls wait as may.
    pub fn try_call_for_part<R: Wait>(
        &mut self,
        rt: &R,
        alloc: Global,
        call: Call,
    ) -> Result<(Holder<G>, u64), Refusal>
        requires { is_numbered call ≡ true }
        ensures holder { IfOk result (λ p. p.0 ≡ record { parts = 1; made = 0 }) }
        ensures left { OnOk result (self.new ≡ record { parts = self.old.parts - 1; made = self.old.made + 1 }) }
        ensures same { OnErr result (self.new ≡ self.old) }
        ensures may { IfErr result (λ r. MayRefuseForPart false call self.old.parts r) }
    {
        if self.parts == 1 {
            return Err(Refusal::NoPart);
        }
        let hub = match Arc::try_clone(&self.hub) {
            Ok(hub) => hub,
            Err(_) => return Err(Refusal::NoMemory),
        };
        match self.try_call(rt, alloc, call)? {
            Some(number) => Ok((self.part(hub), number)),
            None => unreachable!(),
        }
    }

    /// A new holder with one part of this one.
    fn part(&mut self, hub: Arc<Hub<G>, Global>) -> Holder<G>
        requires { 1 < self.old.parts }
        ensures one { result ≡ record { parts = 1; made = 0 } }
        ensures left { self.new ≡ record self.old { parts = self.old.parts - 1 } }
    {
        let share = self.share.split_off(1, 0);
        self.parts -= 1;
        Holder {
            hub,
            share,
            parts: 1,
            made: 0,
        }
    }
}
