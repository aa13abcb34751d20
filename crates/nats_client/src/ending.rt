//! Flushing, draining and connecting anew.
ghost use Rattle.std.specs.Prelude.{◌≡◌, ◌+◌, OnOk, OnErr, IfErr};
ghost use Rattle.nats_refusals.specs.Errors.{RefusesFlush, RefusesClosing};
ghost use Rattle.nats_client.specs.Calls.{counts_flush_error};

use crate::Client;
use nats_core::Call;
use nats_hub::Tallies;
use nats_refusals::{DrainError, FlushError, ReconnectError, Refusal, closing_cause, flush_error};
use std::alloc::Global;
use std::sync::Wait;

impl<G: Tallies> Client<G> {
    /// Flushes as soon as there is room for the call, and waits until the link took all bytes that waited when the
    /// call was handled. The crate's `flush`.
    ///
    /// # Errors
    ///
    /// `SendError` where the session is closed or is to close, or no ticket is left; `FlushError` where the link
    /// ended or the session closed first: the flush was accepted then, and counts; `NoMemory` for want of memory.
    #[tactic(auto, using(crate::proofs::Asks::flush_rules))]
    pub fn flush<R: Wait>(&mut self, rt: &R, alloc: Global) -> Result<(), FlushError>
        ensures held { self.new ≡ record self.old { made = self.new.made } }
        ensures made { self.new.made ≡ self.old.made + counts_flush_error result }
        ensures refused { IfErr result (λ e. RefusesFlush e.0 e.1) }
    {
        match self.holder.flush(rt, alloc) {
            Ok(()) => Ok(()),
            Err(refusal) => Err(flush_error(refusal)),
        }
    }

    /// Makes a call as soon as there is room for it.
    fn tell<R: Wait>(&mut self, rt: &R, alloc: Global, call: Call) -> Result<(), Refusal>
        ensures made { OnOk result (self.new ≡ record self.old { made = self.old.made + 1 }) }
        ensures same { OnErr result (self.new ≡ self.old) }
    {
        match self.holder.call(rt, alloc, call) {
            Ok(_) => Ok(()),
            Err(refusal) => Err(refusal),
        }
    }

    /// Drains all subscriptions, as soon as there is room for the call; then the link ends and the session closes.
    /// Later calls are refused. The crate's `drain`.
    ///
    /// # Errors
    ///
    /// With cause `Closed` where the session is closed or is to close, with cause `NoMemory` for want of memory. This
    /// client is then as it was.
    #[tactic(auto, using(nats_refusals::proofs::Telling::tells_closing))]
    pub fn drain<R: Wait>(&mut self, rt: &R, alloc: Global) -> Result<(), DrainError>
        ensures made { OnOk result (self.new ≡ record self.old { made = self.old.made + 1 }) }
        ensures same { OnErr result (self.new ≡ self.old) }
        ensures refused { IfErr result (λ e. RefusesClosing e.0) }
    {
        match self.tell(rt, alloc, Call::DrainAll) {
            Ok(()) => Ok(()),
            Err(refusal) => Err(DrainError(closing_cause(refusal))),
        }
    }

    /// Ends the link once the calls before this one are handled, so that another is tried; as soon as there is room
    /// for the call. The crate's `force_reconnect`.
    ///
    /// # Errors
    ///
    /// Those of `drain`.
    #[tactic(auto, using(nats_refusals::proofs::Telling::tells_closing))]
    pub fn force_reconnect<R: Wait>(&mut self, rt: &R, alloc: Global) -> Result<(), ReconnectError>
        ensures made { OnOk result (self.new ≡ record self.old { made = self.old.made + 1 }) }
        ensures same { OnErr result (self.new ≡ self.old) }
        ensures refused { IfErr result (λ e. RefusesClosing e.0) }
    {
        match self.tell(rt, alloc, Call::Reconnect) {
            Ok(()) => Ok(()),
            Err(refusal) => Err(ReconnectError(closing_cause(refusal))),
        }
    }
}
