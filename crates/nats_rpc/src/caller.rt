//! A caller: calls that are tried again until one of their attempts is replied to.
ghost use Rattle.std.specs.Prelude.{◌≡◌, ◌≢◌, ◌<◌, ◌≤◌, ◌^◌, ◌-◌, suc, [], length, IfOk, OnOk, OnErr, IfErr, MatchResult, Ok, Err};
ghost use Rattle.nats_rpc.specs.declared.caller.AskError.TheVariants as refused;
ghost use Rattle.nats_rpc.specs.Polling.{new_caller, with_call, Polls};

use crate::asked::{Asked, Stage};
use crate::attempt::advance;
use crate::outcome::Outcome;
use crate::terms::{NAME_LIMIT, Terms};
use nats_core::{Bytes, Core, NoMemory, Subject, Token};
use std::alloc::{AllocError, Global};
use std::marker::Model;

/// Why a call was not taken in.
#[derive(Clone, Copy, Debug, PartialEq, Eq)]
pub enum AskError {
    /// The number 2^64 - 1 was given, and none follows it.
    NoCall,
    /// Want of memory.
    NoMemory,
}

/// Calls that are tried again. Each is a request to a subject; where no reply comes in time, it is made anew under a
/// token of its own, so that a late reply to an earlier attempt is none to a later one. The tokens are the caller's
/// name and a number that counts the attempts of all its calls, from 1. Our own: the crate's request has a timeout and
/// no further try.
///
/// On one core no other request may use a token that begins with the name: so of two callers on a core neither name
/// begins with the other.
#[derive(Drop)]
pub struct Caller {
    terms: Terms,
    numbers: u64,
    calls: Vec<Asked>,
}

impl Model for Caller {
    ghost use Rattle.std.specs.Prelude.{◌≤◌, length};
    ghost use Rattle.nats_rpc.specs.Polling.{Calling, calling_of};
    ghost use Rattle.nats_rpc.specs.declared.terms.TheConstants.{NAME_LIMIT};

    ghost Value = { Calling };

    ghost view = { λ caller. calling_of caller.terms caller.numbers caller.calls.items };

    ghost invariant = { λ caller. length caller.terms.name ≤ NAME_LIMIT };
}

impl Caller {
    /// A caller with this name, whose calls make so many requests each at most, and whose attempts wait so many
    /// milliseconds for their replies. It has no calls. Its conditions are that the name has `NAME_LIMIT` bytes at
    /// most, and that there is one try at least. It takes no memory.
    pub fn new(alloc: Global, name: Token, tries: u64, patience: u64) -> Caller
        requires name { length name ≤ NAME_LIMIT }
        requires tries { 1 ≤ tries }
        ensures { result ≡ new_caller name tries patience }
    {
        Caller {
            terms: Terms {
                name,
                tries,
                patience,
            },
            numbers: 0,
            calls: Vec::new(alloc),
        }
    }

    /// How many calls were taken in: they have the numbers from 1 to that.
    pub fn calls(&self) -> u64
        ensures { result ≡ length self.now.calls }
    {
        self.calls.len() as u64
    }

    /// Takes in a call, and answers its number. Nothing is sent before it is polled.
    ///
    /// # Errors
    ///
    /// `NoCall` exactly where number 2^64 - 1 was given. `NoMemory` for want of memory. The caller is as it was then.
    pub fn ask(&mut self, alloc: Global, subject: Subject, payload: Bytes) -> Result<u64, AskError>
        ensures number { IfOk result (λ number. number ≡ suc (length self.old.calls)) }
        ensures ok { OnOk result (self.new ≡ with_call subject payload self.old) }
        ensures full { IfErr result (λ e. e ≡ refused.NoCall → length self.old.calls ≡ 2 ^ 64 - 1) }
        ensures wants { IfErr result (λ e. e ≡ refused.NoMemory → length self.old.calls ≢ 2 ^ 64 - 1) }
        ensures fits { OnOk result (length self.old.calls < 2 ^ 64 - 1) }
        ensures err { OnErr result (self.new ≡ self.old) }
    {
        let count = self.calls.len() as u64;
        if count == u64::MAX {
            return Err(AskError::NoCall);
        }
        let asked = Asked {
            subject,
            payload,
            tried: 0,
            stage: Stage::Resting,
        };
        match self.calls.push(asked) {
            Ok(()) => Ok(count + 1),
            Err(_) => Err(AskError::NoMemory),
        }
    }

    /// Does for a call what is to be done at this time, in milliseconds, and answers what the call comes to. Steps of
    /// the core that are due are played first. Then:
    ///
    /// 1. A settled call answers its outcome again.
    /// 2. An attempt whose ticket settled settles the call: replied and no responders stay as they are, any other
    ///    reply of the ticket refuses the call.
    /// 3. An attempt that waited as long as it may gets its deadline, whose reply is taken at once.
    /// 4. A call without an attempt that has a try left makes the next request, under the next token. Where the core
    ///    refuses it as full the call is left for the next poll; any other refusal settles the call. A refused request
    ///    uses up neither a try nor a token's number. Behind number 2^64 - 1 there is none, and the call is refused.
    /// 5. A call without an attempt and without a try left timed out.
    ///
    /// `Waiting` is answered exactly where the call is not settled. The condition is that the call's number was given.
    /// The core is to be the same at each poll, and nobody else is to play a deadline for the caller's tickets or to
    /// take their replies.
    ///
    /// # Errors
    ///
    /// `NoMemory` for want of memory. Behind a deadline the call has no attempt then; a reply that was taken is kept,
    /// and is answered by the next poll.
    pub fn poll(
        &mut self,
        alloc: Global,
        core: &mut Core,
        call: u64,
        now: u64,
    ) -> Result<Outcome, NoMemory>
        requires some { 0 < call }
        requires given { call ≤ length self.old.calls }
        ensures { Polls call now self.old core.old result self.new core.new }
    {
        core.catch_up(alloc)?;
        let asked = &mut self.calls[(call - 1) as usize];
        advance(alloc, &self.terms, &mut self.numbers, asked, core, now)?;
        asked.outcome(alloc)
    }
}
