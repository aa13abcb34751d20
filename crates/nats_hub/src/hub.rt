//! What the holders of one session share. This is the one file that waits.
ghost use Rattle.std.specs.Prelude.{◌≡◌, ◌≢◌, ◌+◌, ◌<◌, IfOk, IfSome, ◌⊎◌, vec_len, length, false, true};
ghost use Rattle.std.specs.List.{concat};
ghost use Rattle.nats_history.specs.declared.call.TakeReply.TheVariants as takes;
ghost use Rattle.nats_refusals.specs.Refusals.{MayAnswer, counts};
ghost use Rattle.nats_hub.specs.Asking.{Objects};
ghost use Rattle.nats_hub.specs.Tallying.{is_do};

use crate::Tallies;
use crate::locked::{Locked, Tried};
use nats_core::{Bytes, Call, CallReply, Message, NoMemory, StepError, StepReply, TakeReply, Turn};
use nats_refusals::Refusal;
use rand::SeedableRng;
use rand::rngs::SmallRng;
use std::alloc::Global;
use std::sync::ledger::Share;
use std::sync::{Condvar, Mutex, Wait};
use std::time::Duration;

/// What all holders of one session share: the session and the book of their tallies, under one lock, which is held for
/// one turn at a time and never while a call waits. A hub on which nobody plays turns has its waiting calls wait for
/// ever. Own type: the crate has a spawned task.
#[derive(Drop)]
pub struct Hub<G: Tallies> {
    pub(crate) locked: Mutex<Locked<G>>,
    /// For calls that wait for room.
    room: Condvar,
    /// For who writes to the link.
    bytes: Condvar,
    /// For calls that wait for a message or a reply.
    came: Condvar,
    pub(crate) generator: Mutex<SmallRng>,
}

/// What a call came to, and whether it leaves a writer to be woken.
struct Made {
    answer: Result<Option<u64>, Refusal>,
    wakes_writer: bool,
}

/// Whether a call changes nothing for other calls that wait, but for what there is to write.
fn is_quiet(call: &Call) -> bool {
    matches!(call, Call::Publish(_) | Call::Subscribe { .. })
}

impl<G: Tallies> Hub<G> {
    /// A hub of this session, whose generator begins with the number `start`.
    pub(crate) fn new(locked: Locked<G>, start: u64) -> Hub<G> {
        Hub {
            locked: Mutex::new(locked),
            room: Condvar::new(),
            bytes: Condvar::new(),
            came: Condvar::new(),
            generator: Mutex::new(SmallRng::seed_from_u64(start)),
        }
    }

    /// Wakes all who wait.
    fn wake_all(&self) {
        self.room.notify_all();
        self.bytes.notify_all();
        self.came.notify_all();
    }

    /// Wakes who waits for what a call changed: who writes alone, where that is all. A writer that was woken and did
    /// not come to it yet is not woken once more, as each time is a call of the system.
    fn wake_behind(&self, is_quiet: bool, wakes_writer: bool) {
        if !is_quiet {
            self.wake_all();
        } else if wakes_writer {
            self.bytes.notify_all();
        }
    }

    /// Wakes all who wait where steps are still due that wanted memory: the next turn, which holds the lock, plays
    /// them.
    fn wake_where_behind(&self, is_behind: bool) {
        if is_behind {
            self.wake_all();
        }
    }

    /// Plays a turn that is no call, and wakes the calls that wait. Its condition has each accepted call be that of a
    /// holder. Own call: whoever drives the session by hand plays what its link did.
    ///
    /// # Errors
    ///
    /// Those of `Core::step`: `OutOfTurn` where the turn may not come, `NoMemory` for want of memory.
    pub fn play<R: Wait>(&self, rt: &R, alloc: Global, turn: Turn) -> Result<StepReply, StepError>
        requires { is_do turn ≡ false }
    {
        let reply = self.locked.lock(rt).play(alloc, turn);
        self.wake_all();
        reply
    }

    /// Plays a turn that is no call on the link of this number, if that is the one that is up, and wakes the calls that
    /// wait. Own call.
    ///
    /// # Errors
    ///
    /// Those of `Core::step_on`: `LinkGone` with the number of the link that is up, or 0, where the given one is not;
    /// `OutOfTurn` where the turn may not come; `NoMemory` for want of memory.
    pub fn play_on<R: Wait>(
        &self,
        rt: &R,
        alloc: Global,
        link: u64,
        turn: Turn,
    ) -> Result<StepReply, StepError>
        requires { is_do turn ≡ false }
    {
        let reply = self.locked.lock(rt).play_on(alloc, link, turn);
        self.wake_all();
        reply
    }

    /// Takes the oldest message of the subscription of this number as soon as one waits. `Ended` where none will come.
    /// The lock is let go while it waits.
    ///
    /// # Errors
    ///
    /// `NoMemory` for want of memory.
    pub fn take<R: Wait>(&self, rt: &R, alloc: Global, number: u64) -> Result<TakeReply, NoMemory>
        ensures { IfOk result (λ reply. reply ≢ takes.Empty) }
    {
        let mut guard = self.locked.lock(rt);
        for _ in rt.forever() {
            self.wake_where_behind(guard.is_behind());
            match guard.take(alloc, number)? {
                TakeReply::Message(message) => return Ok(TakeReply::Message(message)),
                TakeReply::Ended => return Ok(TakeReply::Ended),
                TakeReply::Empty => guard = self.came.wait(rt, guard),
            }
        }
        unreachable!()
    }

    /// The oldest message of the subscription of this number, none where none will come; or how often those who wait
    /// were woken before, as `sleep` takes it, where some may still come.
    pub(crate) fn message_or_seen<R: Wait>(
        &self,
        rt: &R,
        alloc: Global,
        number: u64,
    ) -> Result<Result<Option<Message>, u64>, NoMemory> {
        let mut guard = self.locked.lock(rt);
        self.wake_where_behind(guard.is_behind());
        match guard.take(alloc, number)? {
            TakeReply::Message(message) => Ok(Ok(Some(message))),
            TakeReply::Ended => Ok(Ok(None)),
            TakeReply::Empty => Ok(Err(self.came.notifications())),
        }
    }

    /// Why a call would be refused at once for its subjects or its size, if it would; the session stays as it is. Own
    /// call: a request that asks for replies at a subject of its caller's is tested before that is subscribed to.
    pub fn objection<R: Wait>(&self, rt: &R, call: &Call) -> Option<Refusal>
        ensures { IfSome result (λ refusal. Objects call.now refusal) }
    {
        self.locked.lock(rt).objection(call)
    }

    /// Makes a call once, under the lock.
    fn make<R: Wait>(&self, rt: &R, alloc: Global, mine: &mut Share<G>, call: Call) -> Made
        requires { 0 < mine.old.parts }
        ensures parts { mine.new.parts ≡ mine.old.parts }
        ensures made { mine.new.amount ≡ mine.old.amount + counts result.answer }
        ensures may { MayAnswer false call result.answer }
    {
        let mut guard = self.locked.lock(rt);
        self.wake_where_behind(guard.is_behind());
        let answer = guard.call(alloc, mine, call);
        let wakes_writer = guard.take_sleep();
        Made {
            answer,
            wakes_writer,
        }
    }

    /// Makes a call once, and wakes who waits for what it changed.
    pub(crate) fn try_call<R: Wait>(
        &self,
        rt: &R,
        alloc: Global,
        mine: &mut Share<G>,
        call: Call,
    ) -> Result<Option<u64>, Refusal>
        requires { 0 < mine.old.parts }
        ensures parts { mine.new.parts ≡ mine.old.parts }
        ensures made { mine.new.amount ≡ mine.old.amount + counts result }
        ensures may { MayAnswer false call result }
    {
        let is_quiet = is_quiet(&call);
        let Made {
            answer,
            wakes_writer,
        } = self.make(rt, alloc, mine, call);
        self.wake_behind(is_quiet, wakes_writer);
        answer
    }

    /// Makes a call as soon as there is room for it. The lock is let go while it waits.
    fn call_with_room<R: Wait>(
        &self,
        rt: &R,
        alloc: Global,
        mine: &mut Share<G>,
        call: Call,
    ) -> Made
        requires { 0 < mine.old.parts }
        ensures parts { mine.new.parts ≡ mine.old.parts }
        ensures made { mine.new.amount ≡ mine.old.amount + counts result.answer }
        ensures may { MayAnswer true call result.answer }
    {
        let mut waits = call;
        let mut guard = self.locked.lock(rt);
        for _ in rt.forever() {
            self.wake_where_behind(guard.is_behind());
            match guard.call_with_room(alloc, mine, waits) {
                Tried::Answered(answer) => {
                    let wakes_writer = guard.take_sleep();
                    return Made {
                        answer,
                        wakes_writer,
                    };
                }
                Tried::NoRoom(call) => waits = call,
            }
            guard = self.room.wait(rt, guard);
        }
        unreachable!()
    }

    /// Makes a call as soon as there is room for it, and wakes who waits for what it changed.
    pub(crate) fn call<R: Wait>(
        &self,
        rt: &R,
        alloc: Global,
        mine: &mut Share<G>,
        call: Call,
    ) -> Result<Option<u64>, Refusal>
        requires { 0 < mine.old.parts }
        ensures parts { mine.new.parts ≡ mine.old.parts }
        ensures made { mine.new.amount ≡ mine.old.amount + counts result }
        ensures may { MayAnswer true call result }
    {
        let is_quiet = is_quiet(&call);
        let Made {
            answer,
            wakes_writer,
        } = self.call_with_room(rt, alloc, mine, call);
        self.wake_behind(is_quiet, wakes_writer);
        answer
    }

    /// The reply by which a ticket settled, once: as soon as it settles.
    pub(crate) fn settled<R: Wait>(&self, rt: &R, ticket: u64) -> CallReply {
        let mut guard = self.locked.lock(rt);
        for _ in rt.forever() {
            if let Some(reply) = guard.reply_of(ticket) {
                return reply;
            }
            guard = self.came.wait(rt, guard);
        }
        unreachable!()
    }

    /// The reply by which a ticket settled, once; or how often those who wait were woken before, as `sleep` takes it.
    pub(crate) fn reply_or_seen<R: Wait>(&self, rt: &R, ticket: u64) -> Result<CallReply, u64> {
        let mut guard = self.locked.lock(rt);
        match guard.reply_of(ticket) {
            Some(reply) => Ok(reply),
            None => Err(self.came.notifications()),
        }
    }

    /// Comes back after that many milliseconds, or at once where those who wait were woken since `seen`.
    pub(crate) fn sleep<R: Wait>(&self, rt: &R, seen: u64, ms: u64) {
        self.came.sleep(rt, seen, Duration::from_millis(ms))
    }

    /// The pieces that wait for the link of this number, in order; `None` where that is not the one that is up. They
    /// stay, until a turn says how many bytes were taken.
    ///
    /// # Errors
    ///
    /// `NoMemory` for want of memory.
    pub fn pieces_on<R: Wait>(
        &self,
        rt: &R,
        alloc: Global,
        link: u64,
    ) -> Result<Option<Vec<Bytes>>, NoMemory>
        ensures { IfOk result (λ o. IfSome o (λ v. vec_len v ≡ 0 ⊎ 0 < length (concat v.items))) }
    {
        self.locked.lock(rt).pieces_on(alloc, link)
    }

    /// Comes back once something may be there to write to the link of this number, or that is not the one that is up.
    pub fn wait_for_bytes<R: Wait>(&self, rt: &R, link: u64) {
        let mut guard = self.locked.lock(rt);
        for _ in rt.forever() {
            if !guard.is_idle_on(link) {
                return;
            }
            guard.note_sleep();
            guard = self.bytes.wait(rt, guard);
        }
        unreachable!()
    }
}
