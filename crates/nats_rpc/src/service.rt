//! A service: a function that answers the messages of a subscription.
ghost use Rattle.std.specs.Prelude.{◌≡◌, is_some, true};
ghost use Rattle.nats_rpc.specs.Serving.{Opens, Serves, SendsOne, SendsKept};

use crate::answering::{Asking, Kept, OpenError, Served, publish, subscribe, take_in};
use nats_core::{Core, Message, NoMemory, Subject};
use std::alloc::Global;
use std::marker::Model;

/// A function that answers the messages of one subscription of a core, one at a time and in order. Our own: the crate
/// leaves it to its user to answer requests.
#[derive(Drop)]
pub struct Service<F: FnMut(&Message) -> Vec<u8>> {
    number: u64,
    kept: Option<Kept>,
    answer: F,
}

impl<F: FnMut(&Message) -> Vec<u8>> Model for Service<F> {
    ghost use Rattle.nats_rpc.specs.Serving.{Serving, serving_of};

    ghost Value = { Serving F };

    ghost view = { λ s. serving_of s.number s.kept s.answer };
}

impl<F: FnMut(&Message) -> Vec<u8>> Service<F> {
    /// A service that answers what comes to a subject, shared with the others of the queue group where one is given.
    /// It plays one turn, the call that subscribes, and none where it answers `NoMemory`. Its condition is that the
    /// function may be called at any message.
    ///
    /// # Errors
    ///
    /// `Refused` exactly where the subscribe is refused, with its reply; `NoMemory` for want of memory. The function
    /// comes back then.
    pub fn open(
        alloc: Global,
        core: &mut Core,
        subject: Subject,
        group: Option<Subject>,
        answer: F,
    ) -> Result<Service<F>, (OpenError, F)>
        requires { F.IsAlwaysCallable answer }
        ensures { Opens subject group answer core.old result core.new }
    {
        match subscribe(alloc, core, subject, group) {
            Ok(number) => Ok(Service {
                number,
                kept: None,
                answer,
            }),
            Err(error) => Err((error, answer)),
        }
    }

    /// Serves one message: takes the oldest one of the subscription, calls the function once where it has a reply, and
    /// publishes the answer there. An answer that the full client refuses, or that memory is wanting for, is kept, and
    /// the next call publishes it and takes nothing; one that is refused for another cause is given up. Where its
    /// subscription was let go, `Ended` is told. The core is to be the one that it was opened on.
    ///
    /// # Errors
    ///
    /// `NoMemory` for want of memory. No message was taken then whose answer is not kept.
    pub fn serve_one(&mut self, alloc: Global, core: &mut Core) -> Result<Served, NoMemory>
        requires { F.IsAlwaysCallable self.old.answer }
        ensures callable { F.IsAlwaysCallable self.new.answer }
        ensures serves { Serves F.FnMut (λ v. v.items) self.old core.old result self.new core.new }
    {
        if self.kept.is_some() {
            return self.publish_kept(alloc, core);
        }
        match take_in(alloc, core, self.number, &mut self.answer)? {
            Asking::Told(served) => Ok(served),
            Asking::Kept(kept) => self.publish_new(alloc, core, kept),
        }
    }

    /// Publishes the answer that is kept.
    fn publish_kept(&mut self, alloc: Global, core: &mut Core) -> Result<Served, NoMemory>
        requires { is_some self.old.kept ≡ true }
        ensures { SendsKept self.old core.old result self.new core.new }
    {
        let Some(kept) = &self.kept else {
            unreachable!()
        };
        let (served, is_done) = publish(alloc, core, kept)?;
        if !is_done {
            return Ok(served);
        }
        let _ = self.kept.take();
        Ok(served)
    }

    /// Keeps an answer, and publishes it.
    fn publish_new(
        &mut self,
        alloc: Global,
        core: &mut Core,
        kept: Kept,
    ) -> Result<Served, NoMemory>
        ensures { SendsOne kept self.old core.old result self.new core.new }
    {
        let _ = self.kept.replace(kept);
        self.publish_kept(alloc, core)
    }
}
