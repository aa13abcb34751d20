//! A broker that threads share. This is the one file that locks.
ghost use Rattle.std.specs.Prelude.{◌≡◌, ◌<◌, length, is_ok, IfOk, IfSome, IsTrue};
ghost use Rattle.nats_serve.specs.Serving.{IsFed};

use crate::held::{Fed, Waiting, feed, join, leave, look};
use nats_broker::{Broker, Bytes};
use nats_names::NoMemory;
use std::alloc::Global;
use std::sync::{Condvar, Mutex, Wait};

/// Why a peer's link is served no longer. Own type.
#[derive(Clone, Copy, Debug, PartialEq, Eq)]
pub enum PeerEnd {
    /// The link failed, or ended.
    Lost,
    /// The peer had ended, or never joined.
    Ended,
    /// Want of memory. What was done before stays done.
    NoMemory,
}

/// A broker that threads share, under one lock, which is held for one piece of bytes at a time and never while a link
/// is read or written to. For each peer that joins, one thread reads from its link by `serve_read` and one writes to
/// it by `serve_write`. Own type.
#[derive(Drop)]
pub struct BrokerHub {
    broker: Mutex<Broker>,
    /// For who writes to a peer.
    told: Condvar,
}

impl BrokerHub {
    /// A broker to be shared. Today it takes no memory, so it never answers `NoMemory`. Own call.
    pub fn new(_alloc: Global, broker: Broker) -> Result<BrokerHub, NoMemory>
        ensures { IsTrue (is_ok result) }
    {
        Ok(BrokerHub {
            broker: Mutex::new(broker),
            told: Condvar::new(),
        })
    }

    /// A peer joins, once all commands that are due are done. Its number, from 1, by which its link is to be served;
    /// `None` exactly where peer 2^64 - 1 was given. The broker's `INFO` waits for it. Own call.
    ///
    /// # Errors
    ///
    /// `NoMemory` for want of memory: no peer joined, and some commands that were due may be done.
    pub fn join<R: Wait>(&self, rt: &R, alloc: Global) -> Result<Option<u64>, NoMemory>
        ensures { IfOk result (λ number. IfSome number (λ p. 0 < p)) }
    {
        let mut guard = self.broker.lock(rt);
        let number = join(&mut guard, alloc);
        drop(guard);
        self.told.notify_all();
        number
    }

    /// Feeds a peer these bytes, and wakes who writes.
    pub(crate) fn feed<R: Wait>(
        &self,
        rt: &R,
        alloc: Global,
        peer: u64,
        bytes: &[u8],
    ) -> Result<Fed, NoMemory>
        ensures { IfOk result (IsFed (length bytes.now)) }
    {
        let mut guard = self.broker.lock(rt);
        let fed = feed(&mut guard, alloc, peer, bytes);
        drop(guard);
        self.told.notify_all();
        fed
    }

    /// A peer leaves, once all commands that are due are done: its interests close, and what waits for it stays.
    /// Whether it was up. `serve_read` does so by itself. Own call.
    ///
    /// # Errors
    ///
    /// `NoMemory` for want of memory: the peer did not leave, and some commands that were due may be done.
    pub fn leave<R: Wait>(&self, rt: &R, alloc: Global, peer: u64) -> Result<bool, NoMemory> {
        let mut guard = self.broker.lock(rt);
        let left = leave(&mut guard, alloc, peer);
        drop(guard);
        self.told.notify_all();
        left
    }

    /// The bytes that wait first for a peer, as soon as some do; none once it ended and nothing waits. The lock is
    /// let go while it waits.
    pub(crate) fn next<R: Wait>(
        &self,
        rt: &R,
        alloc: Global,
        peer: u64,
    ) -> Result<Option<Bytes>, NoMemory>
        ensures { IfOk result (λ next. IfSome next (λ bytes. 0 < length bytes)) }
    {
        let mut guard = self.broker.lock(rt);
        for _ in rt.forever() {
            match look(&guard, alloc, peer)? {
                Waiting::Text(bytes) => return Ok(Some(bytes)),
                Waiting::Over => return Ok(None),
                Waiting::Nothing => guard = self.told.wait(rt, guard),
            }
        }
        unreachable!()
    }

    /// The first bytes that wait for a peer are taken. Nobody waits for that.
    pub(crate) fn taken<R: Wait>(&self, rt: &R, peer: u64, count: usize) {
        self.broker.lock(rt).taken(peer, count);
    }
}
