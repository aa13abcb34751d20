//! A source and a sink in memory, for tests.
ghost use Rattle.std.specs.Prelude.{◌≡◌, ◌<◌, [], Some};
ghost use Rattle.nats_replay.specs.Adapters.{failing_inner, failing_faults};

use crate::outside::{Sink, Source};
use nats_names::Failed;
use std::alloc::Global;
use std::marker::Model;

/// A source that gives the bytes of a `Vec`, and never fails.
#[derive(Drop)]
pub struct MemorySource {
    bytes: Vec<u8>,
    at: usize,
    most: usize,
    given: u64,
    ends: u64,
}

impl Model for MemorySource {
    ghost use Rattle.std.specs.Prelude.{◌≤◌, ◌<◌, drop, length};
    ghost use Rattle.nats_replay.specs.Memory.{Held};

    ghost Value = { Held };

    ghost view = { λ s. record { left = drop s.at s.bytes.items; given = s.given; ends = s.ends } };

    ghost invariant = { λ s. (s.at ≤ length s.bytes.items) × (0 < s.most) };
}

impl MemorySource {
    /// A source that holds these bytes, and gives at most `most` of them at a read.
    pub fn new(bytes: Vec<u8>, most: usize) -> MemorySource
        requires { 0 < most }
        ensures { result ≡ record { left = bytes.items; given = 0; ends = 0 } }
    {
        MemorySource {
            bytes,
            at: 0,
            most,
            given: 0,
            ends: 0,
        }
    }
}

impl Source for MemorySource {
    ghost left = { λ s. Some s.left };

    ghost given = { λ s. s.given };

    ghost ends = { λ s. s.ends };

    ghost faults = { λ _. 0 };

    fn read(&mut self, buf: &mut [u8]) -> Result<usize, Failed> {
        let rest = &self.bytes[self.at..];
        let count = rest.len().min(buf.len()).min(self.most);
        buf[..count].copy_from_slice(&rest[..count]);
        self.at += count;
        self.given = self.given.saturating_add(count as u64);
        let is_end = count == 0 && !buf.is_empty();
        self.ends = self.ends.saturating_add(u64::from(is_end));
        Ok(count)
    }
}

/// A sink that keeps what it takes; it fails only for want of memory.
#[derive(Drop)]
pub struct MemorySink {
    bytes: Vec<u8>,
    most: usize,
    faults: u64,
}

impl Model for MemorySink {
    ghost use Rattle.std.specs.Prelude.{◌<◌};
    ghost use Rattle.nats_replay.specs.Memory.{Kept};

    ghost Value = { Kept };

    ghost view = { λ s. record { written = s.bytes.items; faults = s.faults } };

    ghost invariant = { λ s. 0 < s.most };
}

impl MemorySink {
    /// A sink without bytes that takes at most `most` bytes at a write.
    pub fn new(alloc: Global, most: usize) -> MemorySink
        requires { 0 < most }
        ensures { result ≡ record { written = []; faults = 0 } }
    {
        MemorySink {
            bytes: Vec::new(alloc),
            most,
            faults: 0,
        }
    }

    /// The bytes that were written.
    pub fn bytes(&self) -> &[u8]
        ensures { result.now ≡ self.now.written }
    {
        self.bytes.as_slice()
    }
}

impl Sink for MemorySink {
    ghost written = { λ s. Some s.written };

    ghost faults = { λ s. s.faults };

    fn write(&mut self, bytes: &[u8]) -> Result<usize, Failed> {
        let count = bytes.len().min(self.most);
        match self.bytes.extend_from_slice(&bytes[..count]) {
            Ok(()) => Ok(count),
            Err(_) => {
                self.faults = self.faults.saturating_add(1);
                Err(Failed)
            }
        }
    }
}

/// A source or a sink whose calls of given numbers, from 1, fail.
#[derive(Drop)]
pub struct Failing<T> {
    inner: T,
    failing: Vec<u64>,
    calls: u64,
    faults: u64,
}

impl<T> Failing<T> {
    /// `inner`, but that the calls of these numbers fail and do not reach it.
    pub fn new(inner: T, failing: Vec<u64>) -> Failing<T>
        ensures inner { failing_inner result ≡ inner }
        ensures faults { failing_faults result ≡ 0 }
    {
        Failing {
            inner,
            failing,
            calls: 0,
            faults: 0,
        }
    }

    /// What the other calls reach.
    pub fn inner(&self) -> &T
        ensures { result.now ≡ failing_inner self.now }
    {
        &self.inner
    }

    /// Whether the call that begins fails.
    fn fails(&mut self) -> bool
        ensures inner { failing_inner self.new ≡ failing_inner self.old }
        ensures faults { failing_faults self.new ≡ failing_faults self.old }
    {
        self.calls = self.calls.saturating_add(1);
        self.failing.contains(&self.calls)
    }
}

impl<S: Source> Source for Failing<S> {
    ghost left = { λ s. S.left s.inner };

    ghost given = { λ s. S.given s.inner };

    ghost ends = { λ s. S.ends s.inner };

    ghost faults = { λ s. s.faults };

    fn read(&mut self, buf: &mut [u8]) -> Result<usize, Failed> {
        if !self.fails()
            && let Ok(count) = self.inner.read(buf)
        {
            return Ok(count);
        }
        self.faults = self.faults.saturating_add(1);
        Err(Failed)
    }
}

impl<K: Sink> Sink for Failing<K> {
    ghost written = { λ s. K.written s.inner };

    ghost faults = { λ s. s.faults };

    fn write(&mut self, bytes: &[u8]) -> Result<usize, Failed> {
        if !self.fails()
            && let Ok(count) = self.inner.write(bytes)
        {
            return Ok(count);
        }
        self.faults = self.faults.saturating_add(1);
        Err(Failed)
    }
}
