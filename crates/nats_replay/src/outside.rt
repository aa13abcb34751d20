//! Where the bytes of a script come from, and where the printed text goes.
ghost use Rattle.std.specs.Prelude.{◌≡◌, ◌≤◌, ◌<◌, ℕ, List, Option, length, IfOk};
ghost use Rattle.std.specs.Io.{ReadsAtMost};
ghost use Rattle.std.specs.Io.KnownBytes.{ReadConsumes, WriteAppends};
ghost use Rattle.nats_replay.specs.Outside.{HasCause, risen, given_by, ends_by};
ghost use Rattle.nats_replay.specs.Adapters.{reading_inner, reading_counts, writing_inner, writing_faults};

use nats_names::Failed;
use std::io::{Read, Write};

/// A source of bytes, which counts what it does; each count stops at 2^64-1. Own trait: std's `Read` counts
/// nothing, and a clause that names the cause of a fault needs a count.
pub trait Source {
    /// The bytes that reads will give from here on, where they are known.
    ghost left: { Self → Option (List ℕ) };

    /// How many bytes were given.
    ghost given: { Self → ℕ };

    /// How many times the end was met.
    ghost ends: { Self → ℕ };

    /// How many reads failed.
    ghost faults: { Self → ℕ };

    /// Gives the next bytes into the front of `buf`, at most as many as it holds, and answers how many they are.
    /// None in a nonempty `buf` is the end. A read that fails gives no byte.
    fn read(&mut self, buf: &mut [u8]) -> Result<usize, Failed>
        ensures bound { ReadsAtMost result buf.new }
        ensures bytes { ReadConsumes (left self.old) (left self.new) result buf.new }
        ensures given { given self.new ≡ risen (given_by result) (given self.old) }
        ensures ends { ends self.new ≡ risen (ends_by result buf.new) (ends self.old) }
        ensures cause { HasCause (faults self.old) (faults self.new) result };
}

/// A sink for bytes, which counts its faults; the count stops at 2^64-1. Own trait, as `Source`.
pub trait Sink {
    /// The bytes that were written so far, where they are known.
    ghost written: { Self → Option (List ℕ) };

    /// How many writes failed.
    ghost faults: { Self → ℕ };

    /// Takes bytes from the front of `bytes`, and answers how many they are. Taking none of nonempty bytes is a
    /// failure. A write that fails takes none.
    fn write(&mut self, bytes: &[u8]) -> Result<usize, Failed>
        ensures bound { IfOk result (λ n. n ≤ length bytes.now) }
        ensures progress { 0 < length bytes.now → IfOk result (λ n. 0 < n) }
        ensures bytes { WriteAppends (written self.old) (written self.new) result bytes.now }
        ensures cause { HasCause (faults self.old) (faults self.new) result };
}

/// A source over any reader of std: each `Err` of the reader is a fault, whatever its kind.
#[derive(Drop)]
pub struct Reading<R> {
    inner: R,
    given: u64,
    ends: u64,
    faults: u64,
}

impl<R> Reading<R> {
    /// A source that gives what `inner` gives; its counts begin at 0.
    pub fn new(inner: R) -> Reading<R>
        ensures inner { reading_inner result ≡ inner }
        ensures counts { reading_counts result ≡ record { given = 0; ends = 0; faults = 0 } }
    {
        Reading {
            inner,
            given: 0,
            ends: 0,
            faults: 0,
        }
    }
}

impl<R: Read> Source for Reading<R> {
    ghost left = { λ s. R.remaining s.inner };

    ghost given = { λ s. s.given };

    ghost ends = { λ s. s.ends };

    ghost faults = { λ s. s.faults };

    fn read(&mut self, buf: &mut [u8]) -> Result<usize, Failed> {
        let has_room = !buf.is_empty();
        match self.inner.read(buf) {
            Ok(count) => {
                self.given = self.given.saturating_add(count as u64);
                self.ends = self.ends.saturating_add(u64::from(count == 0 && has_room));
                Ok(count)
            }
            Err(_) => {
                self.faults = self.faults.saturating_add(1);
                Err(Failed)
            }
        }
    }
}

/// A sink over any writer of std: each `Err` of the writer is a fault, whatever its kind, and so is taking nothing of
/// nonempty bytes.
#[derive(Drop)]
pub struct Writing<W> {
    inner: W,
    faults: u64,
}

impl<W> Writing<W> {
    /// A sink that hands what it takes to `inner`; its count begins at 0.
    pub fn new(inner: W) -> Writing<W>
        ensures inner { writing_inner result ≡ inner }
        ensures faults { writing_faults result ≡ 0 }
    {
        Writing { inner, faults: 0 }
    }
}

impl<W: Write> Sink for Writing<W> {
    ghost written = { λ s. W.contents s.inner };

    ghost faults = { λ s. s.faults };

    fn write(&mut self, bytes: &[u8]) -> Result<usize, Failed> {
        match self.inner.write(bytes) {
            Ok(count) if count > 0 || bytes.is_empty() => Ok(count),
            _ => {
                self.faults = self.faults.saturating_add(1);
                Err(Failed)
            }
        }
    }
}
