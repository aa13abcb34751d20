//! What links in memory, and who dials them, are made of.

ghost use Rattle.std.specs.Prelude.{◌<◌};

use crate::DialWord;
use bytes::Bytes;
use std::alloc::Global;
use std::net::SocketAddr;
use std::vec;

/// What a link gave and took, and behind it the links that were handed back before.
#[derive(Drop)]
pub struct Past {
    pub(crate) pieces: Vec<Bytes>,
    pub(crate) taken: Vec<u8>,
    pub(crate) before: Option<Box<Past>>,
}

/// A link in memory that waits to be dialed: what it will give, at most how much at a call, how much at its first
/// reads, and which calls fail.
#[derive(Drop)]
pub struct FakeLink {
    pub(crate) bytes: Bytes,
    pub(crate) most: usize,
    pub(crate) cuts: Vec<usize>,
    pub(crate) failing_reads: Vec<u64>,
    pub(crate) failing_writes: Vec<u64>,
    pub(crate) room: Box<Past>,
    ghost has_most: { 0 < most },
}

/// The reading half of a link in memory: it gives its bytes in pieces, fails at the reads that it was told to fail
/// at and where memory is wanting, and tells all.
#[derive(Drop)]
pub struct FakeRead {
    pub(crate) bytes: Bytes,
    pub(crate) most: usize,
    pub(crate) cuts: vec::IntoIter<usize>,
    pub(crate) failing: Vec<u64>,
    pub(crate) reads: u64,
    pub(crate) pieces: Vec<Bytes>,
    pub(crate) given: u64,
    pub(crate) ends: u64,
    pub(crate) faults: u64,
    pub(crate) wait: Option<u64>,
    ghost has_most: { 0 < most },
}

/// The writing half of a link in memory: it keeps what it takes, fails at the writes that it was told to fail at
/// and where memory is wanting, and tells all.
#[derive(Drop)]
pub struct FakeWrite {
    pub(crate) alloc: Global,
    pub(crate) most: usize,
    pub(crate) failing: Vec<u64>,
    pub(crate) writes: u64,
    pub(crate) past: Box<Past>,
    pub(crate) faults: u64,
    pub(crate) is_shut: bool,
    ghost has_most: { 0 < most },
}

/// A dialer in memory: it gives its links in order, fails at the dials that it was told to fail at and where no link is
/// left, and tells all.
#[derive(Drop)]
pub struct FakeDialer {
    pub(crate) alloc: Global,
    pub(crate) links: vec::IntoIter<FakeLink>,
    pub(crate) failing: Vec<u64>,
    pub(crate) faults: u64,
    pub(crate) ends: u64,
    pub(crate) dials: u64,
    pub(crate) word: DialWord,
    pub(crate) to: Option<SocketAddr>,
    pub(crate) within: u64,
    pub(crate) came: u64,
    pub(crate) backs: u64,
    pub(crate) was_shut: bool,
    pub(crate) ended: Option<Box<Past>>,
}
