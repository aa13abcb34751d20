//! Bytes in pieces, in order.
ghost use Rattle.std.specs.Prelude.{◌≡◌, ◌+◌, ◌-◌, ◌<◌, ◌≤◌, ◌++◌, [], length, take, drop, All, OnOk, OnErr, IfOk};
ghost use Rattle.std.specs.List.{concat};
ghost use Rattle.std.specs.VecDeque.{deque_len, deque_capacity};
ghost use Rattle.nats_outbuf.specs.Buffers.{one_piece, IsFront};

use bytes::BytesMut;
use nats_names::{Bytes, NoMemory};
use std::alloc::Global;
use std::collections::VecDeque;
use std::marker::Model;

/// Pieces in order, none of them empty. Contracts see the bytes of all of them.
#[derive(Drop)]
pub struct Chunks {
    pieces: VecDeque<Bytes>,
    len: usize,
}

impl Model for Chunks {
    ghost use Rattle.std.specs.Prelude.{List, ℕ};
    ghost use Rattle.std.specs.List.{concat};
    ghost use Rattle.nats_outbuf.specs.Buffers.{Holds};

    ghost Value = { List ℕ };

    ghost view = { λ c. concat c.pieces.items };

    ghost invariant = { λ c. Holds c.pieces.items c.len };
}

// Puts a piece back in its place; an empty one is let go.
fn put_back(pieces: &mut VecDeque<Bytes>, piece: Bytes)
    requires { deque_len pieces.old < deque_capacity pieces.old }
    ensures { pieces.new.items ≡ pieces.old.items ++ one_piece piece }
{
    if !piece.is_empty() {
        pieces.push_back_reserved(piece);
    }
}

impl Chunks {
    /// No pieces. It takes no memory.
    pub fn new(alloc: Global) -> Chunks
        ensures { result ≡ [] }
    {
        Chunks {
            pieces: VecDeque::new(alloc),
            len: 0,
        }
    }

    /// How many bytes the pieces hold.
    pub fn len(&self) -> usize
        ensures { result ≡ length self.now }
    {
        self.len
    }

    /// Puts a piece last; an empty one is let go.
    pub fn push(&mut self, piece: Bytes) -> Result<(), NoMemory>
        ensures ok { OnOk result (self.new ≡ self.old ++ piece) }
        ensures err { OnErr result (self.new ≡ self.old) }
    {
        if piece.is_empty() {
            return Ok(());
        }
        let Some(len) = self.len.checked_add(piece.len()) else {
            return Err(NoMemory);
        };
        self.pieces.push_back(piece)?;
        self.len = len;
        Ok(())
    }

    /// Puts joined texts last, as one more piece, with no copy; none where there are none.
    pub fn seal(&mut self, tail: &mut BytesMut) -> Result<(), NoMemory>
        ensures whole { self.new ++ tail.new.items ≡ self.old ++ tail.old.items }
        ensures ok { OnOk result (tail.new.items ≡ []) }
        ensures memory { OnErr result (0 < length tail.old.items) }
    {
        if tail.is_empty() {
            return Ok(());
        }
        let count = tail.len();
        let len = self.len.checked_add(count).ok_or(NoMemory)?;
        self.pieces.reserve(1)?;
        let piece = tail.freeze_to(count)?;
        self.pieces.push_back_reserved(piece);
        self.len = len;
        Ok(())
    }

    /// The first pieces, as many as `most` at most, which share their memory.
    pub fn first(&self, alloc: Global, most: usize) -> Result<Vec<Bytes>, NoMemory>
        requires { 0 < most }
        ensures front { IfOk result (λ pieces. IsFront most pieces.items self.now) }
        ensures all { IfOk result (λ pieces. length pieces.items < most → concat pieces.items ≡ self.now) }
        ensures memory { OnErr result (0 < length self.now) }
    {
        let mut pieces = Vec::new(alloc);
        let count = self.pieces.len().min(most);
        for i in 0..count {
            let piece = self.pieces[i].clone()?;
            pieces.push(piece)?;
        }
        Ok(pieces)
    }

    /// Puts a copy of the first `n` bytes behind those of `copy`.
    pub fn copy_to(&self, n: usize, copy: &mut Vec<u8>) -> Result<(), NoMemory>
        requires { n ≤ length self.now }
        ensures { OnOk result (copy.new.items ≡ copy.old.items ++ take n self.now) }
    {
        let mut left = n;
        for i in 0..self.pieces.len() {
            if left == 0 {
                return Ok(());
            }
            let piece = self.pieces[i].as_slice();
            let count = left.min(piece.len());
            copy.extend_from_slice(&piece[..count])?;
            left -= count;
        }
        Ok(())
    }

    // Takes up to `n` bytes of the first piece, and answers how many.
    fn advance_first(&mut self, n: usize) -> usize
        requires { (0 < n) × (n ≤ length self.old) }
        ensures count { (0 < result) × (result ≤ n) }
        ensures rest { self.new ≡ drop result self.old }
    {
        let Some(mut first) = self.pieces.pop_front() else {
            unreachable!()
        };
        let taken = n.min(first.len());
        first.advance(taken);
        if !first.is_empty() {
            self.pieces.push_front_reserved(first);
        }
        self.len -= taken;
        taken
    }

    /// Takes the first `n` bytes away.
    pub fn advance(&mut self, n: usize)
        requires { n ≤ length self.old }
        ensures { self.new ≡ drop n self.old }
    {
        let mut left = n;
        while left > 0 {
            left -= self.advance_first(left);
        }
    }

    // Takes up to `n` bytes from the end of the last piece, and answers how many.
    fn cut_last(&mut self, n: usize) -> usize
        requires { (0 < n) × (n ≤ length self.old) }
        ensures count { (0 < result) × (result ≤ n) }
        ensures rest { self.new ≡ take (length self.old - result) self.old }
    {
        let Some(mut last) = self.pieces.pop_back() else {
            unreachable!()
        };
        let taken = n.min(last.len());
        last.truncate(last.len() - taken);
        put_back(&mut self.pieces, last);
        self.len -= taken;
        taken
    }

    /// Keeps the first `n` bytes: what was put behind them goes.
    pub fn cut(&mut self, n: usize)
        requires { n ≤ length self.old }
        ensures { self.new ≡ take n self.old }
    {
        let mut over = self.len - n;
        while over > 0 {
            over -= self.cut_last(over);
        }
    }

    /// Lets all go.
    pub fn clear(&mut self)
        ensures { self.new ≡ [] }
    {
        self.pieces.clear();
        self.len = 0;
    }
}
