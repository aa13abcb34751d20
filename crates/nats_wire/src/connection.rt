//! A connection to a server: bytes in, operations out; commands in, bytes out. It reads and writes nothing itself.
ghost use Rattle.std.specs.Prelude.{◌≡◌, ◌<◌, ◌≤◌, ◌++◌, length, take, drop, true, false, OnOk, OnErr, IfOk, IfSome, nat_le};
ghost use Rattle.std.specs.List.{concat};
ghost use Rattle.nats_outbuf.specs.Buffers.{IsFront};
ghost use Rattle.nats_message.specs.declared.op.ClientOp.TheVariants as client;
ghost use Rattle.nats_wire.specs.Wire.{new_channel, with_fed, with_unread, with_waiting};
ghost use Rattle.nats_unread.specs.Kept.{Paid};
ghost use Rattle.nats_lines.specs.Operations.{front, takes_memory, is_unfinished};
ghost use Rattle.nats_commands.specs.Commands.{command_text, command_texts};
ghost use Rattle.nats_wire.specs.Connection.{Looks, flush_by};
ghost use Rattle.nats_unread.specs.Kept.{Reads};

use nats_commands::{append, append_each, append_publication, append_subscription};
use nats_decode::front::Front;
use nats_header::HeaderMap;
use nats_message::{ClientOp, PeekedOp, ServerOp, WireError};
use nats_names::{Bytes, NoMemory, Subject};
use nats_outbuf::{OutBuf, PIECES_MOST, SOFT_WRITE_BUF_LIMIT, ShouldFlush, Steps};
use nats_unread::Unread;
use std::alloc::Global;
use std::marker::{Brand, Model};
use std::sync::ledger::{Blank, Ledger};

/// An operation at the front of the unread bytes, and how many bytes it takes there.
#[derive(Debug, Drop, PartialEq, Eq)]
pub struct Peeked {
    pub op: PeekedOp,
    pub len: usize,
}

/// The two buffers of a link, and whether its writer is to be flushed. The crate's `Connection`, apart from its stream.
#[derive(Drop)]
pub struct Connection {
    unread: Unread,
    out: OutBuf,
    is_written: bool,
}

impl Model for Connection {
    ghost use Rattle.nats_wire.specs.Wire.{Channel};

    ghost Value = { Channel };

    ghost view = { λ c. record {
      wire = record { unread = c.unread.bytes; waiting = c.out };
      is_written = c.is_written;
      untested = c.unread.untested;
    } };
}

impl Connection {
    /// Two empty buffers, and nothing was written. It takes no memory.
    pub fn new(alloc: Global) -> Connection
        ensures { result ≡ new_channel }
    {
        Connection {
            unread: Unread::new(alloc),
            out: OutBuf::new(alloc),
            is_written: false,
        }
    }

    /// Appends bytes that the server sent, whole.
    pub fn feed(&mut self, alloc: Global, bytes: &[u8]) -> Result<(), NoMemory>
        ensures ok { OnOk result (self.new ≡ with_fed bytes.now self.old) }
        ensures err { OnErr result (self.new ≡ self.old) }
    {
        self.unread.feed(alloc, bytes)
    }

    /// Appends bytes that the server sent, whole, which came in a buffer that may be shared: they are not copied where
    /// no byte waits to be read, and the payloads of messages are parts of them then. Own call; the crate reads into a
    /// buffer of its own.
    pub fn feed_shared(&mut self, alloc: Global, bytes: &Bytes) -> Result<(), NoMemory>
        ensures ok { OnOk result (self.new ≡ with_fed bytes.now self.old) }
        ensures err { OnErr result (self.new ≡ self.old) }
    {
        self.unread.feed_shared(alloc, bytes)
    }

    /// What stands at the front of the unread bytes, copied; `None` where that is less than an operation. Nothing is
    /// consumed: it is for a caller that must be able to put the operation somewhere first, and then calls `consume`
    /// with the answer's `len`. Own call.
    ///
    /// # Errors
    ///
    /// `ReadFault` exactly where the bytes at the front are no operation. `NoMemory` only where an operation stands
    /// there, or the whole line of an INFO or the whole of a message with headers, which are faults only once they
    /// are read: any other fault and an unfinished rest are told without taking memory.
    pub fn peek_op(&self, alloc: Global) -> Result<Option<Peeked>, WireError>
        ensures looks { Looks (front self.now.wire.unread) (takes_memory self.now.wire.unread) result }
        ensures fits { IfOk result (λ peeked. IfSome peeked (λ p. p.len ≤ length self.now.wire.unread)) }
    {
        match self.unread.front(alloc) {
            Ok(Front::Unfinished) => Ok(None),
            Ok(Front::Got(op, len)) => Ok(Some(Peeked { op, len })),
            Ok(Front::Fault(_)) => Err(WireError::ReadFault),
            Err(NoMemory) => Err(WireError::NoMemory),
        }
    }

    /// Looks at the front of the unread bytes and remembers what that told, so that `peek_op` and `is_unfinished`
    /// cost little while an operation comes in pieces: for a caller that asks by them. Own call.
    pub fn look(&mut self)
        ensures same { self.new ≡ record self.old { untested = self.new.untested } }
        ensures untested { self.new.untested ≤ self.old.untested }
    {
        self.look_counted::<Brand>(Blank::new(1));
    }

    fn look_counted<L: Ledger>(&mut self, blank: Blank)
        requires name { blank.name ≡ L.name }
        requires parts { (blank.parts ≡ L.parts) × (0 < L.parts) }
        ensures same { self.new ≡ record self.old { untested = self.new.untested } }
        ensures untested { self.new.untested ≤ self.old.untested }
    {
        self.unread.look(&mut Steps::<L>::new(blank));
    }

    /// Whether less than an operation stands at the front of the unread bytes. It takes no memory. Own call.
    pub fn is_unfinished(&self) -> bool
        ensures { result ≡ is_unfinished (front self.now.wire.unread) }
    {
        self.unread.is_unfinished()
    }

    /// The number of unread bytes. Own call.
    pub fn unread(&self) -> usize
        ensures { result ≡ length self.now.wire.unread }
    {
        self.unread.len()
    }

    /// The number of unread bytes that were not tested yet for the end of a line. Own call.
    pub fn untested(&self) -> usize
        ensures value { result ≡ self.now.untested }
        ensures bound { self.now.untested ≤ length self.now.wire.unread }
    {
        self.unread.untested()
    }

    /// Takes the first `n` unread bytes away. Own call, for use after `peek_op`.
    pub fn consume(&mut self, n: usize)
        requires { n ≤ length self.old.wire.unread }
        ensures bytes { self.new ≡ with_unread (drop n self.old.wire.unread) self.new.untested self.old }
        ensures untested { self.new.untested ≤ self.old.untested }
    {
        self.unread.advance(n);
    }

    /// Takes the operation at the front of the unread bytes, `None` where that is less than an operation. Each step
    /// is a place that is tested for the end of a line; no byte is tested twice, so that over one connection there
    /// are at most as many steps as bytes were fed, on every answer. The crate's `try_read_op`; the count is our
    /// own.
    ///
    /// # Errors
    ///
    /// `ReadFault` exactly where the bytes at the front are no operation: a line that begins with no word of the
    /// protocol is taken away, so is a message with a bad header block, and else nothing is. `NoMemory` as in
    /// `peek_op`, and nothing is taken.
    #[inline(always)]
    pub fn try_read_op<L: Ledger>(
        &mut self,
        alloc: Global,
        steps: &mut Steps<L>,
    ) -> Result<Option<ServerOp>, WireError>
        ensures reads { Reads (front self.old.wire.unread) (takes_memory self.old.wire.unread)
            self.old.wire.unread result self.new.wire.unread }
        ensures paid { Paid steps.old self.old.untested steps.new self.new.untested }
        ensures rest { self.new ≡ with_unread self.new.wire.unread self.new.untested self.old }
    {
        self.unread.read(alloc, steps)
    }

    /// `try_read_op` for a caller that counts nothing. Own call.
    ///
    /// # Errors
    ///
    /// Those of `try_read_op`.
    #[inline(always)]
    pub fn read_op(&mut self, alloc: Global) -> Result<Option<ServerOp>, WireError>
        ensures reads { Reads (front self.old.wire.unread) (takes_memory self.old.wire.unread)
            self.old.wire.unread result self.new.wire.unread }
        ensures untested { self.new.untested ≤ self.old.untested }
        ensures rest { self.new ≡ with_unread self.new.wire.unread self.new.untested self.old }
    {
        self.read_counted::<Brand>(alloc, Blank::new(1))
    }

    #[inline(always)]
    fn read_counted<L: Ledger>(
        &mut self,
        alloc: Global,
        blank: Blank,
    ) -> Result<Option<ServerOp>, WireError>
        requires name { blank.name ≡ L.name }
        requires parts { (blank.parts ≡ L.parts) × (0 < L.parts) }
        ensures reads { Reads (front self.old.wire.unread) (takes_memory self.old.wire.unread)
            self.old.wire.unread result self.new.wire.unread }
        ensures untested { self.new.untested ≤ self.old.untested }
        ensures rest { self.new ≡ with_unread self.new.wire.unread self.new.untested self.old }
    {
        self.try_read_op(alloc, &mut Steps::<L>::new(blank))
    }

    /// Puts the text of an operation behind the bytes that wait to be written, whole or not at all. A payload of
    /// `CHUNK_LEAST` bytes or more is shared and not copied. The crate's `enqueue_write_op`.
    #[inline(always)]
    pub fn enqueue_write_op(&mut self, alloc: Global, op: &ClientOp) -> Result<(), NoMemory>
        ensures ok { OnOk result (self.new ≡ with_waiting (self.old.wire.waiting ++ command_text op.now) self.old) }
        ensures err { OnErr result (self.new ≡ self.old) }
    {
        append(alloc, op, &mut self.out)
    }

    /// What `enqueue_write_op` does of a `ClientOp::Publish` of these parts, which are lent: no header map is copied.
    /// Own call.
    pub fn enqueue_publish(
        &mut self,
        alloc: Global,
        subject: &Subject,
        respond: &Option<Subject>,
        headers: &Option<HeaderMap>,
        payload: &Bytes,
    ) -> Result<(), NoMemory>
        ensures ok { OnOk result (self.new ≡ with_waiting
            (self.old.wire.waiting
            ++ command_text (client.Publish subject.now payload.now respond.now headers.now))
            self.old) }
        ensures err { OnErr result (self.new ≡ self.old) }
    {
        append_publication(alloc, subject, respond, headers, payload, &mut self.out)
    }

    /// What `enqueue_write_op` does of a `ClientOp::Subscribe` of these parts, which are lent. Own call.
    pub fn enqueue_subscribe(
        &mut self,
        alloc: Global,
        sid: u64,
        subject: &Subject,
        queue_group: &Option<Subject>,
    ) -> Result<(), NoMemory>
        ensures ok { OnOk result (self.new ≡ with_waiting
            (self.old.wire.waiting ++ command_text (client.Subscribe sid subject.now queue_group.now))
            self.old) }
        ensures err { OnErr result (self.new ≡ self.old) }
    {
        append_subscription(alloc, sid, subject, queue_group, &mut self.out)
    }

    /// Puts the texts of some operations in order behind the bytes that wait to be written, all of them or none.
    /// Own call.
    pub fn enqueue_write_ops(&mut self, alloc: Global, ops: &[ClientOp]) -> Result<(), NoMemory>
        ensures ok { OnOk result (self.new ≡ with_waiting (self.old.wire.waiting ++ command_texts ops.now) self.old) }
        ensures err { OnErr result (self.new ≡ self.old) }
    {
        append_each(alloc, ops, &mut self.out)
    }

    /// The number of bytes that wait to be written.
    #[inline(always)]
    pub fn pending(&self) -> usize
        ensures { result ≡ length self.now.wire.waiting }
    {
        self.out.pending()
    }

    /// Whether `SOFT_WRITE_BUF_LIMIT` bytes or more wait to be written. The crate's call.
    #[inline(always)]
    pub fn is_write_buf_full(&self) -> bool
        ensures { result ≡ nat_le SOFT_WRITE_BUF_LIMIT (length self.now.wire.waiting) }
    {
        self.out.is_full()
    }

    /// A copy of the first `n` bytes that wait to be written. Own call, for whoever keeps what a link took.
    pub fn copy_waiting(&self, alloc: Global, n: usize) -> Result<Vec<u8>, NoMemory>
        requires { n ≤ length self.now.wire.waiting }
        ensures { IfOk result (λ copy. copy.items ≡ take n self.now.wire.waiting) }
    {
        self.out.copy_first(alloc, n)
    }

    /// Takes the first `n` waiting bytes away, which were written. From now on the writer is to be flushed. Own call.
    pub fn written(&mut self, n: usize)
        requires { n ≤ length self.old.wire.waiting }
        ensures { self.new ≡ record (with_waiting (drop n self.old.wire.waiting) self.old) { is_written = true } }
    {
        self.out.taken(n);
        self.is_written = true;
    }

    /// Whether the writer is to be flushed: `No` before anything was written since the last flush, else `May` where
    /// bytes wait and `Yes` where none do. The crate's `should_flush`.
    pub fn should_flush(&self) -> ShouldFlush
        ensures { result ≡ flush_by self.now.is_written (length self.now.wire.waiting) }
    {
        if !self.is_written {
            ShouldFlush::No
        } else if self.out.pending() > 0 {
            ShouldFlush::May
        } else {
            ShouldFlush::Yes
        }
    }

    /// The writer was flushed. Own call.
    pub fn flushed(&mut self)
        ensures { self.new ≡ record self.old { is_written = false } }
    {
        self.is_written = false;
    }

    /// Takes back what was put behind the first `n` waiting bytes. It takes no memory. Own call.
    pub fn cut(&mut self, n: usize)
        requires { n ≤ length self.old.wire.waiting }
        ensures { self.new ≡ with_waiting (take n self.old.wire.waiting) self.old }
    {
        self.out.cut(n);
    }

    /// The first waiting bytes in pieces to be written in order: `PIECES_MOST` at most, each nonempty, none where
    /// nothing waits; all that waits where they are fewer. They share their memory and stay until `written` takes
    /// them. Memory is taken only where something waits. Own call.
    pub fn pending_pieces(&mut self, alloc: Global) -> Result<Vec<Bytes>, NoMemory>
        ensures front { IfOk result (λ pieces. IsFront PIECES_MOST pieces.items self.old.wire.waiting) }
        ensures all { IfOk result (λ pieces. length pieces.items < PIECES_MOST
            → concat pieces.items ≡ self.old.wire.waiting) }
        ensures memory { OnErr result (0 < length self.old.wire.waiting) }
        ensures stays { self.new ≡ self.old }
    {
        self.out.pieces(alloc)
    }
}
