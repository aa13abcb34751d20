//! The bytes that came over a link and that no operation took yet, with what is remembered of them: no byte is
//! tested twice for the end of a line, and a line that announces a body isn't read again while the body comes.
ghost use Rattle.std.specs.Prelude.{◌≡◌, ◌++◌, ◌+◌, ◌-◌, ◌<◌, ◌≤◌, [], length, drop, option_map, true, None, IsTrue, IfOk, IfSome, OnOk, OnErr};
ghost use Rattle.std.specs.Bool.{OnFalse};
ghost use Rattle.nats_lines.specs.Operations.{cut_line, sight, front, takes_memory, is_unfinished, got, message, got_or_fault, size_of, op_view};
ghost use Rattle.nats_decode.specs.Decoder.{sight_view, front_view, taken_by};
ghost use Rattle.nats_lines.specs.Scan.{Looked, untested, Needs};
ghost use Rattle.nats_unread.specs.Kept.{Paid};
ghost use Rattle.nats_unread.specs.Kept.{Reads};

use nats_decode::front::{Front, front_kept};
use nats_decode::{Sight, needed, operation_kept, sight_at};
use nats_lines::search::{Found, NOT_LOOKED, search};
use nats_message::{ServerOp, WireError};
use nats_names::{Bytes, NoMemory};
use nats_outbuf::{InBuf, Steps};
use nats_plain::{Plain, read_plain};
use std::alloc::Global;
use std::marker::{Brand, Model};
use std::sync::ledger::{Blank, Ledger};

/// From this length on bytes are shared that begin with no message. Own choice.
const SHARED_LEAST: usize = 256;

/// Unread bytes. Contracts see them as a list, with the number of those that were not tested yet for the end of a line.
#[derive(Drop)]
pub struct Unread {
    buf: InBuf,
    /// How far the end of the first line was looked for.
    found: Found,
    /// Fewer bytes than these are less than an operation; 0 where that isn't known.
    needed: usize,
    /// An operation or a fault is known to stand at the front.
    ready: bool,
    /// How many bytes came last.
    fed: usize,
}

impl Model for Unread {
    ghost use Rattle.std.specs.Prelude.{◌≡◌, false};
    ghost use Rattle.std.specs.Bool.{OnTrue};
    ghost use Rattle.nats_lines.specs.Operations.{front, is_unfinished};
    ghost use Rattle.nats_lines.specs.Scan.{Looked, untested, Needs};
    ghost use Rattle.nats_unread.specs.Kept.{Unread};

    ghost Value = { Unread };

    ghost view = { λ u. record { bytes = u.buf; untested = untested u.found.place u.found.ended u.buf } };

    ghost invariant = { λ u. Looked u.found.place u.found.ended u.buf × Needs u.buf u.needed
        × OnTrue u.ready (is_unfinished (front u.buf) ≡ false) };
}

impl Unread {
    /// No bytes. It takes no memory.
    pub fn new(alloc: Global) -> Unread
        ensures { result ≡ record { bytes = []; untested = 0 } }
    {
        Unread {
            buf: InBuf::new(alloc),
            found: NOT_LOOKED,
            needed: 0,
            ready: false,
            fed: 0,
        }
    }

    /// How many bytes there are.
    pub fn len(&self) -> usize
        ensures { result ≡ length self.now.bytes }
    {
        self.buf.len()
    }

    /// How many of them were not tested yet.
    pub fn untested(&self) -> usize
        ensures value { result ≡ self.now.untested }
        ensures bound { self.now.untested ≤ length self.now.bytes }
    {
        let len = self.buf.len();
        let tested = if self.found.ended {
            self.found.place + 1
        } else {
            self.found.place
        };
        len - tested
    }

    /// Appends bytes, whole or not at all.
    pub fn feed(&mut self, alloc: Global, bytes: &[u8]) -> Result<(), NoMemory>
        ensures ok { OnOk result (self.new ≡ record {
          bytes = self.old.bytes ++ bytes.now;
          untested = self.old.untested + length bytes.now;
        }) }
        ensures err { OnErr result (self.new ≡ self.old) }
    {
        self.buf.feed(alloc, bytes)?;
        self.fed = bytes.len();
        Ok(())
    }

    /// Appends bytes in a buffer that may be shared.
    pub fn feed_shared(&mut self, alloc: Global, bytes: &Bytes) -> Result<(), NoMemory>
        ensures ok { OnOk result (self.new ≡ record {
          bytes = self.old.bytes ++ bytes.now;
          untested = self.old.untested + length bytes.now;
        }) }
        ensures err { OnErr result (self.new ≡ self.old) }
    {
        self.buf.feed_shared(alloc, bytes)?;
        self.fed = bytes.len();
        Ok(())
    }

    /// Takes the first `n` bytes away.
    #[inline(always)]
    pub fn advance(&mut self, n: usize)
        requires { n ≤ length self.old.bytes }
        ensures bytes { self.new.bytes ≡ drop n self.old.bytes }
        ensures untested { self.new.untested ≤ self.old.untested }
    {
        self.buf.advance(n);
        self.needed = 0;
        self.ready = false;
        self.found = self.found.behind(n);
    }

    // Looks on for the end of the first line.
    #[inline(always)]
    fn search_on<L: Ledger>(&self, steps: &mut Steps<L>) -> Found
        ensures looked { Looked result.place result.ended self.now.bytes }
        ensures none { OnFalse result.ended (cut_line self.now.bytes ≡ None) }
        ensures paid { Paid steps.old self.now.untested steps.new (untested result.place result.ended self.now.bytes) }
    {
        if self.found.ended {
            self.found
        } else {
            search(&self.buf, self.found.place, steps)
        }
    }

    #[inline(always)]
    fn sight_counted<L: Ledger>(&self, blank: Blank) -> Sight<'_>
        requires name { blank.name ≡ L.name }
        requires parts { (blank.parts ≡ L.parts) × (0 < L.parts) }
        ensures { sight_view result ≡ sight self.now.bytes }
    {
        let found = self.search_on(&mut Steps::<L>::new(blank));
        if found.ended {
            sight_at(self.buf.as_slice(), found.place)
        } else {
            Sight::Unfinished
        }
    }

    /// What stands at their front, where it is told without memory.
    #[inline(always)]
    pub fn sight(&self) -> Sight<'_>
        ensures { sight_view result ≡ sight self.now.bytes }
    {
        if self.buf.len() < self.needed {
            Sight::Unfinished
        } else {
            self.sight_counted::<Brand>(Blank::new(1))
        }
    }

    /// Whether less than an operation stands at their front.
    pub fn is_unfinished(&self) -> bool
        ensures { result ≡ is_unfinished (front self.now.bytes) }
    {
        !self.ready && matches!(self.sight(), Sight::Unfinished)
    }

    // What stands at the front is less than an operation: how many bytes it needs is remembered, where its line
    // tells that.
    #[inline(never)]
    fn await_body(&mut self)
        ensures { self.new ≡ self.old }
    {
        if self.found.ended && self.needed == 0 {
            self.needed = needed(self.buf.as_slice(), self.found.place);
        }
    }

    // Whether messages are to share the bytes: an operation may stand there, and what is left of the bytes at the
    // next piece, which is copied then, is at most twice what the last piece had. A short text that begins with no
    // message isn't worth it.
    fn is_worth_sharing(&self) -> bool {
        if !self.found.ended || self.buf.shared().is_some() {
            return false;
        }
        let bytes = self.buf.as_slice();
        bytes.len() >= self.needed
            && bytes.len() / 2 <= self.fed
            && (bytes.len() >= SHARED_LEAST
                || bytes.starts_with(b"MSG ")
                || bytes.starts_with(b"HMSG "))
    }

    fn share(&mut self)
        ensures { self.new ≡ self.old }
    {
        if self.is_worth_sharing() {
            self.buf.share();
        }
    }

    // Looks on for the end of the first line, and remembers how far. Messages share the bytes from now on where that
    // is worth it.
    #[inline(always)]
    fn search<L: Ledger>(&mut self, steps: &mut Steps<L>)
        ensures same { self.new.bytes ≡ self.old.bytes }
        ensures paid { Paid steps.old self.old.untested steps.new self.new.untested }
    {
        self.found = self.search_on(steps);
        self.share();
    }

    // Reads the line at the front, and remembers what that told.
    fn look_into(&mut self)
        ensures { self.new ≡ self.old }
    {
        if self.is_unfinished() {
            self.await_body();
        } else {
            self.ready = true;
        }
    }

    /// Looks for the end of the first line, and remembers how far. Where an operation was begun by an earlier piece
    /// its line is read too, so that it isn't read again at each further piece; what came in one piece is read once,
    /// by whoever asks for it.
    pub fn look<L: Ledger>(&mut self, steps: &mut Steps<L>)
        ensures same { self.new.bytes ≡ self.old.bytes }
        ensures paid { Paid steps.old self.old.untested steps.new self.new.untested }
    {
        if self.buf.is_empty() {
            return;
        }
        self.search(steps);
        if self.buf.len() > self.fed {
            self.look_into();
        }
    }

    /// What stands at their front. It takes memory only where the text of an operation is there whole.
    pub fn front(&self, alloc: Global) -> Result<Front, NoMemory>
        ensures front { IfOk result (λ f. front_view f ≡ front self.now.bytes) }
        ensures fits { IfOk result (λ f. taken_by f ≤ length self.now.bytes) }
        ensures memory { OnErr result (IsTrue (takes_memory self.now.bytes)) }
    {
        front_kept(alloc, &self.buf, self.sight())
    }

    // The message without headers at their front, where it is such as nearly all come, stands there whole and can
    // share the bytes: it is read before anything else is thought of. Else it is remembered how far the end of the
    // first line was looked for.
    #[inline(always)]
    fn plain<L: Ledger>(&mut self, steps: &mut Steps<L>) -> Result<Option<Plain>, NoMemory>
        ensures same { self.new.bytes ≡ self.old.bytes }
        ensures paid { Paid steps.old self.old.untested steps.new self.new.untested }
        ensures plain { IfOk result (λ r. IfSome r (λ p. front self.old.bytes ≡ got (message p.sid p.message) p.len)) }
        ensures fits { IfOk result (λ r. IfSome r (λ p. p.len ≤ length self.old.bytes)) }
        ensures memory { OnErr result (IsTrue (takes_memory self.old.bytes)) }
    {
        if self.found.ended || self.found.place > 0 {
            return Ok(None);
        }
        read_plain(&self.buf, &mut self.found, steps)
    }

    /// Takes the operation at their front, `None` where that is less than an operation.
    #[inline(always)]
    pub fn read<L: Ledger>(
        &mut self,
        alloc: Global,
        steps: &mut Steps<L>,
    ) -> Result<Option<ServerOp>, WireError>
        ensures reads { Reads (front self.old.bytes) (takes_memory self.old.bytes)
            self.old.bytes result self.new.bytes }
        ensures paid { Paid steps.old self.old.untested steps.new self.new.untested }
    {
        match self.plain(steps)? {
            Some(Plain { sid, message, len }) => {
                self.advance(len);
                Ok(Some(ServerOp::Message { sid, message }))
            }
            None => self.read_other(alloc, steps),
        }
    }

    // The same of any operation.
    #[inline(never)]
    fn read_other<L: Ledger>(
        &mut self,
        alloc: Global,
        steps: &mut Steps<L>,
    ) -> Result<Option<ServerOp>, WireError>
        ensures reads { Reads (front self.old.bytes) (takes_memory self.old.bytes)
            self.old.bytes result self.new.bytes }
        ensures paid { Paid steps.old self.old.untested steps.new self.new.untested }
    {
        self.search(steps);
        self.read_any(alloc)
    }

    // The same, once the end of the first line was looked for.
    fn read_any(&mut self, alloc: Global) -> Result<Option<ServerOp>, WireError>
        ensures reads { Reads (front self.old.bytes) (takes_memory self.old.bytes)
            self.old.bytes result self.new.bytes }
        ensures untested { self.new.untested ≤ self.old.untested }
    {
        match self.sight() {
            Sight::Unfinished => {
                self.await_body();
                Ok(None)
            }
            Sight::Fault(n) => {
                self.advance(n);
                Err(WireError::ReadFault)
            }
            Sight::Whole(text, len) => {
                let lost = text.lost_at(len);
                let found = operation_kept(alloc, &self.buf, &text, len)?;
                self.take(found, len, lost)
            }
        }
    }

    // Takes an operation that was read, with its bytes, or those of a text that turned out to be none.
    #[inline(never)]
    fn take(
        &mut self,
        found: Option<ServerOp>,
        len: usize,
        lost: usize,
    ) -> Result<Option<ServerOp>, WireError>
        requires { size_of (got_or_fault len lost (option_map op_view found)) ≤ length self.old.bytes }
        ensures reads { Reads (got_or_fault len lost (option_map op_view found)) true
            self.old.bytes result self.new.bytes }
        ensures untested { self.new.untested ≤ self.old.untested }
    {
        match found {
            Some(op) => {
                self.advance(len);
                Ok(Some(op))
            }
            None => {
                self.advance(lost);
                Err(WireError::ReadFault)
            }
        }
    }
}
