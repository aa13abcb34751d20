//! Looks for the end of a text's first line, by counted steps.
ghost use Rattle.std.specs.Prelude.{◌≡◌, ◌+◌, ◌-◌, ◌<◌, ◌≤◌, length, drop, Some, None, IsTrue};
ghost use Rattle.std.specs.Bool.{OnTrue, OnFalse};
ghost use Rattle.memchr.specs.Find.{IsFirstByte, is_byte};
ghost use Rattle.nats_lines.specs.Operations.{cut_line};
ghost use Rattle.nats_lines.specs.Scan.{clear_to, Looked, EndsBefore, Behind, untested};

use memchr::memchr;
use nats_outbuf::{InBuf, Steps};
use std::sync::ledger::Ledger;

/// Nothing was looked for yet.
pub const NOT_LOOKED: Found = Found {
    place: 0,
    ended: false,
};

/// How far the end of the first line was looked for.
#[derive(Clone, Copy)]
pub struct Found {
    /// No line's end stands before this place.
    pub place: usize,
    /// Whether one stands there.
    pub ended: bool,
}

impl Found {
    /// What is known once the first `n` bytes are gone.
    #[inline(always)]
    pub fn behind(self, n: usize) -> Found
        ensures { Behind n self.place self.ended result.place result.ended }
    {
        match self.place.checked_sub(n) {
            Some(place) => Found {
                place,
                ended: self.ended,
            },
            None => NOT_LOOKED,
        }
    }
}

// Whether the first LF behind a place, which stands at `at`, ends a line. It is one step, or none where the LF
// stands at the place: that it ends no line is known then.
#[inline(always)]
fn ends_line<L: Ledger>(buf: &InBuf, place: usize, at: usize, steps: &mut Steps<L>) -> bool
    requires within { (place ≤ at) × (at < length buf.now) }
    requires clear { IsTrue (clear_to place buf.now) }
    requires first { IsFirstByte (is_byte 10) (drop place buf.now) (Some (at - place)) }
    ensures ends { OnTrue result (EndsBefore place at buf.now) }
    ensures none { OnFalse result (IsTrue (clear_to at buf.now)) }
    ensures step { steps.new ≤ steps.old + (at - place) }
    ensures counts { steps.old ≤ steps.new }
{
    if at == place {
        return false;
    }
    buf.crlf_at(at - 1, steps)
}

/// Tests whether a line ends at a place before which none does: what is known of the end of the first line then. It is
/// one step, and a byte was tested for it.
#[inline(always)]
pub fn line_end<L: Ledger>(buf: &InBuf, place: usize, steps: &mut Steps<L>) -> Found
    requires within { (0 < place) × (place + 1 < length buf.now) }
    requires clear { IsTrue (clear_to place buf.now) }
    ensures there { result.place ≡ place }
    ensures looked { Looked result.place result.ended buf.now }
    ensures paid { steps.new + untested result.place result.ended buf.now ≤ steps.old + length buf.now }
    ensures counts { steps.old ≤ steps.new }
{
    let ended = buf.crlf_at(place, steps);
    Found { place, ended }
}

/// Looks for the end of the first line from a place on, where none stands before it. No byte is tested twice, so
/// that the steps are at most as many as the bytes that were not tested before and are now.
#[inline(always)]
pub fn search<L: Ledger>(buf: &InBuf, from: usize, steps: &mut Steps<L>) -> Found
    requires within { from ≤ length buf.now }
    requires clear { IsTrue (clear_to from buf.now) }
    ensures looked { Looked result.place result.ended buf.now }
    ensures none { OnFalse result.ended (cut_line buf.now ≡ None) }
    ensures paid { steps.new + untested result.place result.ended buf.now ≤ steps.old + (length buf.now - from) }
    ensures counts { steps.old ≤ steps.new }
{
    let bytes = buf.as_slice();
    let mut place = from;
    while let Some(lf) = memchr(b'\n', &bytes[place..]) {
        let at = place + lf;
        if ends_line(buf, place, at, steps) {
            return Found {
                place: at - 1,
                ended: true,
            };
        }
        if at + 1 == buf.len() {
            return Found {
                place: at,
                ended: false,
            };
        }
        place = at + 1;
    }
    Found {
        place: buf.len().saturating_sub(1),
        ended: false,
    }
}
