//! Reads what stands at the front of a text.
ghost use Rattle.std.specs.Prelude.{◌≡◌, ◌≤◌, length, option_map, IfOk, IsTrue, OnErr};
ghost use Rattle.nats_lines.specs.Operations.{front, front_of_sight, got_or_fault, lost_at, op_view, sight, is_whole, takes_memory};
ghost use Rattle.nats_decode.specs.Decoder.{sight_view, op_text_view, front_view, taken_by};

use crate::copies;
use crate::decode::{self, OpText, Sight};
use nats_message::{PeekedOp, ServerOp};
use nats_names::NoMemory;
use nats_outbuf::InBuf;
use std::alloc::Global;

/// What stands at the front of a text: less than an operation, one and the number of its bytes, or a fault that
/// takes some bytes.
#[derive(Drop)]
pub enum Front {
    Unfinished,
    Got(PeekedOp, usize),
    Fault(usize),
}

// What a whole text is, by the operation that was found in it.
fn front_with(
    alloc: Global,
    found: Option<ServerOp>,
    text: &OpText<'_>,
    len: usize,
) -> Result<Front, NoMemory>
    ensures { IfOk result (λ f. front_view f
        ≡ got_or_fault len (lost_at (op_text_view text.now) len) (option_map op_view found)) }
{
    match found {
        Some(op) => Ok(Front::Got(PeekedOp::boxed(alloc, op)?, len)),
        None => Ok(Front::Fault(text.lost_at(len))),
    }
}

// What a text is, by what is seen of it.
fn front_by(alloc: Global, seen: Sight<'_>) -> Result<Front, NoMemory>
    ensures front { IfOk result (λ f. front_view f ≡ front_of_sight (sight_view seen.entry)) }
    ensures memory { OnErr result (IsTrue (is_whole (sight_view seen.entry))) }
{
    match seen {
        Sight::Unfinished => Ok(Front::Unfinished),
        Sight::Fault(n) => Ok(Front::Fault(n)),
        Sight::Whole(text, len) => {
            let found = copies::operation(alloc, &text)?;
            front_with(alloc, found, &text, len)
        }
    }
}

/// What stands at the front of kept bytes, by what is seen there. The parts of a message share the bytes where they
/// can.
pub fn front_kept(alloc: Global, buf: &InBuf, seen: Sight<'_>) -> Result<Front, NoMemory>
    requires { sight_view seen ≡ sight buf.now }
    ensures front { IfOk result (λ f. front_view f ≡ front_of_sight (sight_view seen.entry)) }
    ensures memory { OnErr result (IsTrue (is_whole (sight_view seen.entry))) }
{
    match seen {
        Sight::Unfinished => Ok(Front::Unfinished),
        Sight::Fault(n) => Ok(Front::Fault(n)),
        Sight::Whole(text, len) => match copies::peeked_kept(alloc, buf, &text, len)? {
            Some(op) => Ok(Front::Got(op, len)),
            None => Ok(Front::Fault(text.lost_at(len))),
        },
    }
}

/// What stands at the front of `bytes`. It takes memory only where the text of an operation is there whole.
pub fn front_of(alloc: Global, bytes: &[u8]) -> Result<Front, NoMemory>
    ensures front { IfOk result (λ f. front_view f ≡ front bytes.now) }
    ensures fits { IfOk result (λ f. taken_by f ≤ length bytes.now) }
    ensures memory { OnErr result (IsTrue (takes_memory bytes.now)) }
{
    front_by(alloc, decode::sight_of(bytes))
}
