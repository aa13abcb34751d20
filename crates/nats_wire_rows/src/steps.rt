//! Bytes that come one by one cost no more steps than there are bytes.
ghost use Rattle.std.specs.Prelude.{◌≡◌, ◌<◌, ◌≤◌, length};

use crate::says::push_number;
use nats_outbuf::Steps;
use nats_rows::Bad;
use nats_wire::{Connection, WireError};
use std::alloc::Global;
use std::marker::Brand;
use std::sync::ledger::{Blank, Ledger};

/// The bytes of the message that comes byte by byte.
const PAYLOAD: usize = 1_000;

/// How many operations are read where each byte is fed alone and a read follows it.
fn read_by_bytes<L: Ledger>(
    alloc: Global,
    bytes: &[u8],
    steps: &mut Steps<L>,
) -> Result<usize, WireError>
    requires { steps.old ≡ 0 }
    ensures { steps.new ≤ length bytes.now }
{
    let mut connection = Connection::new(alloc);
    let mut count: usize = 0;
    for byte in bytes {
        connection.feed(alloc, &[*byte])?;
        if connection.try_read_op(alloc, steps)?.is_some() {
            count = count.saturating_add(1);
        }
    }
    Ok(count)
}

/// How many operations are read of bytes that come one by one, their steps counted.
fn count_by_bytes<L: Ledger>(alloc: Global, blank: Blank, bytes: &[u8]) -> Result<usize, WireError>
    requires name { blank.name ≡ L.name }
    requires parts { (blank.parts ≡ L.parts) × (0 < L.parts) }
{
    read_by_bytes(alloc, bytes, &mut Steps::<L>::new(blank))
}

/// Appends how many operations are read of a long message that comes byte by byte and of a PING behind it.
pub fn push_count(alloc: Global, out: &mut String) -> Result<(), Bad> {
    let mut bytes = Vec::from_slice(alloc, b"MSG a 1 1000\r\n")?;
    for _ in 0..PAYLOAD {
        bytes.push(b'\n')?;
    }
    bytes.extend_from_slice(b"\r\nPING\r\n")?;
    let count = count_by_bytes::<Brand>(alloc, Blank::new(1), bytes.as_slice());
    let count = count.map_err(|_| Bad::NoMemory)?;
    push_number(alloc, count as u64, out)
}
