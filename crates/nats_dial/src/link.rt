//! The handshake of one link.
ghost use Rattle.std.specs.Prelude.{◌≡◌, ◌≤◌, ◌<◌, length, Some, IfOk, OnOk, OnErr};
ghost use Rattle.std.specs.Io.{ReadsAtMost};
ghost use Rattle.nats_names.specs.declared.cause.Cause.TheVariants as cause;
ghost use Rattle.nats_outside.specs.Told.{read_of, bounded, write_of};
ghost use Rattle.nats_handshake.specs.Course.{io};
ghost use Rattle.nats_handshake.specs.Shaking.{wanting};
ghost use Rattle.nats_dial.specs.Lines.{Looked, Looks, Hears, Writes, ReadsInTime, wrote_all};

use bytes::Bytes;
use nats_handshake::{ConnectError, ConnectErrorKind, Handshake};
use nats_names::{Cause, Failed};
use nats_outside::{Clock, LinkRead, LinkWrite};
use std::alloc::Global;
use std::slice;

pub(crate) fn wanting() -> ConnectError
    ensures { result ≡ wanting }
{
    ConnectError::new(ConnectErrorKind::NoMemory)
}

pub(crate) fn fault() -> ConnectError
    ensures { result ≡ io cause.Fault }
{
    ConnectError::with_source(ConnectErrorKind::Io, Cause::Fault)
}

// One write of these bytes.
fn write_some<T: LinkWrite>(write: &mut T, left: &Bytes) -> Result<usize, Failed>
    ensures bound { IfOk result (λ n. n ≤ length left.now) }
    ensures progress { 0 < length left.now → IfOk result (λ n. 0 < n) }
    ensures told { T.write_told write.new ≡ write_of result left.now (T.write_told write.old) }
{
    write.write_pieces(slice::from_ref(left))
}

// Writes all of these bytes.
fn write_all<T: LinkWrite>(write: &mut T, bytes: Bytes) -> Result<(), Failed>
    ensures ok { OnOk result (T.write_told write.new ≡ wrote_all bytes (T.write_told write.old)) }
    ensures err { OnErr result (1 ≤ (T.write_told write.new).faults) }
{
    let mut left = bytes;
    'left: while !left.is_empty() {
        let count = write_some(write, &left)?;
        left.advance(count);
    }
    Ok(())
}

// Writes all that the handshake has to say.
pub(crate) fn write_out<T: LinkWrite>(
    alloc: Global,
    shaking: &mut Handshake,
    write: &mut T,
) -> Result<(), ConnectError>
    ensures { Writes shaking.old result shaking.new (T.write_told write.old) (T.write_told write.new) }
{
    let count = shaking.out().len();
    match Bytes::copy_from_slice(alloc, shaking.out()) {
        Ok(bytes) => match write_all(write, bytes) {
            Ok(()) => {
                shaking.sent(count);
                Ok(())
            }
            Err(Failed) => Err(fault()),
        },
        Err(_) => Err(wanting()),
    }
}

// A look at the clock: how many milliseconds are left.
fn in_time<C: Clock>(shaking: &mut Handshake, clock: &mut C) -> Result<u64, ConnectError>
    ensures looked { Looked (C.clock_told clock.old) (C.clock_told clock.new) }
    ensures beside { C.beside_clock clock.new ≡ C.beside_clock clock.old }
    ensures looks { Looks shaking.old result shaking.new (C.clock_told clock.new) }
{
    let now = clock.now_ms();
    match shaking.expire(now) {
        Ok(()) => Ok(shaking.left(now)),
        Err(error) => Err(error),
    }
}

// One read that waits for so many milliseconds at most.
fn read_within<R: LinkRead>(read: &mut R, ms: u64, buf: &mut [u8]) -> Result<usize, Failed>
    ensures bound { ReadsAtMost result buf.new }
    ensures told { R.read_told read.new
        ≡ read_of result buf.new ((R.read_told read.new).left) (bounded (Some ms) (R.read_told read.old)) }
    ensures len { length buf.new ≡ length buf.old }
{
    read.wait_at_most(Some(ms));
    read.read(buf)
}

// What became of a read in time: bytes, the link's end, or a failure.
fn heard(shaking: &mut Handshake, given: Result<usize, Failed>) -> Result<usize, ConnectError>
    ensures { Hears shaking.old given result shaking.new }
{
    match given {
        Ok(0) => Err(shaking.end()),
        Ok(count) => Ok(count),
        Err(Failed) => Err(fault()),
    }
}

// One read that waits for what is left of the handshake's time, with a look at the clock before it and after it,
// whether it failed or not.
pub(crate) fn read_in_time<R: LinkRead, C: Clock>(
    shaking: &mut Handshake,
    read: &mut R,
    clock: &mut C,
    buf: &mut [u8],
) -> Result<usize, ConnectError>
    requires { 0 < length buf.old }
    ensures looked { Looked (C.clock_told clock.old) (C.clock_told clock.new) }
    ensures beside { C.beside_clock clock.new ≡ C.beside_clock clock.old }
    ensures reads { ReadsInTime buf.new shaking.old result shaking.new
        (R.read_told read.old) (R.read_told read.new) (C.clock_told clock.new) }
{
    let ms = in_time(shaking, clock)?;
    let given = read_within(read, ms, buf);
    in_time(shaking, clock)?;
    heard(shaking, given)
}
