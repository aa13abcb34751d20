//! One read of a link in its handshake, and the answer.
ghost use Rattle.std.specs.Prelude.{◌≡◌, ℕ, Bool, List};
ghost use Rattle.nats_pool.specs.Auths.{auth_value};
ghost use Rattle.nats_handshake.specs.Credentials.{SignerAnswers, AuthAnswers, Offers};
ghost use Rattle.nats_handshake.specs.Heard.{IsOpen};
ghost use Rattle.nats_dial.specs.Lines.{Looked, Line, Exchanged};
ghost use Rattle.nats_dial.specs.Taking.{HasTook, TookExchange};

use crate::link::{read_in_time, write_out};
use nats_handshake::{ConnectError, ConnectOptions, Handshake, Shake};
use nats_outside::{Clock, LinkRead, LinkWrite};
use nats_pool::ServerList;
use std::alloc::Global;

/// The length of the buffer that a handshake reads into. Own choice.
pub const READ_SIZE: usize = 4_096;

// One read, what it comes to, and the answer written.
pub(crate) fn exchange<R: LinkRead, T: LinkWrite, C: Clock, P: ServerList>(
    alloc: Global,
    shaking: &mut Handshake,
    options: &ConnectOptions,
    pool: &mut P,
    read: &mut R,
    write: &mut T,
    clock: &mut C,
) -> Result<Shake, ConnectError>
    ensures looked { Looked (C.clock_told clock.old) (C.clock_told clock.new) }
    ensures beside { C.beside_clock clock.new ≡ C.beside_clock clock.old }
    ensures exchanged { (by_scheme : Bool) (start timeout : ℕ) (text wrote : List ℕ) → IsOpen shaking.old.stage
        → Line (Offers SignerAnswers AuthAnswers options.now.signer options.now.auth_callback
        (auth_value options.now.auth))
        options.now.tls_required options.now.name options.now.no_echo by_scheme start timeout text wrote
        shaking.old (R.read_told read.old) (T.write_told write.old)
        → Exchanged P.Takes
        (Offers SignerAnswers AuthAnswers options.now.signer options.now.auth_callback (auth_value options.now.auth))
        options.now.tls_required options.now.name options.now.no_echo by_scheme start timeout
        result shaking.new (R.read_told read.new) (T.write_told write.new) (C.clock_told clock.new) }
    ensures took { (p : P) → IsOpen shaking.old.stage → HasTook P.Takes shaking.old.stage shaking.old.skipped p pool.old
        → TookExchange P.Takes p result shaking.new pool.new }
{
    let mut buf = [0u8; READ_SIZE];
    let count = read_in_time(shaking, read, clock, &mut buf)?;
    match shaking.feed(alloc, &buf[..count], options, pool) {
        Ok(shake) => {
            write_out(alloc, shaking, write)?;
            Ok(shake)
        }
        Err(error) => Err(error),
    }
}
