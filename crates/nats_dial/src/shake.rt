//! The handshake of a link, to its end.
ghost use Rattle.std.specs.Prelude.{◌≡◌, ℕ, Bool, List};
ghost use Rattle.nats_pool.specs.Auths.{auth_value};
ghost use Rattle.nats_handshake.specs.Credentials.{SignerAnswers, AuthAnswers, Offers};
ghost use Rattle.nats_handshake.specs.Heard.{IsOpen};
ghost use Rattle.nats_dial.specs.Lines.{Looked, Line, Shaken};
ghost use Rattle.nats_dial.specs.Taking.{HasTook, TookShaken};

use crate::exchange::exchange;
use crate::link::wanting;
use nats_handshake::{ConnectError, ConnectOptions, Handshake, Shake};
use nats_outside::{Clock, LinkRead, LinkWrite};
use nats_pool::ServerList;
use std::alloc::Global;

/// Shakes hands over the two halves of a link, with a look at the clock before each read and after it, failed or not,
/// and no read that waits for longer than what is left: reads, feeds the handshake, and writes all that it has to say,
/// until it succeeds. What the link gave is then one text, cut anywhere, that the handshake takes as `Handshake::feed`
/// says, and what it took is CONNECT, PING and the answers. TLS was then wanted neither by an option nor by the address
/// nor by the INFO, the time was not over, and reads wait again for as long as it takes. `pool` takes in the servers
/// that the INFO tells of. It is for a handshake that was just made, or one that is still open. Own call: the crate
/// does this on its socket.
///
/// # Errors
///
/// `TimedOut` only where the clock gave the start plus the time of the handshake, or later, and no other error but
/// want of memory then. `Io` with the cause `Fault` only where a half failed, with `NoInfo` only where the link ended
/// and no operation stood whole before its end, with `BrokenPipe` only where one did. Any other only where
/// the handshake refuses the whole text that the link gave, with that kind and cause. Want of memory.
pub fn shake_hands<R: LinkRead, T: LinkWrite, C: Clock, P: ServerList>(
    alloc: Global,
    shaking: &mut Handshake,
    options: &ConnectOptions,
    pool: &mut P,
    read: &mut R,
    write: &mut T,
    clock: &mut C,
) -> Result<(), ConnectError>
    ensures looked { Looked (C.clock_told clock.old) (C.clock_told clock.new) }
    ensures beside { C.beside_clock clock.new ≡ C.beside_clock clock.old }
    ensures shaken { (by_scheme : Bool) (start timeout : ℕ) (text wrote : List ℕ) → IsOpen shaking.old.stage
        → Line (Offers SignerAnswers AuthAnswers options.now.signer options.now.auth_callback
        (auth_value options.now.auth))
        options.now.tls_required options.now.name options.now.no_echo by_scheme start timeout text wrote
        shaking.old (R.read_told read.old) (T.write_told write.old)
        → Shaken P.Takes
        (Offers SignerAnswers AuthAnswers options.now.signer options.now.auth_callback (auth_value options.now.auth))
        options.now.tls_required options.now.name options.now.no_echo by_scheme start timeout
        result shaking.new (R.read_told read.new) (T.write_told write.new) (C.clock_told clock.new) }
    ensures took { (p : P) → IsOpen shaking.old.stage → HasTook P.Takes shaking.old.stage shaking.old.skipped p pool.old
        → TookShaken P.Takes p result shaking.new pool.new }
{
    'exchanges: for _ in 0..u64::MAX {
        match exchange(alloc, shaking, options, pool, read, write, clock) {
            Ok(Shake::More) => {}
            Ok(Shake::Done) => {
                read.wait_at_most(None);
                return Ok(());
            }
            Err(error) => return Err(error),
        }
    }
    Err(wanting())
}
