//! How long to wait before an attempt.
ghost use Rattle.std.specs.Prelude.{◌≡◌};
ghost use Rattle.nats_pool.specs.Delays.{default_delay};

/// The longest wait, in milliseconds. The crate's rule.
const LONGEST_DELAY: u64 = 4000;

/// How many milliseconds to wait before the attempt of this number since the last success: none before the first,
/// then 2, 4, 8 and so on up to 4000. The crate's rule.
pub fn reconnect_delay_default(attempts: usize) -> u64
    ensures { result ≡ default_delay attempts }
{
    match attempts {
        0 | 1 => 0,
        2..=12 => 1 << (attempts - 1),
        _ => LONGEST_DELAY,
    }
}
