//! What a caller's calls have in common.

use nats_core::Token;

/// The most bytes of a caller's name: with a number behind it a name is still a token.
pub const NAME_LIMIT: usize = 40;

/// What a caller's calls have in common: the name that their tokens begin with, how many requests each makes at most,
/// and how long, in milliseconds, an attempt waits for its reply.
#[derive(Drop)]
pub struct Terms {
    pub name: Token,
    pub tries: u64,
    pub patience: u64,
}
