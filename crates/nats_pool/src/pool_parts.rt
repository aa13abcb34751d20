//! What a pool keeps and hands out.
use crate::round::Round;
use crate::{PoolOptions, Server};
use nats_addr::ServerAddr;
use nats_names::Text;
use rand::rngs::SmallRng;

/// A server of a round.
#[derive(Drop)]
pub struct Planned {
    /// Its address.
    pub addr: ServerAddr,
    /// How many attempts at it failed when the round began.
    pub failed_attempts: usize,
    /// The milliseconds that the choice callback named.
    pub delay: Option<u64>,
}

/// One attempt: where to, and how many milliseconds to wait before. Own type of this library.
#[derive(Debug, Drop)]
pub struct Attempt {
    /// The address of the server.
    pub addr: ServerAddr,
    /// Milliseconds to wait.
    pub delay: u64,
}

/// What comes next in a round. Own type of this library.
#[derive(Debug, Drop)]
pub enum Next {
    /// This attempt.
    Try(Attempt),
    /// Nothing: all servers of the round were handed out.
    Over,
    /// Nothing: as many attempts were made as are allowed.
    MaxReconnects,
}

/// How the servers of a round were chosen. Own type of this library.
#[derive(Clone, Copy, Debug, PartialEq, Eq)]
pub enum Choice {
    /// All servers of the pool.
    Default,
    /// The one that the callback named.
    Callback,
    /// All servers of the pool, since the callback named one that is not in it.
    NotInPool,
}

/// How an attempt went. Own type of this library.
#[derive(Debug, Drop)]
pub enum Outcome {
    /// The handshake succeeded.
    Connected,
    /// It failed, with this text.
    Failed(Text),
}

/// The servers that a client may connect to. The crate keeps it in its connector.
#[derive(Drop)]
pub struct Pool {
    pub(crate) servers: Vec<Server>,
    pub(crate) options: PoolOptions,
    pub(crate) generator: SmallRng,
    pub(crate) attempts: usize,
    pub(crate) choice: Choice,
    pub(crate) round: Round,
}
