//! What a pool is told once.
use crate::{ChoiceFn, DelayFn};

/// How long to wait before an attempt.
#[derive(Drop)]
pub enum Delay {
    /// As `reconnect_delay_default` says.
    Default,
    /// As the callback says.
    Custom(DelayFn),
}

/// What a pool is told once. Own type of this library.
#[derive(Drop)]
pub struct PoolOptions {
    /// How many attempts may be made since the last success; none, and 0, mean no limit.
    pub max_reconnects: Option<usize>,
    /// Whether a round keeps the order of the pool.
    pub retain_servers_order: bool,
    /// Whether servers that a server tells of are left out.
    pub ignore_discovered_servers: bool,
    /// How long to wait before an attempt.
    pub delay: Delay,
    /// Which server to try.
    pub choice: Option<ChoiceFn>,
}
