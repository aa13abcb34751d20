//! The options of a connection.

use crate::{Auth, AuthFn, ChoiceFn, Delay, EventFn, SignerFn};
use nats_names::{Subject, Text};
use std::num::{NonZeroU16, NonZeroU64};

/// Milliseconds that a handshake may take. The crate's default.
pub(crate) const DEFAULT_CONNECTION_TIMEOUT: u64 = 5_000;

/// Milliseconds that a request may take. The crate's default.
pub(crate) const DEFAULT_REQUEST_TIMEOUT: u64 = 10_000;

/// Milliseconds between two pings. The crate's default.
pub(crate) const DEFAULT_PING_INTERVAL: u64 = 60_000;

/// How many accepted calls may wait. The crate's default.
pub(crate) const DEFAULT_CLIENT_CAPACITY: u64 = 2_048;

/// How many messages of a subscription may wait. The crate's default.
pub(crate) const DEFAULT_SUBSCRIPTION_CAPACITY: u64 = 65_536;

/// What inbox subjects begin with. The crate's default.
pub(crate) const DEFAULT_INBOX_PREFIX: &str = "_INBOX";

/// The options of a connection: each call below changes its one field, which stands here too. The crate's
/// `ConnectOptions`. It has no Debug text, since it holds secrets.
#[derive(Drop)]
pub struct ConnectOptions {
    /// The name of the client, sent to the server.
    pub name: Option<Text>,
    /// Whether the server is asked not to send the client's own messages back to it.
    pub no_echo: bool,
    /// How many attempts may be made since the last success; none means no limit.
    pub max_reconnects: Option<usize>,
    /// Milliseconds that a handshake may take.
    pub connection_timeout: u64,
    /// Milliseconds that a request may take, where it ends by itself.
    pub request_timeout: Option<u64>,
    /// Milliseconds between two pings.
    pub ping_interval: NonZeroU64,
    /// How many accepted calls may wait.
    pub client_capacity: u64,
    /// How many messages of a subscription may wait.
    pub subscription_capacity: u64,
    /// What inbox subjects begin with.
    pub inbox_prefix: Subject,
    /// The length of the buffer that a read is handed.
    pub read_buffer_capacity: NonZeroU16,
    /// Whether TLS is demanded, which is then refused.
    pub tls_required: bool,
    /// Whether the first attempts are made in the background too.
    pub retry_on_initial_connect: bool,
    /// Whether servers that a server tells of are left out.
    pub ignore_discovered_servers: bool,
    /// Whether a round keeps the order of the pool.
    pub retain_servers_order: bool,
    /// Whether subjects are published to without a test.
    pub skip_subject_validation: bool,
    /// What the client authenticates by.
    pub auth: Auth,
    /// What signs a nonce, where there is a JWT.
    pub signer: Option<SignerFn>,
    /// What says, for a nonce, what to authenticate by.
    pub auth_callback: Option<AuthFn>,
    /// What is told of events.
    pub event_callback: Option<EventFn>,
    /// How long to wait before an attempt.
    pub reconnect_delay: Delay,
    /// Which server to try.
    pub reconnect_to_server: Option<ChoiceFn>,
    /// Whether a journal is kept. Own option of this library.
    pub journal: bool,
}
