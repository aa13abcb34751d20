//! A link that is up.
use nats_pool::{ServerInfo, Text};

/// A link whose handshake succeeded. Own type of this library.
#[derive(Drop)]
pub struct Linked<R, W> {
    /// The server's INFO.
    pub info: ServerInfo,
    /// The bytes that came behind the handshake: the link's first piece.
    pub rest: Vec<u8>,
    /// The reading half.
    pub read: R,
    /// The writing half.
    pub write: W,
    /// Those of the INFO's texts of addresses that spell none, in order.
    pub skipped: Vec<Text>,
}

/// What a handshake leaves that succeeded: the INFO, the bytes behind it, and the texts of addresses that it skipped.
#[derive(Drop)]
pub(crate) struct Greeted {
    pub(crate) info: ServerInfo,
    pub(crate) rest: Vec<u8>,
    pub(crate) skipped: Vec<Text>,
}
