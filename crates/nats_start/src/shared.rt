//! What a client that stays connected and its driver share.

use nats_client::Client;
use nats_hub::{Hub, Tallies};
use std::alloc::Global;
use std::sync::{Arc, Mutex};

/// What a client that stays connected and its driver share: the hub, and the pool under a lock of its own.
#[derive(Drop)]
pub struct Shared<G: Tallies, Q> {
    /// The hub of the client.
    pub hub: Arc<Hub<G>, Global>,
    /// The servers, which a driver holds for a round of connecting at a time.
    pub pool: Mutex<Q>,
}

/// A client that stays connected, and its hold of the pool. Own type: the crate's client has both.
#[derive(Drop)]
pub struct Connected<G: Tallies, Q> {
    /// The client, which has all parts of its hub.
    pub client: Client<G>,
    /// The servers that it may connect to.
    pub servers: crate::Servers<G, Q>,
}
