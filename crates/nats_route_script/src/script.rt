//! A script of a broker as it was read.
use nats_broker::{BrokerTurn, Seq};

/// What the bytes of a script say. Own type.
#[derive(Drop)]
pub enum RouteScript {
    /// The most bytes of a message, and the turns in order; turn k stands at line k + 1.
    Good {
        max_payload: u64,
        turns: Seq<BrokerTurn>,
    },
    /// The number of the first line that cannot be read, from 1.
    Bad(u64),
}
