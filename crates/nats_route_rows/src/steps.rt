//! A broker, step by step.
use nats_broker::{Broker, BrokerInfo, BrokerTurn, Bytes, Token};
use nats_rows::{Bad, push_word};
use std::alloc::Global;

/// The most bytes of a message.
const MAX_PAYLOAD: u64 = 100;

/// What a peer writes: it asks for an answer twice.
const PINGS: &[u8] = b"PING\r\nPING\r\n";

fn info() -> Result<BrokerInfo, Bad> {
    let server_id = Token::new("LOOPBACK").ok_or(Bad::Form)?;
    Ok(BrokerInfo {
        server_id,
        max_payload: MAX_PAYLOAD,
    })
}

// Appends whether a command is due, and what waits for the first peer.
fn push_state(broker: &Broker, out: &mut String) -> Result<(), Bad> {
    out.push_str(if broker.is_due() { "\tdue" } else { "\tidle" })?;
    Ok(push_word(out, broker.waiting(1))?)
}

fn push_fed(alloc: Global, broker: &mut Broker, out: &mut String) -> Result<(), Bad> {
    if broker.check(&BrokerTurn::Feed(1, Bytes::from_static(PINGS))) {
        broker.feed(alloc, 1, PINGS)?;
    }
    push_state(broker, out)?;
    broker.advance(alloc)?;
    push_state(broker, out)?;
    broker.settle(alloc)?;
    push_state(broker, out)
}

fn push_left(broker: &mut Broker, out: &mut String) -> Result<(), Bad> {
    let half = broker.waiting(1).len() / 2;
    broker.taken(1, half);
    if broker.check(&BrokerTurn::Leave(1)) {
        broker.leave(1);
    }
    push_state(broker, out)
}

/// Appends how a peer joins, is fed, has its commands done, is read and leaves.
pub fn push_steps(alloc: Global, out: &mut String) -> Result<(), Bad> {
    let mut broker = Broker::new(alloc, info()?)?;
    if broker.check(&BrokerTurn::Join) {
        broker.join(alloc)?;
    }
    out.push_str("steps")?;
    push_state(&broker, out)?;
    push_fed(alloc, &mut broker, out)?;
    push_left(&mut broker, out)
}
