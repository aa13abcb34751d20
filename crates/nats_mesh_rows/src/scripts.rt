//! The moves of each row.

use anyhow::Result;
use nats_history::OutboundMessage;
use nats_mesh::{Call, Move};
use nats_names::{Bytes, Subject, Token};
use std::alloc::Global;

/// All that waits.
const ALL: u64 = u64::MAX;

fn subscribe(subject: &'static str) -> Call {
    Call::Subscribe {
        subject: Subject::from_static(subject),
        queue_group: None,
    }
}

fn publish(subject: &'static str, payload: &'static [u8]) -> Call {
    Call::Publish(OutboundMessage {
        subject: Subject::from_static(subject),
        reply: None,
        payload: Bytes::from_static(payload),
        headers: None,
    })
}

fn request(subject: &'static str, token: Token) -> Call {
    Call::Request {
        subject: Subject::from_static(subject),
        payload: Bytes::from_static(b"ask"),
        headers: None,
        token,
    }
}

/// A client makes a call, and all that waits for its link comes to the broker.
fn call(moves: &mut Vec<Move>, i: u64, call: Call) -> Result<()> {
    moves.push(Move::Do(i, call))?;
    moves.push(Move::Carry(i, ALL))?;
    Ok(())
}

/// One client hears what the other publishes, and takes it.
pub(crate) fn exchange(alloc: Global) -> Result<Vec<Move>> {
    let mut moves = Vec::new(alloc);
    call(&mut moves, 1, subscribe("a.*"))?;
    call(&mut moves, 2, publish("a.b", b"hi"))?;
    call(&mut moves, 2, publish("b", b"no"))?;
    moves.push(Move::Bring(1, ALL))?;
    moves.push(Move::Take(1, 1))?;
    Ok(moves)
}

/// A message that comes in two pieces is heard once the second comes; of three messages that come at once the third
/// meets a full queue.
pub(crate) fn pieces(alloc: Global) -> Result<Vec<Move>> {
    let mut moves = Vec::new(alloc);
    call(&mut moves, 1, subscribe("a"))?;
    call(&mut moves, 2, publish("a", b"one"))?;
    moves.push(Move::Bring(1, 10))?;
    moves.push(Move::Bring(1, ALL))?;
    moves.push(Move::Do(2, publish("a", b"two")))?;
    moves.push(Move::Do(2, publish("a", b"three")))?;
    moves.push(Move::Carry(2, 5))?;
    moves.push(Move::Carry(2, ALL))?;
    moves.push(Move::Bring(1, ALL))?;
    moves.push(Move::Take(1, 1))?;
    Ok(moves)
}

/// A request is answered by a client that hears it.
pub(crate) fn asks(alloc: Global, token: Token) -> Result<Vec<Move>> {
    let mut moves = Vec::new(alloc);
    call(&mut moves, 2, subscribe("svc"))?;
    call(&mut moves, 1, request("svc", token))?;
    moves.push(Move::Bring(2, ALL))?;
    moves.push(Move::Take(2, 1))?;
    call(&mut moves, 2, publish("_INBOX.MUX1.T1", b"answer"))?;
    moves.push(Move::Bring(1, ALL))?;
    Ok(moves)
}

/// Nobody hears a request, and the client is told so: behind a publish whose subject is not tested it says that it
/// wants to be.
pub(crate) fn unheard(alloc: Global, token: Token) -> Result<Vec<Move>> {
    let mut moves = Vec::new(alloc);
    let wish = "a 0\r\n\r\nCONNECT {\"no_responders\":true}\r\nPUB b";
    call(&mut moves, 1, publish(wish, b""))?;
    call(&mut moves, 1, request("svc", token))?;
    moves.push(Move::Bring(1, ALL))?;
    Ok(moves)
}

/// A client writes what is no command where subjects are not tested: its peer ends, and no byte goes to it any more.
pub(crate) fn ends(alloc: Global) -> Result<Vec<Move>> {
    let mut moves = Vec::new(alloc);
    call(&mut moves, 1, publish("a b c", b"hi"))?;
    moves.push(Move::Bring(1, ALL))?;
    Ok(moves)
}

/// The third client is none.
pub(crate) fn nobody(alloc: Global) -> Result<Vec<Move>> {
    let mut moves = Vec::new(alloc);
    call(&mut moves, 1, subscribe("a"))?;
    moves.push(Move::Take(1, 1))?;
    moves.push(Move::Carry(3, ALL))?;
    Ok(moves)
}

/// A subscription that was not asked for may not be named.
pub(crate) fn unnamed(alloc: Global) -> Result<Vec<Move>> {
    let mut moves = Vec::new(alloc);
    moves.push(Move::Take(1, 1))?;
    Ok(moves)
}
