//! Serving a broker, for tests and for programs on one machine.

use crate::asked::Serving;
use crate::stop::Stop;
use nats_names::Token;
use nats_outside::Clock;
use nats_serving::{Broker, BrokerHub, BrokerInfo, Served, listen_on, serve_all};
use std::alloc::Global;
use std::io;
use std::net::{Net, TcpListener, TcpStream};
use std::sync::{Arc, Wait};
use std::thread::Threads;

/// The most bytes that the payload and the header block of a message may have together.
const MOST_PAYLOAD: u64 = 1_048_576;

/// What the broker says of itself.
fn info() -> BrokerInfo {
    match Token::new("WICHAPOK") {
        Some(server_id) => BrokerInfo {
            server_id,
            max_payload: MOST_PAYLOAD,
        },
        None => unreachable!(),
    }
}

/// The broker, which is to be served to so many at once.
fn served_to(alloc: Global, most: u64) -> Result<Arc<Served, Global>, Stop> {
    let broker = Broker::new(alloc, info())?;
    let hub = BrokerHub::new(alloc, broker)?;
    Ok(Arc::new(alloc, Served::new(hub, most))?)
}

/// Tells why nobody can come.
fn unheard<R: Eprint>(rt: &R, error: &io::Error) -> Stop {
    let _ = eprintln!(rt; "cannot listen: {error}");
    Stop::NoLink
}

/// Prints where it listens, and for how many.
fn announce<R: Print>(rt: &R, listener: &TcpListener, most: u64) -> Result<(), Stop> {
    let Ok(home) = listener.local_addr() else {
        return Err(Stop::NoLink);
    };
    match println!(rt; "serving NATS on {home}, at most {most} clients") {
        Ok(()) => Ok(()),
        Err(_) => Err(Stop::Output),
    }
}

/// Serves a broker until the process is ended.
pub fn serve_at<
    R: Net<Listener = TcpListener, Stream = TcpStream>
        + Threads
        + Wait
        + Print
        + Eprint
        + Copy
        + Drop
        + Send
        + Sync
        + 'static,
    C: Clock,
>(rt: &R, alloc: Global, clock: &mut C, serving: Serving) -> Result<(), Stop> {
    let served = served_to(alloc, serving.most)?;
    let listener = match listen_on(rt, serving.port) {
        Ok(listener) => listener,
        Err(error) => return Err(unheard(rt, &error)),
    };
    announce(rt, &listener, serving.most)?;
    serve_all(rt, alloc, &served, &listener, clock);
    Ok(())
}
