//! Who comes to a listener.

use crate::Served;
use crate::peer::serve_peer;
use nats_outside::Clock;
use nats_system::{MOST_WRITE_MS, NetRead, NetWrite};
use std::alloc::Global;
use std::net::{Ipv4Addr, Net, OpenListener, SocketAddr, TcpListener, TcpStream};
use std::sync::{Arc, Wait};
use std::thread::Threads;
use std::time::Duration;
use std::{io, thread};

/// How long it rests where the system gives no link to who comes, in milliseconds.
const REST_MS: u64 = 100;

/// A listener at this port of the loopback, or at one that the system picks where it is 0. Own call.
pub fn listen_on<R: Net>(rt: &R, port: u16) -> io::Result<R::Listener> {
    TcpListener::bind(rt, SocketAddr::from((Ipv4Addr::LOCALHOST, port)))
}

/// The two halves of a link, whose writes fail where they block for as long as those of a client do.
fn halves(stream: TcpStream) -> io::Result<(NetRead<TcpStream>, NetWrite<TcpStream>)> {
    stream.set_nodelay(true)?;
    stream.set_write_timeout(Some(Duration::from_millis(MOST_WRITE_MS)))?;
    let other = stream.try_clone()?;
    Ok((NetRead::new(stream), NetWrite::new(other)))
}

/// Serves a peer that has a seat, and frees the seat once it is gone.
fn sit_through<R: Threads + Wait + Sync>(
    rt: &R,
    alloc: Global,
    served: &Served,
    mut from: NetRead<TcpStream>,
    mut out: NetWrite<TcpStream>,
) {
    serve_peer(rt, alloc, &served.hub, &mut from, &mut out);
    drop(from);
    drop(out);
    served.rise(rt);
}

/// Starts the thread of a peer that has a seat: whether it is started.
fn start<R: Threads + Wait + Copy + Drop + Send + Sync + 'static>(
    rt: &R,
    alloc: Global,
    served: &Arc<Served, Global>,
    stream: TcpStream,
) -> bool {
    let (Ok((from, out)), Ok(shared)) = (halves(stream), Arc::try_clone(served)) else {
        return false;
    };
    let copied = *rt;
    thread::spawn(rt, move || sit_through(&copied, alloc, &shared, from, out)).is_ok()
}

/// Gives who came a seat and a thread; its link is closed where there is none.
fn admit<R: Threads + Wait + Copy + Drop + Send + Sync + 'static>(
    rt: &R,
    alloc: Global,
    served: &Arc<Served, Global>,
    stream: TcpStream,
) {
    if served.sit(rt) && !start(rt, alloc, served, stream) {
        served.rise(rt);
    }
}

/// Serves each who comes to a listener, on threads of its own, for which nobody waits. Where the system gives no link
/// it rests by `clock`, and goes on. Own call.
pub fn serve_all<R: Threads + Wait + Copy + Drop + Send + Sync + 'static, C: Clock>(
    rt: &R,
    alloc: Global,
    served: &Arc<Served, Global>,
    listener: &TcpListener,
    clock: &mut C,
) {
    'links: for stream in listener.incoming() {
        match stream {
            Ok(stream) => admit(rt, alloc, served, stream),
            Err(_) => clock.sleep_ms(REST_MS),
        }
    }
}
