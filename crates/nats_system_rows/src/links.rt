//! A link over the loopback: what one end writes the other reads, and the end of one is the other's.

use anyhow::{Result, anyhow};
use bytes::Bytes;
use nats_system::{Dialer, LinkRead, LinkWrite, NetDialer};
use std::alloc::Global;
use std::io::{self, Read, Write};
use std::net::{Ipv4Addr, SocketAddr, TcpListener};
use std::str;

/// How long a dial may take, in milliseconds.
pub const DIAL_MS: u64 = 5_000;

/// A listener at a port that the system picks, and its address.
pub fn listen(rt: &HostRuntime) -> Result<(TcpListener, SocketAddr)> {
    let listener = TcpListener::bind(rt, SocketAddr::from((Ipv4Addr::LOCALHOST, 0)))?;
    let home = listener.local_addr()?;
    Ok((listener, home))
}

/// What one read gives, as a line behind these words.
pub fn push_read<L: LinkRead>(
    alloc: Global,
    link: &mut L,
    words: &str,
    out: &mut String,
) -> Result<()> {
    let mut buf = [0u8; 16];
    let line = match link.read(&mut buf) {
        Ok(count) if count <= 16 => match str::from_utf8(&buf[..count]) {
            Ok(text) => format!(in alloc; "{words}: {count} bytes, {text:?}\n")?,
            Err(_) => format!(in alloc; "{words}: {count} bytes, no text\n")?,
        },
        Ok(count) => format!(in alloc; "{words}: {count} bytes, more than there was room for\n")?,
        Err(_) => format!(in alloc; "{words}: failed\n")?,
    };
    Ok(out.push_str(line.as_str())?)
}

/// Two pieces are written, of which the first is empty, and what the peer reads of them.
fn push_written<H: LinkWrite, S: Read>(
    alloc: Global,
    write: &mut H,
    peer: &mut S,
    out: &mut String,
) -> Result<()> {
    let pieces = [
        Bytes::copy_from_slice(alloc, b"")?,
        Bytes::copy_from_slice(alloc, b"ab")?,
    ];
    let line = match write.write_pieces(&pieces) {
        Ok(count) => format!(in alloc; "written of an empty piece and ab: {count} bytes\n")?,
        Err(_) => format!(in alloc; "written of an empty piece and ab: failed\n")?,
    };
    out.push_str(line.as_str())?;
    let mut got = [0u8; 2];
    peer.read_exact(&mut got)?;
    let is_there = got.as_slice() == b"ab".as_slice();
    Ok(out.push_str(if is_there {
        "the peer read: ab\n"
    } else {
        "the peer read: other bytes\n"
    })?)
}

/// What the system said of the last dial that failed, whose address is kept with it.
fn push_fault(
    alloc: Global,
    fault: Option<(SocketAddr, io::Error)>,
    home: &SocketAddr,
    out: &mut String,
) -> Result<()> {
    let line = match fault {
        Some((to, error)) if to == *home => {
            let kind = error.kind();
            format!(in alloc; "the last fault, with the address that was dialed: {kind:?}\n")?
        }
        Some(_) => format!(in alloc; "the last fault, with another address\n")?,
        None => format!(in alloc; "the last fault: none\n")?,
    };
    Ok(out.push_str(line.as_str())?)
}

/// A link that is read, written, ended and handed back; then a dial to where no one listens.
pub fn answer(rt: &HostRuntime, alloc: Global, out: &mut String) -> Result<()> {
    let (listener, home) = listen(rt)?;
    let mut dialer = NetDialer::new(*rt);
    let Ok((mut read, mut write)) = dialer.dial(&home, DIAL_MS) else {
        return Err(anyhow!("no link"));
    };
    let (mut peer, _) = listener.accept()?;
    peer.write_all(b"hello")?;
    push_read(alloc, &mut read, "a read of what the peer wrote", out)?;
    push_written(alloc, &mut write, &mut peer, out)?;
    drop(peer);
    push_read(alloc, &mut read, "a read once the peer is gone", out)?;
    let (ends, faults) = (read.ends(), read.faults());
    out.push_str(format!(in alloc; "ends {ends}, faults {faults}\n")?.as_str())?;
    write.shut();
    dialer.hang_up(read, write);
    drop(listener);
    push_fault(alloc, dialer.last_fault(), &home, out)?;
    let is_refused = dialer.dial(&home, DIAL_MS).is_err();
    out.push_str(format!(in alloc;
        "a dial to where no one listens is refused: {is_refused}\n"
    )?.as_str())?;
    push_fault(alloc, dialer.last_fault(), &home, out)
}
