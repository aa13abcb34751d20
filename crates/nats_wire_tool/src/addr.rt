//! What an address of a server says.
use nats_addr::{AddrError, ServerAddr};
use nats_rows::{Answers, Bad, push_bytes, push_optional, string_of};
use std::alloc::{AllocError, Global};

/// Answers a line that spells an address with what that says, or why it is none.
#[derive(Drop)]
pub struct Addrs;

/// Appends what an address says of a server.
fn push_server(alloc: Global, out: &mut String, addr: &ServerAddr) -> Result<(), AllocError> {
    push_bytes(out, addr.as_url_str().as_bytes())?;
    out.push_str(" host=")?;
    push_bytes(out, addr.host().as_bytes())?;
    let (port, tls, ws) = (addr.port(), addr.tls_required(), addr.is_websocket());
    out.push_str(format!(in alloc; " port={port} tls={tls} ws={ws}")?.as_str())
}

/// Appends what an address says.
fn push_addr(alloc: Global, out: &mut String, addr: &ServerAddr) -> Result<(), AllocError> {
    push_server(alloc, out, addr)?;
    out.push_str(" user=")?;
    push_optional(out, addr.username())?;
    out.push_str(" pass=")?;
    push_optional(out, addr.password())?;
    out.push_str(" scheme=")?;
    out.push_str(addr.scheme())
}

fn push_answer(alloc: Global, out: &mut String, text: &str) -> Result<(), Bad> {
    match ServerAddr::parse(alloc, text) {
        Ok(addr) => push_addr(alloc, out, &addr)?,
        Err(AddrError::Url) => out.push_str("refused url")?,
        Err(AddrError::Scheme) => out.push_str("refused scheme")?,
        Err(AddrError::NoMemory) => return Err(Bad::NoMemory),
    }
    Ok(())
}

impl Answers for Addrs {
    fn answer(&mut self, alloc: Global, line: &str, out: &mut String) -> Result<(), Bad> {
        match string_of(alloc, line) {
            Ok(text) => push_answer(alloc, out, text.as_str())?,
            Err(Bad::Form) => out.push_str("no text")?,
            Err(Bad::NoMemory) => return Err(Bad::NoMemory),
        }
        Ok(out.push('\n')?)
    }
}
