//! The server, whose bytes are played.

use anyhow::{Result, anyhow};
use std::alloc::Global;
use std::io::{Read, Write};
use std::net::TcpListener;

/// What the server says first.
const INFO: &str = "INFO {\"max_payload\":100}\r\n";

/// How many bytes of a command are looked at, at most.
const MOST: usize = 4_096;

/// Reads until what was heard ends in these bytes.
pub fn hear<S: Read>(stream: &mut S, heard: &mut Vec<u8>, end: &[u8]) -> Result<()> {
    'bytes: for _ in 0..MOST {
        if heard.as_slice().ends_with(end) {
            return Ok(());
        }
        let mut byte = [0u8; 1];
        if stream.read(&mut byte)? == 0 {
            return Err(anyhow!("the client was gone"));
        }
        heard.push(byte[0])?;
    }
    Err(anyhow!("the client said something else"))
}

/// Reads until the client is gone.
pub fn hear_end<S: Read>(stream: &mut S) -> Result<()> {
    'bytes: for _ in 0..MOST {
        let mut byte = [0u8; 1];
        if stream.read(&mut byte)? == 0 {
            return Ok(());
        }
    }
    Err(anyhow!("the client stayed"))
}

/// Does the handshake.
fn shake<S: Read + Write>(stream: &mut S, heard: &mut Vec<u8>) -> Result<()> {
    stream.write_all(INFO.as_bytes())?;
    hear(stream, heard, b"PING\r\n")?;
    Ok(stream.write_all(b"PONG\r\n")?)
}

/// Greets, and hears all up to the subscription.
pub fn greet<S: Read + Write>(stream: &mut S, heard: &mut Vec<u8>) -> Result<()> {
    shake(stream, heard)?;
    hear(stream, heard, b"SUB a 1\r\n")
}

/// Does the handshake on a link, and waits until the client is gone.
pub fn greet_one(alloc: Global, listener: &TcpListener) -> Result<()> {
    let mut heard = Vec::new(alloc);
    let (mut stream, _) = listener.accept()?;
    shake(&mut stream, &mut heard)?;
    hear_end(&mut stream)
}

/// The link that ends in the midst of a message.
fn first<S: Read + Write>(stream: &mut S, heard: &mut Vec<u8>) -> Result<()> {
    greet(stream, heard)?;
    Ok(stream.write_all(b"MSG a 1 2\r\nhi\r\nMSG a 1 5\r\nhal")?)
}

/// The link on which the client drains.
fn second<S: Read + Write>(stream: &mut S, heard: &mut Vec<u8>) -> Result<()> {
    greet(stream, heard)?;
    stream.write_all(b"MSG a 1 3\r\nyou\r\n")?;
    hear(stream, heard, b"PUB b 4\r\ndone\r\n")?;
    hear(stream, heard, b"PING\r\n")?;
    stream.write_all(b"PONG\r\n")?;
    hear_end(stream)
}

/// Whether a line is that of a CONNECT, which names this library's version.
fn is_connect(line: &str) -> bool {
    line.starts_with("CONNECT ")
}

/// Each command that was heard, on a line of its own behind the name of its link.
pub fn told(alloc: Global, link: &str, heard: &[u8], out: &mut String) -> Result<()> {
    let Ok(text) = std::str::from_utf8(heard) else {
        return Err(anyhow!("the client said what is no text"));
    };
    'lines: for line in text.split("\r\n") {
        let word = if is_connect(line) { "CONNECT" } else { line };
        if !word.is_empty() {
            out.push_str(format!(in alloc; "{link}: {word}\n")?.as_str())?;
        }
    }
    Ok(())
}

/// Plays both links, and tells the commands that were heard.
pub fn play(alloc: Global, listener: &TcpListener) -> Result<String> {
    let mut out = String::new(alloc);
    let mut heard = Vec::new(alloc);
    let (mut stream, _) = listener.accept()?;
    first(&mut stream, &mut heard)?;
    drop(stream);
    told(alloc, "link 1", heard.as_slice(), &mut out)?;
    let mut heard = Vec::new(alloc);
    let (mut stream, _) = listener.accept()?;
    second(&mut stream, &mut heard)?;
    told(alloc, "link 2", heard.as_slice(), &mut out)?;
    Ok(out)
}
