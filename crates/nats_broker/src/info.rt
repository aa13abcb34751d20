//! What a broker says of itself.
ghost use Rattle.std.specs.Prelude.{◌≡◌, ◌++◌, IfOk, OnOk};
ghost use Rattle.nats_broker.specs.Info.{info_text};

use itoa::Buffer;
use nats_names::{NoMemory, Token};
use std::alloc::Global;

/// What a broker says of itself to each peer. Own type.
#[derive(Debug, Drop)]
pub struct BrokerInfo {
    /// Its name.
    pub server_id: Token,
    /// The most bytes that the payload and the header block of a publish may have together.
    pub max_payload: u64,
}

/// The line that a peer gets first.
///
/// # Errors
///
/// `NoMemory` for want of memory.
pub fn info_line(alloc: Global, info: &BrokerInfo) -> Result<Vec<u8>, NoMemory>
    ensures { IfOk result (λ line. line.items ≡ info_text info.now.server_id info.now.max_payload) }
{
    let mut number = Buffer::new();
    let number = number.format(info.max_payload).as_bytes();
    let mut line = Vec::new(alloc);
    line.extend_from_slice(b"INFO {\"server_id\":\"")?;
    line.extend_from_slice(info.server_id.as_str().as_bytes())?;
    line.extend_from_slice(
        b"\",\"version\":\"2.10.0\",\"proto\":1,\"headers\":true,\"max_payload\":",
    )?;
    line.extend_from_slice(number)?;
    line.extend_from_slice(b"}\r\n")?;
    Ok(line)
}
