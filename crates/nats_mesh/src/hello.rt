//! What a client reads in a broker's first line.
ghost use Rattle.std.specs.Prelude.{◌≡◌, IfOk};
ghost use Rattle.nats_server_text.specs.Said.{read_hello};

use nats_broker::BrokerInfo;
use nats_info::ServerInfo;
use nats_names::{NoMemory, Text};
use std::alloc::Global;

/// The version of a server that a broker tells.
const VERSION: &str = "2.10.0";

/// What a client reads in the line that a broker tells first.
///
/// # Errors
///
/// `NoMemory` for want of memory.
pub(crate) fn hello(alloc: Global, info: &BrokerInfo) -> Result<ServerInfo, NoMemory>
    ensures { IfOk result (λ told. told ≡ read_hello info.now.server_id info.now.max_payload) }
{
    let server_id = Text::from_text(alloc, info.server_id.as_str())?;
    let version = Text::from_text(alloc, VERSION)?;
    let mut told = ServerInfo::default(alloc);
    told.server_id = server_id;
    told.version = version;
    told.proto = 1;
    told.headers = true;
    told.max_payload = info.max_payload;
    Ok(told)
}
