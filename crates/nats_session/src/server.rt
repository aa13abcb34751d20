//! A server that says little of itself.
ghost use Rattle.std.specs.Prelude.{◌≡◌};
ghost use Rattle.nats_info.specs.Info.{default_info};
ghost use Rattle.nats_history.specs.History.{default_max_payload};

use crate::DEFAULT_MAX_PAYLOAD;
use nats_history::ServerInfo;
use std::alloc::Global;

/// What a server says of itself that tells its limit of payloads alone, `DEFAULT_MAX_PAYLOAD`: for tests, and to try a
/// session without a server. A link that comes up with `ServerInfo::default` has the limit 0, so that each message with
/// a payload is refused. It takes no memory. Own call.
pub fn usual_server(alloc: Global) -> ServerInfo
    ensures { result ≡ record default_info { max_payload = default_max_payload } }
{
    let mut info = ServerInfo::default(alloc);
    info.max_payload = DEFAULT_MAX_PAYLOAD;
    info
}
