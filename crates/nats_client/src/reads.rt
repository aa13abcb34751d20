//! What a client tells of its session, each at one hold of the hub's lock.
ghost use Rattle.std.specs.Prelude.{◌≡◌, IfOk};
ghost use Rattle.std.specs.String.{string_bytes};
ghost use Rattle.nats_hub.specs.Inboxes.{IsInbox};

use crate::Client;
use nats_core::{NoMemory, ServerInfo};
use nats_history::Statistics;
use nats_hub::Tallies;
use nats_names::State;
use std::alloc::Global;
use std::sync::Wait;

impl<G: Tallies> Client<G> {
    /// How many milliseconds its requests wait, if not for ever. The crate's `timeout`.
    pub fn timeout(&self) -> Option<u64>
        ensures { result ≡ self.now.timeout }
    {
        self.timeout
    }

    /// The most bytes of a message, payload and headers, that the server takes; 1,048,576 before any link came up.
    /// The crate's `max_payload`.
    pub fn max_payload<R: Wait>(&self, rt: &R) -> u64 {
        self.hub().max_payload(rt)
    }

    /// Whether a link is up: pending before the first, then connected or disconnected. The crate's
    /// `connection_state`.
    pub fn connection_state<R: Wait>(&self, rt: &R) -> State {
        self.hub().state(rt)
    }

    /// Messages and bytes that went in and out so far, and how many links came up. The crate's `statistics`, which
    /// shares counters.
    pub fn statistics<R: Wait>(&self, rt: &R) -> Statistics {
        self.hub().statistics(rt)
    }

    /// What a server said of itself last; none before any link came up. The crate's `try_server_info`.
    ///
    /// # Errors
    ///
    /// `NoMemory` for want of memory.
    pub fn try_server_info<R: Wait>(
        &self,
        rt: &R,
        alloc: Global,
    ) -> Result<Option<ServerInfo>, NoMemory> {
        self.hub().server_info(rt, alloc)
    }

    /// What a server said of itself last; the default before any link came up. The crate's `server_info`.
    ///
    /// # Errors
    ///
    /// `NoMemory` for want of memory.
    pub fn server_info<R: Wait>(&self, rt: &R, alloc: Global) -> Result<ServerInfo, NoMemory> {
        match self.hub().server_info(rt, alloc)? {
            Some(info) => Ok(info),
            None => Ok(ServerInfo::default(alloc)),
        }
    }

    /// Whether the server that spoke last has what came with this version, by its numbers: a text of a version that
    /// begins with no number has nothing, and no server has before any link came up. The crate's
    /// `is_server_compatible`, which panics on such a text.
    pub fn is_server_compatible<R: Wait>(
        &self,
        rt: &R,
        major: i64,
        minor: i64,
        patch: i64,
    ) -> bool {
        self.hub().is_server_compatible(rt, major, minor, patch)
    }

    /// A subject for replies: the prefix of inboxes, a dot, and 22 ASCII letters or digits that the hub's generator
    /// draws. The crate's `new_inbox`; that no other is equal to it is not claimed.
    ///
    /// # Errors
    ///
    /// `NoMemory` for want of memory.
    pub fn new_inbox<R: Wait>(&self, rt: &R, alloc: Global) -> Result<String, NoMemory>
        ensures { IfOk result (λ text. IsInbox (string_bytes text)) }
    {
        self.hub().new_inbox(rt, alloc)
    }
}
