//! Who dials links, and takes them back.
ghost use Rattle.std.specs.Prelude.{◌≡◌, IfOk};
ghost use Rattle.nats_outside.specs.Told.{DialerTold, IsFresh, dialed, hung_up};

use crate::{LinkRead, LinkWrite};
use nats_names::Failed;
use std::net::SocketAddr;

/// The word of the last dial or hang-up.
#[derive(Clone, Copy, Debug, PartialEq, Eq)]
pub enum DialWord {
    /// A link was dialed, or one was handed back without a failure and without an end.
    Fine,
    /// A link was handed back that had met its end, and no failure.
    Ended,
    /// A dial failed, or a link was handed back with a failure.
    Failed,
}

/// Dials links, and takes each back whose use is over. Each count stops at 2^64-1. Own trait: the Rust opens
/// sockets of its runtime.
pub trait Dialer {
    /// The reading half of its links.
    type Read: LinkRead + Drop;

    /// The writing half of its links.
    type Write: LinkWrite + Drop;

    /// The counts, the last word, the address that was dialed last and the time that it had, whether the link handed
    /// back last had been shut, and the links handed back, where they are known.
    ghost dialer_told: { Self → DialerTold };

    /// What stands beside the dialer, which its calls leave as it was.
    ghost BesideDialer: { Type 0 };

    ghost beside_dialer: { Self → BesideDialer };

    /// A new link to this address. A dial that fails is counted, and so is one that is given up since it took more
    /// than `within` milliseconds.
    fn dial(&mut self, to: &SocketAddr, within: u64) -> Result<(Self::Read, Self::Write), Failed>
        ensures told { dialer_told self.new ≡ dialed to.now within result (dialer_told self.old) }
        ensures fresh { IfOk result (λ link. IsFresh (Self.Read.read_told link.0) (Self.Write.write_told link.1)) }
        ensures beside { beside_dialer self.new ≡ beside_dialer self.old };

    /// Takes a link back. It takes no memory.
    fn hang_up(&mut self, read: Self::Read, write: Self::Write)
        ensures told { dialer_told self.new
            ≡ hung_up (Self.Read.read_told read) (Self.Write.write_told write) (dialer_told self.old) }
        ensures beside { beside_dialer self.new ≡ beside_dialer self.old };
}
