//! How far a handshake came.
ghost use Rattle.std.specs.Prelude.{◌≡◌};
ghost use Rattle.nats_handshake.specs.Shaking.{staged, advanced, closed, refused_of, end_cause};

use crate::error::ConnectErrorKind;
use nats_names::Cause;
use nats_wire::ServerInfo;
use std::mem;

/// How far a handshake came. Own type of this library.
#[derive(Debug, Drop)]
pub enum Stage {
    /// The server's INFO is due.
    Greets,
    /// CONNECT and PING are out; a PONG is due within `left` operations.
    Asks {
        /// The server's INFO.
        info: ServerInfo,
        /// How many operations may still come.
        left: usize,
    },
    /// The PONG came.
    Linked {
        /// The server's INFO.
        info: ServerInfo,
    },
    /// It was refused with an error of this kind.
    Refused(ConnectErrorKind),
}

/// What comes of what is fed. Own type of this library.
#[derive(Clone, Copy, Debug, PartialEq, Eq)]
pub enum Shake {
    /// More is due from the server.
    More,
    /// The handshake succeeded.
    Done,
}

// How far a handshake is that knows the INFO.
pub(crate) fn staged(info: ServerInfo, left: usize, shake: Shake) -> Stage
    ensures { result ≡ staged info left shake }
{
    match shake {
        Shake::More => Stage::Asks { info, left },
        Shake::Done => Stage::Linked { info },
    }
}

impl Stage {
    // It is this one from now on.
    pub(crate) fn put(&mut self, stage: Stage)
        ensures { self.new ≡ stage }
    {
        *self = stage;
    }

    // One that knows the INFO is further.
    pub(crate) fn advance(&mut self, left: usize, shake: Shake)
        ensures { self.new ≡ advanced self.old left shake }
    {
        let stage = mem::replace(self, Stage::Greets);
        self.put(stage.advanced(left, shake));
    }

    // One that may still come to anything refuses with this kind.
    pub(crate) fn close(&mut self, kind: ConnectErrorKind)
        ensures { self.new ≡ closed self.old kind }
    {
        let stage = mem::replace(self, Stage::Greets);
        self.put(stage.closed(kind));
    }

    // One that knows the INFO is further.
    fn advanced(self, left: usize, shake: Shake) -> Stage
        ensures { result ≡ advanced self left shake }
    {
        match self {
            Stage::Greets => Stage::Greets,
            Stage::Asks { info, left: _ } => staged(info, left, shake),
            Stage::Linked { info } => Stage::Linked { info },
            Stage::Refused(kind) => Stage::Refused(kind),
        }
    }

    // One that may still come to anything refuses with this kind.
    fn closed(self, kind: ConnectErrorKind) -> Stage
        ensures { result ≡ closed self kind }
    {
        match self {
            Stage::Greets => Stage::Refused(kind),
            Stage::Asks { .. } => Stage::Refused(kind),
            Stage::Linked { info } => Stage::Linked { info },
            Stage::Refused(before) => Stage::Refused(before),
        }
    }

    // The kind by which it was refused.
    pub(crate) fn refused(&self) -> Option<ConnectErrorKind>
        ensures { result ≡ refused_of self.now }
    {
        match self {
            Stage::Greets | Stage::Asks { .. } | Stage::Linked { .. } => None,
            Stage::Refused(kind) => Some(*kind),
        }
    }

    // What the link's end is then.
    pub(crate) fn end_cause(&self) -> Cause
        ensures { result ≡ end_cause self.now }
    {
        match self {
            Stage::Greets => Cause::NoInfo,
            Stage::Asks { .. } => Cause::BrokenPipe,
            Stage::Linked { .. } => Cause::BrokenPipe,
            Stage::Refused(_) => Cause::BrokenPipe,
        }
    }
}
