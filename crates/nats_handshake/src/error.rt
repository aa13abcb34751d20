//! Why no link came about.
ghost use Rattle.std.specs.Prelude.{◌≡◌, Some, None};
ghost use Rattle.nats_handshake.specs.Errors.{kind_text};

use nats_names::{Cause, Error, NoMemory};
use std::alloc::AllocError;
use std::fmt;
use std::marker::Model;

/// Why no link to a server came about. The crate's `ConnectErrorKind`.
#[derive(Clone, Copy, Debug, PartialEq, Eq)]
pub enum ConnectErrorKind {
    /// An address that was handed in does not parse, or the chosen one is of `ws` or `wss`.
    ServerParse,
    /// The resolver failed, or gave no address.
    Dns,
    /// A signer or an authentication callback refused.
    Authentication,
    /// The server refused what the client authenticates by.
    AuthorizationViolation,
    /// The handshake took too long.
    TimedOut,
    /// TLS is demanded, which this library has not.
    Tls,
    /// The link failed or ended, or the server said what is not due.
    Io,
    /// As many attempts were made as are allowed.
    MaxReconnects,
    /// Want of memory. Own variant.
    NoMemory,
}

/// The error of connecting: its kind, and where it is known, what it came of. The crate's `ConnectError`.
pub type ConnectError = Error<ConnectErrorKind>;

impl fmt::Display for ConnectErrorKind {
    ghost output = { λ kind. Some (kind_text kind) };

    fn fmt<W: fmt::Write>(&self, f: &mut fmt::Formatter<W>) -> fmt::Result {
        match self {
            ConnectErrorKind::ServerParse => write!(f, "failed to parse server or server list"),
            ConnectErrorKind::Dns => write!(f, "DNS error"),
            ConnectErrorKind::Authentication => write!(f, "failed signing nonce"),
            ConnectErrorKind::AuthorizationViolation => write!(f, "authorization violation"),
            ConnectErrorKind::TimedOut => write!(f, "timed out"),
            ConnectErrorKind::Tls => write!(f, "TLS error"),
            ConnectErrorKind::Io => write!(f, "IO error"),
            ConnectErrorKind::MaxReconnects => write!(f, "reached maximum number of reconnects"),
            ConnectErrorKind::NoMemory => write!(f, "out of memory"),
        }
    }
}

impl std::error::Error for ConnectErrorKind {}

/// A kind and its cause, before they are an error. Contracts see it as the pair.
#[derive(Debug, Drop)]
pub struct Refusal {
    /// The kind.
    pub kind: ConnectErrorKind,
    /// What it came of.
    pub source: Option<Cause>,
}

impl Model for Refusal {
    ghost use Rattle.nats_handshake.specs.Errors.{Failure};

    ghost Value = { Failure };

    ghost view = { λ r. (r.kind, r.source) };
}

impl Refusal {
    /// A refusal of this kind, without a cause.
    pub fn new(kind: ConnectErrorKind) -> Refusal
        ensures { result ≡ (kind, None) }
    {
        Refusal { kind, source: None }
    }

    /// A refusal of this kind that came of `cause`.
    pub fn by(kind: ConnectErrorKind, cause: Cause) -> Refusal
        ensures { result ≡ (kind, Some cause) }
    {
        Refusal {
            kind,
            source: Some(cause),
        }
    }

    /// Its kind.
    pub fn kind(&self) -> ConnectErrorKind
        ensures { result ≡ self.now.0 }
    {
        self.kind
    }

    /// The error.
    pub fn into_error(self) -> ConnectError
        ensures { result ≡ self }
    {
        let Refusal { kind, source } = self;
        match source {
            Some(cause) => ConnectError::with_source(kind, cause),
            None => ConnectError::new(kind),
        }
    }
}

impl From<NoMemory> for Refusal {
    ghost use Rattle.std.specs.Prelude.{◌≡◌, None};
    ghost use Rattle.nats_handshake.specs.declared.error.ConnectErrorKind.TheVariants as kind;

    ghost from_gives = { λ _ refusal. refusal ≡ (kind.NoMemory, None) };

    fn from(_refused: NoMemory) -> Refusal {
        Refusal::new(ConnectErrorKind::NoMemory)
    }
}

impl From<AllocError> for Refusal {
    ghost use Rattle.std.specs.Prelude.{◌≡◌, None};
    ghost use Rattle.nats_handshake.specs.declared.error.ConnectErrorKind.TheVariants as kind;

    ghost from_gives = { λ _ refusal. refusal ≡ (kind.NoMemory, None) };

    fn from(_refused: AllocError) -> Refusal {
        Refusal::new(ConnectErrorKind::NoMemory)
    }
}
