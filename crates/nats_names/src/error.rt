//! The error of a call: its kind, and what it came of.
ghost use Rattle.std.specs.Prelude.{◌≡◌, None, Some};
ghost use Rattle.std.specs.Option.{option_copied};
ghost use Rattle.nats_names.specs.Causes.{error_text};

use crate::Cause;
use std::fmt;
use std::marker::Model;

/// The error of a call: its kind, and where it is known, what it came of. The crate's `Error`. Contracts see it as
/// the pair.
#[derive(Debug, Drop)]
pub struct Error<Kind> {
    kind: Kind,
    source: Option<Cause>,
}

impl<Kind> Model for Error<Kind> {
    ghost use Rattle.std.specs.Prelude.{Option};
    ghost use Rattle.nats_names.specs.declared.cause.Cause.{Cause};

    ghost Value = { Kind × Option Cause };

    ghost view = { λ e. (e.kind, e.source) };
}

impl<Kind: Copy> Error<Kind> {
    /// The error of this kind, without a cause. The crate's call.
    pub fn new(kind: Kind) -> Error<Kind>
        ensures { result ≡ (kind, None) }
    {
        Error { kind, source: None }
    }

    /// The error of this kind that came of `source`. The crate's call.
    pub fn with_source(kind: Kind, source: Cause) -> Error<Kind>
        ensures { result ≡ (kind, Some source) }
    {
        Error {
            kind,
            source: Some(source),
        }
    }

    /// The kind. The crate's call.
    pub fn kind(&self) -> Kind
        ensures { result ≡ self.now.0 }
    {
        self.kind
    }

    /// What it came of, where that is known.
    pub fn source(&self) -> Option<&Cause>
        ensures { option_copied result ≡ self.now.1 }
    {
        self.source.as_ref()
    }
}

/// Prints the kind, then a colon, a space and the cause where there is one.
impl<Kind: fmt::Display> fmt::Display for Error<Kind> {
    ghost output = { λ e. error_text Kind.output e };

    fn fmt<W: fmt::Write>(&self, f: &mut fmt::Formatter<W>) -> fmt::Result {
        match &self.source {
            None => write!(f, "{}", self.kind),
            Some(source) => write!(f, "{}: {}", self.kind, source),
        }
    }
}

impl<Kind: fmt::Debug + fmt::Display + Drop> std::error::Error for Error<Kind> {}

impl<Kind: Copy> From<Kind> for Error<Kind> {
    ghost from_gives = { λ kind e. e ≡ (kind, None) };

    fn from(kind: Kind) -> Error<Kind> {
        Error::new(kind)
    }
}
