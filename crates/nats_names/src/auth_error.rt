//! Why a signer or an authentication callback refused.
ghost use Rattle.std.specs.Prelude.{◌≡◌, IfOk, Some, string_bytes, bytes_eq};
ghost use Rattle.std.specs.Cmp.{partial_equiv_from_equiv};
ghost use Rattle.std.specs.Cmp.Lexicographic.{nat_list_eq_equiv};
ghost use Rattle.nats_names.specs.Errors.{auth_error_text};

use crate::NoMemory;
use std::alloc::Global;
use std::error::Error;
use std::fmt;
use std::marker::Model;

/// Why a signer or an authentication callback refused, in its own words. Contracts see it as these words. The crate's
/// `AuthError`.
#[derive(Drop)]
pub struct AuthError {
    words: String,
}

impl Model for AuthError {
    ghost use Rattle.std.specs.Prelude.{List, ℕ, string_bytes};

    ghost Value = { List ℕ };

    ghost view = { λ e. string_bytes e.words };
}

impl AuthError {
    /// The refusal with these words. It takes no memory. The crate's call.
    pub fn new(s: String) -> AuthError
        ensures { result ≡ string_bytes s }
    {
        AuthError { words: s }
    }

    /// An equal refusal. Own call of this library, for the Rust's `Clone`.
    pub fn copy(&self, alloc: Global) -> Result<AuthError, NoMemory>
        ensures { IfOk result (λ error. error ≡ self.now) }
    {
        Ok(AuthError {
            words: String::from_str(alloc, self.words.as_str())?,
        })
    }
}

/// Refusals are equal where their words are.
impl PartialEq for AuthError {
    ghost eq = { bytes_eq };

    ghost laws = { partial_equiv_from_equiv nat_list_eq_equiv };

    fn eq(&self, other: &AuthError) -> bool {
        self.words.as_str() == other.words.as_str()
    }
}

impl Eq for AuthError {
    ghost laws = { nat_list_eq_equiv };
}

/// Prints the words between the type's name and a bracket, as the crate does.
impl fmt::Display for AuthError {
    ghost output = { λ error. Some (auth_error_text error) };

    fn fmt<W: fmt::Write>(&self, f: &mut fmt::Formatter<W>) -> fmt::Result {
        write!(f, "AuthError({})", self.words)
    }
}

/// Prints the same. The crate's `Debug`.
impl fmt::Debug for AuthError {
    fn fmt<W: fmt::Write>(&self, f: &mut fmt::Formatter<W>) -> fmt::Result {
        fmt::Display::fmt(self, f)
    }
}

impl Error for AuthError {}
