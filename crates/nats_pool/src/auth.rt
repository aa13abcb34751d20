//! What a client authenticates by.
ghost use Rattle.std.specs.Prelude.{◌≡◌, None, IfOk, option_map, string_bytes};
ghost use Rattle.nats_pool.specs.Auths.{auth_value, no_auth};

use nats_names::NoMemory;
use std::alloc::Global;
use std::fmt;

/// What a client authenticates by; what is none is not sent. The crate's `Auth`.
#[derive(Drop)]
pub struct Auth {
    /// A JWT.
    pub jwt: Option<String>,
    /// A public nkey.
    pub nkey: Option<String>,
    /// A user.
    pub username: Option<String>,
    /// The user's password.
    pub password: Option<String>,
    /// A token.
    pub token: Option<String>,
    /// The bytes of a signature.
    pub signature: Option<Vec<u8>>,
}

impl Auth {
    /// Nothing. The crate's call.
    pub fn new() -> Auth
        ensures { result ≡ no_auth }
    {
        Auth {
            jwt: None,
            nkey: None,
            username: None,
            password: None,
            token: None,
            signature: None,
        }
    }

    /// One that has the same in each field. Own call of this library, for the Rust's `Clone`.
    pub fn copy(&self, alloc: Global) -> Result<Auth, NoMemory>
        ensures { IfOk result (λ auth. auth_value auth ≡ auth_value self.now) }
    {
        Ok(Auth {
            jwt: copy_string(alloc, &self.jwt)?,
            nkey: copy_string(alloc, &self.nkey)?,
            username: copy_string(alloc, &self.username)?,
            password: copy_string(alloc, &self.password)?,
            token: copy_string(alloc, &self.token)?,
            signature: copy_bytes(alloc, &self.signature)?,
        })
    }
}

fn copy_string(alloc: Global, text: &Option<String>) -> Result<Option<String>, NoMemory>
    ensures { IfOk result (λ t. option_map string_bytes t ≡ option_map string_bytes text.now) }
{
    match text {
        Some(text) => Ok(Some(String::from_str(alloc, text.as_str())?)),
        None => Ok(None),
    }
}

fn copy_bytes(alloc: Global, bytes: &Option<Vec<u8>>) -> Result<Option<Vec<u8>>, NoMemory>
    ensures { IfOk result (λ t. option_map (λ v. v.items) t ≡ option_map (λ v. v.items) bytes.now) }
{
    match bytes {
        Some(bytes) => Ok(Some(bytes.as_slice().to_vec(alloc)?)),
        None => Ok(None),
    }
}

/// Nothing. The crate's `Default`.
impl Default for Auth {
    ghost is_default = { λ auth. auth ≡ no_auth };

    fn default() -> Auth {
        Auth::new()
    }
}

/// Prints the user and the nkey, and of each secret whether it is there.
impl fmt::Debug for Auth {
    fn fmt<W: fmt::Write>(&self, f: &mut fmt::Formatter<W>) -> fmt::Result {
        f.debug_struct("Auth")
            .field("username", &self.username)
            .field("nkey", &self.nkey)
            .field("has_password", &self.password.is_some())
            .field("has_token", &self.token.is_some())
            .field("has_jwt", &self.jwt.is_some())
            .field("has_signature", &self.signature.is_some())
            .finish()
    }
}
