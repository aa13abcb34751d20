//! What a client tells a server of itself.
ghost use Rattle.std.specs.Prelude.{◌≡◌, IfOk};

use nats_names::{NoMemory, Text};
use std::alloc::Global;
use std::fmt;

/// Which version of the protocol a client speaks. The crate's `Protocol`, its numbers those of the NATS protocol.
#[derive(Clone, Copy, Debug, PartialEq, Eq)]
pub enum Protocol {
    /// 0: the server sends one INFO alone.
    Original,
    /// 1: the server may send a further INFO at any time.
    Dynamic,
}

/// What a client tells a server of itself. The crate's `ConnectInfo`; what is none is sent as `null`.
#[derive(Drop, PartialEq, Eq)]
pub struct ConnectInfo {
    /// Whether the server answers `+OK` to each operation.
    pub verbose: bool,
    /// Whether the server tests each subject strictly.
    pub pedantic: bool,
    /// A JWT. The protocol's `jwt`.
    pub user_jwt: Option<Text>,
    /// A public nkey.
    pub nkey: Option<Text>,
    /// The signature of the server's nonce, as base64. The protocol's `sig`.
    pub signature: Option<Text>,
    /// The name of the client.
    pub name: Option<Text>,
    /// Whether the server sends the client's own messages back to it.
    pub echo: bool,
    /// The language of the client.
    pub lang: Text,
    /// The version of the client.
    pub version: Text,
    /// The version of the protocol.
    pub protocol: Protocol,
    /// Whether the client wants TLS.
    pub tls_required: bool,
    /// A user.
    pub user: Option<Text>,
    /// The user's password.
    pub pass: Option<Text>,
    /// A token.
    pub auth_token: Option<Text>,
    /// Whether the client reads messages with headers.
    pub headers: bool,
    /// Whether the client wants to be told that nobody listens to a request.
    pub no_responders: bool,
}

fn copy_text(alloc: Global, text: &Option<Text>) -> Result<Option<Text>, NoMemory>
    ensures { IfOk result (λ copy. copy ≡ text.now) }
{
    match text {
        Some(text) => Ok(Some(text.copy(alloc)?)),
        None => Ok(None),
    }
}

impl ConnectInfo {
    /// An equal value. Own call of this library, for the Rust's `Clone`.
    pub fn copy(&self, alloc: Global) -> Result<ConnectInfo, NoMemory>
        ensures { IfOk result (λ info. info ≡ self.now) }
    {
        Ok(ConnectInfo {
            verbose: self.verbose,
            pedantic: self.pedantic,
            user_jwt: copy_text(alloc, &self.user_jwt)?,
            nkey: copy_text(alloc, &self.nkey)?,
            signature: copy_text(alloc, &self.signature)?,
            name: copy_text(alloc, &self.name)?,
            echo: self.echo,
            lang: self.lang.copy(alloc)?,
            version: self.version.copy(alloc)?,
            protocol: self.protocol,
            tls_required: self.tls_required,
            user: copy_text(alloc, &self.user)?,
            pass: copy_text(alloc, &self.pass)?,
            auth_token: copy_text(alloc, &self.auth_token)?,
            headers: self.headers,
            no_responders: self.no_responders,
        })
    }
}

/// Prints all but the four secrets, of which it prints whether each is there.
impl fmt::Debug for ConnectInfo {
    fn fmt<W: fmt::Write>(&self, f: &mut fmt::Formatter<W>) -> fmt::Result {
        f.debug_struct("ConnectInfo")
            .field("verbose", &self.verbose)
            .field("pedantic", &self.pedantic)
            .field("has_jwt", &self.user_jwt.is_some())
            .field("nkey", &self.nkey)
            .field("has_signature", &self.signature.is_some())
            .field("name", &self.name)
            .field("echo", &self.echo)
            .field("lang", &self.lang)
            .field("version", &self.version)
            .field("protocol", &self.protocol)
            .field("tls_required", &self.tls_required)
            .field("user", &self.user)
            .field("has_pass", &self.pass.is_some())
            .field("has_auth_token", &self.auth_token.is_some())
            .field("headers", &self.headers)
            .field("no_responders", &self.no_responders)
            .finish()
    }
}
