//! The address of one server.
ghost use Rattle.std.specs.Prelude.{◌≡◌, ◌≢◌, ◌++◌, List, ℕ, not, codes, bytes_eq, IfOk, Ok};
ghost use Rattle.std.specs.Option.{option_copied};
ghost use Rattle.url.specs.Parts.{serialize};
ghost use Rattle.nats_names.specs.declared.addr_error.AddrError.TheVariants as addr_error;
ghost use Rattle.url.specs.Input.{is_empty};
ghost use Rattle.url.specs.Parser.{parse_url, IsOutOfRoom};
ghost use Rattle.nats_addr.specs.Addr.{addr_of, of_parsed, of_url, Answers, has_mark, begins_with_mark, is_known, is_tls, is_websocket, host_name, port_of, unless_empty};

use crate::{AddrError, NoMemory, Url};
use std::alloc::Global;
use std::fmt;
use std::marker::Model;
use url::{Host, ParseError};

/// The port of the protocol, where an address writes none and its scheme has no known one.
const DEFAULT_PORT: u16 = 4222;

/// The address of a server: a URL of a scheme of the protocol. A user and a password that stand in it are kept and not
/// sent. Contracts see it as the parts of the URL. The crate's `ServerAddr`.
#[derive(Drop, PartialEq, Eq, Hash)]
pub struct ServerAddr {
    url: Url,
}

impl Model for ServerAddr {
    ghost use Rattle.url.specs.Parts.{Parts, parts_code};

    ghost Value = { Parts };

    ghost coded = { parts_code };

    ghost view = { λ a. a.url };

    ghost inverse = { λ parts. record { url = parts } };
}

fn begins_with_mark(text: &[u8]) -> bool
    ensures { result ≡ begins_with_mark text.now }
{
    matches!(text, [b':', b'/', b'/', ..])
}

// Whether a text names a scheme: whether `://` stands in it.
fn has_mark(text: &[u8]) -> bool
    ensures { result ≡ has_mark text.now }
{
    let mut rest = text;
    'rest: while let Some((_, behind)) = rest.split_first() {
        if begins_with_mark(rest) {
            return true;
        }
        rest = behind;
    }
    false
}

fn is_known(scheme: &str) -> bool
    ensures { result ≡ is_known scheme.now }
{
    scheme == "nats" || scheme == "tls" || scheme == "ws" || scheme == "wss"
}

// Why the parser of URLs refused: want of memory (there a text of 4 GB is one), or a text that is no URL.
fn refusal(error: ParseError) -> AddrError
    ensures url { result ≡ addr_error.Url → ¬ (IsOutOfRoom error) }
    ensures room { result ≡ addr_error.NoMemory → IsOutOfRoom error }
    ensures other { result ≢ addr_error.Scheme }
{
    match error {
        ParseError::OutOfMemory | ParseError::Overflow => AddrError::NoMemory,
        _ => AddrError::Url,
    }
}

// The text of a host between the brackets of an IPv6 address.
fn without_brackets(text: &str) -> &str
    ensures { (inner : List ℕ) → text.now ≡ codes "[" ++ inner ++ codes "]" → result.now ≡ inner }
{
    match text.strip_prefix("[") {
        Some(rest) => rest.strip_suffix("]").unwrap_or(rest),
        None => text,
    }
}

impl ServerAddr {
    /// The address that a text spells, as `demo.nats.io`, `tls://demo.nats.io:4443` or `[::1]:4222`; without a
    /// scheme it is `nats`. `Url` where the text is no URL, `Scheme` where its scheme is none of the protocol's.
    /// The crate's `from_str`.
    pub fn parse(alloc: Global, input: &str) -> Result<ServerAddr, AddrError>
        ensures { Answers result (addr_of input.now) }
    {
        if has_mark(input.as_bytes()) {
            ServerAddr::parse_whole(alloc, input)
        } else {
            let Ok(text) = format!(in alloc; "nats://{input}") else {
                return Err(AddrError::NoMemory);
            };
            ServerAddr::parse_whole(alloc, text.as_str())
        }
    }

    fn parse_whole(alloc: Global, text: &str) -> Result<ServerAddr, AddrError>
        ensures { Answers result (of_parsed (parse_url None text.now)) }
    {
        match Url::parse(alloc, text) {
            Ok(url) => ServerAddr::from_url(url),
            Err(error) => Err(refusal(error)),
        }
    }

    /// The address that is this URL: `Scheme` exactly where its scheme is none of the protocol's. The crate's call.
    pub fn from_url(url: Url) -> Result<ServerAddr, AddrError>
        ensures { result ≡ of_url url }
    {
        if is_known(url.scheme()) {
            Ok(ServerAddr { url })
        } else {
            Err(AddrError::Scheme)
        }
    }

    /// The URL. The crate's call.
    pub fn into_inner(self) -> Url
        ensures { result ≡ self }
    {
        let ServerAddr { url } = self;
        url
    }

    /// Whether TLS is demanded by the scheme. The crate's call.
    pub fn tls_required(&self) -> bool
        ensures { result ≡ is_tls self.now }
    {
        self.url.scheme() == "tls"
    }

    /// Whether a user stands in the address. The crate's call.
    pub fn has_user_pass(&self) -> bool
        ensures { result ≡ not (is_empty self.now.username) }
    {
        !self.url.username().is_empty()
    }

    /// The scheme, in lower case. The crate's call.
    pub fn scheme(&self) -> &str
        ensures { result.now ≡ self.now.scheme }
    {
        self.url.scheme()
    }

    /// The name or the IP address of the host, without the brackets of an IPv6 address; empty where there is none. The
    /// crate's call.
    pub fn host(&self) -> &str
        ensures { result.now ≡ host_name self.now }
    {
        match (self.url.host(), self.url.host_str()) {
            (Some(Host::Ipv6(_)), Some(text)) => without_brackets(text),
            (Some(_), Some(text)) => text,
            _ => "",
        }
    }

    /// Whether the scheme is `ws` or `wss`. The crate's call.
    #[tactic(auto, unfolding(crate::specs::Addr::is_websocket))]
    pub fn is_websocket(&self) -> bool
        ensures { result ≡ is_websocket self.now }
    {
        let scheme = self.url.scheme();
        scheme == "ws" || scheme == "wss"
    }

    /// The port that is written, else the scheme's known one, else 4222. The crate's call.
    pub fn port(&self) -> u16
        ensures { result ≡ port_of self.now }
    {
        self.url.port_or_known_default().unwrap_or(DEFAULT_PORT)
    }

    /// The whole URL, a user and a password with it. The crate's call.
    pub fn as_url_str(&self) -> &str
        ensures { result.now ≡ serialize self.now }
    {
        self.url.as_str()
    }

    /// The user that stands in the address, percent-encoded, where it is not empty. The crate's call.
    pub fn username(&self) -> Option<&str>
        ensures { option_copied result ≡ unless_empty self.now.username }
    {
        let user = self.url.username();
        if user.is_empty() { None } else { Some(user) }
    }

    /// The password that stands in the address, percent-encoded, where it is not empty. The crate's call.
    pub fn password(&self) -> Option<&str>
        ensures { option_copied result ≡ unless_empty self.now.password }
    {
        self.url.password()
    }

    /// An equal address. Own call of this library, for the Rust's `Clone`.
    pub fn copy(&self, _alloc: Global) -> Result<ServerAddr, NoMemory>
        ensures { IfOk result (λ addr. addr ≡ self.now) }
    {
        Ok(ServerAddr {
            url: self.url.clone()?,
        })
    }
}

/// Prints the scheme, the host and the port, and no user and no password, which may be secret.
impl fmt::Debug for ServerAddr {
    fn fmt<W: fmt::Write>(&self, f: &mut fmt::Formatter<W>) -> fmt::Result {
        f.debug_struct("ServerAddr")
            .field("scheme", &self.scheme())
            .field("host", &self.host())
            .field("port", &self.port())
            .finish()
    }
}
