//! What a server says of itself.
ghost use Rattle.std.specs.Prelude.{◌≡◌, IfOk};
ghost use Rattle.nats_info.specs.Info.{default_info};

use nats_names::{NoMemory, Seq, Text};
use std::alloc::Global;
use std::fmt;

/// The server's INFO. The crate's `ServerInfo`, its fields by the names of the protocol. The small ones stand together
/// at the end, so that an INFO takes little room in a list of turns.
#[derive(Drop, PartialEq, Eq)]
pub struct ServerInfo {
    /// The server's id, by which it knows itself.
    pub server_id: Text,
    /// The server's name, as its owner gave it.
    pub server_name: Text,
    /// The address that the server listens at.
    pub host: Text,
    /// The server's version, as `2.10.18`.
    pub version: Text,
    /// The version of Go that the server was built with.
    pub go: Text,
    /// What a client that proves who it is has to sign.
    pub nonce: Text,
    /// The addresses of the cluster's servers that a client may connect to.
    pub connect_urls: Seq<Text>,
    /// The client's own address, as the server sees it.
    pub client_ip: Text,
    /// The name of the server's cluster, where it has one.
    pub cluster: Option<Text>,
    /// The name of the server's JetStream domain, where it has one.
    pub domain: Option<Text>,
    /// The greatest size of a message in bytes that the server takes.
    pub max_payload: u64,
    /// The number that the server gave the client.
    pub client_id: u64,
    /// The port that the server listens at.
    pub port: u16,
    /// The version of the protocol: from 1 on the server may send a further INFO at any time.
    pub proto: i8,
    /// Whether the server wants to be told who the client is.
    pub auth_required: bool,
    /// Whether the server wants TLS.
    pub tls_required: bool,
    /// Whether the server takes messages with headers.
    pub headers: bool,
    /// Whether the server is about to stop, and asks its clients to go elsewhere.
    pub lame_duck_mode: bool,
    /// Whether the server has JetStream.
    pub jetstream: bool,
}

impl ServerInfo {
    /// The INFO of a server that says nothing: each text empty, each number 0, each switch off. It takes no memory.
    pub fn default(alloc: Global) -> ServerInfo
        ensures { result ≡ default_info }
    {
        ServerInfo {
            server_id: Text::new(),
            server_name: Text::new(),
            host: Text::new(),
            port: 0,
            version: Text::new(),
            auth_required: false,
            tls_required: false,
            max_payload: 0,
            proto: 0,
            client_id: 0,
            go: Text::new(),
            nonce: Text::new(),
            connect_urls: Seq::new(alloc),
            client_ip: Text::new(),
            headers: false,
            lame_duck_mode: false,
            cluster: None,
            domain: None,
            jetstream: false,
        }
    }

    /// An equal INFO, which shares the bytes of its texts.
    pub fn copy(&self, alloc: Global) -> Result<ServerInfo, NoMemory>
        ensures { IfOk result (λ info. info ≡ self.now) }
    {
        let (server_id, server_name, host) = copy_three(
            alloc,
            &self.server_id,
            &self.server_name,
            &self.host,
        )?;
        let (version, go, nonce) = copy_three(alloc, &self.version, &self.go, &self.nonce)?;
        let (cluster, domain) = copy_two(alloc, &self.cluster, &self.domain)?;
        let client_ip = self.client_ip.copy(alloc)?;
        let connect_urls = copy_texts(alloc, self.connect_urls.as_slice())?;
        Ok(ServerInfo {
            server_id,
            server_name,
            host,
            port: self.port,
            version,
            auth_required: self.auth_required,
            tls_required: self.tls_required,
            max_payload: self.max_payload,
            proto: self.proto,
            client_id: self.client_id,
            go,
            nonce,
            connect_urls,
            client_ip,
            headers: self.headers,
            lame_duck_mode: self.lame_duck_mode,
            cluster,
            domain,
            jetstream: self.jetstream,
        })
    }
}

/// Prints the fields in the order of the crate's.
impl fmt::Debug for ServerInfo {
    fn fmt<W: fmt::Write>(&self, f: &mut fmt::Formatter<W>) -> fmt::Result {
        f.debug_struct("ServerInfo")
            .field("server_id", &self.server_id)
            .field("server_name", &self.server_name)
            .field("host", &self.host)
            .field("port", &self.port)
            .field("version", &self.version)
            .field("auth_required", &self.auth_required)
            .field("tls_required", &self.tls_required)
            .field("max_payload", &self.max_payload)
            .field("proto", &self.proto)
            .field("client_id", &self.client_id)
            .field("go", &self.go)
            .field("nonce", &self.nonce)
            .field("connect_urls", &self.connect_urls)
            .field("client_ip", &self.client_ip)
            .field("headers", &self.headers)
            .field("lame_duck_mode", &self.lame_duck_mode)
            .field("cluster", &self.cluster)
            .field("domain", &self.domain)
            .field("jetstream", &self.jetstream)
            .finish()
    }
}

fn copy_text(alloc: Global, text: &Option<Text>) -> Result<Option<Text>, NoMemory>
    ensures { IfOk result (λ t. t ≡ text.now) }
{
    match text {
        Some(text) => Ok(Some(text.copy(alloc)?)),
        None => Ok(None),
    }
}

fn copy_two(
    alloc: Global,
    a: &Option<Text>,
    b: &Option<Text>,
) -> Result<(Option<Text>, Option<Text>), NoMemory>
    ensures { IfOk result (λ copies. copies ≡ (a.now, b.now)) }
{
    Ok((copy_text(alloc, a)?, copy_text(alloc, b)?))
}

fn copy_three(alloc: Global, a: &Text, b: &Text, c: &Text) -> Result<(Text, Text, Text), NoMemory>
    ensures { IfOk result (λ copies. copies ≡ (a.now, b.now, c.now)) }
{
    Ok((a.copy(alloc)?, b.copy(alloc)?, c.copy(alloc)?))
}

fn copy_texts(alloc: Global, texts: &[Text]) -> Result<Seq<Text>, NoMemory>
    ensures { IfOk result (λ ts. ts ≡ texts.now) }
{
    let mut copies = Seq::new(alloc);
    for text in texts {
        copies.push(alloc, text.copy(alloc)?)?;
    }
    Ok(copies)
}
