//! The calls that build the options of a connection.
ghost use Rattle.std.specs.Prelude.{◌≡◌, true, None, Some, IfOk, MatchOption};
ghost use Rattle.nats_pool.specs.Auths.{no_auth};
ghost use Rattle.nats_pool.specs.Options.{IsDefaultWith, limit_of, custom_of};
ghost use Rattle.nats_pool.specs.declared.pool_options.Delay.TheVariants as delay;

use crate::connect_options::{
    DEFAULT_CLIENT_CAPACITY, DEFAULT_CONNECTION_TIMEOUT, DEFAULT_INBOX_PREFIX,
    DEFAULT_PING_INTERVAL, DEFAULT_REQUEST_TIMEOUT, DEFAULT_SUBSCRIPTION_CAPACITY,
};
use crate::{
    Auth, AuthBox, AuthFn, ChoiceBox, ChoiceFn, ConnectOptions, Delay, DelayBox, DelayFn, EventBox,
    EventFn, PoolOptions, SignerBox, SignerFn,
};
use nats_names::{NoMemory, Subject, Text};
use std::alloc::Global;
use std::mem;
use std::num::{NonZeroU16, NonZeroU64};

impl ConnectOptions {
    /// The default options. The crate's call.
    pub fn new() -> ConnectOptions
        ensures { IsDefaultWith no_auth result }
    {
        ConnectOptions {
            name: None,
            no_echo: false,
            max_reconnects: None,
            connection_timeout: DEFAULT_CONNECTION_TIMEOUT,
            request_timeout: Some(DEFAULT_REQUEST_TIMEOUT),
            ping_interval: NonZeroU64::new(DEFAULT_PING_INTERVAL).unwrap(),
            client_capacity: DEFAULT_CLIENT_CAPACITY,
            subscription_capacity: DEFAULT_SUBSCRIPTION_CAPACITY,
            inbox_prefix: Subject::from_static(DEFAULT_INBOX_PREFIX),
            read_buffer_capacity: NonZeroU16::new(u16::MAX).unwrap(),
            tls_required: false,
            retry_on_initial_connect: false,
            ignore_discovered_servers: false,
            retain_servers_order: false,
            skip_subject_validation: false,
            auth: Auth::new(),
            signer: None,
            auth_callback: None,
            event_callback: None,
            reconnect_delay: Delay::Default,
            reconnect_to_server: None,
            journal: false,
        }
    }

    /// The default options. The crate's `Default`.
    pub fn default() -> ConnectOptions
        ensures { IsDefaultWith no_auth result }
    {
        ConnectOptions::new()
    }

    /// The default options with this token. The crate's call.
    pub fn with_token(token: String) -> ConnectOptions
        ensures { IsDefaultWith (record no_auth { token = Some token }) result }
    {
        ConnectOptions::new().token(token)
    }

    /// The default options with this user and password. The crate's call.
    pub fn with_user_and_password(user: String, pass: String) -> ConnectOptions
        ensures { IsDefaultWith (record no_auth { username = Some user; password = Some pass }) result }
    {
        ConnectOptions::new().user_and_password(user, pass)
    }

    /// The default options with this JWT and what signs for it. The crate's call.
    pub fn with_jwt(jwt: String, signer: SignerBox) -> ConnectOptions
        requires { SignerBox.IsAlwaysCallable signer }
        ensures set { MatchOption result.signer ⊥ (λ kept. kept.f ≡ signer) }
        ensures rest { IsDefaultWith (record no_auth { jwt = Some jwt }) (record result { signer = None }) }
    {
        ConnectOptions::new().jwt(jwt, signer)
    }

    /// The default options with this authentication callback. The crate's call.
    pub fn with_auth_callback(f: AuthBox) -> ConnectOptions
        requires { AuthBox.IsAlwaysCallable f }
        ensures set { MatchOption result.auth_callback ⊥ (λ kept. kept.f ≡ f) }
        ensures rest { IsDefaultWith no_auth (record result { auth_callback = None }) }
    {
        ConnectOptions::new().auth_callback(f)
    }

    /// The name of the client, sent to the server. The crate's call.
    pub fn name(mut self, alloc: Global, name: &str) -> Result<ConnectOptions, NoMemory>
        ensures { IfOk result (λ options. options ≡ record self { name = Some name.now }) }
    {
        self.name = Some(Text::from_text(alloc, name)?);
        Ok(self)
    }

    /// What inbox subjects begin with. The crate's call.
    pub fn custom_inbox_prefix(
        mut self,
        alloc: Global,
        prefix: &str,
    ) -> Result<ConnectOptions, NoMemory>
        ensures { IfOk result (λ options. options ≡ record self { inbox_prefix = prefix.now }) }
    {
        self.inbox_prefix = Subject::from_text(alloc, prefix)?;
        Ok(self)
    }

    /// How many attempts may be made since the last success; none, and 0, mean no limit. The crate's call.
    pub fn max_reconnects(mut self, n: Option<usize>) -> ConnectOptions
        ensures { result ≡ record self { max_reconnects = limit_of n } }
    {
        self.max_reconnects = match n {
            Some(0) => None,
            n => n,
        };
        self
    }

    /// The client authenticates by this token. The crate's call.
    pub fn token(mut self, token: String) -> ConnectOptions
        ensures { result ≡ record self { auth = record (self.auth) { token = Some token } } }
    {
        self.auth.token = Some(token);
        self
    }

    /// The client authenticates by this user and password. The crate's call.
    pub fn user_and_password(mut self, user: String, pass: String) -> ConnectOptions
        ensures { result ≡ record self { auth = record (self.auth) { username = Some user; password = Some pass } } }
    {
        self.auth.username = Some(user);
        self.auth.password = Some(pass);
        self
    }

    /// The client authenticates by this JWT and by what signs the nonce. The crate's call.
    pub fn jwt(mut self, jwt: String, signer: SignerBox) -> ConnectOptions
        requires { SignerBox.IsAlwaysCallable signer }
        ensures set { MatchOption result.signer ⊥ (λ kept. kept.f ≡ signer) }
        ensures rest { record result { signer = None }
            ≡ record self { signer = None; auth = record (self.auth) { jwt = Some jwt } } }
    {
        self.auth.jwt = Some(jwt);
        self.signer = Some(SignerFn::new(signer));
        self
    }

    /// The callback says, for a nonce, what to authenticate by. Own call of this library.
    pub fn auth_callback(mut self, f: AuthBox) -> ConnectOptions
        requires { AuthBox.IsAlwaysCallable f }
        ensures set { MatchOption result.auth_callback ⊥ (λ kept. kept.f ≡ f) }
        ensures rest { record result { auth_callback = None } ≡ record self { auth_callback = None } }
    {
        self.auth_callback = Some(AuthFn::new(f));
        self
    }

    /// The callback is told of events. The crate's call.
    pub fn event_callback(mut self, f: EventBox) -> ConnectOptions
        requires { EventBox.IsAlwaysCallable f }
        ensures set { MatchOption result.event_callback ⊥ (λ kept. kept.f ≡ f) }
        ensures rest { record result { event_callback = None } ≡ record self { event_callback = None } }
    {
        self.event_callback = Some(EventFn::new(f));
        self
    }

    /// The callback chooses the server to try. The crate's call.
    pub fn reconnect_to_server_callback(mut self, f: ChoiceBox) -> ConnectOptions
        requires { ChoiceBox.IsAlwaysCallable f }
        ensures set { MatchOption result.reconnect_to_server ⊥ (λ kept. kept.f ≡ f) }
        ensures rest { record result { reconnect_to_server = None } ≡ record self { reconnect_to_server = None } }
    {
        self.reconnect_to_server = Some(ChoiceFn::new(f));
        self
    }

    /// The callback says how long to wait before an attempt. The crate's call.
    pub fn reconnect_delay_callback(mut self, f: DelayBox) -> ConnectOptions
        requires { DelayBox.IsAlwaysCallable f }
        ensures set { MatchOption (custom_of result.reconnect_delay) ⊥ (λ kept. kept.f ≡ f) }
        ensures rest { record result { reconnect_delay = delay.Default }
            ≡ record self { reconnect_delay = delay.Default } }
    {
        self.reconnect_delay = Delay::Custom(DelayFn::new(f));
        self
    }

    /// The server does not send the client's own messages back to it. The crate's call.
    pub fn no_echo(mut self) -> ConnectOptions
        ensures { result ≡ record self { no_echo = true } }
    {
        self.no_echo = true;
        self
    }

    /// Milliseconds that a handshake may take. The crate's call.
    pub fn connection_timeout(mut self, ms: u64) -> ConnectOptions
        ensures { result ≡ record self { connection_timeout = ms } }
    {
        self.connection_timeout = ms;
        self
    }

    /// Milliseconds that a request may take; none means that it doesn't end by itself. The crate's call.
    pub fn request_timeout(mut self, ms: Option<u64>) -> ConnectOptions
        ensures { result ≡ record self { request_timeout = ms } }
    {
        self.request_timeout = ms;
        self
    }

    /// Milliseconds between two pings. The crate's call.
    pub fn ping_interval(mut self, ms: NonZeroU64) -> ConnectOptions
        ensures { result ≡ record self { ping_interval = ms } }
    {
        self.ping_interval = ms;
        self
    }

    /// How many accepted calls may wait. The crate's call.
    pub fn client_capacity(mut self, n: u64) -> ConnectOptions
        ensures { result ≡ record self { client_capacity = n } }
    {
        self.client_capacity = n;
        self
    }

    /// How many messages of a subscription may wait. The crate's call.
    pub fn subscription_capacity(mut self, n: u64) -> ConnectOptions
        ensures { result ≡ record self { subscription_capacity = n } }
    {
        self.subscription_capacity = n;
        self
    }

    /// The length of the buffer that a read is handed. The crate's call.
    pub fn read_buffer_capacity(mut self, size: NonZeroU16) -> ConnectOptions
        ensures { result ≡ record self { read_buffer_capacity = size } }
    {
        self.read_buffer_capacity = size;
        self
    }

    /// Whether TLS is demanded, which is then refused. The crate's call.
    pub fn require_tls(mut self, is_required: bool) -> ConnectOptions
        ensures { result ≡ record self { tls_required = is_required } }
    {
        self.tls_required = is_required;
        self
    }

    /// The first attempts are made in the background too. The crate's call.
    pub fn retry_on_initial_connect(mut self) -> ConnectOptions
        ensures { result ≡ record self { retry_on_initial_connect = true } }
    {
        self.retry_on_initial_connect = true;
        self
    }

    /// Servers that a server tells of are left out. The crate's call.
    pub fn ignore_discovered_servers(mut self) -> ConnectOptions
        ensures { result ≡ record self { ignore_discovered_servers = true } }
    {
        self.ignore_discovered_servers = true;
        self
    }

    /// A round keeps the order of the pool. The crate's call.
    pub fn retain_servers_order(mut self) -> ConnectOptions
        ensures { result ≡ record self { retain_servers_order = true } }
    {
        self.retain_servers_order = true;
        self
    }

    /// Whether subjects are published to without a test. The crate's call.
    pub fn skip_subject_validation(mut self, skip: bool) -> ConnectOptions
        ensures { result ≡ record self { skip_subject_validation = skip } }
    {
        self.skip_subject_validation = skip;
        self
    }

    /// Whether a journal is kept. Own option of this library.
    pub fn journal(mut self, keep: bool) -> ConnectOptions
        ensures { result ≡ record self { journal = keep } }
    {
        self.journal = keep;
        self
    }

    /// Moves the two callbacks of a pool out, and copies its three settings. Own call of this library.
    pub fn take_pool_options(&mut self) -> PoolOptions
        ensures options { result ≡ record {
          max_reconnects = self.old.max_reconnects;
          retain_servers_order = self.old.retain_servers_order;
          ignore_discovered_servers = self.old.ignore_discovered_servers;
          delay = self.old.reconnect_delay;
          choice = self.old.reconnect_to_server;
        } }
        ensures rest { self.new ≡ record (self.old) { reconnect_delay = delay.Default; reconnect_to_server = None } }
    {
        PoolOptions {
            max_reconnects: self.max_reconnects,
            retain_servers_order: self.retain_servers_order,
            ignore_discovered_servers: self.ignore_discovered_servers,
            delay: mem::replace(&mut self.reconnect_delay, Delay::Default),
            choice: self.reconnect_to_server.take(),
        }
    }
}
