//! Callbacks: each is boxed by the caller, and kept in a struct that keeps that it may always be called.
ghost use Rattle.std.specs.Prelude.{◌≡◌};

use crate::{Auth, ReconnectToServer, Server, ServerInfo};
use nats_names::{AuthError, Event};

/// How long to wait, in milliseconds, before the attempt of this number since the last success.
pub type DelayBox = Box<dyn Fn(usize) -> u64 + Send + Sync>;

/// Which server of these to try, after the last INFO; none means the usual order.
pub type ChoiceBox = Box<
    dyn Fn(Vec<Server>, ServerInfo) -> Option<ReconnectToServer> + Send + Sync,
>;

/// The signature of a nonce.
pub type SignerBox = Box<dyn Fn(Vec<u8>) -> Result<Vec<u8>, AuthError> + Send + Sync>;

/// What to authenticate by, for a nonce.
pub type AuthBox = Box<dyn Fn(Vec<u8>) -> Result<Auth, AuthError> + Send + Sync>;

/// What is told of events.
pub type EventBox = Box<dyn Fn(Event) + Send + Sync>;

/// A callback for the delay before an attempt.
#[derive(Drop)]
pub struct DelayFn {
    f: DelayBox,
    ghost callable: { DelayBox.IsAlwaysCallable f },
}

impl DelayFn {
    /// Keeps `f`, which may be called on every argument: the caller has proved it.
    pub fn new(f: DelayBox) -> DelayFn
        requires { DelayBox.IsAlwaysCallable f }
        ensures { result.f ≡ f }
    {
        DelayFn { f }
    }

    /// What the callback answers.
    pub fn call(&self, attempts: usize) -> u64
        ensures { DelayBox.post self.now.f attempts result }
    {
        (self.f)(attempts)
    }
}

/// A callback that chooses the server to try.
#[derive(Drop)]
pub struct ChoiceFn {
    f: ChoiceBox,
    ghost callable: { ChoiceBox.IsAlwaysCallable f },
}

impl ChoiceFn {
    /// Keeps `f`, which may be called on every argument: the caller has proved it.
    pub fn new(f: ChoiceBox) -> ChoiceFn
        requires { ChoiceBox.IsAlwaysCallable f }
        ensures { result.f ≡ f }
    {
        ChoiceFn { f }
    }

    /// What the callback answers.
    pub fn call(&self, servers: Vec<Server>, info: ServerInfo) -> Option<ReconnectToServer>
        ensures { ChoiceBox.post self.now.f servers info result }
    {
        (self.f)(servers, info)
    }
}

/// A callback that signs a nonce.
#[derive(Drop)]
pub struct SignerFn {
    f: SignerBox,
    ghost callable: { SignerBox.IsAlwaysCallable f },
}

impl SignerFn {
    /// Keeps `f`, which may be called on every argument: the caller has proved it.
    pub fn new(f: SignerBox) -> SignerFn
        requires { SignerBox.IsAlwaysCallable f }
        ensures { result.f ≡ f }
    {
        SignerFn { f }
    }

    /// What the callback answers.
    pub fn call(&self, nonce: Vec<u8>) -> Result<Vec<u8>, AuthError>
        ensures { SignerBox.post self.now.f nonce result }
    {
        (self.f)(nonce)
    }
}

/// A callback that says what to authenticate by.
#[derive(Drop)]
pub struct AuthFn {
    f: AuthBox,
    ghost callable: { AuthBox.IsAlwaysCallable f },
}

impl AuthFn {
    /// Keeps `f`, which may be called on every argument: the caller has proved it.
    pub fn new(f: AuthBox) -> AuthFn
        requires { AuthBox.IsAlwaysCallable f }
        ensures { result.f ≡ f }
    {
        AuthFn { f }
    }

    /// What the callback answers.
    pub fn call(&self, nonce: Vec<u8>) -> Result<Auth, AuthError>
        ensures { AuthBox.post self.now.f nonce result }
    {
        (self.f)(nonce)
    }
}

/// A callback that is told of events.
#[derive(Drop)]
pub struct EventFn {
    f: EventBox,
    ghost callable: { EventBox.IsAlwaysCallable f },
}

impl EventFn {
    /// Keeps `f`, which may be called on every argument: the caller has proved it.
    pub fn new(f: EventBox) -> EventFn
        requires { EventBox.IsAlwaysCallable f }
        ensures { result.f ≡ f }
    {
        EventFn { f }
    }

    /// Tells the callback of this event.
    pub fn call(&self, event: Event)
        ensures { EventBox.post self.now.f event result }
    {
        (self.f)(event)
    }
}
