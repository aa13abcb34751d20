//! Options of a connection as they are built call by call, and callbacks that are called.
use nats_pool::{
    Auth, AuthBox, AuthError, AuthFn, ConnectOptions, Event, EventBox, EventFn, SignerBox, SignerFn,
};
use nats_rows::{Bad, push_bytes, push_optional, push_word};
use std::alloc::Global;
use std::num::{NonZeroU16, NonZeroU64};

fn itself(nonce: Vec<u8>) -> Result<Vec<u8>, AuthError> {
    Ok(nonce)
}

fn nothing(_nonce: Vec<u8>) -> Result<Auth, AuthError> {
    Ok(Auth::default())
}

fn ignored(_event: Event) {}

/// Appends how a signer signs `n`.
fn push_signed(alloc: Global, out: &mut String) -> Result<(), Bad> {
    let signer: SignerBox = Box::new(alloc, itself)?;
    let nonce = b"n".to_vec(alloc)?;
    match SignerFn::new(signer).call(nonce) {
        Ok(signature) => push_bytes(out, signature.as_slice())?,
        Err(_) => out.push_str("refused")?,
    }
    Ok(())
}

fn token_word(answer: &Result<Auth, AuthError>) -> &'static str {
    match answer {
        Ok(auth) if auth.token.is_none() => " no-token",
        Ok(_) => " a-token",
        Err(_) => " refused",
    }
}

/// Tells a callback of an event, and appends what another one authenticates by.
fn push_authenticated(alloc: Global, out: &mut String) -> Result<(), Bad> {
    let auth: AuthBox = Box::new(alloc, nothing)?;
    let event: EventBox = Box::new(alloc, ignored)?;
    EventFn::new(event).call(Event::Connected);
    let answer = AuthFn::new(auth).call(Vec::new(alloc));
    let word = token_word(&answer);
    drop(answer);
    Ok(out.push_str(word)?)
}

fn push_shown(alloc: Global, auth: &Auth, out: &mut String) -> Result<(), Bad> {
    let text = format!(in alloc; "{auth:?}")?;
    let is_told = text.as_str().contains("secret");
    out.push_str(if is_told { " told" } else { " hidden" })?;
    push_word(out, b"token")?;
    out.push('=')?;
    let copy = auth.copy(alloc)?;
    let pushed = push_optional(out, copy.token.as_ref().map(|token| token.as_str()));
    drop(copy);
    Ok(pushed?)
}

/// Appends whether a token is printed, and the token of a copy.
fn push_token(alloc: Global, out: &mut String) -> Result<(), Bad> {
    let token = String::from_str(alloc, "secret")?;
    let options = ConnectOptions::with_token(token);
    let pushed = push_shown(alloc, &options.auth, out);
    drop(options);
    pushed
}

fn push_kept(options: &ConnectOptions, out: &mut String) -> Result<(), Bad> {
    for is_kept in [
        options.signer.is_some(),
        options.auth_callback.is_some(),
        options.event_callback.is_some(),
    ] {
        out.push_str(if is_kept { " kept" } else { " lost" })?;
    }
    Ok(())
}

fn push_callbacks(alloc: Global, out: &mut String) -> Result<(), Bad> {
    let signer: SignerBox = Box::new(alloc, itself)?;
    let auth: AuthBox = Box::new(alloc, nothing)?;
    let event: EventBox = Box::new(alloc, ignored)?;
    let options = ConnectOptions::with_jwt(String::new(alloc), signer)
        .auth_callback(auth)
        .event_callback(event);
    let pushed = push_kept(&options, out);
    drop(options);
    pushed
}

fn built(alloc: Global, user: String, pass: String) -> Result<ConnectOptions, Bad> {
    let options = ConnectOptions::with_user_and_password(user, pass);
    let options = options.name(alloc, "me")?;
    let options = options.custom_inbox_prefix(alloc, "_MINE")?;
    Ok(
        options
            .no_echo()
            .connection_timeout(1)
            .request_timeout(None)
            .ping_interval(NonZeroU64::MIN)
            .client_capacity(2)
            .subscription_capacity(3)
            .read_buffer_capacity(NonZeroU16::MIN)
            .require_tls(true)
            .retry_on_initial_connect()
            .ignore_discovered_servers()
            .skip_subject_validation(true)
            .journal(true),
    )
}

fn push_texts(options: &ConnectOptions, out: &mut String) -> Result<(), Bad> {
    out.push(' ')?;
    push_optional(out, options.name.as_ref().map(|name| name.as_str()))?;
    push_word(out, options.inbox_prefix.as_str().as_bytes())?;
    let has_pass = options.auth.password.is_some();
    Ok(out.push_str(if has_pass {
        " a-password"
    } else {
        " no-password"
    })?)
}

fn push_numbers(alloc: Global, options: &ConnectOptions, out: &mut String) -> Result<(), Bad> {
    let timeout = options.connection_timeout;
    let waits = options.request_timeout.is_some();
    let ping = options.ping_interval.get();
    let (client, subscription) = (options.client_capacity, options.subscription_capacity);
    let read = options.read_buffer_capacity.get();
    let text = format!(in alloc; " {timeout} {waits} {ping} {client} {subscription} {read}")?;
    Ok(out.push_str(text.as_str())?)
}

fn push_switches(options: &ConnectOptions, out: &mut String) -> Result<(), Bad> {
    for is_on in [
        options.no_echo,
        options.tls_required,
        options.retry_on_initial_connect,
        options.ignore_discovered_servers,
        options.skip_subject_validation,
        options.journal,
    ] {
        out.push_str(if is_on { " on" } else { " off" })?;
    }
    Ok(())
}

fn push_options(alloc: Global, options: &ConnectOptions, out: &mut String) -> Result<(), Bad> {
    push_texts(options, out)?;
    push_numbers(alloc, options, out)?;
    push_switches(options, out)
}

fn push_built(alloc: Global, out: &mut String) -> Result<(), Bad> {
    let options = built(alloc, String::new(alloc), String::new(alloc))?;
    let pushed = push_options(alloc, &options, out);
    drop(options);
    pushed
}

/// Appends all of them.
pub fn push_all(alloc: Global, out: &mut String) -> Result<(), Bad> {
    push_signed(alloc, out)?;
    push_authenticated(alloc, out)?;
    push_token(alloc, out)?;
    push_callbacks(alloc, out)?;
    push_built(alloc, out)
}
