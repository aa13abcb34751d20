//! How often callbacks are asked: those of a round for one server, and those by which a handshake authenticates; and
//! whether what authenticates shows a secret.
use nats_handshake::credentials;
use nats_pool::{
    Auth, AuthBox, AuthError, ChoiceBox, ConnectOptions, DelayBox, Pool, Server, ServerAddr,
    ServerInfo, SignerBox,
};
use nats_rows::Bad;
use std::alloc::Global;
use std::sync::Arc;
use std::sync::atomic::{AtomicU64, Ordering};

type Count = Arc<AtomicU64, Global>;

/// Two handles of a count that begins at 0.
fn count(alloc: Global) -> Result<(Count, Count), Bad> {
    let count = Arc::new(alloc, AtomicU64::new(0))?;
    let other = Arc::try_clone(&count).map_err(|_| Bad::NoMemory)?;
    Ok((count, other))
}

fn push_count(alloc: Global, word: &str, count: &Count, out: &mut String) -> Result<(), Bad> {
    let asked = count.load(Ordering::SeqCst);
    Ok(out.push_str(format!(in alloc; "{word}={asked} ")?.as_str())?)
}

/// Tells whether a round begins and hands its one server out.
fn begins(alloc: Global, pool: &mut Pool) -> bool {
    let info = ServerInfo::default(alloc);
    let begun = pool.begin_round(alloc, &info).is_ok();
    drop(info);
    let next = pool.next_attempt();
    drop(next);
    begun
}

fn one_server(alloc: Global, mut options: ConnectOptions) -> Result<Pool, Bad> {
    let addr = ServerAddr::parse(alloc, "a").map_err(|_| Bad::Form)?;
    let addrs = vec![in alloc; addr]?;
    Ok(Pool::new(alloc, addrs, options.take_pool_options(), 0)?)
}

/// A pool of one server, which counts how often it asks for a delay and for a server.
fn counting(alloc: Global, delays: Count, choices: Count) -> Result<Pool, Bad> {
    let delay: DelayBox = Box::new(alloc, move |attempts: usize| {
        delays.fetch_add(1, Ordering::SeqCst);
        attempts as u64
    })?;
    let choice: ChoiceBox = Box::new(alloc, move |servers: Vec<Server>, info: ServerInfo| {
        choices.fetch_add(1, Ordering::SeqCst);
        drop(servers);
        drop(info);
        None
    })?;
    let options = ConnectOptions::new()
        .reconnect_delay_callback(delay)
        .reconnect_to_server_callback(choice);
    one_server(alloc, options)
}

/// Appends how often a round asks its callbacks.
fn push_round(alloc: Global, out: &mut String) -> Result<(), Bad> {
    let (delays, delay_count) = count(alloc)?;
    let (choices, choice_count) = count(alloc)?;
    let mut pool = counting(alloc, delay_count, choice_count)?;
    let begun = begins(alloc, &mut pool);
    drop(pool);
    out.push_str(if begun { "begun " } else { "refused " })?;
    push_count(alloc, "delays", &delays, out)?;
    push_count(alloc, "choices", &choices, out)
}

fn offers(alloc: Global, options: &ConnectOptions) -> bool {
    let answer = credentials(alloc, options, b"n");
    let is_offered = answer.is_ok();
    drop(answer);
    is_offered
}

/// Options that count how often a signature and credentials are asked for.
fn signing(alloc: Global, signs: Count, asks: Count) -> Result<ConnectOptions, Bad> {
    let signer: SignerBox = Box::new(alloc, move |nonce: Vec<u8>| {
        signs.fetch_add(1, Ordering::SeqCst);
        Ok::<Vec<u8>, AuthError>(nonce)
    })?;
    let auth: AuthBox = Box::new(alloc, move |nonce: Vec<u8>| {
        asks.fetch_add(1, Ordering::SeqCst);
        drop(nonce);
        Ok::<Auth, AuthError>(Auth::new())
    })?;
    let jwt = String::from_str(alloc, "jwt")?;
    Ok(ConnectOptions::with_jwt(jwt, signer).auth_callback(auth))
}

/// Appends how often a handshake asks for what it authenticates by.
fn push_credentials(alloc: Global, out: &mut String) -> Result<(), Bad> {
    let (signs, signer_count) = count(alloc)?;
    let (asks, auth_count) = count(alloc)?;
    let options = signing(alloc, signer_count, auth_count)?;
    let is_offered = offers(alloc, &options);
    drop(options);
    out.push_str(if is_offered { "offered " } else { "refused " })?;
    push_count(alloc, "signs", &signs, out)?;
    push_count(alloc, "asks", &asks, out)
}

fn secret(alloc: Global) -> Result<Option<String>, Bad> {
    Ok(Some(String::from_str(alloc, "secret")?))
}

/// Tells whether a text shows the secret, or its first byte as a number.
fn tells(alloc: Global, auth: &Auth) -> Result<bool, Bad> {
    let text = format!(in alloc; "{auth:?}")?;
    Ok(text.as_str().contains("secret") || text.as_str().contains("115"))
}

/// Appends whether the text for debugging of what authenticates shows one of its secrets.
fn push_shown(alloc: Global, out: &mut String) -> Result<(), Bad> {
    let auth = Auth {
        jwt: secret(alloc)?,
        nkey: None,
        username: Some(String::from_str(alloc, "user")?),
        password: secret(alloc)?,
        token: secret(alloc)?,
        signature: Some(b"secret".to_vec(alloc)?),
    };
    let told = tells(alloc, &auth);
    drop(auth);
    Ok(out.push_str(if told? { "told" } else { "hidden" })?)
}

/// Appends all of them.
pub fn push_all(alloc: Global, out: &mut String) -> Result<(), Bad> {
    push_round(alloc, out)?;
    push_credentials(alloc, out)?;
    push_shown(alloc, out)
}
