//! What a client tells of itself by its credentials.
use crate::says::push;
use nats_handshake::{
    Auth, ConnectInfo, ConnectOptions, Refusal, connect_info, connect_text, credentials,
};
use nats_rows::{Bad, push_bytes};
use std::alloc::Global;

fn auth(alloc: Global) -> Result<Auth, Bad> {
    let jwt = String::from_str(alloc, "j")?;
    let signature = b"\xfb\xff\xfe".to_vec(alloc)?;
    Ok(Auth {
        jwt: Some(jwt),
        nkey: None,
        username: None,
        password: None,
        token: None,
        signature: Some(signature),
    })
}

fn greeting(alloc: Global, auth: &Auth) -> Result<ConnectInfo, Bad> {
    let options = ConnectOptions::new().no_echo();
    let info = connect_info(alloc, &options, auth);
    drop(options);
    Ok(info?)
}

fn push_written(alloc: Global, auth: &Auth, out: &mut String) -> Result<(), Bad> {
    let info = greeting(alloc, auth)?;
    let text = connect_text(alloc, &info);
    drop(info);
    Ok(push_bytes(out, text?.as_slice())?)
}

/// Appends the line by which a client tells a JWT and a signature.
fn push_greeting(alloc: Global, out: &mut String) -> Result<(), Bad> {
    let auth = auth(alloc)?;
    let pushed = push_written(alloc, &auth, out);
    drop(auth);
    pushed
}

fn offer_word(offered: &Result<Auth, Refusal>) -> &'static str {
    match offered {
        Ok(auth) if auth.jwt.is_none() && auth.signature.is_none() => "nothing",
        Ok(_) => "something",
        Err(_) => "refused",
    }
}

/// Appends what is offered on default options.
fn push_offered(alloc: Global, out: &mut String) -> Result<(), Bad> {
    let options = ConnectOptions::new();
    let offered = credentials(alloc, &options, b"nonce");
    let word = offer_word(&offered);
    drop(offered);
    drop(options);
    push(out, word)
}

/// Answers a question on credentials, and tells whether it is one.
pub fn answer(alloc: Global, word: &str, _rest: &str, out: &mut String) -> Result<bool, Bad> {
    match word {
        "tells" => push_greeting(alloc, out)?,
        "offers" => push_offered(alloc, out)?,
        _ => return Ok(false),
    }
    Ok(true)
}
