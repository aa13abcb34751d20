//! What a client authenticates by, for the server's nonce.
ghost use Rattle.std.specs.Prelude.{◌≡◌, Some, IfOk, option_map, string_bytes};
ghost use Rattle.nats_pool.specs.Auths.{auth_value};
ghost use Rattle.nats_names.specs.declared.cause.Cause.TheVariants as cause;
ghost use Rattle.nats_handshake.specs.declared.error.ConnectErrorKind.TheVariants as kind;
ghost use Rattle.nats_handshake.specs.Credentials.{SignerAnswers, AuthAnswers, unsigned, signed_by, told_by, Asked, Signed, SignedBy, Told, ToldBy, Offers, Tells};

use crate::error::{ConnectErrorKind, Refusal};
use nats_names::{AuthError, Cause, NoMemory};
use nats_pool::{Auth, AuthFn, ConnectOptions, SignerFn};
use std::alloc::Global;

fn copy_of(alloc: Global, text: &Option<String>) -> Result<Option<String>, NoMemory>
    ensures { IfOk result (λ t. option_map string_bytes t ≡ option_map string_bytes text.now) }
{
    match text {
        Some(text) => Ok(Some(String::from_str(alloc, text.as_str())?)),
        None => Ok(None),
    }
}

fn unsigned(alloc: Global, auth: &Auth) -> Result<Auth, NoMemory>
    ensures { IfOk result (λ a. auth_value a ≡ unsigned (auth_value auth.now)) }
{
    Ok(Auth {
        jwt: None,
        nkey: None,
        username: copy_of(alloc, &auth.username)?,
        password: copy_of(alloc, &auth.password)?,
        token: copy_of(alloc, &auth.token)?,
        signature: None,
    })
}

fn refused(error: AuthError) -> Refusal
    ensures { result ≡ (kind.Authentication, Some (cause.Auth error)) }
{
    Refusal::by(ConnectErrorKind::Authentication, Cause::Auth(error))
}

// With the JWT and what the signer answered.
fn signed(alloc: Global, auth: &Auth, answer: Result<Vec<u8>, AuthError>) -> Result<Auth, Refusal>
    ensures { Tells result (λ r. r ≡ signed_by (auth_value auth.now) answer) }
{
    let plain = unsigned(alloc, auth)?;
    let jwt = copy_of(alloc, &auth.jwt)?;
    match answer {
        Ok(signature) => Ok(Auth {
            jwt,
            signature: Some(signature),
            ..plain
        }),
        Err(error) => Err(refused(error)),
    }
}

fn sign(
    alloc: Global,
    signer: &SignerFn,
    nonce: &[u8],
) -> Result<Result<Vec<u8>, AuthError>, NoMemory>
    ensures { IfOk result (λ r. Asked SignerAnswers signer.now nonce.now r) }
{
    let bytes = Vec::from_slice(alloc, nonce)?;
    Ok(signer.call(bytes))
}

fn sign_own(alloc: Global, auth: &Auth, signer: &SignerFn, nonce: &[u8]) -> Result<Auth, Refusal>
    ensures { Tells result (Signed SignerAnswers signer.now (auth_value auth.now) nonce.now) }
{
    let answer = sign(alloc, signer, nonce)?;
    signed(alloc, auth, answer)
}

fn own(alloc: Global, auth: &Auth, signer: &Option<SignerFn>, nonce: &[u8]) -> Result<Auth, Refusal>
    ensures { Tells result (SignedBy SignerAnswers
        ((auth_value auth.now).jwt) signer.now (auth_value auth.now) nonce.now) }
{
    match (&auth.jwt, signer) {
        (Some(_), Some(signer)) => sign_own(alloc, auth, signer, nonce),
        _ => Ok(unsigned(alloc, auth)?),
    }
}

fn ask(alloc: Global, callback: &AuthFn, nonce: &[u8]) -> Result<Result<Auth, AuthError>, NoMemory>
    ensures { IfOk result (λ r. Asked AuthAnswers callback.now nonce.now r) }
{
    let bytes = Vec::from_slice(alloc, nonce)?;
    Ok(callback.call(bytes))
}

fn offered(answer: Result<Auth, AuthError>) -> Result<Auth, Refusal>
    ensures { Tells result (λ r. r ≡ told_by answer) }
{
    match answer {
        Ok(auth) => Ok(auth),
        Err(error) => Err(refused(error)),
    }
}

fn ask_for(alloc: Global, callback: &AuthFn, nonce: &[u8]) -> Result<Auth, Refusal>
    ensures { Tells result (Told AuthAnswers callback.now nonce.now) }
{
    let answer = ask(alloc, callback, nonce)?;
    offered(answer)
}

fn told(alloc: Global, own: Auth, callback: &Option<AuthFn>, nonce: &[u8]) -> Result<Auth, Refusal>
    ensures { Tells result (ToldBy AuthAnswers callback.now nonce.now (auth_value own)) }
{
    match callback {
        Some(callback) => ask_for(alloc, callback, nonce),
        None => Ok(own),
    }
}

/// What a client with these options authenticates by, for a nonce: where there is a JWT with a signer, the JWT and
/// what the signer makes of the nonce; where there is an authentication callback, what that answers in place of
/// everything else. A refusal of either is one of kind `Authentication`. The crate's rule.
pub fn credentials(alloc: Global, options: &ConnectOptions, nonce: &[u8]) -> Result<Auth, Refusal>
    ensures { Tells result (Offers SignerAnswers AuthAnswers
        options.now.signer options.now.auth_callback (auth_value options.now.auth) nonce.now) }
{
    match own(alloc, &options.auth, &options.signer, nonce) {
        Ok(own) => told(alloc, own, &options.auth_callback, nonce),
        Err(refusal) => Err(refusal),
    }
}
