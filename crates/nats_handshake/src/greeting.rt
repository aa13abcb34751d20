//! The CONNECT of a client.
ghost use Rattle.std.specs.Prelude.{◌≡◌, IfOk, codes, option_map, string_bytes};
ghost use Rattle.base64.specs.Engines.{url_safe_no_pad};
ghost use Rattle.base64.specs.GeneralPurpose.{encode_of};
ghost use Rattle.nats_pool.specs.Auths.{auth_value};
ghost use Rattle.nats_handshake.specs.Greeting.{connect_info_of};

use base64::engine::general_purpose::URL_SAFE_NO_PAD;
use nats_connect::{ConnectInfo, Protocol};
use nats_names::{NoMemory, Text};
use nats_pool::{Auth, ConnectOptions};
use std::alloc::Global;

/// The language that a client names. The crate's.
pub const CLIENT_LANG: &str = "rust";

/// The version that a client names: that of the crate.
pub const CLIENT_VERSION: &str = "0.51.0";

fn text_of(alloc: Global, text: &Option<String>) -> Result<Option<Text>, NoMemory>
    ensures { IfOk result (λ t. t ≡ option_map string_bytes text.now) }
{
    match text {
        Some(text) => Ok(Some(Text::from_text(alloc, text.as_str())?)),
        None => Ok(None),
    }
}

fn copy_name(alloc: Global, name: &Option<Text>) -> Result<Option<Text>, NoMemory>
    ensures { IfOk result (λ t. t ≡ name.now) }
{
    match name {
        Some(name) => Ok(Some(name.copy(alloc)?)),
        None => Ok(None),
    }
}

// A signature as base64 of the alphabet for URLs, without padding.
fn signature_text(alloc: Global, signature: &Option<Vec<u8>>) -> Result<Option<Text>, NoMemory>
    ensures { IfOk result (λ t. t ≡ option_map (λ bytes. encode_of url_safe_no_pad bytes.items) signature.now) }
{
    match signature {
        Some(bytes) => {
            let text = URL_SAFE_NO_PAD.encode(alloc, bytes.as_slice())?;
            Ok(Some(Text::from_text(alloc, text.as_str())?))
        }
        None => Ok(None),
    }
}

// What it shows itself by: its JWT, its nkey and its signature.
fn proofs_of(
    alloc: Global,
    auth: &Auth,
) -> Result<(Option<Text>, Option<Text>, Option<Text>), NoMemory>
    ensures { IfOk result (λ r. r ≡ (
      (auth_value auth.now).jwt,
      (auth_value auth.now).nkey,
      option_map (λ bytes. encode_of url_safe_no_pad bytes) (auth_value auth.now).signature,
    )) }
{
    Ok((
        text_of(alloc, &auth.jwt)?,
        text_of(alloc, &auth.nkey)?,
        signature_text(alloc, &auth.signature)?,
    ))
}

// What it logs in by: its user, its password and its token.
fn login_of(
    alloc: Global,
    auth: &Auth,
) -> Result<(Option<Text>, Option<Text>, Option<Text>), NoMemory>
    ensures { IfOk result (λ r. r ≡ (
      (auth_value auth.now).username,
      (auth_value auth.now).password,
      (auth_value auth.now).token,
    )) }
{
    Ok((
        text_of(alloc, &auth.username)?,
        text_of(alloc, &auth.password)?,
        text_of(alloc, &auth.token)?,
    ))
}

// Its name, its language and its version.
fn names_of(alloc: Global, name: &Option<Text>) -> Result<(Option<Text>, Text, Text), NoMemory>
    ensures { IfOk result (λ r. r ≡ (name.now, codes "rust", codes "0.51.0")) }
{
    Ok((
        copy_name(alloc, name)?,
        Text::from_text(alloc, CLIENT_LANG)?,
        Text::from_text(alloc, CLIENT_VERSION)?,
    ))
}

/// What a client with these options tells of itself where it authenticates by `auth`: the signature goes as base64
/// of the alphabet for URLs without padding. The crate's rule.
pub fn connect_info(
    alloc: Global,
    options: &ConnectOptions,
    auth: &Auth,
) -> Result<ConnectInfo, NoMemory>
    ensures { IfOk result (λ info. info ≡ connect_info_of options.now.name options.now.no_echo (auth_value auth.now)) }
{
    let (user_jwt, nkey, signature) = proofs_of(alloc, auth)?;
    let (user, pass, auth_token) = login_of(alloc, auth)?;
    let (name, lang, version) = names_of(alloc, &options.name)?;
    Ok(ConnectInfo {
        verbose: false,
        pedantic: false,
        user_jwt,
        nkey,
        signature,
        name,
        echo: !options.no_echo,
        lang,
        version,
        protocol: Protocol::Dynamic,
        tls_required: false,
        user,
        pass,
        auth_token,
        headers: true,
        no_responders: true,
    })
}
