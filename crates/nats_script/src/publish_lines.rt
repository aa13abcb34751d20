//! The lines of a script that publish or ask.
ghost use Rattle.std.specs.Prelude.{◌≡◌, ◌∷◌, [], None, Some, IfOk, MatchOption};
ghost use Rattle.std.specs.Option.{option_copied, option_map};
ghost use Rattle.nats_spelling.specs.Cut.{parts_behind};
ghost use Rattle.nats_script.specs.Script.{publish_with, pub_of, hpub_of, request_with, request_of, hrequest_of};

use nats_header::HeaderMap;
use nats_history::{Call, OutboundMessage, Turn};
use nats_message_text::headers_of;
use nats_names::{Bytes, NoMemory, Subject, Token};
use nats_spelling::cut::{cut, only};
use nats_spelling::{bytes_field, field_optional, field_text, field_token};
use std::alloc::Global;

fn publish_with(
    subject: Option<Subject>,
    reply: Option<Option<Subject>>,
    payload: Option<Bytes>,
    headers: Option<Option<HeaderMap>>,
) -> Option<Turn>
    ensures { result ≡ publish_with subject reply payload headers }
{
    Some(Turn::Do(Call::Publish(OutboundMessage {
        subject: subject?,
        reply: reply?,
        payload: payload?,
        headers: headers?,
    })))
}

/// The three fields that are left, where they are three.
fn three(fields: Option<&[u8]>) -> Option<(&[u8], &[u8], &[u8])>
    ensures { MatchOption result
        ((pub_of (parts_behind 32 (option_copied fields.entry)) ≡ None)
        × (request_of (parts_behind 32 (option_copied fields.entry)) ≡ None))
        (λ f. parts_behind 32 (option_copied fields.entry) ≡ f.0.now ∷ f.1.now ∷ f.2.now ∷ []) }
{
    let (subject, rest) = cut(fields?, b' ');
    let (reply, rest) = cut(rest?, b' ');
    let payload = only(rest)?;
    Some((subject, reply, payload))
}

/// The turn of the fields `S R B`.
pub fn pub_of(alloc: Global, fields: Option<&[u8]>) -> Result<Option<Turn>, NoMemory>
    ensures { IfOk result (λ t. t ≡ pub_of (parts_behind 32 (option_copied fields.entry))) }
{
    let Some((subject, reply, payload)) = three(fields) else {
        return Ok(None);
    };
    Ok(publish_with(
        field_text(alloc, subject)?,
        field_optional(alloc, reply)?,
        bytes_field(alloc, payload)?,
        Some(None),
    ))
}

// ---- with headers

/// The first three fields that are left, and those behind them.
#[derive(Clone, Copy)]
struct FrontFields<'a> {
    subject: &'a [u8],
    reply: &'a [u8],
    payload: &'a [u8],
    pairs: Option<&'a [u8]>,
}

fn front_fields(fields: Option<&[u8]>) -> Option<FrontFields<'_>>
    ensures { MatchOption result
        ((hpub_of (parts_behind 32 (option_copied fields.entry)) ≡ None)
        × (hrequest_of (parts_behind 32 (option_copied fields.entry)) ≡ None))
        (λ f. parts_behind 32 (option_copied fields.entry)
        ≡ f.subject.now ∷ f.reply.now ∷ f.payload.now ∷ parts_behind 32 (option_copied f.pairs)) }
{
    let (subject, rest) = cut(fields?, b' ');
    let (reply, rest) = cut(rest?, b' ');
    let (payload, pairs) = cut(rest?, b' ');
    Some(FrontFields {
        subject,
        reply,
        payload,
        pairs,
    })
}

/// Headers that are there, maybe none of them.
fn some_headers(headers: Option<HeaderMap>) -> Option<Option<HeaderMap>>
    ensures { result ≡ option_map Some headers }
{
    match headers {
        Some(headers) => Some(Some(headers)),
        None => None,
    }
}

/// The turn of the fields `S R B` and pairs of names and values.
pub fn hpub_of(alloc: Global, fields: Option<&[u8]>) -> Result<Option<Turn>, NoMemory>
    ensures { IfOk result (λ t. t ≡ hpub_of (parts_behind 32 (option_copied fields.entry))) }
{
    let Some(fields) = front_fields(fields) else {
        return Ok(None);
    };
    let headers = headers_of(alloc, fields.pairs)?;
    Ok(publish_with(
        field_text(alloc, fields.subject)?,
        field_optional(alloc, fields.reply)?,
        bytes_field(alloc, fields.payload)?,
        some_headers(headers),
    ))
}

// ---- requests

fn request_with(
    subject: Option<Subject>,
    token: Option<Token>,
    payload: Option<Bytes>,
    headers: Option<Option<HeaderMap>>,
) -> Option<Turn>
    ensures { result ≡ request_with subject token payload headers }
{
    Some(Turn::Do(Call::Request {
        subject: subject?,
        payload: payload?,
        headers: headers?,
        token: token?,
    }))
}

/// The turn of the fields `S T B`.
pub fn request_of(alloc: Global, fields: Option<&[u8]>) -> Result<Option<Turn>, NoMemory>
    ensures { IfOk result (λ t. t ≡ request_of (parts_behind 32 (option_copied fields.entry))) }
{
    let Some((subject, token, payload)) = three(fields) else {
        return Ok(None);
    };
    Ok(request_with(
        field_text(alloc, subject)?,
        field_token(alloc, token)?,
        bytes_field(alloc, payload)?,
        Some(None),
    ))
}

/// The turn of the fields `S T B` and pairs of names and values.
pub fn hrequest_of(alloc: Global, fields: Option<&[u8]>) -> Result<Option<Turn>, NoMemory>
    ensures { IfOk result (λ t. t ≡ hrequest_of (parts_behind 32 (option_copied fields.entry))) }
{
    let Some(fields) = front_fields(fields) else {
        return Ok(None);
    };
    let headers = headers_of(alloc, fields.pairs)?;
    Ok(request_with(
        field_text(alloc, fields.subject)?,
        field_token(alloc, fields.reply)?,
        bytes_field(alloc, fields.payload)?,
        some_headers(headers),
    ))
}
