//! What values print, and what is made of texts that stand in the program.
use crate::json::push_refusals;
use crate::says::push;
use nats_header::{
    HeaderError, HeaderName, HeaderValue, NATS_BATCH_COMMIT_EOB, NATS_BATCH_COMMIT_FINAL,
    NATS_MESSAGE_ID, NATS_SCHEDULE_DAILY, NATS_SCHEDULE_HOURLY, NATS_SCHEDULE_MONTHLY,
    NATS_SCHEDULE_ROLLUP_SUB, NATS_SCHEDULE_WEEKLY, NATS_SCHEDULE_YEARLY,
};
use nats_names::{
    AddrError, AuthError, Bytes, CallbackError, Cause, ClientError, Error, Event, Failed,
    InvalidStatusCode, NoMemory, OpWord, Seq, ServerError, State, StatusCode, Subject,
    SubjectError, Text, ToSubject,
};
use nats_rows::Bad;
use std::alloc::Global;
use std::fmt::Display;

/// Appends a text on a line of its own.
fn push_line(out: &mut String, text: &str) -> Result<(), Bad> {
    push(out, "\n  ")?;
    push(out, text)
}

fn push_printed<T: Display>(alloc: Global, value: &T, out: &mut String) -> Result<(), Bad> {
    push_line(out, value.to_string(alloc)?.as_str())
}

/// Appends the text of an event, by way of a copy.
fn push_event(alloc: Global, event: Event, out: &mut String) -> Result<(), Bad> {
    push_printed(alloc, &event.copy(alloc)?, out)
}

/// Appends the text of an error of callbacks, by way of a copy.
fn push_error<E: Into<CallbackError>>(
    alloc: Global,
    error: E,
    out: &mut String,
) -> Result<(), Bad> {
    let error: CallbackError = error.into();
    push_printed(alloc, &error.copy(alloc)?, out)
}

fn push_events(alloc: Global, out: &mut String) -> Result<(), Bad> {
    push_event(alloc, Event::SlowConsumer(7), out)?;
    let denied = Event::ServerError(ServerError::AuthorizationViolation);
    push_event(alloc, denied, out)?;
    let other = Event::ClientError(ClientError::Other(Text::from_text(alloc, "no")?));
    push_event(alloc, other, out)?;
    push_error(alloc, ClientError::MaxReconnects, out)?;
    push_error(alloc, ServerError::SlowConsumer(3), out)
}

fn push_small(alloc: Global, out: &mut String) -> Result<(), Bad> {
    push_printed(alloc, &State::Pending, out)?;
    push_printed(alloc, &StatusCode::TIMEOUT, out)?;
    let code = StatusCode::TIMEOUT;
    push_line(out, format!(in alloc; "{code:?}")?.as_str())?;
    push_printed(alloc, &InvalidStatusCode, out)?;
    push_printed(alloc, &NoMemory, out)?;
    push_printed(alloc, &Failed, out)?;
    push_printed(alloc, &SubjectError::InvalidFormat, out)?;
    push_printed(alloc, &SubjectError::from(NoMemory), out)?;
    push_printed(alloc, &HeaderError::Name, out)?;
    push_printed(alloc, &HeaderError::Value, out)
}

fn push_kind(alloc: Global, error: &Error<SubjectError>, out: &mut String) -> Result<(), Bad> {
    push_printed(alloc, &error.kind(), out)?;
    push_printed(alloc, error, out)
}

fn push_caused(alloc: Global, source: Cause, out: &mut String) -> Result<(), Bad> {
    let error = Error::with_source(SubjectError::InvalidFormat, source);
    push_kind(alloc, &error, out)
}

/// Appends the text of an error without a cause, and whether it has one.
fn push_plain(alloc: Global, out: &mut String) -> Result<(), Bad> {
    let plain: Error<SubjectError> = SubjectError::InvalidFormat.into();
    push_printed(alloc, &plain, out)?;
    push_line(
        out,
        if plain.source().is_none() {
            "no cause"
        } else {
            "a cause"
        },
    )
}

/// A refusal by a callback, by way of a copy.
fn refusal(alloc: Global) -> Result<AuthError, Bad> {
    let refused = AuthError::new(String::from_str(alloc, "no key")?);
    Ok(refused.copy(alloc)?)
}

fn push_errors(alloc: Global, out: &mut String) -> Result<(), Bad> {
    push_plain(alloc, out)?;
    push_caused(alloc, Cause::Unexpected(OpWord::Pong), out)?;
    push_caused(alloc, Cause::Auth(refusal(alloc)?), out)?;
    push_printed(alloc, &AddrError::Scheme, out)?;
    let (limit, size) = (33, 34);
    push_printed(alloc, &Cause::Payload { limit, size }, out)
}

fn push_id(out: &mut String) -> Result<(), Bad> {
    let id = NATS_MESSAGE_ID();
    push_line(out, id.as_str())
}

fn is_same_name() -> bool {
    let upper = HeaderName::from_static("Key");
    let lower = HeaderName::from_static("key");
    upper == lower
}

fn push_known(out: &mut String) -> Result<(), Bad> {
    push_id(out)?;
    for known in [
        NATS_BATCH_COMMIT_FINAL,
        NATS_BATCH_COMMIT_EOB,
        NATS_SCHEDULE_ROLLUP_SUB,
        NATS_SCHEDULE_YEARLY,
        NATS_SCHEDULE_MONTHLY,
        NATS_SCHEDULE_WEEKLY,
        NATS_SCHEDULE_DAILY,
        NATS_SCHEDULE_HOURLY,
    ] {
        push_line(out, known)?;
    }
    push_line(
        out,
        if is_same_name() {
            "Key is key"
        } else {
            "Key is not key"
        },
    )
}

fn push_value(value: Result<HeaderValue, NoMemory>, out: &mut String) -> Result<(), Bad> {
    push_line(out, value?.as_str())
}

fn push_numbers(alloc: Global, out: &mut String) -> Result<(), Bad> {
    push_value(HeaderValue::from_i64(alloc, -5), out)?;
    push_value(HeaderValue::from_i16(alloc, i16::MIN), out)?;
    push_value(HeaderValue::from_i32(alloc, 0), out)?;
    push_value(HeaderValue::from_isize(alloc, 12), out)?;
    push_value(HeaderValue::from_u16(alloc, u16::MAX), out)?;
    push_value(HeaderValue::from_u32(alloc, 7), out)?;
    push_value(HeaderValue::from_u64(alloc, u64::MAX), out)?;
    push_value(HeaderValue::from_usize(alloc, 10), out)
}

fn push_source<S: ToSubject>(alloc: Global, source: &S, out: &mut String) -> Result<(), Bad> {
    push_line(out, source.to_subject(alloc)?.as_str())
}

fn push_copy(alloc: Global, subject: &Subject, out: &mut String) -> Result<(), Bad> {
    let copy = subject.copy(alloc)?;
    push_line(out, copy.as_str())
}

fn is_before(subject: &Subject) -> bool {
    let other = Subject::from_static("a.c");
    *subject < other
}

/// Appends the copy of a subject, what it is to others, and whether it is before `a.c`.
fn push_lent(alloc: Global, subject: &Subject, out: &mut String) -> Result<(), Bad> {
    push_copy(alloc, subject, out)?;
    push_source(alloc, subject, out)?;
    let is_before = is_before(subject);
    push_line(out, if is_before { "before" } else { "behind" })
}

/// Appends what a subject is: its copy, what it is to others, whether it is before `a.c`, and its own text.
fn push_subject(alloc: Global, subject: Subject, out: &mut String) -> Result<(), Bad> {
    let pushed = push_lent(alloc, &subject, out);
    let text = subject.into_string(alloc);
    pushed?;
    push_source(alloc, &text?, out)
}

fn push_subjects(alloc: Global, out: &mut String) -> Result<(), Bad> {
    let validated = Subject::validated(alloc, "a.b").map_err(|_| Bad::Form)?;
    push_subject(alloc, validated, out)?;
    push_subject(alloc, Subject::from_static_validated("a.b"), out)?;
    let bytes = Bytes::from_static(b"a.b");
    push_subject(alloc, Subject::from_bytes_unchecked(bytes), out)?;
    let read = Subject::from_utf8(Bytes::from_static(b"a.b")).map_err(|_| Bad::Form)?;
    push_subject(alloc, read, out)?;
    let is_text = Subject::from_utf8(Bytes::from_static(b"a\xff")).is_ok();
    push_line(out, if is_text { "a text" } else { "no text" })?;
    push_source(alloc, &"a.b", out)
}

/// Appends a list of two numbers and its copy.
fn push_list(alloc: Global, out: &mut String) -> Result<(), Bad> {
    let mut list = Seq::new(alloc);
    list.push(alloc, 1u8)?;
    list.push(alloc, 2)?;
    let copy = list.clone()?;
    let (all, alike) = (list.as_slice(), list == copy);
    push_line(out, format!(in alloc; "{all:?} {alike}")?.as_str())
}

/// Appends all of them, by groups.
pub fn push_all(alloc: Global, out: &mut String) -> Result<(), Bad> {
    out.push_str("events")?;
    push_events(alloc, out)?;
    out.push_str("\nsmall values")?;
    push_small(alloc, out)?;
    out.push_str("\nerrors")?;
    push_errors(alloc, out)?;
    out.push_str("\nrefusals of JSON\n  ")?;
    push_refusals(alloc, out)?;
    out.push_str("\nknown texts")?;
    push_known(out)?;
    out.push_str("\nnumbers")?;
    push_numbers(alloc, out)?;
    out.push_str("\nsubjects")?;
    push_subjects(alloc, out)?;
    out.push_str("\na list")?;
    push_list(alloc, out)
}
