//! Subjects, tokens and status codes.
use crate::says::push;
use nats_names::{StatusCode, Subject, SubjectError, Token};
use nats_rows::{Bad, push_bytes, push_word, spelled_bytes, string_of};
use std::alloc::Global;

fn push_kinds(alloc: Global, subject: &Subject, out: &mut String) -> Result<(), Bad> {
    let (valid, publishable) = (subject.is_valid(), subject.is_publishable());
    push(
        out,
        format!(in alloc; "valid={valid} publishable={publishable}")?.as_str(),
    )
}

fn push_outcome(validated: &Result<Subject, SubjectError>, out: &mut String) -> Result<(), Bad> {
    match validated {
        Ok(subject) => Ok(push_word(out, subject.as_str().as_bytes())?),
        Err(SubjectError::InvalidFormat) => push(out, " !format"),
        Err(SubjectError::NoMemory) => Err(Bad::NoMemory),
    }
}

fn push_validated(alloc: Global, text: &str, out: &mut String) -> Result<(), Bad> {
    let validated = Subject::validated(alloc, text);
    let pushed = push_outcome(&validated, out);
    drop(validated);
    pushed
}

/// Appends whether a text is a subject, by each of the calls that tell it.
fn push_subject(alloc: Global, text: &str, out: &mut String) -> Result<(), Bad> {
    let subject = Subject::from_text(alloc, text)?;
    let pushed = push_kinds(alloc, &subject, out);
    drop(subject);
    pushed?;
    push_validated(alloc, text, out)
}

fn class_of(code: StatusCode) -> u16 {
    if code.is_informational() {
        1
    } else if code.is_success() {
        2
    } else if code.is_redirection() {
        3
    } else if code.is_client_error() {
        4
    } else if code.is_server_error() {
        5
    } else {
        6
    }
}

/// Appends a code and its class.
fn push_code(alloc: Global, code: Option<StatusCode>, out: &mut String) -> Result<(), Bad> {
    match code {
        Some(code) => {
            let class = class_of(code);
            push(out, format!(in alloc; "{code} class {class} ")?.as_str())
        }
        None => push(out, "!code"),
    }
}

/// Appends the codes that have names, and the one by default.
fn push_codes(alloc: Global, out: &mut String) -> Result<(), Bad> {
    for code in [
        StatusCode::IDLE_HEARTBEAT,
        StatusCode::OK,
        StatusCode::default(),
        StatusCode::NOT_FOUND,
        StatusCode::TIMEOUT,
        StatusCode::REQUEST_TERMINATED,
        StatusCode::PIN_ID_MISMATCH,
        StatusCode::NO_RESPONDERS,
    ] {
        push_code(alloc, Some(code), out)?;
    }
    Ok(())
}

/// Appends a token's text.
fn push_token(text: &str, out: &mut String) -> Result<(), Bad> {
    match Token::new(text) {
        Some(token) => push_bytes(out, token.as_str().as_bytes())?,
        None => out.push_str("!token")?,
    }
    Ok(())
}

fn code_of(word: &str) -> Result<Option<StatusCode>, Bad> {
    let number: u16 = word.parse().map_err(|_| Bad::Form)?;
    Ok(StatusCode::from_u16(number).ok())
}

/// Answers a question on names, and tells whether it is one.
pub fn answer(alloc: Global, word: &str, rest: &str, out: &mut String) -> Result<bool, Bad> {
    match word {
        "subject" => push_subject(alloc, string_of(alloc, rest)?.as_str(), out)?,
        "token" => push_token(string_of(alloc, rest)?.as_str(), out)?,
        "number" => push_code(alloc, code_of(rest)?, out)?,
        "code" => {
            let text = spelled_bytes(alloc, rest)?;
            push_code(alloc, StatusCode::from_bytes(text.as_slice()).ok(), out)?;
        }
        "codes" => push_codes(alloc, out)?,
        _ => return Ok(false),
    }
    Ok(true)
}
