//! The lines of a script: the settings and the turns.
ghost use Rattle.std.specs.Prelude.{◌≡◌, ◌∷◌, [], None, IfOk, MatchOption, option_and_then};
ghost use Rattle.std.specs.Option.{option_copied};
ghost use Rattle.nats_spelling.specs.Spelling.{field_bytes, field_number};
ghost use Rattle.nats_spelling.specs.Cut.{fields_of, only, parts_behind};
ghost use Rattle.nats_script.specs.Script.{mode_of, config_with, config_of_fields, config_of_line, short_word_of, word_of, up_turn, is_bare, sub_with, sub_of, limit_with, limit_of, turn_of, turn_of_line};

use crate::publish_lines::{hpub_of, hrequest_of, pub_of, request_of};
use nats_history::{Call, Config, ServerInfo, Turn};
use nats_info::{InfoError, read_info};
use nats_names::{Bytes, NoMemory, Subject, Token};
use nats_spelling::cut::{cut, only};
use nats_spelling::{
    bytes_field, field_bytes, field_number, field_optional, field_text, field_token,
};
use std::alloc::Global;

// ---- settings

/// The fields of a line of settings.
#[derive(Clone, Copy)]
struct ConfigFields<'a> {
    first: &'a [u8],
    clients: &'a [u8],
    messages: &'a [u8],
    mode: &'a [u8],
    prefix: &'a [u8],
    id: &'a [u8],
}

fn config_fields(line: &[u8]) -> Option<ConfigFields<'_>>
    ensures { MatchOption result (config_of_fields (fields_of line.now) ≡ None)
        (λ f. fields_of line.now
        ≡ f.first.now ∷ f.clients.now ∷ f.messages.now ∷ f.mode.now ∷ f.prefix.now ∷ f.id.now ∷ []) }
{
    let (first, rest) = cut(line, b' ');
    let (clients, rest) = cut(rest?, b' ');
    let (messages, rest) = cut(rest?, b' ');
    let (mode, rest) = cut(rest?, b' ');
    let (prefix, rest) = cut(rest?, b' ');
    let id = only(rest)?;
    Some(ConfigFields {
        first,
        clients,
        messages,
        mode,
        prefix,
        id,
    })
}

/// Whether subjects are taken untested.
fn mode_of(field: &[u8]) -> Option<bool>
    ensures { result ≡ mode_of field.now }
{
    match field {
        b"check" => Some(false),
        b"skip" => Some(true),
        _ => None,
    }
}

fn config_with(
    clients: Option<u64>,
    messages: Option<u64>,
    skip: Option<bool>,
    prefix: Option<Subject>,
    id: Option<Token>,
) -> Option<Config>
    ensures { result ≡ config_with clients messages skip prefix id }
{
    Some(Config {
        client_capacity: clients?,
        subscription_capacity: messages?,
        skip_subject_validation: skip?,
        inbox_prefix: prefix?,
        mux_id: id?,
    })
}

/// The settings that a line `config C S check P X`, or with `skip`, gives; `None` where the line has another form.
pub fn config_of_line(alloc: Global, line: &[u8]) -> Result<Option<Config>, NoMemory>
    ensures { IfOk result (λ c. c ≡ config_of_line line.now) }
{
    let Some(fields) = config_fields(line) else {
        return Ok(None);
    };
    if fields.first != b"config".as_slice() {
        return Ok(None);
    }
    Ok(config_with(
        field_number(fields.clients),
        field_number(fields.messages),
        mode_of(fields.mode),
        field_text(alloc, fields.prefix)?,
        field_token(alloc, fields.id)?,
    ))
}

// ---- turns

/// The word that a turn's line begins with.
#[derive(Clone, Copy, Debug, PartialEq, Eq)]
pub enum Word {
    Up,
    Open,
    Piece,
    Write,
    Tick,
    Lost,
    GiveUp,
    Hangup,
    Take,
    Pub,
    Hpub,
    Sub,
    Unsub,
    Limit,
    Drain,
    DrainAll,
    Flush,
    Request,
    Hrequest,
    Deadline,
    Drop,
    Reconnect,
    Other,
}

/// The shorter words.
fn short_word_of(field: &[u8]) -> Word
    ensures { result ≡ short_word_of field.now }
{
    match field {
        b"up" => Word::Up,
        b"open" => Word::Open,
        b"piece" => Word::Piece,
        b"write" => Word::Write,
        b"tick" => Word::Tick,
        b"lost" => Word::Lost,
        b"take" => Word::Take,
        b"pub" => Word::Pub,
        b"hpub" => Word::Hpub,
        b"sub" => Word::Sub,
        b"unsub" => Word::Unsub,
        b"limit" => Word::Limit,
        b"drain" => Word::Drain,
        b"drop" => Word::Drop,
        b"flush" => Word::Flush,
        _ => Word::Other,
    }
}

fn word_of(field: &[u8]) -> Word
    ensures { result ≡ word_of field.now }
{
    if field == b"giveup".as_slice() {
        return Word::GiveUp;
    }
    if field == b"hangup".as_slice() {
        return Word::Hangup;
    }
    if field == b"drainall".as_slice() {
        return Word::DrainAll;
    }
    if field == b"reconnect".as_slice() {
        return Word::Reconnect;
    }
    if field == b"request".as_slice() {
        return Word::Request;
    }
    if field == b"hrequest".as_slice() {
        return Word::Hrequest;
    }
    if field == b"deadline".as_slice() {
        return Word::Deadline;
    }
    short_word_of(field)
}

fn number_in(fields: Option<&[u8]>) -> Option<u64>
    ensures { result ≡ option_and_then field_number (only (parts_behind 32 (option_copied fields.entry))) }
{
    field_number(only(fields)?)
}

fn bytes_in(alloc: Global, fields: Option<&[u8]>) -> Result<Option<Bytes>, NoMemory>
    ensures { IfOk result (λ b. b ≡ option_and_then field_bytes (only (parts_behind 32 (option_copied fields.entry)))) }
{
    let Some(field) = only(fields) else {
        return Ok(None);
    };
    bytes_field(alloc, field)
}

/// Whether there is no further field.
fn is_bare(fields: Option<&[u8]>) -> bool
    ensures { result ≡ is_bare (parts_behind 32 (option_copied fields.entry)) }
{
    fields.is_none()
}

fn up_turn(alloc: Global, max_payload: u64) -> Turn
    ensures { result ≡ up_turn max_payload }
{
    let mut info = ServerInfo::default(alloc);
    info.max_payload = max_payload;
    Turn::Up(info)
}

/// The turn of a link whose server's INFO is a JSON text.
fn open_of(alloc: Global, fields: Option<&[u8]>) -> Result<Option<Turn>, NoMemory>
    ensures { IfOk result (λ t. t ≡ turn_of Word.Open (parts_behind 32 (option_copied fields.entry))) }
{
    let Some(field) = only(fields) else {
        return Ok(None);
    };
    let Some(text) = field_bytes(alloc, field)? else {
        return Ok(None);
    };
    match read_info(alloc, text.as_slice()) {
        Ok(info) => Ok(Some(Turn::Up(info))),
        Err(InfoError::Unreadable) => Ok(None),
        Err(InfoError::NoMemory) => Err(NoMemory),
    }
}

/// The two fields that are left, where they are two.
fn two(fields: Option<&[u8]>) -> Option<(&[u8], &[u8])>
    ensures { MatchOption result
        ((sub_of (parts_behind 32 (option_copied fields.entry)) ≡ None)
        × (limit_of (parts_behind 32 (option_copied fields.entry)) ≡ None))
        (λ f. parts_behind 32 (option_copied fields.entry) ≡ f.0.now ∷ f.1.now ∷ []) }
{
    let (first, rest) = cut(fields?, b' ');
    let second = only(rest)?;
    Some((first, second))
}

fn sub_with(subject: Option<Subject>, group: Option<Option<Subject>>) -> Option<Turn>
    ensures { result ≡ sub_with subject group }
{
    Some(Turn::Do(Call::Subscribe {
        subject: subject?,
        queue_group: group?,
    }))
}

fn sub_of(alloc: Global, fields: Option<&[u8]>) -> Result<Option<Turn>, NoMemory>
    ensures { IfOk result (λ t. t ≡ sub_of (parts_behind 32 (option_copied fields.entry))) }
{
    let Some((subject, group)) = two(fields) else {
        return Ok(None);
    };
    Ok(sub_with(field_text(alloc, subject)?, field_optional(alloc, group)?))
}

fn limit_with(s: Option<u64>, n: Option<u64>) -> Option<Turn>
    ensures { result ≡ limit_with s n }
{
    Some(Turn::Do(Call::Limit(s?, n?)))
}

fn limit_of(fields: Option<&[u8]>) -> Option<Turn>
    ensures { result ≡ limit_of (parts_behind 32 (option_copied fields.entry)) }
{
    let (s, n) = two(fields)?;
    limit_with(field_number(s), field_number(n))
}

fn turn_of(alloc: Global, word: Word, fields: Option<&[u8]>) -> Result<Option<Turn>, NoMemory>
    ensures { IfOk result (λ t. t ≡ turn_of word (parts_behind 32 (option_copied fields.entry))) }
{
    match word {
        Word::Up => Ok(number_in(fields).map(|n| up_turn(alloc, n))),
        Word::Open => open_of(alloc, fields),
        Word::Piece => Ok(bytes_in(alloc, fields)?.map(Turn::Piece)),
        Word::Write => Ok(number_in(fields).map(Turn::Write)),
        Word::Tick => Ok(is_bare(fields).then_some(Turn::Tick)),
        Word::Lost => Ok(is_bare(fields).then_some(Turn::Lost)),
        Word::GiveUp => Ok(is_bare(fields).then_some(Turn::GiveUp)),
        Word::Hangup => Ok(is_bare(fields).then_some(Turn::Hangup)),
        Word::Take => Ok(number_in(fields).map(Turn::Take)),
        Word::Pub => pub_of(alloc, fields),
        Word::Hpub => hpub_of(alloc, fields),
        Word::Sub => sub_of(alloc, fields),
        Word::Unsub => Ok(number_in(fields).map(|s| Turn::Do(Call::Unsubscribe(s)))),
        Word::Limit => Ok(limit_of(fields)),
        Word::Drain => Ok(number_in(fields).map(|s| Turn::Do(Call::Drain(s)))),
        Word::DrainAll => Ok(is_bare(fields).then_some(Turn::Do(Call::DrainAll))),
        Word::Flush => Ok(is_bare(fields).then_some(Turn::Do(Call::Flush))),
        Word::Request => request_of(alloc, fields),
        Word::Hrequest => hrequest_of(alloc, fields),
        Word::Deadline => Ok(number_in(fields).map(Turn::Deadline)),
        Word::Drop => Ok(number_in(fields).map(|s| Turn::Do(Call::DropSub(s)))),
        Word::Reconnect => Ok(is_bare(fields).then_some(Turn::Do(Call::Reconnect))),
        Word::Other => Ok(None),
    }
}

/// The turn that a line gives; `None` where the line has no form.
pub fn turn_of_line(alloc: Global, line: &[u8]) -> Result<Option<Turn>, NoMemory>
    ensures { IfOk result (λ t. t ≡ turn_of_line line.now) }
{
    let (word, fields) = cut(line, b' ');
    turn_of(alloc, word_of(word), fields)
}
