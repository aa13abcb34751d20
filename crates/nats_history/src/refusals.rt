//! What a call asks for, and which calls may not be accepted.
ghost use Rattle.std.specs.Prelude.{◌≡◌, ◌<◌, ◌^◌, ◌+◌, ◌||◌, IfOk, Some};
ghost use Rattle.std.specs.Option.{option_map};
ghost use Rattle.nats_names.specs.Names.{is_publishable};
ghost use Rattle.nats_commands.specs.Commands.{sent_block};
ghost use Rattle.nats_lines.specs.Operations.{length_or_0};
ghost use Rattle.nats_history.specs.Sent.{sent, limits, is_at_inbox, sent_view, reply_view, asked_view};
ghost use Rattle.nats_history.specs.History.{asks, names, subscribes, shuts, drains_all, waits_as, takes_ticket, requests, lets_go};
ghost use Rattle.nats_history.specs.Schedule.{ends_link, may_publish_to, passes, may_reply_at, may_send, has_subjects, has_group, size_with, size_of};

use crate::call::{Call, Interest};
use crate::config::Config;
use crate::transcript::LinkWord;
use crate::waits::Waits;
use nats_wire::{Bytes, HeaderMap, NoMemory, Subject, Token, copy_subject};
use std::alloc::Global;

/// Where the reply to a message that a call sends is asked to go.
#[derive(Clone, Copy, Debug, PartialEq, Eq)]
pub enum ReplyTo<'a> {
    /// To the subject that the call gives, if it gives one.
    Given(&'a Option<Subject>),
    /// To the inbox, under a token.
    Inbox(&'a Token),
}

/// The message that the handling of a call sends.
#[derive(Clone, Copy, Debug, PartialEq, Eq)]
pub struct Outgoing<'a> {
    /// What it is about.
    pub subject: &'a Subject,
    /// Where a reply is asked to go.
    pub reply: ReplyTo<'a>,
    /// The body.
    pub payload: &'a Bytes,
    /// The headers; none and an empty map are sent alike.
    pub headers: &'a Option<HeaderMap>,
}

/// What a call that subscribes asks for.
#[derive(Clone, Copy, Debug, PartialEq, Eq)]
pub struct Wanted<'a> {
    /// Which messages.
    pub subject: &'a Subject,
    /// The group whose members share them, where one is given.
    pub queue_group: &'a Option<Subject>,
}

/// The message that the handling of a call sends, if it sends one: all that is tested, counted and written of it
/// follows from this.
pub fn sent(call: &Call) -> Option<Outgoing<'_>>
    ensures { option_map sent_view result ≡ sent call.now }
{
    match call {
        Call::Publish(message) => Some(Outgoing {
            subject: &message.subject,
            reply: ReplyTo::Given(&message.reply),
            payload: &message.payload,
            headers: &message.headers,
        }),
        Call::Request {
            subject,
            payload,
            headers,
            token,
        } => Some(Outgoing {
            subject,
            reply: ReplyTo::Inbox(token),
            payload,
            headers,
        }),
        Call::Subscribe { .. }
        | Call::Unsubscribe(_)
        | Call::Limit(..)
        | Call::Drain(_)
        | Call::DrainAll
        | Call::Flush
        | Call::DropSub(_)
        | Call::Reconnect => None,
    }
}

/// What a call asks for, if it subscribes.
pub fn asked(call: &Call) -> Option<Wanted<'_>>
    ensures { option_map asked_view result ≡ asks call.now }
{
    match call {
        Call::Subscribe {
            subject,
            queue_group,
        } => Some(Wanted {
            subject,
            queue_group,
        }),
        Call::Publish(_)
        | Call::Unsubscribe(_)
        | Call::Limit(..)
        | Call::Drain(_)
        | Call::DrainAll
        | Call::Flush
        | Call::Request { .. }
        | Call::DropSub(_)
        | Call::Reconnect => None,
    }
}

/// The subscription that a call names, if it names one.
pub fn names(call: &Call) -> Option<u64>
    ensures { result ≡ names call.now }
{
    match call {
        Call::Unsubscribe(s) | Call::Limit(s, _) | Call::Drain(s) | Call::DropSub(s) => Some(*s),
        Call::Publish(_)
        | Call::Subscribe { .. }
        | Call::DrainAll
        | Call::Flush
        | Call::Request { .. }
        | Call::Reconnect => None,
    }
}

/// The number of puts at which a call has the subscription that it names end, if it does.
pub fn limits(call: &Call) -> Option<u64>
    ensures { result ≡ limits call.now }
{
    match call {
        Call::Limit(_, n) => Some(*n),
        Call::Publish(_)
        | Call::Subscribe { .. }
        | Call::Unsubscribe(_)
        | Call::Drain(_)
        | Call::DrainAll
        | Call::Flush
        | Call::Request { .. }
        | Call::DropSub(_)
        | Call::Reconnect => None,
    }
}

/// Whether a call is given a subscription number.
pub fn subscribes(call: &Call) -> bool
    ensures { result ≡ subscribes call.now }
{
    asked(call).is_some()
}

/// A copy of what a call asks for, if it subscribes.
pub fn interest_of(alloc: Global, call: &Call) -> Result<Option<Interest>, NoMemory>
    ensures { IfOk result (λ asked. asked ≡ asks call.now) }
{
    match asked(call) {
        Some(asked) => Ok(Some(Interest {
            subject: asked.subject.copy(alloc)?,
            queue_group: copy_subject(alloc, asked.queue_group)?,
        })),
        None => Ok(None),
    }
}

/// The word by which the link ends as a call is handled, if it does.
pub fn ends_link(call: &Call) -> Option<LinkWord>
    ensures { result ≡ ends_link call.now }
{
    match call {
        Call::Reconnect => Some(LinkWord::Reconnect),
        Call::Publish(_)
        | Call::Subscribe { .. }
        | Call::Unsubscribe(_)
        | Call::Limit(..)
        | Call::Drain(_)
        | Call::DrainAll
        | Call::Flush
        | Call::Request { .. }
        | Call::DropSub(_) => None,
    }
}

/// The subscription that a call shuts once it is accepted.
pub fn shuts(call: &Call) -> Option<u64>
    ensures { result ≡ shuts call.now }
{
    match call {
        Call::Unsubscribe(s) => Some(*s),
        Call::Publish(_)
        | Call::Subscribe { .. }
        | Call::Limit(..)
        | Call::Drain(_)
        | Call::DrainAll
        | Call::Flush
        | Call::Request { .. }
        | Call::DropSub(_)
        | Call::Reconnect => None,
    }
}

/// What a call that is given a ticket waits as, if it is one.
pub fn waits_as(call: &Call) -> Option<Waits>
    ensures { result ≡ waits_as call.now }
{
    match call {
        Call::Flush => Some(Waits::Flush),
        Call::Request { .. } => Some(Waits::Request),
        Call::Publish(_)
        | Call::Subscribe { .. }
        | Call::Unsubscribe(_)
        | Call::Limit(..)
        | Call::Drain(_)
        | Call::DrainAll
        | Call::DropSub(_)
        | Call::Reconnect => None,
    }
}

/// Whether a call is given a ticket.
pub fn takes_ticket(call: &Call) -> bool
    ensures { result ≡ takes_ticket call.now }
{
    waits_as(call).is_some()
}

fn is_at_inbox(reply: &ReplyTo<'_>) -> bool
    ensures { result ≡ is_at_inbox (reply_view reply.now) }
{
    matches!(reply, ReplyTo::Inbox(_))
}

/// Whether a call asks for a reply under the inbox.
pub fn requests(call: &Call) -> bool
    ensures { result ≡ requests call.now }
{
    match sent(call) {
        Some(message) => is_at_inbox(&message.reply),
        None => false,
    }
}

/// Whether a request was handled once this call is too.
pub fn is_requested_with(call: &Call, before: bool) -> bool
    ensures { result ≡ (requests call.now || before) }
{
    requests(call) || before
}

/// Whether a call drains the whole session.
pub fn drains_all(call: &Call) -> bool
    ensures { result ≡ drains_all call.now }
{
    match call {
        Call::DrainAll => true,
        Call::Publish(_)
        | Call::Subscribe { .. }
        | Call::Unsubscribe(_)
        | Call::Limit(..)
        | Call::Drain(_)
        | Call::Flush
        | Call::Request { .. }
        | Call::DropSub(_)
        | Call::Reconnect => false,
    }
}

/// Whether a drain of the whole session was accepted once this call is too.
pub fn is_drained_with(call: &Call, before: bool) -> bool
    ensures { result ≡ (drains_all call.now || before) }
{
    drains_all(call) || before
}

/// The subscription that the user of a call lets go, whatever the reply.
pub fn lets_go(call: &Call) -> Option<u64>
    ensures { result ≡ lets_go call.now }
{
    match call {
        Call::DropSub(s) => Some(*s),
        Call::Publish(_)
        | Call::Subscribe { .. }
        | Call::Limit(..)
        | Call::Drain(_)
        | Call::DrainAll
        | Call::Flush
        | Call::Request { .. }
        | Call::Unsubscribe(_)
        | Call::Reconnect => None,
    }
}

fn may_publish_to(config: &Config, subject: &Subject) -> bool
    ensures { result ≡ may_publish_to config.now subject.now }
{
    !subject.as_str().is_empty() && (config.skip_subject_validation || subject.is_publishable())
}

fn may_reply_at(config: &Config, reply: &ReplyTo<'_>) -> bool
    ensures { result ≡ may_reply_at config.now (reply_view reply.now) }
{
    match reply {
        ReplyTo::Given(Some(reply)) => may_publish_to(config, reply),
        ReplyTo::Given(None) => true,
        ReplyTo::Inbox(_) => config.inbox_prefix.is_publishable(),
    }
}

fn may_send(config: &Config, call: &Call) -> bool
    ensures { result ≡ may_send config.now (sent call.now) }
{
    match sent(call) {
        Some(message) => {
            may_publish_to(config, message.subject) && may_reply_at(config, &message.reply)
        }
        None => true,
    }
}

/// Whether the subjects of a call may stand there.
pub fn has_subjects(config: &Config, call: &Call) -> bool
    ensures { result ≡ has_subjects config.now call.now }
{
    match asked(call) {
        Some(asked) => may_send(config, call) && asked.subject.is_valid(),
        None => may_send(config, call),
    }
}

fn passes(group: &Option<Subject>) -> bool
    ensures { result ≡ passes is_publishable group.now }
{
    match group {
        Some(group) => group.is_publishable(),
        None => true,
    }
}

/// Whether its queue group may stand there.
pub fn has_group(call: &Call) -> bool
    ensures { result ≡ has_group call.now }
{
    match asked(call) {
        Some(asked) => passes(asked.queue_group),
        None => true,
    }
}

/// The length in bytes of the header block that is sent for some headers, if one is.
fn block_len(headers: &Option<HeaderMap>) -> usize
    ensures len { result ≡ length_or_0 (sent_block headers.now) }
    ensures bound { result < 2 ^ 63 }
{
    match headers {
        Some(headers) if !headers.is_empty() => headers.wire_len(),
        _ => 0,
    }
}

/// The size in bytes of a message that is sent: its payload, and the header block where one is sent.
pub(crate) fn size_with(message: &Outgoing<'_>) -> u64
    ensures { result ≡ size_with (Some (sent_view message.now)) }
{
    let block = block_len(message.headers);
    (block + message.payload.as_slice().len()) as u64
}

/// Its size in bytes: the payload, and the header block where one is sent.
pub fn size_of(call: &Call) -> u64
    ensures { result ≡ size_of call.now }
{
    match sent(call) {
        Some(message) => size_with(&message),
        None => 0,
    }
}
