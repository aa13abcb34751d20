//! What is counted of a session.
ghost use Rattle.std.specs.Prelude.{◌≡◌, ◌+◌, Some, length};
ghost use Rattle.nats_lines.specs.Operations.{length_or_0};
ghost use Rattle.nats_history.specs.Sent.{sent_view, reply_view};
ghost use Rattle.nats_history.specs.History.{cut, inbox_of, reply_text, handled};
ghost use Rattle.nats_history.specs.Counts.{out_messages_after, bytes_with, out_bytes_by, statistics_after, message_counted, link_counted};

use crate::call::Call;
use crate::config::Config;
use crate::refusals::{Outgoing, ReplyTo, sent, size_with};
use nats_wire::{Subject, Token};

/// What was counted of a session over all its links. Each count stops at 2^64 - 1. The crate's `Statistics`, which
/// it keeps in atomic cells.
#[derive(Clone, Copy, Debug, PartialEq, Eq, Default)]
pub struct Statistics {
    /// The bytes of the messages that were read, each with its subject, its reply and its header block.
    pub in_bytes: u64,
    /// The bytes of the messages that were sent, each with its subject, its reply and its header block.
    pub out_bytes: u64,
    /// The messages that were read, also those that no queue took.
    pub in_messages: u64,
    /// The messages that were sent: those of publishes and requests that were handled.
    pub out_messages: u64,
    /// The links that came up.
    pub connects: u64,
}

/// A count and so many more.
fn raised(count: u64, more: u64) -> u64
    ensures { result ≡ cut (count + more) }
{
    count.saturating_add(more)
}

fn reply_len(reply: &Option<Subject>) -> usize
    ensures { result ≡ length_or_0 reply.now }
{
    match reply {
        Some(reply) => reply.as_str().len(),
        None => 0,
    }
}

/// A count and so many more as the subject of the reply to a request has bytes.
fn with_inbox(count: u64, config: &Config, token: &Token) -> u64
    ensures { result ≡ cut (count + length (inbox_of config.now token.now)) }
{
    let with_prefix = raised(count, config.inbox_prefix.as_str().len() as u64);
    let with_mux_id = raised(with_prefix, config.mux_id.as_str().len() as u64);
    let with_token = raised(with_mux_id, token.as_str().len() as u64);
    raised(with_token, 2)
}

/// A count and so many more as the subject that a reply is asked to has bytes.
fn with_reply(count: u64, config: &Config, reply: &ReplyTo<'_>) -> u64
    ensures { result ≡ cut (count + length_or_0 (reply_text config.now (reply_view reply.now))) }
{
    match reply {
        ReplyTo::Given(reply) => raised(count, reply_len(reply) as u64),
        ReplyTo::Inbox(token) => with_inbox(count, config, token),
    }
}

/// The bytes that were sent, with those of a message.
fn with_sent(count: u64, config: &Config, message: &Outgoing<'_>) -> u64
    ensures { result ≡ bytes_with config.now (Some (sent_view message.now)) count }
{
    let with_subject = raised(count, message.subject.as_str().len() as u64);
    let with_reply = with_reply(with_subject, config, &message.reply);
    raised(with_reply, size_with(message))
}

/// The bytes that were sent, with those of a call that is handled.
fn sent_with(count: u64, config: &Config, call: &Call) -> u64
    ensures { result ≡ out_bytes_by config.now call.now count }
{
    match sent(call) {
        Some(message) => with_sent(count, config, &message),
        None => count,
    }
}

/// The messages that were sent, with that of a call that is handled, if it sends one.
fn sent_count_with(count: u64, call: &Call) -> u64
    ensures { result ≡ out_messages_after (handled call.now) count }
{
    match sent(call) {
        Some(_) => count.saturating_add(1),
        None => count,
    }
}

/// What was counted once a link came up too.
pub fn with_link(counted: Statistics) -> Statistics
    ensures { result ≡ link_counted counted }
{
    Statistics {
        connects: counted.connects.saturating_add(1),
        ..counted
    }
}

/// What was counted once a message of this length was read too.
pub fn with_message(counted: Statistics, len: usize) -> Statistics
    ensures { result ≡ message_counted len counted }
{
    Statistics {
        in_bytes: raised(counted.in_bytes, len as u64),
        in_messages: counted.in_messages.saturating_add(1),
        ..counted
    }
}

/// What was counted once this call was handled too.
pub fn with_call(counted: Statistics, config: &Config, call: &Call) -> Statistics
    ensures { result ≡ statistics_after config.now (handled call.now) counted }
{
    Statistics {
        out_bytes: sent_with(counted.out_bytes, config, call),
        out_messages: sent_count_with(counted.out_messages, call),
        ..counted
    }
}
