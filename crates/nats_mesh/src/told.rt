//! What the types of settings, moves and a broker's description keep, told to the proof. Each function only looks.
ghost use Rattle.std.specs.Prelude.{◌≡◌, true, ◌<◌, ◌^◌};
ghost use Rattle.nats_names.specs.Names.{is_token};
ghost use Rattle.nats_client_text.specs.Law.{IsBelow, AreTexts, AreHeaders, AreHeadersOrNone};
ghost use Rattle.nats_history.specs.History.{asks};
ghost use Rattle.nats_history.specs.Sent.{sent, limits, reply_view};
ghost use Rattle.nats_link_text.specs.Typed.{IsText, IsTextOrNone, IsToken, IsTypedReply, IsTypedSending, IsTypedAsk, IsTypedCall, IsTypedConfig};
ghost use Rattle.nats_own_laws.specs.Own.{AreTypedConfigs, IsTypedMove, AreTypedMoves};

use nats_broker::BrokerInfo;
use nats_header::{HeaderMap, HeaderValue};
use nats_history::refusals::{ReplyTo, asked, limits, sent};
use nats_history::{Call, Config};
use nats_moves::Move;
use nats_names::{Subject, Token};

fn tell_number(n: u64)
    ensures { n < 2 ^ 64 }
{}

fn tell_text(text: &str)
    ensures { IsText text.now }
{}

fn tell_subject(subject: &Subject)
    ensures { IsText subject.now }
{
    tell_text(subject.as_str());
}

fn tell_subject_or_none(subject: &Option<Subject>)
    ensures { IsTextOrNone subject.now }
{
    match subject {
        Some(subject) => tell_subject(subject),
        None => {}
    }
}

fn tell_token(token: &Token)
    ensures { IsToken token.now }
{
    tell_text(token.as_str());
}

fn tell_value(value: &HeaderValue)
    ensures { IsText value.now }
{
    tell_text(value.as_str());
}

fn tell_values(values: &[HeaderValue])
    ensures { AreTexts values.now }
{
    for value in values {
        tell_value(value);
    }
}

fn tell_headers(headers: &HeaderMap)
    ensures { AreHeaders headers.now }
{
    for (_, values) in headers.iter() {
        tell_values(values);
    }
}

fn tell_headers_or_none(headers: &Option<HeaderMap>)
    ensures { AreHeadersOrNone headers.now }
{
    match headers {
        Some(headers) => tell_headers(headers),
        None => {}
    }
}

fn tell_reply(reply: &ReplyTo<'_>)
    ensures { IsTypedReply (reply_view reply.now) }
{
    match reply {
        ReplyTo::Given(reply) => tell_subject_or_none(reply),
        ReplyTo::Inbox(token) => tell_token(token),
    }
}

fn tell_sent(call: &Call)
    ensures { IsTypedSending (sent call.now) }
{
    match sent(call) {
        Some(message) => {
            tell_subject(message.subject);
            tell_reply(&message.reply);
            tell_headers_or_none(message.headers);
        }
        None => {}
    }
}

fn tell_asked(call: &Call)
    ensures { IsTypedAsk (asks call.now) }
{
    match asked(call) {
        Some(asked) => {
            tell_subject(asked.subject);
            tell_subject_or_none(asked.queue_group);
        }
        None => {}
    }
}

fn tell_limit(call: &Call)
    ensures { IsBelow (limits call.now) }
{
    match limits(call) {
        Some(n) => tell_number(n),
        None => {}
    }
}

fn tell_call(call: &Call)
    ensures { IsTypedCall call.now }
{
    tell_sent(call);
    tell_asked(call);
    tell_limit(call);
}

fn tell_move(step: &Move)
    ensures { IsTypedMove step.now }
{
    match step {
        Move::Do(_, call) => tell_call(call),
        Move::Take(_, _) | Move::Carry(_, _) | Move::Bring(_, _) => {}
    }
}

/// Tells what the type of moves keeps of each.
pub(crate) fn tell_moves(moves: &[Move])
    ensures { AreTypedMoves moves.now }
{
    for step in moves {
        tell_move(step);
    }
}

fn tell_config(config: &Config)
    ensures { IsTypedConfig config.now }
{
    tell_subject(&config.inbox_prefix);
    tell_token(&config.mux_id);
}

/// Tells what the type of settings keeps of each.
pub(crate) fn tell_configs(configs: &[Config])
    ensures { AreTypedConfigs configs.now }
{
    for config in configs {
        tell_config(config);
    }
}

/// Tells what the type of a broker's description keeps of it.
pub(crate) fn tell_info(info: &BrokerInfo)
    ensures id { is_token info.now.server_id ≡ true }
    ensures limit { info.now.max_payload < 2 ^ 64 }
{
    tell_token(&info.server_id);
    tell_number(info.max_payload);
}
