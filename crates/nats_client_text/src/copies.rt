//! Copies of what was read, which outlive the text.
ghost use Rattle.std.specs.Prelude.{◌≡◌, IfOk, IsTrue, OnErr, Some, option_map};
ghost use Rattle.nats_message.specs.declared.op.ClientOp.TheVariants as client;
ghost use Rattle.nats_client_text.specs.Blocks.{block_of};
ghost use Rattle.nats_client_text.specs.Grammar.{op_of, has_parts};
ghost use Rattle.nats_client_text.specs.Code.{now_of, op_text_view};

use crate::block::read_block;
use crate::line::OpText;
use nats_block::BlockError;
use nats_header::HeaderMap;
use nats_names::{Bytes, NoMemory, Subject};
use nats_wire::ClientOp;
use std::alloc::Global;

fn optional(alloc: Global, text: Option<&str>) -> Result<Option<Subject>, NoMemory>
    ensures { IfOk result (λ copy. copy ≡ now_of text.entry) }
{
    match text {
        Some(text) => Ok(Some(Subject::from_text(alloc, text)?)),
        None => Ok(None),
    }
}

fn subscribe(
    alloc: Global,
    sid: u64,
    subject: &str,
    queue_group: Option<&str>,
) -> Result<ClientOp, NoMemory>
    ensures { IfOk result (λ made. made ≡ client.Subscribe sid subject.now (now_of queue_group.entry)) }
{
    Ok(ClientOp::Subscribe {
        sid,
        subject: Subject::from_text(alloc, subject)?,
        queue_group: optional(alloc, queue_group)?,
    })
}

fn publish(
    alloc: Global,
    subject: &str,
    respond: Option<&str>,
    headers: Option<HeaderMap>,
    payload: &[u8],
) -> Result<ClientOp, NoMemory>
    ensures { IfOk result (λ made. made ≡ client.Publish subject.now payload.now (now_of respond.entry) headers) }
{
    Ok(ClientOp::Publish {
        subject: Subject::from_text(alloc, subject)?,
        payload: Bytes::copy_from_slice(alloc, payload)?,
        respond: optional(alloc, respond)?,
        headers,
    })
}

// The block is read first: it may be none, and then nothing else is copied.
fn publish_headed(
    alloc: Global,
    subject: &str,
    respond: Option<&str>,
    block: &[u8],
    payload: &[u8],
) -> Result<Option<ClientOp>, NoMemory>
    ensures { IfOk result (λ made. made ≡ option_map
        (λ headers. client.Publish subject.now payload.now (now_of respond.entry) (Some headers))
        (block_of block.now)) }
{
    match read_block(alloc, block) {
        Ok(headers) => Ok(Some(publish(alloc, subject, respond, Some(headers), payload)?)),
        Err(BlockError::Malformed) => Ok(None),
        Err(BlockError::NoMemory) => Err(NoMemory),
    }
}

/// The command of a text, `None` where its block is none.
pub fn command(alloc: Global, text: &OpText<'_>) -> Result<Option<ClientOp>, NoMemory>
    ensures op { IfOk result (λ made. made ≡ op_of (op_text_view text.now)) }
    ensures memory { OnErr result (IsTrue (has_parts (op_text_view text.now))) }
{
    match text {
        OpText::Ping => Ok(Some(ClientOp::Ping)),
        OpText::Pong => Ok(Some(ClientOp::Pong)),
        OpText::Unsubscribe { sid, max } => Ok(Some(ClientOp::Unsubscribe {
            sid: *sid,
            max: *max,
        })),
        OpText::Subscribe {
            sid,
            subject,
            queue_group,
        } => Ok(Some(subscribe(alloc, *sid, subject, *queue_group)?)),
        OpText::Publish {
            subject,
            respond,
            block: None,
            payload,
        } => Ok(Some(publish(alloc, subject, *respond, None, payload)?)),
        OpText::Publish {
            subject,
            respond,
            block: Some(block),
            payload,
        } => publish_headed(alloc, subject, *respond, block, payload),
    }
}
