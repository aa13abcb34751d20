//! Messages as they come in and as they go out.
ghost use Rattle.std.specs.Prelude.{◌≡◌, IfOk, None, option_map};

use nats_header::HeaderMap;
use nats_names::{Bytes, NoMemory, StatusCode, Subject, Text};
use std::alloc::Global;

/// A message that the server delivered. The crate's `Message`.
#[derive(Debug, Drop, PartialEq, Eq)]
pub struct Message {
    /// What it is about.
    pub subject: Subject,
    /// Where an answer is asked to go.
    pub reply: Option<Subject>,
    /// The body, any bytes.
    pub payload: Bytes,
    /// The headers, where the message came with a block for them, which may hold none.
    pub headers: Option<HeaderMap>,
    /// The status code, where the block's first line has one.
    pub status: Option<StatusCode>,
    /// The words behind the status code, where the block's first line has some.
    pub description: Option<Text>,
    /// The length in bytes that the server counted, with those of the subject and the reply.
    pub length: usize,
}

/// A message to be published. The crate's `OutboundMessage`.
#[derive(Debug, Drop, PartialEq, Eq)]
pub struct OutboundMessage {
    /// What it is about.
    pub subject: Subject,
    /// Where an answer is asked to go.
    pub reply: Option<Subject>,
    /// The body, any bytes.
    pub payload: Bytes,
    /// The headers; none and an empty map are sent alike.
    pub headers: Option<HeaderMap>,
}

/// The crate's second name for it.
pub type PublishMessage = OutboundMessage;

/// An equal subject where there is one.
pub fn copy_subject(alloc: Global, subject: &Option<Subject>) -> Result<Option<Subject>, NoMemory>
    ensures { IfOk result (λ s. s ≡ subject.now) }
{
    match subject {
        Some(subject) => Ok(Some(subject.copy(alloc)?)),
        None => Ok(None),
    }
}

/// Equal headers where there are some.
pub fn copy_headers(
    alloc: Global,
    headers: &Option<HeaderMap>,
) -> Result<Option<HeaderMap>, NoMemory>
    ensures { IfOk result (λ h. h ≡ headers.now) }
{
    match headers {
        Some(headers) => Ok(Some(headers.copy(alloc)?)),
        None => Ok(None),
    }
}

fn copy_text(alloc: Global, text: &Option<Text>) -> Result<Option<Text>, NoMemory>
    ensures { IfOk result (λ t. t ≡ text.now) }
{
    match text {
        Some(text) => Ok(Some(text.copy(alloc)?)),
        None => Ok(None),
    }
}

impl Message {
    /// An equal message, which shares the bytes.
    pub fn copy(&self, alloc: Global) -> Result<Message, NoMemory>
        ensures { IfOk result (λ m. m ≡ self.now) }
    {
        match (&self.reply, &self.headers, &self.description) {
            (None, None, None) => self.copy_plain(alloc),
            _ => self.copy_whole(alloc),
        }
    }

    // The same of a message that has no more than a subject and a payload.
    fn copy_plain(&self, alloc: Global) -> Result<Message, NoMemory>
        requires reply { self.now.reply ≡ None }
        requires headers { self.now.headers ≡ None }
        requires description { self.now.description ≡ None }
        ensures { IfOk result (λ m. m ≡ self.now) }
    {
        let subject = self.subject.copy(alloc)?;
        let payload = self.payload.clone()?;
        Ok(Message {
            subject,
            reply: None,
            payload,
            headers: None,
            status: self.status,
            description: None,
            length: self.length,
        })
    }

    fn copy_whole(&self, alloc: Global) -> Result<Message, NoMemory>
        ensures { IfOk result (λ m. m ≡ self.now) }
    {
        Ok(Message {
            subject: self.subject.copy(alloc)?,
            reply: copy_subject(alloc, &self.reply)?,
            payload: self.payload.clone()?,
            headers: copy_headers(alloc, &self.headers)?,
            status: self.status,
            description: copy_text(alloc, &self.description)?,
            length: self.length,
        })
    }
}

impl OutboundMessage {
    /// An equal message, which shares the bytes.
    pub fn copy(&self, alloc: Global) -> Result<OutboundMessage, NoMemory>
        ensures { IfOk result (λ m. m ≡ self.now) }
    {
        Ok(OutboundMessage {
            subject: self.subject.copy(alloc)?,
            reply: copy_subject(alloc, &self.reply)?,
            payload: self.payload.clone()?,
            headers: copy_headers(alloc, &self.headers)?,
        })
    }
}

/// A message without headers, of its parts; `length` is how many bytes the server counts of it. It takes no memory.
#[inline(always)]
pub fn plain_message(
    subject: Subject,
    reply: Option<Subject>,
    payload: Bytes,
    length: usize,
) -> Message
    ensures { result ≡ record {
      subject = subject;
      reply = reply;
      payload = payload;
      headers = None;
      status = None;
      description = None;
      length = length;
    } }
{
    Message {
        subject,
        reply,
        payload,
        headers: None,
        status: None,
        description: None,
        length,
    }
}
