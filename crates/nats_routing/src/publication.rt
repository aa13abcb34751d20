//! What is published.
use nats_names::{Bytes, Subject};

/// A message that a peer publishes. Own type.
#[derive(Debug, Drop, PartialEq, Eq)]
pub struct Publication {
    /// What it is about.
    pub subject: Subject,
    /// Where an answer is asked to go.
    pub respond: Option<Subject>,
    /// The header block as it goes over the wire, `None` where there are no headers.
    pub block: Option<Bytes>,
    /// The bytes of the message.
    pub payload: Bytes,
}
