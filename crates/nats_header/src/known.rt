//! Names and values of headers that NATS gives a meaning to.
ghost use Rattle.std.specs.Prelude.{◌≡◌, codes};

use crate::HeaderName;

/// `Nats-Stream`: the stream that a message lies in. It takes no memory. The crate's constant.
pub fn NATS_STREAM() -> HeaderName
    ensures { result ≡ codes "Nats-Stream" }
{
    HeaderName::from_static("Nats-Stream")
}

/// `Nats-Sequence`: the number of a message in its stream. It takes no memory. The crate's constant.
pub fn NATS_SEQUENCE() -> HeaderName
    ensures { result ≡ codes "Nats-Sequence" }
{
    HeaderName::from_static("Nats-Sequence")
}

/// `Nats-Time-Stamp`: when the stream took a message. It takes no memory. The crate's constant.
pub fn NATS_TIME_STAMP() -> HeaderName
    ensures { result ≡ codes "Nats-Time-Stamp" }
{
    HeaderName::from_static("Nats-Time-Stamp")
}

/// `Nats-Subject`: the subject that a stored message was published to. It takes no memory. The crate's constant.
pub fn NATS_SUBJECT() -> HeaderName
    ensures { result ≡ codes "Nats-Subject" }
{
    HeaderName::from_static("Nats-Subject")
}

/// `Nats-Msg-Id`: the id by which a stream knows a message that comes twice. It takes no memory. The crate's constant.
pub fn NATS_MESSAGE_ID() -> HeaderName
    ensures { result ≡ codes "Nats-Msg-Id" }
{
    HeaderName::from_static("Nats-Msg-Id")
}

/// `Nats-Last-Stream`: the number of the last message of the stream that was delivered. It takes no memory. The
/// crate's constant.
pub fn NATS_LAST_STREAM() -> HeaderName
    ensures { result ≡ codes "Nats-Last-Stream" }
{
    HeaderName::from_static("Nats-Last-Stream")
}

/// `Nats-Last-Consumer`: the number of the last message that a consumer was delivered. It takes no memory. The
/// crate's constant.
pub fn NATS_LAST_CONSUMER() -> HeaderName
    ensures { result ≡ codes "Nats-Last-Consumer" }
{
    HeaderName::from_static("Nats-Last-Consumer")
}

/// `Nats-Last-Sequence`: the number of the message before on the same subject. It takes no memory. The crate's
/// constant.
pub fn NATS_LAST_SEQUENCE() -> HeaderName
    ensures { result ≡ codes "Nats-Last-Sequence" }
{
    HeaderName::from_static("Nats-Last-Sequence")
}

/// `Nats-Expected-Last-Subject-Sequence`: the number that the last message on the subject is expected to have. It
/// takes no memory. The crate's constant.
pub fn NATS_EXPECTED_LAST_SUBJECT_SEQUENCE() -> HeaderName
    ensures { result ≡ codes "Nats-Expected-Last-Subject-Sequence" }
{
    HeaderName::from_static("Nats-Expected-Last-Subject-Sequence")
}

/// `Nats-Expected-Last-Msg-Id`: the id that the last message of the stream is expected to have. It takes no memory.
/// The crate's constant.
pub fn NATS_EXPECTED_LAST_MESSAGE_ID() -> HeaderName
    ensures { result ≡ codes "Nats-Expected-Last-Msg-Id" }
{
    HeaderName::from_static("Nats-Expected-Last-Msg-Id")
}

/// `Nats-Expected-Last-Sequence`: the number that the last message of the stream is expected to have. It takes no
/// memory. The crate's constant.
pub fn NATS_EXPECTED_LAST_SEQUENCE() -> HeaderName
    ensures { result ≡ codes "Nats-Expected-Last-Sequence" }
{
    HeaderName::from_static("Nats-Expected-Last-Sequence")
}

/// `Nats-Expected-Stream`: the stream that is expected to take a message. It takes no memory. The crate's constant.
pub fn NATS_EXPECTED_STREAM() -> HeaderName
    ensures { result ≡ codes "Nats-Expected-Stream" }
{
    HeaderName::from_static("Nats-Expected-Stream")
}

/// `Nats-TTL`: how long a message is kept. It takes no memory. The crate's constant.
pub fn NATS_MESSAGE_TTL() -> HeaderName
    ensures { result ≡ codes "Nats-TTL" }
{
    HeaderName::from_static("Nats-TTL")
}

/// `Nats-Marker-Reason`: why a marker stands in the place of a message. It takes no memory. The crate's constant.
pub fn NATS_MARKER_REASON() -> HeaderName
    ensures { result ≡ codes "Nats-Marker-Reason" }
{
    HeaderName::from_static("Nats-Marker-Reason")
}

/// `Nats-Rollup`: that a message stands for those before it. It takes no memory. The crate's constant.
pub fn NATS_ROLLUP() -> HeaderName
    ensures { result ≡ codes "Nats-Rollup" }
{
    HeaderName::from_static("Nats-Rollup")
}

/// `Nats-Schedule`: when a message is to be published. It takes no memory. The crate's constant.
pub fn NATS_SCHEDULE() -> HeaderName
    ensures { result ≡ codes "Nats-Schedule" }
{
    HeaderName::from_static("Nats-Schedule")
}

/// `Nats-Schedule-Target`: the subject that a scheduled message goes to. It takes no memory. The crate's constant.
pub fn NATS_SCHEDULE_TARGET() -> HeaderName
    ensures { result ≡ codes "Nats-Schedule-Target" }
{
    HeaderName::from_static("Nats-Schedule-Target")
}

/// `Nats-Schedule-TTL`: how long a message that the schedule published is kept. It takes no memory. The crate's
/// constant.
pub fn NATS_SCHEDULE_TTL() -> HeaderName
    ensures { result ≡ codes "Nats-Schedule-TTL" }
{
    HeaderName::from_static("Nats-Schedule-TTL")
}

/// `Nats-Schedule-Source`: the subject whose last message a schedule publishes. It takes no memory. The crate's
/// constant.
pub fn NATS_SCHEDULE_SOURCE() -> HeaderName
    ensures { result ≡ codes "Nats-Schedule-Source" }
{
    HeaderName::from_static("Nats-Schedule-Source")
}

/// `Nats-Schedule-Time-Zone`: the time zone of a schedule. It takes no memory. The crate's constant.
pub fn NATS_SCHEDULE_TIME_ZONE() -> HeaderName
    ensures { result ≡ codes "Nats-Schedule-Time-Zone" }
{
    HeaderName::from_static("Nats-Schedule-Time-Zone")
}

/// `Nats-Schedule-Rollup`: that a scheduled message stands for those before it. It takes no memory. The crate's
/// constant.
pub fn NATS_SCHEDULE_ROLLUP() -> HeaderName
    ensures { result ≡ codes "Nats-Schedule-Rollup" }
{
    HeaderName::from_static("Nats-Schedule-Rollup")
}

/// `Nats-Scheduler`: the subject of the schedule that published a message. It takes no memory. The crate's constant.
pub fn NATS_SCHEDULER() -> HeaderName
    ensures { result ≡ codes "Nats-Scheduler" }
{
    HeaderName::from_static("Nats-Scheduler")
}

/// `Nats-Schedule-Next`: when the schedule publishes next, if ever. It takes no memory. The crate's constant.
pub fn NATS_SCHEDULE_NEXT() -> HeaderName
    ensures { result ≡ codes "Nats-Schedule-Next" }
{
    HeaderName::from_static("Nats-Schedule-Next")
}

/// `Nats-Batch-Id`: the batch that a message belongs to. It takes no memory. The crate's constant.
pub fn NATS_BATCH_ID() -> HeaderName
    ensures { result ≡ codes "Nats-Batch-Id" }
{
    HeaderName::from_static("Nats-Batch-Id")
}

/// `Nats-Batch-Sequence`: the number of a message in its batch. It takes no memory. The crate's constant.
pub fn NATS_BATCH_SEQUENCE() -> HeaderName
    ensures { result ≡ codes "Nats-Batch-Sequence" }
{
    HeaderName::from_static("Nats-Batch-Sequence")
}

/// `Nats-Batch-Commit`: that a batch ends, and how. It takes no memory. The crate's constant.
pub fn NATS_BATCH_COMMIT() -> HeaderName
    ensures { result ≡ codes "Nats-Batch-Commit" }
{
    HeaderName::from_static("Nats-Batch-Commit")
}

/// `Nats-Required-Api-Level`: the level of the server's interface that a request needs. It takes no memory. The
/// crate's constant.
pub fn NATS_REQUIRED_API_LEVEL() -> HeaderName
    ensures { result ≡ codes "Nats-Required-Api-Level" }
{
    HeaderName::from_static("Nats-Required-Api-Level")
}

/// `Nats-Pin-Id`: the client that a pinned consumer delivers to. It takes no memory. The crate's constant.
pub fn NATS_PIN_ID() -> HeaderName
    ensures { result ≡ codes "Nats-Pin-Id" }
{
    HeaderName::from_static("Nats-Pin-Id")
}

/// A value of `Nats-Batch-Commit`: the batch ends with this message, which belongs to it. The crate's constant.
pub const NATS_BATCH_COMMIT_FINAL: &str = "1";

/// A value of `Nats-Batch-Commit`: the batch ends before this message, which isn't stored. The crate's constant.
pub const NATS_BATCH_COMMIT_EOB: &str = "eob";

/// A value of `Nats-Schedule-Rollup`: the message stands for those before it on its subject. The crate's constant.
pub const NATS_SCHEDULE_ROLLUP_SUB: &str = "sub";

/// A value of `Nats-Schedule`: once a year. The crate's constant.
pub const NATS_SCHEDULE_YEARLY: &str = "@yearly";

/// A value of `Nats-Schedule`: once a month. The crate's constant.
pub const NATS_SCHEDULE_MONTHLY: &str = "@monthly";

/// A value of `Nats-Schedule`: once a week. The crate's constant.
pub const NATS_SCHEDULE_WEEKLY: &str = "@weekly";

/// A value of `Nats-Schedule`: once a day. The crate's constant.
pub const NATS_SCHEDULE_DAILY: &str = "@daily";

/// A value of `Nats-Schedule`: once an hour. The crate's constant.
pub const NATS_SCHEDULE_HOURLY: &str = "@hourly";
