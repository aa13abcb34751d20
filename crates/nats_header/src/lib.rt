//! Header maps: the names and values that go beside a message's payload, and their text on the wire.
#![tactic(auto)]

mod error;
mod fields;
mod iter;
mod json;
mod json_error;
mod known;
mod lines;
mod map;
mod name;
mod value;

pub use error::HeaderError;
pub use iter::{GetAll, HeaderIter};
pub use json_error::JsonError;
pub use known::{
    NATS_BATCH_COMMIT, NATS_BATCH_COMMIT_EOB, NATS_BATCH_COMMIT_FINAL, NATS_BATCH_ID,
    NATS_BATCH_SEQUENCE, NATS_EXPECTED_LAST_MESSAGE_ID, NATS_EXPECTED_LAST_SEQUENCE,
    NATS_EXPECTED_LAST_SUBJECT_SEQUENCE, NATS_EXPECTED_STREAM, NATS_LAST_CONSUMER,
    NATS_LAST_SEQUENCE, NATS_LAST_STREAM, NATS_MARKER_REASON, NATS_MESSAGE_ID, NATS_MESSAGE_TTL,
    NATS_PIN_ID, NATS_REQUIRED_API_LEVEL, NATS_ROLLUP, NATS_SCHEDULE, NATS_SCHEDULE_DAILY,
    NATS_SCHEDULE_HOURLY, NATS_SCHEDULE_MONTHLY, NATS_SCHEDULE_NEXT, NATS_SCHEDULE_ROLLUP,
    NATS_SCHEDULE_ROLLUP_SUB, NATS_SCHEDULE_SOURCE, NATS_SCHEDULE_TARGET, NATS_SCHEDULE_TIME_ZONE,
    NATS_SCHEDULE_TTL, NATS_SCHEDULE_WEEKLY, NATS_SCHEDULE_YEARLY, NATS_SCHEDULER, NATS_SEQUENCE,
    NATS_STREAM, NATS_SUBJECT, NATS_TIME_STAMP,
};
pub use map::HeaderMap;
pub use name::{HeaderName, IntoHeaderName};
pub use nats_names::NoMemory;
pub use value::{HeaderValue, IntoHeaderValue};
