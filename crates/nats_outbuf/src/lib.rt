//! The two buffers of a link: bytes that came and are not used yet, and bytes that wait to be written, kept as
//! pieces that are shared and not copied. Lengths are in bytes.
#![tactic(auto)]

mod chunks;
mod inbuf;
pub mod laws;
mod outbuf;
mod steps;
mod store;

pub use inbuf::InBuf;
pub use nats_names::{Bytes, NoMemory};
pub use outbuf::{CHUNK_LEAST, OutBuf, PIECES_MOST, SOFT_WRITE_BUF_LIMIT, ShouldFlush};
pub use steps::Steps;
