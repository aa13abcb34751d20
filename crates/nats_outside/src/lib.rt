//! The outside of a client as traits: links, who dials them, a clock, numbers; and all of it in memory.
#![tactic(auto)]

mod clock;
mod dialer;
mod draw;
mod fake_clock;
mod fake_dialer;
mod fake_link;
mod fake_parts;
mod joined;
mod link;
mod reach;
pub mod seen;

pub use bytes::Bytes;
pub use clock::Clock;
pub use dialer::{DialWord, Dialer};
pub use draw::Draw;
pub use fake_clock::{FakeClock, FakeDraw};
pub use fake_parts::{FakeDialer, FakeLink, FakeRead, FakeWrite};
pub use joined::Joined;
pub use link::{LinkRead, LinkWrite};
pub use nats_addr::{AskWord, FakeResolver, ResolveError, Resolver};
pub use nats_names::{Failed, NoMemory};
pub use reach::Reach;
