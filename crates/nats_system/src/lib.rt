//! A client's outside beyond its links: who starts jobs, and the whole of it as one; all of it over the system,
//! and in memory. Beside them stand the errors of a client's calls and the texts that name it. Times are
//! milliseconds.
#![tactic(auto)]

mod errors;
mod fake_spawner;
mod id;
mod memory;
mod net_dialer;
mod net_link;
mod net_resolver;
mod spawner;
mod still_clock;
mod system_clock;
mod system_draw;
mod task;
mod thread_spawner;
mod whole;
mod world;

pub use errors::{PublishError, PublishErrorKind, SubscribeError, SubscribeErrorKind};
pub use fake_spawner::FakeSpawner;
pub use id::{ID_LENGTH, id_text, id_token};
pub use memory::{MemoryWorld, memory_world};
pub use nats_names::{Cause, Failed, NoMemory, Token};
pub use nats_outside::{Clock, Dialer, Draw, LinkRead, LinkWrite, Reach, Resolver};
pub use net_dialer::{MOST_WRITE_MS, NetDialer};
pub use net_link::{NetRead, NetWrite};
pub use net_resolver::NetResolver;
pub use spawner::{Job, Spawner};
pub use still_clock::StillClock;
pub use system_clock::SystemClock;
pub use system_draw::SystemDraw;
pub use task::{Task, TaskSpawner};
pub use thread_spawner::ThreadSpawner;
pub use whole::Whole;
pub use world::World;
