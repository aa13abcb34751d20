//! The top call of the program: playing a script, whose bytes a source gives, and printing its transcript into a
//! sink; and commands on a live link, which a world gives.
#![tactic(auto)]

mod asked;
mod live;
mod memory;
mod outside;
mod top;
mod whole;
mod workers;

pub use asked::{Asked, PATIENCE_LIMIT, TRIES_LIMIT};
pub use live::RECEIVE_LIMIT;
pub use memory::{Failing, MemorySink, MemorySource};
pub use nats_names::{Failed, NoMemory};
pub use nats_script::{Script, print_transcript, read_script};
pub use nats_session::{Config, RunError, Seq, Transcript, Turn};
pub use nats_system::{MemoryWorld, World, memory_world};
pub use outside::{Reading, Sink, Source, Writing};
pub use top::{NO_MEMORY, WRITE_FAULT, replay};
pub use whole::SCRIPT_LIMIT;
