//! Why a script was not played, in words for people: which rule its first bad line breaks, or why a turn may not come
//! where it stands. It is for a program's standard error; nothing is decided by it.
#![tactic(auto)]

mod kept;
mod line;
mod turn;

pub use kept::Kept;
pub use nats_script::NoMemory;
use nats_script::{Script, read_script};
use std::alloc::Global;

/// Why the script of these bytes is not played, as one line without its end; none where it can be played. It reads the
/// script again, so it takes as much time and memory as playing it. The texts are our own.
pub fn trouble(alloc: Global, script: &[u8]) -> Result<Option<String>, NoMemory> {
    match read_script(alloc, script)? {
        Script::Bad(number) => Ok(Some(line::trouble(alloc, script, number)?)),
        Script::Good { config, turns } => turn::trouble(alloc, &config, turns.as_slice()),
    }
}
