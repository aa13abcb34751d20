//! Calls that want memory are made a second time: those of a session with requests, of commands on a live link over a
//! world in memory, and of a client whose link is read until it is over. What came of each is printed. Where a run is
//! refused one allocation, whichever it is, it prints the same.
#![tactic(auto)]

mod lost;
mod session;
mod world;

use nats_client::ALL_PARTS;
use nats_names::NoMemory;
use std::alloc::Global;
use std::io::Write;
use std::marker::Brand;
use std::process::ExitCode;
use std::sync::Wait;
use std::sync::ledger::Blank;
use std::thread::Threads;

/// The status where memory was wanting twice.
const NO_MEMORY: u8 = 7;

/// Why nothing is printed.
enum Refused {
    /// Memory was wanting twice.
    NoMemory,
    /// What was played is not as it should be.
    Played,
}

impl From<NoMemory> for Refused {
    fn from(_: NoMemory) -> Refused {
        Refused::NoMemory
    }
}

/// What a command printed, behind what others did.
fn add(text: &mut Vec<u8>, more: &[u8]) -> Result<(), NoMemory> {
    if text.extend_from_slice(more).is_err() {
        text.extend_from_slice(more)?;
    }
    Ok(())
}

fn played<R: Threads + Wait + Sync>(rt: &R, alloc: Global) -> Result<Vec<u8>, Refused> {
    let mut text = session::printed(alloc)?;
    add(
        &mut text,
        world::printed(rt, alloc, &world::PUBLISH)?.as_slice(),
    )?;
    add(
        &mut text,
        world::printed(rt, alloc, &world::RECEIVE)?.as_slice(),
    )?;
    Ok(text)
}

fn main(rt: HostRuntime) -> ExitCode {
    let alloc = rt.alloc();
    let text = match played(&rt, alloc) {
        Ok(text) => text,
        Err(Refused::NoMemory) => return ExitCode::from(NO_MEMORY),
        Err(Refused::Played) => return ExitCode::FAILURE,
    };
    let is_lost = match lost::is_lost::<Brand, HostRuntime>(&rt, alloc, Blank::new(ALL_PARTS)) {
        Err(NoMemory) => lost::is_lost::<Brand, HostRuntime>(&rt, alloc, Blank::new(ALL_PARTS)),
        answer => answer,
    };
    match is_lost {
        Ok(true) => {}
        Ok(false) => return ExitCode::FAILURE,
        Err(NoMemory) => return ExitCode::from(NO_MEMORY),
    }
    let mut out = rt.stdout();
    match out.write_all(text.as_slice()) {
        Ok(()) => {}
        Err(_) => return ExitCode::FAILURE,
    }
    match out.write_all(b"the loss of a link that was read\n") {
        Ok(()) => ExitCode::SUCCESS,
        Err(_) => ExitCode::FAILURE,
    }
}
