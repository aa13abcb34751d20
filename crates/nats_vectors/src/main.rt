//! Sessions that are driven call by call, as scripts say, and rows of the commands above a session. Each group of rows
//! stands in a table with its answers, or in a few calls, and the program prints a line for each group: that all is as
//! its rows say, or the row that is answered in another way. It is a program, since a program is proved once, and a
//! crate with tests twice.
#![tactic(auto)]

mod driven;
mod list_rows;
mod live_rows;
mod replay_rows;
mod sent;
mod session_rows;
mod through;

use nats_names::NoMemory;
use nats_row_words::{FAILED, Told};
use std::alloc::Global;
use std::process::ExitCode;
use std::sync::Wait;
use std::thread::Threads;

/// The calls of a session, and what its links carry.
fn tell_sessions<R: Threads + Wait + Sync>(
    rt: &R,
    alloc: Global,
    told: &mut Told,
) -> Result<(), NoMemory> {
    let mut said = Vec::new(alloc);
    let holds = session_rows::are_answered(alloc, &mut said)?;
    told.note("sessions", holds, said.as_slice())?;
    let holds = list_rows::are_played(rt, alloc, &mut said)?;
    told.note("lists of turns", holds, said.as_slice())?;
    let holds = session_rows::are_carried(rt, alloc, &mut said)?;
    told.note("hostile scripts", holds, said.as_slice())
}

/// What stands above a session.
fn tell_commands<R: Threads + Wait + Sync>(
    rt: &R,
    alloc: Global,
    told: &mut Told,
) -> Result<(), NoMemory> {
    let mut said = Vec::new(alloc);
    let holds = live_rows::go(rt, alloc, &mut said)?;
    told.note("commands on a live link", holds, said.as_slice())?;
    told.note("a link that fails", live_rows::end(rt, alloc)?, b"")?;
    told.note("TLS that is wanted", live_rows::refuse_tls(rt, alloc)?, b"")?;
    let holds = replay_rows::are_printed(rt, alloc, &mut said)?;
    told.note("scripts that are replayed", holds, said.as_slice())?;
    told.note("a full link", replay_rows::wait_for_room(rt, alloc)?, b"")?;
    told.note(
        "sources and sinks",
        replay_rows::end_in_time(rt, alloc)?,
        b"",
    )?;
    told.note("words", replay_rows::are_known(rt, alloc)?, b"")
}

fn tell_all<R: Threads + Wait + Sync>(
    rt: &R,
    alloc: Global,
    told: &mut Told,
) -> Result<(), NoMemory> {
    tell_sessions(rt, alloc, told)?;
    tell_commands(rt, alloc, told)
}

fn main(rt: HostRuntime) -> ExitCode {
    let alloc = rt.alloc();
    let mut out = rt.stdout();
    let mut told = Told::new(alloc);
    let status = match tell_all(&rt, alloc, &mut told) {
        Ok(()) => told.print(&mut out),
        Err(NoMemory) => FAILED,
    };
    ExitCode::from(status)
}
