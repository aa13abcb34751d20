//! Rows of the parts that a session is made of, of scripts, and of a core. Each group stands in a table with its
//! answers, or in a few calls, and the program prints a line for each group: that all is as its rows say, or the row
//! that is answered in another way.
#![tactic(auto)]

mod bulk_rows;
mod call_rows;
mod core_rows;
mod script_rows;
mod tables_rows;
mod tickets_rows;

use nats_names::NoMemory;
use nats_row_words::{FAILED, Told};
use std::alloc::Global;
use std::process::ExitCode;

/// The calls of a session and of its core.
fn tell_calls(alloc: Global, told: &mut Told) -> Result<(), NoMemory> {
    told.note("calls", call_rows::are_told(alloc)?, b"")?;
    told.note("a core", core_rows::are_noted(alloc)?, b"")?;
    told.note("a core on a link", core_rows::is_lent(alloc)?, b"")
}

/// What stands below a session.
fn tell_parts(alloc: Global, told: &mut Told) -> Result<(), NoMemory> {
    told.note("tables", tables_rows::hold(alloc)?, b"")?;
    told.note(
        "tickets of flushes",
        tickets_rows::flushes_settle(alloc)?,
        b"",
    )?;
    told.note(
        "tickets of requests",
        tickets_rows::requests_settle(alloc)?,
        b"",
    )?;
    let mut said = Vec::new(alloc);
    let holds = script_rows::are_found(alloc, &mut said)?;
    told.note("lines of scripts", holds, said.as_slice())?;
    told.note("turns of scripts", script_rows::are_read(alloc)?, b"")?;
    told.note("rows of transcripts", script_rows::are_printed(alloc)?, b"")?;
    told.note("turns made by a rule", bulk_rows::are_counted(alloc)?, b"")
}

fn tell_all(alloc: Global, told: &mut Told) -> Result<(), NoMemory> {
    tell_calls(alloc, told)?;
    tell_parts(alloc, told)
}

fn main(rt: HostRuntime) -> ExitCode {
    let alloc = rt.alloc();
    let mut out = rt.stdout();
    let mut told = Told::new(alloc);
    let status = match tell_all(alloc, &mut told) {
        Ok(()) => told.print(&mut out),
        Err(NoMemory) => FAILED,
    };
    ExitCode::from(status)
}
