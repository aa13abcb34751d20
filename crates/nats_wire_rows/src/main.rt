//! Rows of the crates by which bytes are read and written: names, header maps, INFO, header blocks, operations, the
//! text of a client, CONNECT and the buffers. A line of standard input asks for something, and a line of standard
//! output answers it; the first word says what is asked for, and words spell bytes as in `nats_rows`. The rows stand
//! in `stdin` and their answers in `stdout`, since a program is proved once, and a crate with tests twice.
#![tactic(auto)]

mod blocks;
mod buffers;
mod client;
mod connect;
mod connection;
mod headers;
mod json;
mod maps;
mod names;
mod says;
mod steps;
mod texts;

use nats_rows::{Answers, Bad, Fault, answer_rows};
use std::alloc::Global;
use std::io::{Read, Write};
use std::process::ExitCode;

/// Standard input or output failed, memory was wanting, or a line is out of form.
const FAILED: u8 = 1;

#[derive(Drop)]
struct Wire;

/// Answers a line by what its first word asks for and what stands behind it.
fn answer_word(alloc: Global, word: &str, rest: &str, out: &mut String) -> Result<bool, Bad> {
    Ok(
        names::answer(alloc, word, rest, out)?
            || headers::answer(alloc, word, rest, out)?
            || blocks::answer(alloc, word, rest, out)?
            || connection::answer(alloc, word, rest, out)?
            || buffers::answer(alloc, word, rest, out)?
            || fixed(alloc, word, out)?,
    )
}

/// Answers a line that asks for one thing alone.
fn fixed(alloc: Global, word: &str, out: &mut String) -> Result<bool, Bad> {
    match word {
        "texts" => texts::push_all(alloc, out)?,
        "connect" => connect::push_all(alloc, out)?,
        "steps" => steps::push_count(alloc, out)?,
        _ => return Ok(false),
    }
    Ok(true)
}

impl Answers for Wire {
    fn answer(&mut self, alloc: Global, line: &str, out: &mut String) -> Result<(), Bad> {
        let (word, rest) = line.split_once(' ').unwrap_or((line, ""));
        if answer_word(alloc, word, rest, out)? {
            Ok(())
        } else {
            Err(Bad::Form)
        }
    }
}

fn run(rt: &HostRuntime) -> Result<(), Fault> {
    let alloc = rt.alloc();
    let mut lines = String::new(alloc);
    rt.stdin().read_to_string(&mut lines)?;
    let mut out = String::new(alloc);
    answer_rows(alloc, &mut Wire, lines.as_str(), &mut out)?;
    Ok(rt.stdout().write_all(out.as_bytes())?)
}

fn main(rt: HostRuntime) -> ExitCode {
    match run(&rt) {
        Ok(()) => ExitCode::SUCCESS,
        Err(fault) => {
            let _ = eprintln!(rt; "nats_wire_rows: {fault}");
            ExitCode::from(FAILED)
        }
    }
}
