//! Rows of the crates by which a link comes up: addresses, the outside in memory, the pool of servers, the handshake
//! and a round of connecting. A line of standard input asks for something, and a line of standard output answers it;
//! the first word says what is asked for, and words spell bytes as in `nats_rows`. The rows stand in `stdin` and
//! their answers in `stdout`, since a program is proved once, and a crate with tests twice.
#![tactic(auto)]

mod addr;
mod credentials;
mod handshake;
mod outside;
mod pool;
mod round;
mod says;
mod shake;

use nats_rows::{Answers, Bad, Fault, answer_rows};
use std::alloc::Global;
use std::io::{Read, Write};
use std::process::ExitCode;

/// Standard input or output failed, memory was wanting, or a line is out of form.
const FAILED: u8 = 1;

#[derive(Drop)]
struct Links;

/// Answers a line by what its first word asks for and what stands behind it.
fn answer_word(alloc: Global, word: &str, rest: &str, out: &mut String) -> Result<bool, Bad> {
    Ok(
        addr::answer(alloc, word, rest, out)?
            || pool::answer(alloc, word, rest, out)?
            || handshake::answer(alloc, word, rest, out)?
            || credentials::answer(alloc, word, rest, out)?
            || answer_link(alloc, word, rest, out)?,
    )
}

fn answer_link(alloc: Global, word: &str, rest: &str, out: &mut String) -> Result<bool, Bad> {
    match word {
        "outside" => outside::push_all(alloc, out)?,
        "shake" => shake::push_shaken(alloc, rest, out)?,
        "unread" => shake::push_unread(alloc, rest, out)?,
        "round" => round::push_round(alloc, rest, out)?,
        "late" => round::push_late(alloc, rest, out)?,
        "homeless" => round::push_homeless(alloc, rest, out)?,
        "demands" => round::push_demanding(alloc, rest, out)?,
        "takes" => round::push_taken_in(alloc, rest, out)?,
        _ => return Ok(false),
    }
    Ok(true)
}

impl Answers for Links {
    fn answer(&mut self, alloc: Global, line: &str, out: &mut String) -> Result<(), Bad> {
        let (word, rest) = line.split_once(' ').unwrap_or((line, ""));
        if answer_word(alloc, word, rest, out)? {
            Ok(())
        } else {
            Err(Bad::Form)
        }
    }
}

fn run(rt: &HostRuntime) -> Result<(), Fault> {
    let alloc = rt.alloc();
    let mut lines = String::new(alloc);
    rt.stdin().read_to_string(&mut lines)?;
    let mut out = String::new(alloc);
    answer_rows(alloc, &mut Links, lines.as_str(), &mut out)?;
    Ok(rt.stdout().write_all(out.as_bytes())?)
}

fn main(rt: HostRuntime) -> ExitCode {
    match run(&rt) {
        Ok(()) => ExitCode::SUCCESS,
        Err(fault) => {
            let _ = eprintln!(rt; "nats_pool_rows: {fault}");
            ExitCode::from(FAILED)
        }
    }
}
