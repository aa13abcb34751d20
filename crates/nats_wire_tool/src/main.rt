//! Shows what the bytes of the protocol say, and writes them: `decode` and `decodes` read a server's bytes, `encode`
//! writes a client's operations, `json` reads JSON of header maps and messages, `addr` reads addresses of servers.
//! docs/SCRIPTS.md says how cases and lines are spelled.
#![tactic(auto)]

mod addr;
mod cases;
mod connect;
mod encode;
mod json;
mod lines;
mod ops;

use crate::addr::Addrs;
use crate::cases::{push_answer, push_answers};
use crate::encode::encoded;
use crate::json::Jsons;
use nats_rows::{Answers, Fault, answer_lines};
use std::alloc::Global;
use std::env;
use std::io::{self, Read, Write};
use std::process::ExitCode;
use std::rt::Env;

/// Standard input or output failed, memory was wanting, or a line is out of form.
const FAILED: u8 = 1;
/// The words are no command.
const UNKNOWN: u8 = 2;

/// What `--help` prints.
const HELP: &str = "\
usage: nats_wire_tool decode < BYTES
       nats_wire_tool decodes < CASES
       nats_wire_tool encode | json | addr < LINES
       nats_wire_tool --help

decode reads one server's bytes and prints a line for each operation, and one for the end.
decodes reads cases, each a line LENGTH CUTS, so many bytes and a line feed, and prints the same of each.
encode reads a client's operations, a line for each, and writes their bytes.
json reads lines, headers or message and a JSON text, and prints the JSON of what was read.
addr reads addresses of servers, a spelled line for each, and prints what each says.

exit status:
  0  all is answered
  1  standard input or output failed, out of memory, or a line is out of form
  2  the words are no command
";

/// What to do with standard input.
#[derive(Clone, Copy)]
enum Command {
    /// It is one server's bytes.
    Decode,
    /// It is a list of cases of a server's bytes.
    DecodeCases,
    /// It is lines of a client's operations.
    Encode,
    /// It is lines of JSON.
    Json,
    /// It is lines of addresses.
    Addr,
    /// It is left alone.
    Help,
}

fn command_of(words: &[String]) -> Option<Command> {
    let [word] = words else {
        return None;
    };
    match word.as_str() {
        "decode" => Some(Command::Decode),
        "decodes" => Some(Command::DecodeCases),
        "encode" => Some(Command::Encode),
        "json" => Some(Command::Json),
        "addr" => Some(Command::Addr),
        "--help" => Some(Command::Help),
        _ => None,
    }
}

/// The words of the command line, without the program's name.
fn words<R: Env + AllocGlobal>(rt: &R) -> io::Result<Vec<String>> {
    let words = env::args(rt)?.skip(1).collect(rt.alloc())?;
    Ok(words)
}

/// All of standard input.
fn input(rt: &HostRuntime) -> io::Result<Vec<u8>> {
    let mut bytes = Vec::new(rt.alloc());
    rt.stdin().read_to_end(&mut bytes)?;
    Ok(bytes)
}

/// What is answered to the lines of standard input.
fn answered<A: Answers>(rt: &HostRuntime, asked: &mut A) -> Result<String, Fault> {
    let alloc = rt.alloc();
    let mut lines = String::new(alloc);
    rt.stdin().read_to_string(&mut lines)?;
    let mut out = String::new(alloc);
    answer_lines(alloc, asked, lines.as_str(), &mut out)?;
    Ok(out)
}

fn decoded(rt: &HostRuntime) -> Result<String, Fault> {
    let alloc = rt.alloc();
    let bytes = input(rt)?;
    let mut out = String::new(alloc);
    push_answer(alloc, &mut out, bytes.as_slice())?;
    Ok(out)
}

fn decoded_cases(rt: &HostRuntime) -> Result<String, Fault> {
    let alloc = rt.alloc();
    let bytes = input(rt)?;
    let mut out = String::new(alloc);
    push_answers(alloc, &mut out, bytes.as_slice())?;
    Ok(out)
}

fn help(alloc: Global) -> Result<String, Fault> {
    Ok(String::from_str(alloc, HELP).map_err(io::Error::from)?)
}

/// What is printed for a command.
fn output(rt: &HostRuntime, command: Command) -> Result<Vec<u8>, Fault> {
    let text = match command {
        Command::Decode => decoded(rt)?,
        Command::DecodeCases => decoded_cases(rt)?,
        Command::Encode => return encoded(rt),
        Command::Json => answered(rt, &mut Jsons)?,
        Command::Addr => answered(rt, &mut Addrs)?,
        Command::Help => help(rt.alloc())?,
    };
    Ok(text.into_bytes())
}

fn run(rt: &HostRuntime) -> Result<u8, Fault> {
    let words = words(rt)?;
    let Some(command) = command_of(words.as_slice()) else {
        let _ = eprintln!(rt;
            "nats_wire_tool: unknown command; nats_wire_tool --help tells of them"
        );
        return Ok(UNKNOWN);
    };
    let bytes = output(rt, command)?;
    rt.stdout().write_all(bytes.as_slice())?;
    Ok(0)
}

fn main(rt: HostRuntime) -> ExitCode {
    match run(&rt) {
        Ok(status) => ExitCode::from(status),
        Err(fault) => {
            let _ = eprintln!(rt; "nats_wire_tool: {fault}");
            ExitCode::from(FAILED)
        }
    }
}
