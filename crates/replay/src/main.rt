//! `replay run` reads a script of turns from standard input and prints their transcript; `replay bulk N` plays
//! N turns that are made by a rule and prints what they came to; `replay pub` and `replay sub` publish to a
//! server and receive from it. `replay --help` and `replay --version` tell of the program.
#![tactic(auto)]

mod why;

use nats_explain::Kept;
use nats_outside::Joined;
use nats_replay::{NO_MEMORY, Reading, WRITE_FAULT, Writing, replay};
use nats_system::{NetDialer, NetResolver, SystemClock, SystemDraw, ThreadSpawner, Whole};
use std::process::ExitCode;
use std::rt::Env;
use std::{env, io};
use why::Run;

/// What `--version` prints.
const VERSION: &str = "replay 0.1.0, of Wichapok, a port of the core of async-nats 0.51.0\n";

/// What `--help` prints: the words and the statuses of `nats_replay::replay`.
const HELP: &str = "\
usage: replay run < SCRIPT
       replay route < SCRIPT
       replay rpc TRIES PATIENCE < SCRIPT
       replay bulk N
       replay seats N K
       replay threads N K
       replay pub ADDR SUBJECT PAYLOAD
       replay sub ADDR SUBJECT N
       replay --help | -h | help | --version

run reads a script of turns from standard input, plays them and prints their transcript.
route plays a script of a broker in memory, and prints what its peers were told.
rpc plays a script of requests that are tried again: TRIES, 1 to 100, times each, PATIENCE milliseconds each.
bulk plays N turns that are made by a rule, 1 to 1,000,000, and prints what they came to.
seats lets N workers, 1 to 64, publish K times each, 1 to 10,000, and prints what their journal tells.
threads does so with a client of its own for each worker, and prints what their hub came to.
pub connects to a server and publishes a message, and prints published once it was written.
sub connects to a server, receives N messages, 1 to 1,000,000, and prints a line for each.
An address is as nats://127.0.0.1:4222, or a host alone.

exit status; any but 0 comes with a line on standard error that says why:
  0  what was asked for is printed
  2  the words are no command
  3  standard input failed
  4  standard output failed
  5  a line of the script cannot be read
  6  a turn of the script may not come where it stands
  7  out of memory
  8  the script is longer than 16,777,216 bytes
  9  no link, a refused message or subject, or a link that ended first; the text says which
";

/// The words of the command line, without the program's name.
fn words<R: Env + AllocGlobal>(rt: &R) -> io::Result<Vec<String>> {
    let words = env::args(rt)?.skip(1).collect(rt.alloc())?;
    Ok(words)
}

/// The text that the words ask for, where they ask about the program.
fn about(words: &[String]) -> Option<&'static str> {
    let [word] = words else {
        return None;
    };
    match word.as_str() {
        "--help" | "-h" | "help" => Some(HELP),
        "--version" => Some(VERSION),
        _ => None,
    }
}

fn tell<R: Print>(rt: &R, text: &str) -> ExitCode {
    match print!(rt; "{text}") {
        Ok(()) => ExitCode::SUCCESS,
        Err(_) => ExitCode::from(WRITE_FAULT),
    }
}

/// Words that are no UTF-8 are taken as none, which are no command.
fn main(rt: HostRuntime) -> ExitCode {
    let words = match words(&rt) {
        Ok(words) => words,
        Err(error) if error.kind() == io::ErrorKind::OutOfMemory => {
            let _ = eprintln!(rt; "replay: out of memory");
            return ExitCode::from(NO_MEMORY);
        }
        Err(_) => Vec::new(rt.alloc()),
    };
    if let Some(text) = about(words.as_slice()) {
        return tell(&rt, text);
    }
    let mut source = Kept::new(Reading::new(rt.stdin()), Vec::new(rt.alloc()));
    let mut sink = Writing::new(rt.stdout());
    let mut world = Whole {
        reach: Joined {
            dialer: NetDialer::new(rt),
            resolver: NetResolver::new(rt),
            clock: SystemClock::new(rt),
            draw: SystemDraw::new(rt),
        },
        spawner: ThreadSpawner::new(rt.alloc(), rt),
        clock: SystemClock::new(rt),
    };
    let status = replay(
        &rt,
        rt.alloc(),
        words.as_slice(),
        &mut source,
        &mut sink,
        &mut world,
    );
    let run = Run {
        status,
        words: words.as_slice(),
        script: source.bytes(),
        dialer: &world.reach.dialer,
        resolver: &world.reach.resolver,
    };
    run.tell(&rt, rt.alloc());
    ExitCode::from(status)
}
