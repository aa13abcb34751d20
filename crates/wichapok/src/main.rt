//! `wichapok` is a NATS client on the command line: it publishes, subscribes, asks, answers and measures. It connects
//! over the system's sockets and stays connected: where a link ends it comes back, and says so on standard error. It
//! also serves a broker on one machine.
#![tactic(auto)]

mod asked;
mod bench;
mod deeds;
mod link;
mod part;
mod rates;
mod serve;
mod shown;
mod stop;
mod taking;
mod words;

use asked::{Asked, Task};
use nats_client::ALL_PARTS;
use nats_drive::ThreadStarter;
use nats_names::Event;
use nats_pool::{ConnectOptions, EventBox};
use nats_system::SystemClock;
use std::io::Read;
use std::marker::Brand;
use std::process::ExitCode;
use std::rt::Env;
use std::sync::ledger::Blank;
use std::{env, io};
use stop::Stop;

/// The server that is taken where none is named.
const HOME: &str = "nats://127.0.0.1:4222";

/// The words of the command line, with the program's name.
fn words_of<R: Env + AllocGlobal>(rt: &R) -> io::Result<Vec<String>> {
    let words = env::args(rt)?.collect(rt.alloc())?;
    Ok(words)
}

/// What standard input gives, where the payload is to be that.
fn input_of(rt: &HostRuntime, wants: bool) -> Result<Vec<u8>, Stop> {
    let mut input = Vec::new(rt.alloc());
    if wants && rt.stdin().read_to_end(&mut input).is_err() {
        return Err(Stop::Input);
    }
    Ok(input)
}

/// What the words ask for, or why they are no command.
fn asked_of(rt: &HostRuntime, words: &[String], home: &str) -> Result<Asked, Stop> {
    match words::command(rt.alloc())?.try_get_matches_from(words) {
        Ok(matches) => {
            let input = input_of(rt, asked::wants_input(&matches))?;
            asked::asked_of(rt.alloc(), &matches, home, input)
        }
        Err(error) => Err(words::refuse(rt, &error)),
    }
}

/// The exit status.
fn code_of(done: Result<(), Stop>) -> ExitCode {
    match done {
        Ok(()) => ExitCode::SUCCESS,
        Err(stop) => stop.code(),
    }
}

fn main(rt: HostRuntime) -> ExitCode {
    let alloc = rt.alloc();
    let named = env::var(&rt, "NATS_URL").ok();
    let home = named.as_deref().unwrap_or(HOME);
    let asked = match words_of(&rt) {
        Ok(words) => asked_of(&rt, words.as_slice(), home),
        Err(_) => Err(Stop::NoMemory),
    };
    let mut clock = SystemClock::new(rt);
    let Task {
        servers,
        name,
        auth,
        timeout,
        deed,
    } = match asked {
        Ok(Asked::Connect(task)) => task,
        Ok(Asked::Serve(serving)) => {
            return code_of(serve::serve_at(&rt, alloc, &mut clock, serving));
        }
        Err(stop) => return stop.code(),
    };
    let told: EventBox = match Box::new(alloc, move |event: Event| {
        let _ = eprintln!(rt; "{event}");
    }) {
        Ok(told) => told,
        Err(_) => return Stop::NoMemory.code(),
    };
    let mut options = ConnectOptions::new()
        .request_timeout(timeout)
        .event_callback(told);
    options.name = Some(name);
    options.auth = auth;
    if let Some(room) = deed.room() {
        options.subscription_capacity = room;
    }
    options.max_reconnects = deed.most_attempts();
    code_of(link::run::<Brand, HostRuntime, _, _, _>(
        &rt,
        alloc,
        Blank::new(ALL_PARTS),
        &mut ThreadStarter::new(rt),
        link::world(rt),
        servers,
        options,
        &mut clock,
        &deed,
    ))
}
