//! A session driven by hand, turn by turn: it asks for `orders.*` and prints each message that comes. Standard input is
//! what the server sends, so the program runs over memory alone; over a socket one plays these turns with its bytes.
#![tactic(auto)]

use anyhow::{Result, anyhow};
use nats_core::{
    Bytes, Call, Config, Core, Message, StepReply, Subject, TakeReply, Turn, usual_server,
};
use std::alloc::Global;
use std::io::Read;
use std::process::ExitCode;
use std::str;

/// The number of the one subscription.
const ORDERS: u64 = 1;

/// Plays a turn whose answer says no more than that it was played.
fn play(alloc: Global, core: &mut Core, turn: Turn) -> Result<()> {
    match core.step(alloc, turn) {
        Ok(_) => Ok(()),
        Err(error) => Err(anyhow!("{error:?}")),
    }
}

/// A link comes up, and the subscription is asked for.
fn begin(alloc: Global, core: &mut Core) -> Result<()> {
    play(alloc, core, Turn::Up(usual_server(alloc)))?;
    let subject = Subject::from_static("orders.*");
    let call = Call::Subscribe {
        subject,
        queue_group: None,
    };
    play(alloc, core, Turn::Do(call))
}

/// Prints what is to be sent to the server, and tells the session that it was.
fn send<R: Print>(rt: &R, alloc: Global, core: &mut Core) -> Result<()> {
    let pieces = core.pending_pieces(alloc).ok().ok_or(anyhow!("no memory"))?;
    let mut count = 0u64;
    for piece in pieces.iter() {
        print!(rt;
            "> {}",
            str::from_utf8(piece.as_slice()).unwrap_or("(bytes)\n")
        )?;
        count = count.saturating_add(piece.len() as u64);
    }
    play(alloc, core, Turn::Write(count))
}

fn print_message<R: Print>(rt: &R, message: &Message) -> Result<()> {
    let payload = str::from_utf8(message.payload.as_slice()).unwrap_or("(bytes)");
    println!(rt; "{}: {payload}", message.subject.as_str())?;
    Ok(())
}

/// Takes the oldest message that waits and prints it; `false` where none waits.
fn take<R: Print>(rt: &R, alloc: Global, core: &mut Core) -> Result<bool> {
    match core.step(alloc, Turn::Take(ORDERS)) {
        Ok(StepReply::Take(TakeReply::Message(message))) => {
            print_message(rt, &message)?;
            Ok(true)
        }
        Ok(_) => Ok(false),
        Err(error) => Err(anyhow!("{error:?}")),
    }
}

fn serve(rt: &HostRuntime, core: &mut Core) -> Result<()> {
    let alloc = rt.alloc();
    begin(alloc, core)?;
    send(rt, alloc, core)?;
    let mut bytes = Vec::new(alloc);
    rt.stdin().read_to_end(&mut bytes)?;
    play(alloc, core, Turn::Piece(Bytes::from_vec(bytes)?))?;
    for _ in 0..u64::MAX {
        if !take(rt, alloc, core)? {
            break;
        }
    }
    send(rt, alloc, core)
}

fn run(rt: &HostRuntime) -> Result<()> {
    let alloc = rt.alloc();
    let config = Config::new(alloc).ok().ok_or(anyhow!("no memory"))?;
    let mut core = Core::new(alloc, config, false)
        .ok()
        .ok_or(anyhow!("no memory"))?;
    serve(rt, &mut core)
}

fn main(rt: HostRuntime) -> ExitCode {
    match run(&rt) {
        Ok(()) => ExitCode::SUCCESS,
        Err(failure) => {
            let _ = eprintln!(rt; "{failure:?}");
            ExitCode::FAILURE
        }
    }
}
