//! Scripts of calls that are tried again, and what they come to. A line of standard input is `rpc TRIES PATIENCE`, how
//! often a call is tried and how many milliseconds each attempt waits, and a script as one word; a line of standard
//! output is the status that the program of scripts ends with, and the text as one word. The scripts stand in `stdin`
//! and their texts, which another program wrote, in `stdout`.
#![tactic(auto)]

use nats_rows::{Answers, Bad, Fault, answer_rows, number_of, push_word, spelled_bytes};
use nats_rpc_script::{Ending, play_rpc};
use std::alloc::Global;
use std::io::{Read, Write};
use std::process::ExitCode;

/// Standard input or output failed, memory was wanting, or a line is out of form.
const FAILED: u8 = 1;

#[derive(Drop)]
struct Scripts;

/// The status with which a program ends that plays a script.
fn status_of(ending: Ending) -> &'static str {
    match ending {
        Ending::Transcript => "0",
        Ending::Unreadable => "5",
        Ending::OutOfTurn => "6",
    }
}

fn push_played(
    alloc: Global,
    tries: u64,
    patience: u64,
    script: &str,
    out: &mut String,
) -> Result<(), Bad> {
    if tries < 1 {
        return Err(Bad::Form);
    }
    let bytes = spelled_bytes(alloc, script)?;
    let played = play_rpc(alloc, bytes.as_slice(), tries, patience)?;
    out.push_str(status_of(played.ending))?;
    Ok(push_word(out, played.text.as_slice())?)
}

impl Answers for Scripts {
    fn answer(&mut self, alloc: Global, line: &str, out: &mut String) -> Result<(), Bad> {
        let words: Vec<&str> = line.split(' ').collect(alloc)?;
        match words.as_slice() {
            ["rpc", tries, patience, script] => push_played(
                alloc,
                number_of(tries)?,
                number_of(patience)?,
                script,
                out,
            ),
            _ => Err(Bad::Form),
        }
    }
}

fn run(rt: &HostRuntime) -> Result<(), Fault> {
    let alloc = rt.alloc();
    let mut lines = String::new(alloc);
    rt.stdin().read_to_string(&mut lines)?;
    let mut out = String::new(alloc);
    answer_rows(alloc, &mut Scripts, lines.as_str(), &mut out)?;
    Ok(rt.stdout().write_all(out.as_bytes())?)
}

fn main(rt: HostRuntime) -> ExitCode {
    match run(&rt) {
        Ok(()) => ExitCode::SUCCESS,
        Err(fault) => {
            let _ = eprintln!(rt; "nats_rpc_rows: {fault}");
            ExitCode::from(FAILED)
        }
    }
}
