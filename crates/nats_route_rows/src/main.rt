//! Scripts of the broker, played. A line of standard input is a script whose lines stand between tabs, and a line of
//! standard output says how it ends (`rows`, `unreadable`, `turn`) and, behind a tab, what it prints, its lines between
//! tabs; the line `steps` asks for a broker that is taken step by step. The scripts stand in `stdin` and their answers,
//! by an independent program, in `stdout`.
#![tactic(auto)]

mod steps;

use nats_route_script::{RouteEnding, route_output};
use nats_rows::{Answers, Bad, Fault, answer_rows};
use std::alloc::Global;
use std::io::{Read, Write};
use std::process::ExitCode;

/// Standard input or output failed, memory was wanting, or a line is out of form.
const FAILED: u8 = 1;

#[derive(Drop)]
struct Scripts;

/// The bytes of a script whose lines stand between tabs.
fn script_of(alloc: Global, line: &str) -> Result<Vec<u8>, Bad> {
    let mut script = Vec::new(alloc);
    for part in line.split('\t') {
        script.extend_from_slice(part.as_bytes())?;
        script.push(b'\n')?;
    }
    Ok(script)
}

fn ending_word(ending: RouteEnding) -> &'static str {
    match ending {
        RouteEnding::Rows => "rows",
        RouteEnding::Unreadable => "unreadable",
        RouteEnding::OutOfTurn => "turn",
    }
}

impl Answers for Scripts {
    fn answer(&mut self, alloc: Global, line: &str, out: &mut String) -> Result<(), Bad> {
        if line == "steps" {
            return steps::push_steps(alloc, out);
        }
        let script = script_of(alloc, line)?;
        let answer = route_output(alloc, script.as_slice())?;
        out.push_str(ending_word(answer.ending))?;
        let text = str::from_utf8(answer.text.as_slice()).map_err(|_| Bad::Form)?;
        for printed in text.lines() {
            out.push('\t')?;
            out.push_str(printed)?;
        }
        Ok(())
    }
}

fn run(rt: &HostRuntime) -> Result<(), Fault> {
    let alloc = rt.alloc();
    let mut lines = String::new(alloc);
    rt.stdin().read_to_string(&mut lines)?;
    let mut out = String::new(alloc);
    answer_rows(alloc, &mut Scripts, lines.as_str(), &mut out)?;
    Ok(rt.stdout().write_all(out.as_bytes())?)
}

fn main(rt: HostRuntime) -> ExitCode {
    match run(&rt) {
        Ok(()) => ExitCode::SUCCESS,
        Err(fault) => {
            let _ = eprintln!(rt; "nats_route_rows: {fault}");
            ExitCode::from(FAILED)
        }
    }
}
