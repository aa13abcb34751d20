//! Rows of the outside over the system, and of the one in memory: links over the loopback, what they read, write and
//! are told to wait, an address, a clock, numbers that are drawn, jobs that are started, and ids. It prints what each
//! answers, a line for each row. The rows stand in a program, since one is proved once, and a crate with tests twice.
#![tactic(auto)]

mod jobs;
mod links;
mod parts;
mod silent;

use anyhow::Result;

fn main(rt: HostRuntime) -> Result<()> {
    let alloc = rt.alloc();
    let mut out = String::new(alloc);
    links::answer(&rt, alloc, &mut out)?;
    silent::answer(&rt, alloc, &mut out)?;
    parts::answer(&rt, alloc, &mut out)?;
    jobs::answer(&rt, alloc, &mut out)?;
    print!(rt; "{}", out.as_str())?;
    Ok(())
}
