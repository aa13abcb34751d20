//! Rows of clients and a broker composed: what each client came to is printed, or the first move that may not come.
#![tactic(auto)]

mod rows;
mod scripts;

use anyhow::Result;
use std::io::Write;

fn main(rt: HostRuntime) -> Result<()> {
    let alloc = rt.alloc();
    let text = rows::printed(alloc)?;
    rt.stdout().write_all(text.as_slice())?;
    Ok(())
}
