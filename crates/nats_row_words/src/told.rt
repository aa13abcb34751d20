//! What a program of rows prints: a line for each group of rows, and a status.
use crate::words::say;
use nats_names::NoMemory;
use std::alloc::Global;
use std::io::Write;

/// The status of a program of rows where all is as its rows say.
pub const DONE: u8 = 0;

/// The status where a row is answered in another way, or standard output failed, or memory was wanting.
pub const FAILED: u8 = 1;

/// What is printed so far, and whether all is as the rows say.
#[derive(Drop)]
pub struct Told {
    out: Vec<u8>,
    holds: bool,
}

impl Told {
    /// Nothing is printed yet. It takes no memory.
    pub fn new(alloc: Global) -> Told {
        Told {
            out: Vec::new(alloc),
            holds: true,
        }
    }

    /// Says whether a group is as its rows say, and `said` of a row that is not.
    pub fn note(&mut self, group: &str, holds: bool, said: &[u8]) -> Result<(), NoMemory> {
        self.holds = self.holds && holds;
        say(&mut self.out, group)?;
        say(
            &mut self.out,
            if holds {
                ": as its rows say\n"
            } else {
                ": NOT as its rows say\n"
            },
        )?;
        self.out.extend_from_slice(said)?;
        Ok(())
    }

    /// Prints what was told, and answers the status.
    pub fn print<W: Write>(&self, out: &mut W) -> u8 {
        match out.write_all(self.out.as_slice()) {
            Ok(()) if self.holds => DONE,
            Ok(()) | Err(_) => FAILED,
        }
    }
}
