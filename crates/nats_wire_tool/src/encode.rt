//! Operations of a client as bytes: a line is an operation, empty lines and those that begin with `#` are passed over.
use crate::ops::write_op;
use nats_rows::{Answers, Bad, Fault, answer_lines};
use nats_wire::Connection;
use std::alloc::Global;
use std::io::Read;

/// Puts the operations of lines behind the bytes that wait on a connection, and answers nothing.
#[derive(Drop)]
struct Ops {
    connection: Connection,
}

impl Answers for Ops {
    fn answer(&mut self, alloc: Global, line: &str, _out: &mut String) -> Result<(), Bad> {
        if line.is_empty() || line.starts_with('#') {
            return Ok(());
        }
        write_op(alloc, &mut self.connection, line)
    }
}

/// The bytes of the operations of some lines.
fn bytes_of(alloc: Global, ops: &mut Ops, lines: &str) -> Result<Vec<u8>, Fault> {
    answer_lines(alloc, ops, lines, &mut String::new(alloc))?;
    let pending = ops.connection.pending();
    Ok(ops.connection.copy_waiting(alloc, pending)?)
}

/// The bytes of the operations of standard input.
pub fn encoded(rt: &HostRuntime) -> Result<Vec<u8>, Fault> {
    let alloc = rt.alloc();
    let mut lines = String::new(alloc);
    rt.stdin().read_to_string(&mut lines)?;
    let mut ops = Ops {
        connection: Connection::new(alloc),
    };
    bytes_of(alloc, &mut ops, lines.as_str())
}
