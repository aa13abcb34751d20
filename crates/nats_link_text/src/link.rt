//! Reading back what a link carries.
ghost use Rattle.std.specs.Prelude.{◌≡◌, IfOk};
ghost use Rattle.nats_link_text.specs.Law.{carried_read};

use nats_client_text::{ClientRead, read_client_text};
use nats_session::{LinkRow, NoMemory};
use std::alloc::Global;

/// The commands in all that a link carries, what it took and what waits for it as one text, and how that text ends:
/// by the grammar of client commands, apart from how they were written. For an audit of a transcript, whatever its
/// settings; with `checked_run` it is known beforehand. Own call.
///
/// # Errors
///
/// `NoMemory` for want of memory.
pub fn read_link(alloc: Global, row: &LinkRow) -> Result<ClientRead, NoMemory>
    ensures { IfOk result (λ read. read ≡ carried_read row.now) }
{
    let mut text = Vec::new(alloc);
    text.extend_from_slice(row.taken.as_slice())?;
    text.extend_from_slice(row.left.as_slice())?;
    read_client_text(alloc, text.as_slice())
}
