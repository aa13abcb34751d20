//! A client whose link is read until it is over. Where memory is wanting as it is read, the link is lost too.
ghost use Rattle.std.specs.Prelude.{◌≡◌, ◌^◌, true};

use nats_client::{Audit, Bytes, Client, Config, FinishError, Tallies, Turn, usual_server};
use nats_core::StepError;
use nats_links::read_loop;
use nats_names::NoMemory;
use nats_outside::{Dialer, FakeDialer, FakeLink, FakeRead, FakeWrite};
use std::alloc::Global;
use std::net::{IpAddr, Ipv4Addr, SocketAddr};
use std::sync::Wait;
use std::sync::ledger::Blank;

/// The most bytes that the link gives at a read.
const MOST: usize = 16;

/// What the link gives: two messages and a ping.
const GIVEN: &[u8] = b"MSG a 1 2\r\nhi\r\nPING\r\nMSG a 1 3\r\nyes\r\n";

/// Both halves of a link in memory.
fn halves(alloc: Global) -> Result<(FakeRead, FakeWrite), NoMemory> {
    let link = FakeLink::new(alloc, Bytes::from_static(GIVEN), MOST)?;
    let mut dialer = FakeDialer::told(alloc, vec![in alloc; link]?);
    let to = SocketAddr::new(IpAddr::V4(Ipv4Addr::LOCALHOST), 4222);
    dialer.dial(&to, 1_000).map_err(|_| NoMemory)
}

fn last_is_lost(audit: &Audit) -> bool {
    match audit.journal.as_slice() {
        [.., entry] => matches!(entry.turn, Turn::Lost),
        [] => false,
    }
}

/// Whether the last turn of a client's journal is that its link was lost, once the link was read until it was over.
pub(crate) fn is_lost<G: Tallies, R: Wait>(
    rt: &R,
    alloc: Global,
    blank: Blank,
) -> Result<bool, NoMemory>
    requires name { blank.name ≡ G.name }
    requires parts { blank.parts ≡ G.parts }
    requires all { blank.parts ≡ 2 ^ 63 }
    requires kept { G.is_kept ≡ true }
{
    let config = Config::new(alloc)?;
    let mut client = Client::<G>::over(alloc, blank, config, true, 7)?;
    let (mut from, _out) = halves(alloc)?;
    match client.hub().play(rt, alloc, Turn::Up(usual_server(alloc))) {
        Ok(_) => {}
        Err(StepError::NoMemory) => return Err(NoMemory),
        Err(StepError::OutOfTurn | StepError::LinkGone { .. }) => return Ok(false),
    }
    let _ = client.publish(rt, alloc, "a", Bytes::from_static(b"hi"));
    let hub = client.hub();
    let _ = read_loop(rt, alloc, hub, hub.link(rt), &mut from);
    match client.finish(rt, alloc) {
        Ok(audit) => Ok(last_is_lost(&audit)),
        Err(FinishError::Held(_)) => Ok(false),
        Err(FinishError::NoMemory(client)) => match client.finish(rt, alloc) {
            Ok(audit) => Ok(last_is_lost(&audit)),
            Err(FinishError::Held(_)) => Ok(false),
            Err(FinishError::NoMemory(_)) => Err(NoMemory),
        },
    }
}
