//! A dialer over the network of the system.
ghost use Rattle.std.specs.Prelude.{◌≡◌, None, false};
ghost use Rattle.nats_outside.specs.declared.dialer.DialWord.TheVariants as word;
ghost use Rattle.nats_outside.specs.Told.{word_of};
ghost use Rattle.nats_system.specs.System.{dialer_told_of, net_read_told, net_write_told};

use crate::net_link::{NetRead, NetWrite, at_least_one};
use nats_names::Failed;
use nats_outside::{DialWord, Dialer};
use std::io;
use std::net::{Net, OpenStream, SocketAddr};

/// How many milliseconds a write may block until the link counts as failed. Own choice: a server that reads no more
/// would hold its link for ever, as a write that blocks is not ended by ticks.
pub const MOST_WRITE_MS: u64 = 10_000;

/// A dialer over the network of the system: each link is a stream, whose two halves are two handles of it. Each
/// `Err` of the system is a failure. It tells its counts and words, and no bytes. As the crate's links it has
/// no TLS; unlike them it does not ask for small packets at once, and a write that blocks for `MOST_WRITE_MS` fails.
#[derive(Drop)]
pub struct NetDialer<R> {
    rt: R,
    faults: u64,
    ends: u64,
    dials: u64,
    word: DialWord,
    to: Option<SocketAddr>,
    within: u64,
    links: u64,
    backs: u64,
    was_shut: bool,
    fault: Option<(SocketAddr, io::Error)>,
}

impl<R> NetDialer<R> {
    /// It dialed nothing yet.
    pub fn new(rt: R) -> NetDialer<R>
        ensures { dialer_told_of result ≡ record {
          faults = 0;
          ends = 0;
          dials = 0;
          word = word.Fine;
          to = None;
          within = 0;
          links = 0;
          backs = 0;
          was_shut = false;
          ended = None;
        } }
    {
        NetDialer {
            rt,
            faults: 0,
            ends: 0,
            dials: 0,
            word: DialWord::Fine,
            to: None,
            within: 0,
            links: 0,
            backs: 0,
            was_shut: false,
            fault: None,
        }
    }

    /// The address of the last dial that failed, and what the system said of it: for whoever prints. None before any.
    pub fn last_fault(&self) -> Option<(SocketAddr, io::Error)>
        ensures { result ≡ self.now.fault }
    {
        self.fault
    }
}

impl<R: Net> NetDialer<R> {
    // Two handles of a new stream to this address, where it came within so many milliseconds.
    fn open(&self, to: &SocketAddr, within: u64) -> io::Result<(R::Stream, R::Stream)> {
        let stream = self.rt.connect_timeout(*to, at_least_one(within))?;
        stream.set_write_timeout(Some(at_least_one(MOST_WRITE_MS)))?;
        let other = stream.try_clone()?;
        Ok((stream, other))
    }
}

// The word of a link handed back with that many failures of its halves, and ends.
fn word_of(read_faults: u64, write_faults: u64, ends: u64) -> DialWord
    ensures { result ≡ word_of read_faults write_faults ends }
{
    if read_faults > 0 || write_faults > 0 {
        DialWord::Failed
    } else if ends > 0 {
        DialWord::Ended
    } else {
        DialWord::Fine
    }
}

impl<R: Net> Dialer for NetDialer<R> {
    type Read = NetRead<R::Stream>;

    type Write = NetWrite<R::Stream>;

    ghost dialer_told = { dialer_told_of };

    ghost BesideDialer = { Unit {0} };

    ghost beside_dialer = { λ _. tt };

    fn dial(
        &mut self,
        to: &SocketAddr,
        within: u64,
    ) -> Result<(NetRead<R::Stream>, NetWrite<R::Stream>), Failed> {
        self.dials = self.dials.saturating_add(1);
        self.to = Some(*to);
        self.within = within;
        match self.open(to, within) {
            Ok((stream, other)) => {
                self.word = DialWord::Fine;
                self.links = self.links.saturating_add(1);
                Ok((NetRead::new(stream), NetWrite::new(other)))
            }
            Err(error) => {
                self.faults = self.faults.saturating_add(1);
                self.word = DialWord::Failed;
                self.fault = Some((*to, error));
                Err(Failed)
            }
        }
    }

    fn hang_up(&mut self, read: NetRead<R::Stream>, write: NetWrite<R::Stream>) {
        self.word = word_of(read.faults(), write.faults(), read.ends());
        self.backs = self.backs.saturating_add(1);
        self.was_shut = write.is_shut();
        if read.faults() > 0 || write.faults() > 0 {
            self.faults = self.faults.saturating_add(1);
        }
        if read.ends() > 0 {
            self.ends = self.ends.saturating_add(1);
        }
    }
}
