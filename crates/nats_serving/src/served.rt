//! What all threads that serve a broker share.

use crate::Seats;
use nats_serve::BrokerHub;
use std::sync::{Mutex, Wait};

/// A broker that threads share, and the seats of its peers. Own type.
#[derive(Drop)]
pub struct Served {
    /// The broker.
    pub hub: BrokerHub,
    seats: Mutex<Seats>,
}

impl Served {
    /// A broker that is to be served to so many peers at once. Own call.
    pub fn new(hub: BrokerHub, most: u64) -> Served {
        Served {
            hub,
            seats: Mutex::new(Seats::new(most)),
        }
    }

    /// Takes a seat, and says whether one was free.
    pub(crate) fn sit<R: Wait>(&self, rt: &R) -> bool {
        self.seats.lock(rt).take()
    }

    /// Frees a seat.
    pub(crate) fn rise<R: Wait>(&self, rt: &R) {
        self.seats.lock(rt).free();
    }
}
