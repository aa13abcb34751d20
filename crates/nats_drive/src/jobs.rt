//! The jobs beside a link: one writes, one ticks.

use crate::Starter;
use crate::bay::Bay;
use nats_hub::{Hub, Tallies};
use nats_links::{tick_loop, write_loop};
use nats_outside::{Clock, LinkWrite};
use std::alloc::Global;
use std::sync::{Arc, Wait};

/// Writes to a link until it is over, shuts it, and gives the half back.
fn write_on<G: Tallies, R: Wait, H: LinkWrite + Drop>(
    rt: &R,
    alloc: Global,
    hub: &Hub<G>,
    link: u64,
    bay: &Bay<H>,
) {
    if let Some(mut half) = bay.take(rt) {
        let _ = write_loop(rt, alloc, hub, link, &mut half);
        half.shut();
        bay.give_back(rt, half);
    }
}

/// Plays ticks until a link is over.
fn tick_on<G: Tallies, R: Wait, T: Clock + Drop>(
    rt: &R,
    alloc: Global,
    hub: &Hub<G>,
    link: u64,
    mut clock: T,
    period: u64,
) {
    let _ = tick_loop(rt, alloc, hub, link, &mut clock, period);
}

/// Starts the job that writes to a link. Whether it is started.
pub(crate) fn start_writing<
    G: Tallies + Send + Sync + 'static,
    R: Wait + Copy + Drop + Send + 'static,
    H: LinkWrite + Drop + Send + 'static,
    S: Starter,
>(
    rt: &R,
    alloc: Global,
    hub: Arc<Hub<G>, Global>,
    link: u64,
    bay: Arc<Bay<H>, Global>,
    starter: &mut S,
) -> bool {
    let copied = *rt;
    starter
        .start(move || write_on(&copied, alloc, &hub, link, &bay))
        .is_ok()
}

/// Starts the job that ticks every `period` milliseconds. Whether it is started.
pub(crate) fn start_ticking<
    G: Tallies + Send + Sync + 'static,
    R: Wait + Copy + Drop + Send + 'static,
    T: Clock + Drop + Send + 'static,
    S: Starter,
>(
    rt: &R,
    alloc: Global,
    hub: Arc<Hub<G>, Global>,
    link: u64,
    period: u64,
    clock: T,
    starter: &mut S,
) -> bool {
    let copied = *rt;
    starter
        .start(move || tick_on(&copied, alloc, &hub, link, clock, period))
        .is_ok()
}
