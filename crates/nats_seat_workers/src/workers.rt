//! Several workers, each in a thread of its own and with a seat of its own.
ghost use Rattle.std.specs.Prelude.{◌≡◌, ◌+◌, ◌<◌, ◌-◌, ◌^◌, suc, IfOk, OnOk};
ghost use Rattle.nats_seat_workers.specs.Publishing.{AllWorked, HasWorked, IsFresh};

use crate::error::WorkError;
use crate::publishing::publish_all;
use nats_seats::{Seated, SplitError};
use std::alloc::Global;
use std::sync::Wait;
use std::thread;
use std::thread::Threads;

/// The seat of a worker, whose number is one more than the worker's.
fn seat_of<R: Wait>(
    rt: &R,
    alloc: Global,
    main: &mut Seated,
    worker: u64,
) -> Result<Seated, WorkError>
    requires { worker + 1 < 2 ^ 64 }
    ensures seat { IfOk result (λ seat. (seat.0 ≡ main.old.0) × IsFresh seat (suc worker)) }
    ensures main { OnOk result (main.new ≡ main.old) }
{
    match main.split(rt, alloc) {
        Ok(seat) => {
            let number = seat.number();
            if number == worker + 1 {
                Ok(seat)
            } else {
                Err(WorkError::Refused)
            }
        }
        Err(SplitError::NoNumber) => Err(WorkError::Refused),
        Err(SplitError::NoMemory) => Err(WorkError::NoMemory),
    }
}

/// Lets `left` workers from `worker` on make their publishes, `count` each, at once; answers the main seat with the
/// seats of all of them joined. The seats are split from it in the order of the workers.
pub fn run_workers<R: Threads + Wait + Sync>(
    rt: &R,
    alloc: Global,
    mut main: Seated,
    worker: u64,
    left: u64,
    count: u64,
) -> Result<Seated, WorkError>
    requires { worker + left < 2 ^ 64 }
    ensures { IfOk result (λ done. AllWorked count worker left main done) }
{
    if left == 0 {
        return Ok(main);
    }
    let seat = seat_of(rt, alloc, &mut main, worker)?;
    let (one, others) = thread::join(
        rt,
        move ||
            requires { IsFresh seat (suc worker) }
            ensures { IfOk result (λ done. HasWorked worker count seat done) }
        { publish_all(rt, alloc, seat, worker, count) },
        move ||
            requires { (0 < left) × (worker + left < 2 ^ 64) }
            ensures { IfOk result (λ done. AllWorked count (worker + 1) (left - 1) main done) }
        { run_workers(rt, alloc, main, worker + 1, left - 1, count) },
    );
    let one = one?;
    let mut main = others?;
    main.join(one);
    Ok(main)
}
