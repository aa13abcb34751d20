//! Where a half of a link waits for the job that uses it, and comes back to.
use std::sync::{Condvar, Mutex, Wait};

/// A half of a link, lent to a job and given back. Who lends it can take it back as long as the job did not begin.
#[derive(Drop)]
pub struct Bay<T> {
    going: Mutex<Option<T>>,
    back: Mutex<Option<T>>,
    came: Condvar,
}

impl<T: Drop> Bay<T> {
    /// It holds nothing yet.
    pub fn new() -> Bay<T> {
        Bay {
            going: Mutex::new(None),
            back: Mutex::new(None),
            came: Condvar::new(),
        }
    }

    /// Lends this half.
    pub fn lend<R: Wait>(&self, rt: &R, half: T) {
        let mut guard = self.going.lock(rt);
        *guard = Some(half);
    }

    /// The half, if no one has taken it yet.
    pub fn take<R: Wait>(&self, rt: &R) -> Option<T> {
        self.going.lock(rt).take()
    }

    /// Gives the half back.
    pub fn give_back<R: Wait>(&self, rt: &R, half: T) {
        let mut guard = self.back.lock(rt);
        *guard = Some(half);
        drop(guard);
        self.came.notify_all();
    }

    /// The half, once it was given back. It waits for that.
    pub fn wait_for<R: Wait>(&self, rt: &R) -> T {
        let mut guard = self.back.lock(rt);
        for _ in rt.forever() {
            if let Some(half) = guard.take() {
                return half;
            }
            guard = self.came.wait(rt, guard);
        }
        unreachable!()
    }
}
