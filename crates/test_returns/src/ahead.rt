//! A watch that delays a process that runs ahead.

use crate::looks::comes;
use dv_run::Watch;
use dv_time::Time;
use std::convert::Infallible;
use std::sync::atomic::{AtomicBool, Ordering};
use std::time::Clock;

/// Before this tick, process 0 has sent its clock in some round.
const HELD_TICK: u64 = 500;

/// Process 1 comes to this tick only by null messages of process 0.
const TOLD_TICK: u64 = 5;

/// Delays process 0, to which no link leads, at a tick until process 1 has come to an earlier one.
#[derive(Drop)]
pub struct Ahead<'r, R> {
    rt: &'r R,
    came: AtomicBool,
    was_held: AtomicBool,
    failed: AtomicBool,
}

impl<'r, R: Clock> Ahead<'r, R> {
    /// A watch before the first turn.
    pub fn new(rt: &'r R) -> Self {
        Ahead {
            rt,
            came: AtomicBool::new(false),
            was_held: AtomicBool::new(false),
            failed: AtomicBool::new(false),
        }
    }

    /// Whether process 0 was delayed, and process 1 came.
    pub fn has_held(&self) -> bool {
        self.was_held.load(Ordering::SeqCst) && !self.failed.load(Ordering::SeqCst)
    }

    // Waits, the first time, until process 1 has come, but not longer than the looks for it take.
    fn hold(&self) {
        if self.was_held.swap(true, Ordering::SeqCst) {
            return;
        }
        if !comes(self.rt, &self.came) {
            self.failed.store(true, Ordering::SeqCst);
        }
    }
}

impl<'r, R: Clock + Sync> Watch for Ahead<'r, R> {
    type Cause = Infallible;

    fn before_turn(&self, _worker: usize, process: u32, clock: Time) -> Option<Infallible> {
        if process == 0 && clock.tick >= HELD_TICK {
            self.hold();
        }
        if process == 1 && clock.tick >= TOLD_TICK {
            self.came.store(true, Ordering::SeqCst);
        }
        None
    }

    fn after_turn(&self, _worker: usize, _process: u32, _clock: Time) {}
}
