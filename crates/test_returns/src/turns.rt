//! A watch that counts turns, is slow before some, and stops a run.

use crate::looks::pause;
use dv_run::Watch;
use dv_time::Time;
use std::sync::atomic::{AtomicU64, Ordering};
use std::time::Clock;

/// A number of turns that no run here reaches.
pub const NEVER: u64 = u64::MAX;

/// No process is slow.
pub const NONE: u32 = u32::MAX;

/// Counts turns, is slow before those of one process, and stops the run before one of them, with
/// its number as the cause. It is slow before that one, too.
#[derive(Drop)]
pub struct Turns<'r, R> {
    rt: &'r R,
    /// How many turns began.
    pub begun: AtomicU64,
    slow: u32,
    stop: u64,
}

impl<'r, R: Clock> Turns<'r, R> {
    /// A watch that is slow before the turns of process `slow`, and stops the run before the turn
    /// with the number `stop`; the first one is 1.
    pub fn new(rt: &'r R, slow: u32, stop: u64) -> Self {
        Turns {
            rt,
            begun: AtomicU64::new(0),
            slow,
            stop,
        }
    }
}

impl<'r, R: Clock + Sync> Watch for Turns<'r, R> {
    type Cause = u64;

    fn before_turn(&self, _worker: usize, process: u32, _clock: Time) -> Option<u64> {
        let turn = self.begun.fetch_add(1, Ordering::SeqCst).wrapping_add(1);
        if process == self.slow || turn == self.stop {
            pause(self.rt);
        }
        if turn == self.stop { Some(turn) } else { None }
    }

    fn after_turn(&self, _worker: usize, _process: u32, _clock: Time) {}
}
