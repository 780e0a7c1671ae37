//! A line that is written while the run goes on: the last turn is delayed until the first line is
//! written.

use crate::runs::{Model, run_by};
use crate::writers::Telling;
use dv_run::Watch;
use dv_time::Time;
use std::convert::Infallible;
use std::sync::Wait;
use std::sync::atomic::{AtomicBool, AtomicU64, Ordering};
use std::thread::{Threads, yield_now};

/// How often a delayed turn looks at most.
const MOST_LOOKS: u64 = 10_000_000;

/// Counts turns.
#[derive(Drop)]
struct Counter {
    turns: AtomicU64,
}

impl Watch for Counter {
    type Cause = Infallible;

    fn before_turn(&self, _worker: usize, _process: u32, _clock: Time) -> Option<Infallible> {
        self.turns.fetch_add(1, Ordering::SeqCst);
        None
    }

    fn after_turn(&self, _worker: usize, _process: u32, _clock: Time) {}
}

/// Delays one turn until a flag is raised, and gives up after so many looks.
#[derive(Drop)]
struct Holding<'f> {
    turns: AtomicU64,
    held: u64,
    told: &'f AtomicBool,
    gave_up: AtomicBool,
}

impl<'f> Watch for Holding<'f> {
    type Cause = Infallible;

    fn before_turn(&self, _worker: usize, _process: u32, _clock: Time) -> Option<Infallible> {
        let turn = self.turns.fetch_add(1, Ordering::SeqCst).wrapping_add(1);
        if turn == self.held && !comes(self.told) {
            self.gave_up.store(true, Ordering::SeqCst);
        }
        None
    }

    fn after_turn(&self, _worker: usize, _process: u32, _clock: Time) {}
}

/// Looks until a flag is raised, and returns whether it was.
pub fn comes(flag: &AtomicBool) -> bool {
    for _look in 0..MOST_LOOKS {
        if flag.load(Ordering::SeqCst) {
            return true;
        }
        yield_now();
    }
    false
}

/// Whether the first line of a run by one worker is written before its last turn, and the run is
/// whole.
pub fn comes_early<R: AllocGlobal + Threads + Wait + Sync>(rt: &R, model: &Model<'_>) -> bool {
    let counter = Counter {
        turns: AtomicU64::new(0),
    };
    let mut first = Vec::new(rt.alloc());
    let counted = run_by(rt, model, 1, &counter, &mut first);
    let told = AtomicBool::new(false);
    let holding = Holding {
        turns: AtomicU64::new(0),
        held: counter.turns.load(Ordering::SeqCst),
        told: &told,
        gave_up: AtomicBool::new(false),
    };
    let mut second = Telling {
        bytes: Vec::new(rt.alloc()),
        told: &told,
    };
    let held = run_by(rt, model, 1, &holding, &mut second);
    let is_early = !holding.gave_up.load(Ordering::SeqCst);
    is_early && model.is_trace(&counted, &first) && model.is_trace(&held, &second.bytes)
}
