//! Which worker makes a turn: process p belongs to worker p mod the number of workers.

use crate::runs::{Model, PROCESSES, run_by};
use dv_run::Watch;
use dv_time::Time;
use std::convert::Infallible;
use std::sync::Wait;
use std::sync::atomic::{AtomicBool, AtomicU32, Ordering};
use std::thread::Threads;

/// The greatest number of workers, which is more than there are processes.
const MOST_WORKERS: u32 = 4;

/// Checks at each turn that the worker owns the process, and counts the turns.
#[derive(Drop)]
struct Owners {
    workers: u32,
    turns: AtomicU32,
    differs: AtomicBool,
}

impl Owners {
    fn look(&self, worker: usize, process: u32) {
        let owner = process.checked_rem(self.workers);
        if owner.map(|owner| owner as usize) != Some(worker) {
            self.differs.store(true, Ordering::SeqCst);
        }
    }
}

impl Watch for Owners {
    type Cause = Infallible;

    fn before_turn(&self, worker: usize, process: u32, _clock: Time) -> Option<Infallible> {
        self.turns.fetch_add(1, Ordering::SeqCst);
        self.look(worker, process);
        None
    }

    fn after_turn(&self, worker: usize, process: u32, _clock: Time) {
        self.look(worker, process);
    }
}

// Whether each turn of a whole run is made by the worker that owns the process.
fn is_own<R: AllocGlobal + Threads + Wait + Sync>(rt: &R, model: &Model<'_>, workers: u32) -> bool {
    let owners = Owners {
        workers,
        turns: AtomicU32::new(0),
        differs: AtomicBool::new(false),
    };
    let mut bytes = Vec::new(rt.alloc());
    let ended = run_by(rt, model, workers, &owners, &mut bytes);
    let differs = owners.differs.load(Ordering::SeqCst);
    let turns = owners.turns.load(Ordering::SeqCst);
    !differs && turns >= PROCESSES && model.is_trace(&ended, &bytes)
}

/// Whether the owner makes each turn, by one worker up to more workers than processes.
pub fn are_own<R: AllocGlobal + Threads + Wait + Sync>(rt: &R, model: &Model<'_>) -> bool {
    (1..=MOST_WORKERS).all(|workers| is_own(rt, model, workers))
}
