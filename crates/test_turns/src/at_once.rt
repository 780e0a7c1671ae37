//! Two workers that make their first turns at the same time: each waits in its first turn until the
//! other one is in its own, and worker 0 also until the process of worker 1 is at the end.

use crate::first_line::comes;
use crate::runs::{Model, run_by};
use dv_run::Watch;
use dv_time::Time;
use std::convert::Infallible;
use std::sync::Wait;
use std::sync::atomic::{AtomicBool, Ordering};
use std::thread::Threads;

/// Whether each of two workers has come to its first turn, and whether process 1 is at the end.
#[derive(Drop)]
struct Meeting {
    first_came: AtomicBool,
    second_came: AtomicBool,
    one_ended: AtomicBool,
    failed: AtomicBool,
}

impl Meeting {
    fn new() -> Meeting {
        Meeting {
            first_came: AtomicBool::new(false),
            second_came: AtomicBool::new(false),
            one_ended: AtomicBool::new(false),
            failed: AtomicBool::new(false),
        }
    }

    // Fails the meeting if a condition does not hold.
    fn wants(&self, holds: bool) {
        if !holds {
            self.failed.store(true, Ordering::SeqCst);
        }
    }

    // The first turn of worker 0, which owns the processes 0 and 2.
    fn meet_second(&self, clock: Time) {
        self.wants(clock == Time::ZERO);
        self.wants(comes(&self.second_came));
        self.wants(comes(&self.one_ended));
    }

    // The first turn of worker 1, which owns process 1.
    fn meet_first(&self, clock: Time) {
        self.wants(clock == Time::ZERO);
        self.wants(comes(&self.first_came));
    }
}

impl Watch for Meeting {
    type Cause = Infallible;

    fn before_turn(&self, worker: usize, _process: u32, clock: Time) -> Option<Infallible> {
        let came = if worker == 0 {
            &self.first_came
        } else {
            &self.second_came
        };
        if came.swap(true, Ordering::SeqCst) {
            return None;
        }
        if worker == 0 {
            self.meet_second(clock);
        } else {
            self.meet_first(clock);
        }
        None
    }

    fn after_turn(&self, _worker: usize, process: u32, clock: Time) {
        let end = Time { tick: 11, micro: 0 };
        if process == 1 && clock == end {
            self.one_ended.store(true, Ordering::SeqCst);
        }
    }
}

/// Whether two workers are in their first turns at the same time, one of them until a process of
/// the other is at the end, and the run is whole.
pub fn are_beside<R: AllocGlobal + Threads + Wait + Sync>(rt: &R, model: &Model<'_>) -> bool {
    let meeting = Meeting::new();
    let mut bytes = Vec::new(rt.alloc());
    let ended = run_by(rt, model, 2, &meeting, &mut bytes);
    !meeting.failed.load(Ordering::SeqCst) && model.is_trace(&ended, &bytes)
}
