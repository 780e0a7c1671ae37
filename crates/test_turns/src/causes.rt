//! The cause that a stopped run returns: that of the worker that was given one, and of two causes
//! that of worker 0.

use crate::first_line::comes;
use crate::runs::{Model, run_to_a_cause};
use dv_job::{EndedByWorkers, JobEnded, JobError, Why};
use dv_run::Watch;
use dv_time::Time;
use std::sync::Wait;
use std::sync::atomic::{AtomicBool, Ordering};
use std::thread::Threads;

/// Where a run is stopped: before a turn of this process, at this clock.
#[derive(Clone, Copy, PartialEq, Eq)]
struct Moment {
    process: u32,
    clock: Time,
}

/// Stops a run at one moment.
#[derive(Drop)]
struct StopsAt {
    moment: Moment,
}

impl Watch for StopsAt {
    type Cause = Moment;

    fn before_turn(&self, _worker: usize, process: u32, clock: Time) -> Option<Moment> {
        let here = Moment { process, clock };
        if here == self.moment {
            Some(here)
        } else {
            None
        }
    }

    fn after_turn(&self, _worker: usize, _process: u32, _clock: Time) {}
}

/// Stops two workers before their first turns, once both have come there.
#[derive(Drop)]
struct StopsBoth {
    first_came: AtomicBool,
    second_came: AtomicBool,
    failed: AtomicBool,
}

impl StopsBoth {
    // A worker has come to its first turn, and waits until the other one has.
    fn meet(&self, own: &AtomicBool, other: &AtomicBool) {
        own.store(true, Ordering::SeqCst);
        if !comes(other) {
            self.failed.store(true, Ordering::SeqCst);
        }
    }
}

impl Watch for StopsBoth {
    type Cause = Moment;

    fn before_turn(&self, worker: usize, process: u32, clock: Time) -> Option<Moment> {
        if worker == 0 {
            self.meet(&self.first_came, &self.second_came);
        } else {
            self.meet(&self.second_came, &self.first_came);
        }
        Some(Moment { process, clock })
    }

    fn after_turn(&self, _worker: usize, _process: u32, _clock: Time) {}
}

// Whether a run was stopped at a moment.
fn is_stopped_at(ended: Result<EndedByWorkers<Moment>, JobError>, moment: Moment) -> bool {
    match ended {
        Ok(ended) => {
            ended.ended == JobEnded::Partial(Why::Stopped) && ended.into_cause() == Some(moment)
        }
        Err(_) => false,
    }
}

// Whether a run by two workers that is stopped at a moment returns it.
fn tells_moment<R: AllocGlobal + Threads + Wait + Sync>(
    rt: &R,
    model: &Model<'_>,
    moment: Moment,
) -> bool {
    let mut bytes = Vec::new(rt.alloc());
    let ended = run_to_a_cause(rt, model, 2, &StopsAt { moment }, &mut bytes);
    is_stopped_at(ended, moment)
}

// Whether a run by two workers, both of which are stopped, returns the moment of worker 0, whose
// first process is 0.
fn tells_first<R: AllocGlobal + Threads + Wait + Sync>(rt: &R, model: &Model<'_>) -> bool {
    let both = StopsBoth {
        first_came: AtomicBool::new(false),
        second_came: AtomicBool::new(false),
        failed: AtomicBool::new(false),
    };
    let mut bytes = Vec::new(rt.alloc());
    let ended = run_to_a_cause(rt, model, 2, &both, &mut bytes);
    let moment = Moment {
        process: 0,
        clock: Time::ZERO,
    };
    !both.failed.load(Ordering::SeqCst) && is_stopped_at(ended, moment)
}

/// Whether stopped runs return these causes. Worker 0 owns the processes 0 and 2, and worker 1 owns
/// process 1. The first turns of the processes 0 and 1 lead to tick 5, since nothing arrives there.
pub fn are_told<R: AllocGlobal + Threads + Wait + Sync>(rt: &R, model: &Model<'_>) -> bool {
    let clock = Time { tick: 5, micro: 0 };
    let of_first = tells_moment(rt, model, Moment { process: 0, clock });
    let of_second = tells_moment(rt, model, Moment { process: 1, clock });
    of_first && of_second && tells_first(rt, model)
}
