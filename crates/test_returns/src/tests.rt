//! Runs that return.

use crate::ahead::Ahead;
use crate::models::{AHEAD, CLOCKS, RING};
use crate::run::Run;
use crate::turns::{NEVER, NONE, Turns};
use crate::writer::Late;
use dv_job::{EndedByWorkers, JobEnded, JobError, Why};
use std::process::Abort;
use std::sync::Wait;
use std::test::Fail;
use std::thread::Threads;
use std::time::Clock;

/// The numbers of workers for the ring, fewer and more than its processes, and the room of its
/// links.
const WORKERS_AND_CAPACITIES: [(u32, u32); 4] = [(2, 1), (2, 16), (4, 1), (4, 16)];

/// The numbers of workers for the clocks.
const WORKERS_OF_CLOCKS: [u32; 2] = [1, 2];

/// The clocks make some hundred rounds before they are held back, with a turn of each process in
/// each round.
const TURNS_OF_CLOCKS: u64 = 1_000 * 16;

/// The last turn before which a run is stopped.
const LAST_STOP: u64 = 20;

// Whether a run ended whole, and has this trace.
fn is_trace<C>(ended: &Result<EndedByWorkers<C>, JobError>, written: &[u8], trace: &[u8]) -> bool {
    match ended {
        Ok(ended) => ended.ended == JobEnded::Whole && written == trace,
        Err(_) => false,
    }
}

// The ring, with a process for each component.
fn ring(horizon: u64, workers: u32, capacity: u32) -> Run {
    Run {
        model: RING,
        horizon,
        processes: 3,
        workers,
        capacity,
    }
}

// Whether a short run of the ring returns with its whole trace, if one of its processes is slow, or
// none.
fn is_whole<R: AllocGlobal + Abort + Clock + Threads + Wait + Sync>(
    rt: &R,
    workers: u32,
    capacity: u32,
    slow: u32,
) -> bool {
    let run = ring(10, workers, capacity);
    let turns = Turns::new(rt, slow, NEVER);
    let mut bytes = Vec::new(rt.alloc());
    let ended = run.returns(rt, &turns, &mut bytes);
    let trace = run.trace(rt.alloc());
    is_trace(&ended, &bytes, &trace)
}

#[test]
fn a_packet_or_room_for_one_wakes_who_waits_for_it(rt: HostRuntime) -> Result<(), Fail> {
    for (workers, capacity) in WORKERS_AND_CAPACITIES {
        assert!(rt;
            [0, 1, 2, NONE]
                .iter()
                .all(|slow| is_whole(&rt, workers, capacity, *slow)),
            "by {workers} workers on links that hold {capacity}"
        );
    }
    Ok(())
}

#[test]
fn a_process_that_runs_ahead_tells_its_clock(rt: HostRuntime) -> Result<(), Fail> {
    let run = Run {
        model: AHEAD,
        horizon: 1_000,
        processes: 2,
        workers: 2,
        capacity: 16,
    };
    let ahead = Ahead::new(&rt);
    let mut bytes = Vec::new(rt.alloc());
    let ended = run.returns(&rt, &ahead, &mut bytes);
    let trace = run.trace(rt.alloc());
    assert!(rt; ahead.has_held());
    assert!(rt; is_trace(&ended, &bytes, &trace));
    Ok(())
}

// Whether a run that would take very long is stopped before a turn, and returns.
fn is_stopped<R: AllocGlobal + Abort + Clock + Threads + Wait + Sync>(
    rt: &R,
    workers: u32,
    stop: u64,
) -> bool {
    let run = ring(1_000_000_000, workers, 16);
    let turns = Turns::new(rt, NONE, stop);
    let mut bytes = Vec::new(rt.alloc());
    let ended = run.returns(rt, &turns, &mut bytes);
    match ended {
        Ok(ended) => {
            ended.ended == JobEnded::Partial(Why::Stopped)
                && ended.halts.len() == workers as usize
                && ended.into_cause() == Some(stop)
        }
        Err(_) => false,
    }
}

#[test]
fn a_stop_before_a_turn_ends_all_workers(rt: HostRuntime) -> Result<(), Fail> {
    assert!(rt; (1..=LAST_STOP).all(|stop| is_stopped(&rt, 2, stop)));
    assert!(rt; (1..=LAST_STOP).all(|stop| is_stopped(&rt, 4, stop)));
    Ok(())
}

// The clocks, whose lines wait for the writer until there are too many.
fn clocks(horizon: u64, workers: u32) -> Run {
    Run {
        model: CLOCKS,
        horizon,
        processes: 16,
        workers,
        capacity: 16,
    }
}

#[test]
fn what_is_written_wakes_who_is_held_back(rt: HostRuntime) -> Result<(), Fail> {
    for workers in WORKERS_OF_CLOCKS {
        let run = clocks(1_000, workers);
        let turns = Turns::new(&rt, NONE, NEVER);
        let mut writer = Late::new(&rt, rt.alloc(), &turns.begun, false);
        let ended = run.returns(&rt, &turns, &mut writer);
        let trace = run.trace(rt.alloc());
        assert!(rt;
            is_trace(&ended, &writer.bytes, &trace),
            "by {workers} workers"
        );
    }
    Ok(())
}

#[test]
fn a_write_that_fails_wakes_who_is_held_back(rt: HostRuntime) -> Result<(), Fail> {
    for workers in WORKERS_OF_CLOCKS {
        let run = clocks(1_000_000_000, workers);
        let turns = Turns::new(&rt, NONE, NEVER);
        let mut writer = Late::new(&rt, rt.alloc(), &turns.begun, true);
        let ended = run.returns(&rt, &turns, &mut writer);
        assert!(rt;
            writer.turns < TURNS_OF_CLOCKS && matches!(ended, Err(JobError::Write)),
            "by {workers} workers"
        );
    }
    Ok(())
}
