//! Runs that are stopped before a turn: what is written is the trace before the least clock, and
//! says that it is partial. The cause that is returned is the number of the turn.

use crate::runs::{Model, PROCESSES, run_to_a_cause};
use dv_job::{EndedByWorkers, JobEnded, JobError, Why};
use dv_run::Watch;
use dv_time::Time;
use std::str;
use std::sync::Wait;
use std::sync::atomic::{AtomicU64, Ordering};
use std::thread::Threads;

/// The last turn before which a run is stopped; the first is 1.
const LAST_STOP: u64 = 50;

/// How many turns a whole run has at least: each process needs one to leave 0.0.
const FIRST_TURNS: u64 = 3;

/// Stops a run before one of its turns, with the number of the turn as the cause, and counts turns.
#[derive(Drop)]
struct Stopping {
    turns: AtomicU64,
    before: u64,
}

impl Watch for Stopping {
    type Cause = u64;

    fn before_turn(&self, _worker: usize, _process: u32, _clock: Time) -> Option<u64> {
        let turn = self.turns.fetch_add(1, Ordering::SeqCst).wrapping_add(1);
        if turn == self.before {
            Some(turn)
        } else {
            None
        }
    }

    fn after_turn(&self, _worker: usize, _process: u32, _clock: Time) {}
}

// The time that a word such as `12.3` spells.
fn time_of(word: &str) -> Option<Time> {
    let (tick, micro) = word.split_once('.')?;
    let tick = tick.parse().ok()?;
    let micro = micro.parse().ok()?;
    Some(Time { tick, micro })
}

// The clock in the line of a process, such as `process 0 clock 4.0`.
fn clock_of(line: &str) -> Option<Time> {
    let mut words = line.split(' ');
    if words.next() != Some("process") {
        return None;
    }
    time_of(words.nth(2)?)
}

// The least of the clocks in the lines of processes, or `None` if there are not as many lines as
// processes.
fn least_clock(text: &str) -> Option<Time> {
    let mut least = None;
    let mut count = 0u32;
    for clock in text.lines().filter_map(clock_of) {
        count = count.wrapping_add(1);
        if least.is_none_or(|one| clock.is_before(one)) {
            least = Some(clock);
        }
    }
    if count == PROCESSES { least } else { None }
}

// How many bytes of a trace are lines before a time.
fn length_before(trace: &str, time: Time) -> usize {
    let mut length = 0usize;
    for line in trace.lines() {
        let word = line.split(' ').next().unwrap_or("");
        match time_of(word) {
            Some(at) if at.is_before(time) => {
                length = length.saturating_add(line.len()).saturating_add(1);
            }
            _ => return length,
        }
    }
    length
}

// Whether a text is the lines of a trace before the least of its clocks, the clocks, and `partial`.
fn is_cut(text: &str, trace: &str) -> bool {
    let Some(least) = least_clock(text) else {
        return false;
    };
    let known = trace.get(..length_before(trace, least)).unwrap_or("");
    let Some(rest) = text.strip_prefix(known) else {
        return false;
    };
    rest.starts_with("process 0 clock ") && rest.ends_with("\npartial\n")
}

// Whether a run that was to stop before a turn ended rightly: it was stopped and cut, or it is
// whole, because it needed no more turns.
fn stops<R: AllocGlobal + Threads + Wait + Sync>(
    rt: &R,
    model: &Model<'_>,
    workers: u32,
    before: u64,
) -> bool {
    let stopping = Stopping {
        turns: AtomicU64::new(0),
        before,
    };
    let mut bytes = Vec::new(rt.alloc());
    let ended = run_to_a_cause(rt, model, workers, &stopping, &mut bytes);
    let was_asked = before <= stopping.turns.load(Ordering::SeqCst);
    let is_whole = is_whole(model, &ended, &bytes);
    if !was_asked || before > FIRST_TURNS && is_whole {
        return is_whole;
    }
    let (Ok(text), Ok(trace)) = (
        str::from_utf8(bytes.as_slice()),
        str::from_utf8(model.trace.as_slice()),
    ) else {
        return false;
    };
    is_stopped(ended, before) && is_cut(text, trace)
}

// Whether a run is whole.
fn is_whole(
    model: &Model<'_>,
    ended: &Result<EndedByWorkers<u64>, JobError>,
    bytes: &[u8],
) -> bool {
    match ended {
        Ok(ended) => model.is_trace(&Ok(ended.ended), bytes),
        Err(_) => false,
    }
}

// Whether a run was stopped before the turn with this number.
fn is_stopped(ended: Result<EndedByWorkers<u64>, JobError>, before: u64) -> bool {
    match ended {
        Ok(ended) => {
            ended.ended == JobEnded::Partial(Why::Stopped) && ended.into_cause() == Some(before)
        }
        Err(_) => false,
    }
}

/// Whether runs that are stopped before any of these turns end rightly, by one, two and three
/// workers.
pub fn do_all_stop<R: AllocGlobal + Threads + Wait + Sync>(rt: &R, model: &Model<'_>) -> bool {
    (1..=LAST_STOP).all(|before| (1..=3).all(|workers| stops(rt, model, workers, before)))
}
