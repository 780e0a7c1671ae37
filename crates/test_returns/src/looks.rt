//! Pauses, and looks that come to an end.

use std::sync::atomic::{AtomicBool, AtomicU64, Ordering};
use std::thread::sleep;
use std::time::{Clock, Duration};

// How often a thread looks at most whether a run returns. All looks take more than twenty seconds,
// many times as long as a run here.
const MOST_LOOKS_FOR_A_RETURN: u32 = 4_000;

// How often a thread looks at most for a while without turns.
const MOST_LOOKS_FOR_REST: u32 = 100;

// Sleeps for so many milliseconds, or longer if other threads need the processor.
fn rest<R: Clock>(rt: &R, milliseconds: u64) {
    sleep(rt, Duration::from_millis(milliseconds));
}

/// Waits longer than a worker with nothing to do needs to fall asleep.
pub fn pause<R: Clock>(rt: &R) {
    rest(rt, 3);
}

/// Looks until a flag is raised, and returns whether it was.
pub fn comes<R: Clock>(rt: &R, flag: &AtomicBool) -> bool {
    for _look in 0..MOST_LOOKS_FOR_A_RETURN {
        if flag.load(Ordering::SeqCst) {
            return true;
        }
        rest(rt, 5);
    }
    false
}

/// Looks until no turn begins for a while, and returns how many began before.
pub fn turns_before_rest<R: Clock>(rt: &R, begun: &AtomicU64) -> u64 {
    let first = begun.load(Ordering::SeqCst);
    let mut before = first;
    for _look in 0..MOST_LOOKS_FOR_REST {
        rest(rt, 50);
        let now = begun.load(Ordering::SeqCst);
        if now == before {
            break;
        }
        before = now;
    }
    before.wrapping_sub(first)
}
