//! What is not proved: that the definitions say what is meant.

ghost use Rattle.std.specs.Prelude.{◌≡◌};

use crate::compare::same;
use dv_time::{Microsteps, Time};

/// A time by its tick and its microstep.
pub fn at(tick: u64, micro: u32) -> Time
    ensures tick { result.tick ≡ tick }
    ensures micro { result.micro ≡ micro }
{
    Time { tick, micro }
}

#[test]
fn a_microstep_follows_up_to_the_limit(rt: HostRuntime) {
    same!(rt; Time::ZERO.succ(1), at(0, 1));
    same!(rt; at(0, 1).succ(1), at(1, 0));
    same!(rt; at(1_000_000_000_000_001, 1_000).succ(1_000), at(1_000_000_000_000_002, 0));
}

// A hold of nothing takes a microstep; another ends at the start of a tick.
#[test]
fn holds_end_behind_the_times_at_which_they_begin(rt: HostRuntime) {
    same!(rt; at(7, 2).after(0, 3), Ok(at(7, 3)));
    same!(rt; at(7, 3).after(0, 3), Err(Microsteps));
    same!(rt; at(7, 3).after(1, 3), Ok(at(8, 0)));
    let longest = 9_223_372_036_854_775_807;
    let last = at(1_000_000_000_000_001, 0);
    same!(rt; last.after(longest, 3), Ok(at(9_224_372_036_854_775_808, 0)));
}

// Times are ordered by tick first, and shown with a point.
#[test]
fn a_time_has_a_tick_and_a_microstep(rt: HostRuntime) {
    same!(rt; at(1, 9) < at(2, 0), true);
    same!(rt; at(2, 0) < at(2, 1), true);
    same!(rt; at(2, 1) < at(2, 1), false);
    let shown = format!(in rt.alloc(); "{}", at(5, 10)).expect(&rt, "memory");
    same!(rt; shown.as_str(), "5.10");
}
