//! The frame of a run, and the tests of a packet that arrives.

ghost use Rattle.std.specs.Prelude.{◌≡◌, ◌≤◌, ◌&&◌, nat_le, nat_lt};
ghost use Rattle.dv_conservative.specs.Process.{are_in_order};
ghost use Rattle.dv_conservative.specs.Events.{same_time};
ghost use Rattle.dv_time.specs.Time.{IsOfRun, end_of, rank};
ghost use Rattle.dv_time.specs.Limits.{greatest_limit, greatest_tick};
ghost use Rattle.dv_proc.specs.Packets.{meant_events};

use crate::packet::Event;
use dv_time::Time;

/// The frame of a run.
#[derive(Clone, Copy)]
pub struct Frame {
    /// The greatest microstep of a tick.
    pub limit: u32,
    /// The last tick of the run.
    pub horizon: u64,
    ghost limited: { limit ≤ greatest_limit },
    ghost near: { horizon ≤ greatest_tick },
}

impl Frame {
    /// The end of the run: the first time past the horizon.
    pub fn end(&self) -> Time
        ensures rank { rank self.now.limit result ≡ end_of self.now.limit self.now.horizon }
        ensures of_run { IsOfRun self.now.limit result }
    {
        Time {
            tick: self.horizon + 1,
            micro: 0,
        }
    }

    /// Whether a window that begins at a time of the run is valid: it ends later, not past the end,
    /// and within the microstep limit.
    pub fn is_window(&self, from: Time, upto: Time) -> bool
        requires { IsOfRun self.now.limit from }
        ensures { result ≡ (nat_lt (rank self.now.limit from) (rank self.now.limit upto)
            && (nat_le (rank self.now.limit upto) (end_of self.now.limit self.now.horizon)
            && nat_le upto.micro self.now.limit)) }
    {
        upto.micro <= self.limit && from.is_before(upto) && !self.end().is_before(upto)
    }

    /// Whether a time is in a window, and its microstep within the limit.
    pub fn is_within(&self, from: Time, upto: Time, time: Time) -> bool
        requires from { IsOfRun self.now.limit from }
        requires upto { IsOfRun self.now.limit upto }
        ensures { result ≡ (nat_le time.micro self.now.limit
            && (nat_le (rank self.now.limit from) (rank self.now.limit time)
            && nat_lt (rank self.now.limit time) (rank self.now.limit upto))) }
    {
        time.micro <= self.limit && !time.is_before(from) && time.is_before(upto)
    }
}

/// Whether two times are the same.
pub fn is_same(time: Time, other: Time) -> bool
    ensures { result ≡ same_time time other }
{
    time.tick == other.tick && time.micro == other.micro
}

/// Whether each event is after the one before it, so that none occurs twice.
pub fn are_in_order(events: &[Event]) -> bool
    ensures { result ≡ are_in_order (meant_events events.now) }
{
    let Some((first, others)) = events.split_first() else {
        return true;
    };
    let mut last = first;
    for event in others {
        if !last.precedes(event) {
            return false;
        }
        last = event;
    }
    true
}
