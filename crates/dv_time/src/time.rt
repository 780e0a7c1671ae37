//! Times, the next time, and when a hold ends.

ghost use Rattle.std.specs.Prelude.{◌≡◌, ◌+◌, ◌^◌, ◌<◌, ◌≤◌, ℕ, Some, nat_lt};
ghost use Rattle.std.proofs.Common.{rules};
ghost use Rattle.std.specs.Cmp.{partial_order_from_own_ties};
ghost use Rattle.std.specs.Cmp.Rules.{comparing};
ghost use Rattle.dv_time.specs.Time.{IsOfRun, after, earliest, is_before, rank, succ, time_cmp};
ghost use Rattle.dv_time.specs.Limits.{greatest_tick};

use std::cmp::Ordering;
use std::fmt;

/// A time of a simulation: a tick and a microstep within it.
#[derive(Clone, Copy, PartialEq, Eq, Hash)]
pub struct Time {
    /// The whole ticks since the start.
    pub tick: u64,
    /// The microsteps since the tick began.
    pub micro: u32,
}

/// When something happens next.
#[derive(Clone, Copy, PartialEq, Eq)]
pub enum Next {
    /// It happens at this time.
    At(Time),
    /// It does not happen.
    Never,
}

/// A hold of 0 at the last microstep that the limit allows.
#[derive(Clone, Copy, PartialEq, Eq)]
pub struct Microsteps;

impl Time {
    /// The start of every simulation, 0.0.
    pub const ZERO: Time = Time { tick: 0, micro: 0 };

    /// The next time: the next microstep where the limit allows one, else the next tick.
    pub fn succ(self, limit: u32) -> Time
        requires { self.tick ≤ greatest_tick + 1 }
        ensures { result ≡ succ limit self }
    {
        if self.micro < limit {
            Time {
                tick: self.tick,
                micro: self.micro + 1,
            }
        } else {
            Time {
                tick: self.tick + 1,
                micro: 0,
            }
        }
    }

    /// When a hold of `hold` ticks that begins now ends.
    ///
    /// # Errors
    ///
    /// `Microsteps` for a hold of 0 at the last microstep of the tick.
    pub fn after(self, hold: u64, limit: u32) -> Result<Time, Microsteps>
        requires tick { self.tick ≤ greatest_tick + 1 }
        requires hold { hold < 2 ^ 63 }
        ensures { result ≡ after limit self hold }
    {
        if hold > 0 {
            Ok(Time {
                tick: self.tick + hold,
                micro: 0,
            })
        } else if self.micro < limit {
            Ok(Time {
                tick: self.tick,
                micro: self.micro + 1,
            })
        } else {
            Err(Microsteps)
        }
    }

    /// Whether this time is before another: the same as `<`.
    #[inline]
    pub fn is_before(self, other: Time) -> bool
        ensures order { result ≡ is_before self other }
        ensures rank { (limit : ℕ) → IsOfRun limit self → IsOfRun limit other
            → result ≡ nat_lt (rank limit self) (rank limit other) }
    {
        precedes(self, other)
    }
}

// Compares without a branch: which of two times is the earlier one cannot be predicted.
#[inline]
fn precedes(one: Time, other: Time) -> bool
    ensures { result ≡ is_before one other }
{
    (one.tick < other.tick) | ((one.tick == other.tick) & (one.micro < other.micro))
}

/// The earlier of two times, where `None` is never.
#[inline]
pub fn earliest(one: Option<Time>, other: Option<Time>) -> Option<Time>
    ensures { result ≡ earliest one other }
{
    match (one, other) {
        (Some(time), Some(rival)) => { if rival.is_before(time) { other } else { one } }
        (Some(_), None) => one,
        (None, _) => other,
    }
}

impl PartialOrd for Time {
    ghost partial_cmp = { λ a b. Some (time_cmp a b) };

    ghost laws = { partial_order_from_own_ties (Prim.search (comparing, rules))
        (Prim.search (comparing, rules)) };

    fn partial_cmp(&self, other: &Self) -> Option<Ordering> {
        Some(self.cmp(other))
    }
}

impl Ord for Time {
    ghost cmp = { time_cmp };

    ghost total = { Prim.search (comparing, rules) };

    ghost matches_partial_cmp = { Prim.search (comparing, rules) };

    ghost matches_eq = { Prim.search (comparing, rules) };

    fn cmp(&self, other: &Self) -> Ordering {
        self.tick
            .cmp(&other.tick)
            .then(self.micro.cmp(&other.micro))
    }
}

impl fmt::Display for Time {
    ghost use Rattle.std.specs.Prelude.{Some};
    ghost use Rattle.dv_time.specs.Time.{time_text};

    ghost output = { λ t. Some (time_text t) };

    fn fmt<W: fmt::Write>(&self, f: &mut fmt::Formatter<W>) -> fmt::Result {
        write!(f, "{}.{}", self.tick, self.micro)
    }
}
