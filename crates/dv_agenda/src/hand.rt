//! The components that are due, and in no slot of the wheel.

ghost use Rattle.std.specs.Prelude.{◌≡◌, ◌↔◌, IsTrue, Some};
ghost use Rattle.dv_time.specs.Time.{earliest};

use crate::wait::is_same;
use dv_time::{Time, earliest};

/// The components that were due at the first wait and whose waits have not changed since.
#[derive(Clone, Copy)]
pub(crate) struct Hand {
    /// The time that they wait for.
    pub(crate) time: Time,
    /// How many they are.
    pub(crate) left: usize,
}

impl Hand {
    /// No component.
    pub(crate) fn empty() -> Self
        ensures { result.left ≡ 0 }
    {
        Hand {
            time: Time::ZERO,
            left: 0,
        }
    }
}

/// Whether a wait ends at or before a time.
#[inline]
pub(crate) fn is_up_to(wait: Option<Time>, time: Time) -> bool
    ensures { IsTrue result ↔ (wait ≡ earliest wait (Some time)) }
{
    match wait {
        Some(end) => end.tick <= time.tick && !time.is_before(end),
        None => false,
    }
}
