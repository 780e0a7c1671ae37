//! Superdense time: a `Time` is a tick and a microstep within it, in dictionary order.
//!
//! Under a microstep limit the times of a run correspond to the natural numbers, in order. `rank`
//! is that number. Definitions that go over all times go over ranks, and a law says that `Ord` of
//! times is the order of their ranks. `after` says when a hold ends: a positive hold ends at the
//! start of a later tick, and a hold of 0 at the next microstep, unless the limit forbids it.
//!
//! Almost every crate uses this one: for the times of instants, inputs, packets and lines, and for
//! the limits `GREATEST_TICK` and `GREATEST_LIMIT`. Nothing here knows what happens at a time.
#![tactic(auto)]

/// Laws of times and of ranks.
pub mod laws;
/// Times, the next time, and when a hold ends.
pub mod time;

pub use time::{Microsteps, Next, Time, earliest};

/// The greatest tick of a horizon or of an input.
pub const GREATEST_TICK: u64 = 1_000_000_000_000_000;

/// The greatest microstep limit of a run.
pub const GREATEST_LIMIT: u32 = 1_000;
