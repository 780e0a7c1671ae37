//! Watches the turns of processes.

use dv_time::Time;
use std::convert::Infallible;

/// Watches the turns that workers make, and may stop their run.
///
/// A worker calls it before and after each of its turns, with no lock held. It may delay that
/// worker, or stop the run for a cause, and it changes nothing else.
pub trait Watch: Sync {
    /// Why a run is stopped.
    type Cause: Send + Drop;

    /// A worker is about to make a turn of this process, whose clock is `clock`. A cause stops
    /// the run: the turn is not made, and each worker ends before its next turn.
    fn before_turn(&self, worker: usize, process: u32, clock: Time) -> Option<Self::Cause>;

    /// The worker made the turn, and `clock` is the clock of the process after it.
    fn after_turn(&self, worker: usize, process: u32, clock: Time);
}

/// Watches nothing, so that no run is stopped.
#[derive(Drop)]
pub struct Unwatched;

impl Watch for Unwatched {
    type Cause = Infallible;

    fn before_turn(&self, _worker: usize, _process: u32, _clock: Time) -> Option<Infallible> {
        None
    }

    fn after_turn(&self, _worker: usize, _process: u32, _clock: Time) {}
}
