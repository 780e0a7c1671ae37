//! The job that two processes without components run.

use dv_core::PlannedJob;
use dv_proc::Frame;

/// Until when they run, and their response in ticks.
#[derive(Drop)]
pub struct RingJob {
    /// The microstep limit and the last tick of the run.
    pub frame: Frame,
    /// The response of each process, in ticks.
    pub ticks: u32,
}

impl PlannedJob for RingJob {
    ghost use Rattle.test_ring.specs.Ring.{job_of};

    ghost means = { job_of };

    fn horizon(&self) -> u64 {
        self.frame.horizon
    }
}
