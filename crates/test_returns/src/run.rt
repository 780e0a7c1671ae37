//! A run, beside a thread that looks whether it returns.

use crate::looks::comes;
use dv_job::{EndedByWorkers, JobError, Options, run_plain, run_watched};
use dv_partition::Partition;
use dv_run::Watch;
use std::alloc::Global;
use std::io::Write;
use std::process::Abort;
use std::sync::Wait;
use std::sync::atomic::{AtomicBool, Ordering};
use std::thread::{Threads, join_mut};
use std::time::Clock;

/// A run of a model by workers.
#[derive(Clone, Copy)]
pub struct Run {
    /// The text of the model.
    pub model: &'static str,
    /// The last tick of the run.
    pub horizon: u64,
    /// How many processes there are.
    pub processes: u32,
    /// How many workers there are.
    pub workers: u32,
    /// How many packets a link has room for.
    pub capacity: u32,
}

impl Run {
    fn options(&self) -> Option<Options> {
        Options::new(self.horizon, 20, Some(self.workers), None, self.capacity)
    }

    /// The text of the trace, by the plain run.
    pub fn trace(&self, alloc: Global) -> Vec<u8> {
        let mut trace = Vec::new(alloc);
        if let Some(options) = self.options() {
            let _ended = run_plain(alloc, self.model.as_bytes(), b"", &options, &mut trace);
        }
        trace
    }

    // Runs the model by workers.
    fn work<R: AllocGlobal + Threads + Wait + Sync, G: Watch, W: Write>(
        &self,
        rt: &R,
        watch: &G,
        writer: &mut W,
    ) -> Result<EndedByWorkers<G::Cause>, JobError> {
        let Some(options) = self.options() else {
            return Err(JobError::Memory);
        };
        run_watched(
            rt,
            self.model.as_bytes(),
            b"",
            Partition::Count(self.processes),
            &options,
            watch,
            writer,
        )
    }

    /// Runs the model by workers. If the run does not return, the test fails.
    pub fn returns<R: AllocGlobal + Abort + Clock + Threads + Wait + Sync, G: Watch, W: Write>(
        &self,
        rt: &R,
        watch: &G,
        writer: &mut W,
    ) -> Result<EndedByWorkers<G::Cause>, JobError> {
        let returned = AtomicBool::new(false);
        work_beside(rt, *self, &returned, watch, writer)
    }
}

// Fails the test if a flag is not raised.
fn look_for<R: Abort + Clock>(rt: &R, returned: &AtomicBool, workers: u32) {
    assert!(rt; comes(rt, returned), "no return by {workers} workers");
}

// Runs the model by workers, and then raises a flag.
fn work_and_tell<R: AllocGlobal + Threads + Wait + Sync, G: Watch, W: Write>(
    rt: &R,
    run: Run,
    returned: &AtomicBool,
    watch: &G,
    writer: &mut W,
) -> Result<EndedByWorkers<G::Cause>, JobError> {
    let ended = run.work(rt, watch, writer);
    returned.store(true, Ordering::SeqCst);
    ended
}

// Runs the model by workers, beside a thread that looks whether the run returns.
fn work_beside<R: AllocGlobal + Abort + Clock + Threads + Wait + Sync, G: Watch, W: Write>(
    rt: &R,
    run: Run,
    returned: &AtomicBool,
    watch: &G,
    writer: &mut W,
) -> Result<EndedByWorkers<G::Cause>, JobError> {
    let workers = run.workers;
    let mut look = || look_for(rt, returned, workers);
    let mut work = || -> Result<EndedByWorkers<G::Cause>, JobError> {
        work_and_tell(rt, run, returned, watch, writer)
    };
    let ((), ended) = join_mut(rt, &mut look, &mut work);
    ended
}
