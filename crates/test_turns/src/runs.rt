//! The runs of the models.

use dv_job::{EndedByWorkers, JobEnded, JobError, Options, run_bytes, run_plain, run_watched};
use dv_partition::Partition;
use dv_run::Watch;
use std::alloc::Global;
use std::io::Write;
use std::sync::Wait;
use std::thread::Threads;

/// The last tick of the run that has a trace from the plain run.
const HORIZON: u64 = 10;

/// The last tick of the run that has a trace of its own.
const PLAIN_HORIZON: u64 = 3;

/// How many processes a run has.
pub const PROCESSES: u32 = 3;

/// The model, and the text of its trace by the plain run.
#[derive(Drop)]
pub struct Model<'t> {
    /// The text of the model.
    pub text: &'t [u8],
    /// The text of its trace.
    pub trace: Vec<u8>,
}

impl<'t> Model<'t> {
    /// A model with its trace, or `None` if the plain run does not end whole.
    pub fn of(alloc: Global, text: &'t [u8]) -> Option<Self> {
        let options = options_to(HORIZON, None)?;
        let mut trace = Vec::new(alloc);
        match run_plain(alloc, text, b"", &options, &mut trace) {
            Ok(JobEnded::Whole) => Some(Model { text, trace }),
            _ => None,
        }
    }

    /// Whether a run ended whole, and what it wrote is the trace.
    pub fn is_trace(&self, ended: &Result<JobEnded, JobError>, written: &[u8]) -> bool {
        matches!(ended, Ok(JobEnded::Whole)) && written == self.trace.as_slice()
    }
}

fn options_to(horizon: u64, workers: Option<u32>) -> Option<Options> {
    Options::new(horizon, 20, workers, None, 16)
}

/// Runs the model in three processes by workers whose turns are watched.
pub fn run_by<R: AllocGlobal + Threads + Wait + Sync, G: Watch, W: Write>(
    rt: &R,
    model: &Model<'_>,
    workers: u32,
    watch: &G,
    writer: &mut W,
) -> Result<JobEnded, JobError> {
    let ended = run_to_a_cause(rt, model, workers, watch, writer)?;
    Ok(ended.ended)
}

/// Runs the model as [`run_by`] does, and also returns the cause for which the run was stopped.
pub fn run_to_a_cause<R: AllocGlobal + Threads + Wait + Sync, G: Watch, W: Write>(
    rt: &R,
    model: &Model<'_>,
    workers: u32,
    watch: &G,
    writer: &mut W,
) -> Result<EndedByWorkers<G::Cause>, JobError> {
    let Some(options) = options_to(HORIZON, Some(workers)) else {
        return Err(JobError::Memory);
    };
    run_watched(
        rt,
        model.text,
        b"",
        Partition::Count(PROCESSES),
        &options,
        watch,
        writer,
    )
}

/// Runs the model in three processes, in rounds.
pub fn run_in_rounds<W: Write>(
    alloc: Global,
    model: &Model<'_>,
    writer: &mut W,
) -> Result<JobEnded, JobError> {
    let Some(options) = options_to(HORIZON, None) else {
        return Err(JobError::Memory);
    };
    run_bytes(
        alloc,
        model.text,
        b"",
        Partition::Count(PROCESSES),
        &options,
        writer,
    )
}

/// The plain run of a model with inputs.
pub fn run_plainly<W: Write>(
    alloc: Global,
    model: &[u8],
    inputs: &[u8],
    writer: &mut W,
) -> Result<JobEnded, JobError> {
    let Some(options) = options_to(PLAIN_HORIZON, None) else {
        return Err(JobError::Memory);
    };
    run_plain(alloc, model, inputs, &options, writer)
}
