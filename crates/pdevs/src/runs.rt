//! The subcommand `run`.

use crate::files::{read, read_inputs, read_parting};
use crate::noticed::tell_notices;
use crate::numbers::print_numbers;
use crate::printed::print_lines;
use crate::progress::Progress;
use crate::told::{tell_error, tell_view_error};
use crate::{REFUSED, USAGE};
use dv_cause::Texts;
use dv_command::Run;
use dv_job::{Driver, JobEnded, JobError, Options, run_by_workers, run_bytes, status};
use dv_notice::FaultCount;
use std::io;
use std::io::Write;
use std::rt::Files;
use std::sync::Wait;
use std::thread::Threads;
use std::time::Clock;

/// The capacity of a link between two processes, in packets.
const LINK_CAPACITY: u32 = 16;

/// A model to run, and how.
#[derive(Clone, Copy)]
pub struct Job<'a> {
    /// The model, its inputs, and how it is divided.
    pub texts: Texts<'a>,
    /// The horizon and how the processes are driven.
    pub options: &'a Options,
    /// Whether errors are explained.
    pub is_explained: bool,
}

/// Runs a job, by workers or in rounds, and writes its trace.
///
/// # Errors
///
/// The same as for `run_bytes` of `dv_job`.
pub fn run_job<R: AllocGlobal + Threads + Wait + Sync, W: Write>(
    rt: &R,
    job: &Job<'_>,
    writer: &mut W,
) -> Result<JobEnded, JobError> {
    let model = job.texts.model.bytes;
    let inputs = job.texts.inputs.bytes;
    match job.options.driver {
        Driver::Workers(_) => run_by_workers(
            rt,
            model,
            inputs,
            job.texts.partition,
            job.options,
            writer,
        ),
        Driver::Rounds(_) => run_bytes(
            rt.alloc(),
            model,
            inputs,
            job.texts.partition,
            job.options,
            writer,
        ),
    }
}

/// Runs a job, prints its trace, and returns the status; counts its faults. If not all of it is
/// printed, a message with the cause is printed.
fn print_trace<'a, R: AllocGlobal + Clock + Print + Eprint + Threads + Wait + Sync>(
    rt: &'a R,
    job: &Job<'_>,
    faults: &mut FaultCount,
    progress: Option<Progress<'a, R>>,
) -> u8 {
    let (printed, found) = print_lines(rt, progress, |writer| run_job(rt, job, writer));
    *faults = found;
    if let Err(error) = &printed.result {
        tell_error(rt, job.texts, error, job.is_explained);
        printed.tell_reason(rt, job.is_explained);
    }
    status(&printed.result)
}

/// Runs a job, prints its trace or its numbers, and returns the status; counts its faults.
fn print_run<R: AllocGlobal + Clock + Print + Eprint + Threads + Wait + Sync>(
    rt: &R,
    job: &Job<'_>,
    run: &Run,
    faults: &mut FaultCount,
) -> u8 {
    let progress = if run.progress {
        Progress::begin(rt)
    } else {
        None
    };
    let Some(choice) = &run.stats else {
        return print_trace(rt, job, faults, progress);
    };
    match print_numbers(rt, job, choice, faults, progress) {
        Ok(status) => status,
        Err(error) => {
            tell_view_error(rt, job.texts, &error, job.is_explained);
            REFUSED
        }
    }
}

/// Runs a model, prints its trace or its numbers, and returns the status. Files are read in the
/// order model, partition, inputs.
///
/// # Errors
///
/// An allocation was refused.
pub fn run_model<R: AllocGlobal + Clock + Files + Input + Print + Eprint + Threads + Wait + Sync>(
    rt: &R,
    run: &Run,
) -> io::Result<u8> {
    let Some(model) = read(rt, run.model.as_str(), run.explained)? else {
        return Ok(REFUSED);
    };
    let Some(parting) = read_parting(rt, run.partition.as_ref(), run.explained)? else {
        return Ok(REFUSED);
    };
    let Some(inputs) = read_inputs(rt, run.inputs.as_ref(), run.explained)? else {
        return Ok(REFUSED);
    };
    let Some(options) = Options::new(
        run.horizon,
        run.microsteps,
        run.workers,
        run.rounds,
        LINK_CAPACITY,
    ) else {
        return Ok(USAGE);
    };
    let job = Job {
        texts: Texts {
            partition: parting.partition(),
            ..model.texts_with(inputs.as_ref())
        },
        options: &options,
        is_explained: run.explained,
    };
    let mut faults = FaultCount::new();
    let status = print_run(rt, &job, run, &mut faults);
    if status != REFUSED {
        tell_notices(rt, &job, status, faults);
    }
    Ok(status)
}
