//! `run --stats`: prints the numbers of a run instead of its trace.

use crate::ACCEPTED;
use crate::lines::Lines;
use crate::printed::print_through;
use crate::progress::Progress;
use crate::runs::{Job, run_job};
use crate::told::tell_error;
use dv_command::StatsChoice;
use dv_job::load::{accept, load};
use dv_job::{JobEnded, JobError, status};
use dv_notice::FaultCount;
use dv_trace::End;
use dv_views::{
    Excerpt, FlowOptions, Form, StatsOptions, StatsWriter, Tree, ViewError, numbers_of,
};
use std::sync::Wait;
use std::thread::Threads;
use std::time::Clock;

/// A model whose run is counted.
#[derive(Drop)]
struct Counted<'c> {
    tree: Tree<'c>,
    /// The path of the components that count, if not all do.
    only: Option<String>,
    /// The names of the ports between which times are taken, if they are.
    ports: Option<String>,
}

/// The part of a trace that is asked for, from that of the command line. `only` is a copy of its
/// path that lives long enough.
pub fn excerpt_of<'p>(excerpt: &dv_command::Excerpt, only: Option<&'p String>) -> Excerpt<'p> {
    Excerpt {
        from: excerpt.from,
        to: excerpt.to,
        only: match only {
            Some(path) => Some(path.as_str()),
            None => None,
        },
    }
}

/// The options of numbers, from those of the command line. `only` and `ports` are copies of texts
/// of `choice` that live long enough.
pub fn stats_options<'p>(
    choice: &StatsChoice,
    only: Option<&'p String>,
    ports: Option<&'p String>,
    end: End,
) -> StatsOptions<'p> {
    StatsOptions {
        end,
        form: if choice.csv { Form::Csv } else { Form::Columns },
        excerpt: excerpt_of(&choice.excerpt, only),
        flow: match (ports, &choice.flow) {
            (Some(ports), Some(flow)) => Some(FlowOptions {
                ports: ports.as_str(),
                by_value: flow.by_value,
            }),
            (Some(_), None) | (None, _) => None,
        },
        quantiles: choice.quantiles,
    }
}

/// The names of the ports between which times are taken.
pub fn ports_of(choice: &StatsChoice) -> Option<&String> {
    match &choice.flow {
        Some(flow) => Some(&flow.ports),
        None => None,
    }
}

/// Runs a job, prints the numbers of its trace, and returns the status; counts its faults. The
/// status is that of the run if all numbers are printed; otherwise a message with the cause is
/// printed.
///
/// # Errors
///
/// `Job` with `Text`: the model is refused. `NoPath`: the model is accepted, and no component has
/// the path that is asked for, or no ports have the names of the flow. `Job` with `Inputs`: the
/// flow begins at an input of the root, and the inputs are refused. `Job` with `Memory`: an
/// allocation was refused. Nothing was run in these cases.
pub fn print_numbers<R: AllocGlobal + Clock + Print + Eprint + Threads + Wait + Sync>(
    rt: &R,
    job: &Job<'_>,
    choice: &StatsChoice,
    faults: &mut FaultCount,
    progress: Option<Progress<'_, R>>,
) -> Result<u8, ViewError> {
    let alloc = rt.alloc();
    let checked = load(alloc, job.texts.model.bytes)?;
    let counted = Counted {
        tree: accept(alloc, job.texts.model.bytes, &checked)?,
        only: choice.excerpt.only.clone()?,
        ports: match ports_of(choice) {
            Some(ports) => Some(String::from_str(alloc, ports.as_str())?),
            None => None,
        },
    };
    count_run(rt, job, &counted, choice, faults, progress)
}

/// The same as `print_numbers`, with the tree of the model.
fn count_run<R: AllocGlobal + Clock + Print + Eprint + Threads + Wait + Sync>(
    rt: &R,
    job: &Job<'_>,
    counted: &Counted<'_>,
    choice: &StatsChoice,
    faults: &mut FaultCount,
    progress: Option<Progress<'_, R>>,
) -> Result<u8, ViewError> {
    let (only, ports) = (counted.only.as_ref(), counted.ports.as_ref());
    let options = stats_options(choice, only, ports, End::Required);
    let inputs = job.texts.inputs.bytes;
    let mut lines = Lines {
        writer: numbers_of(rt.alloc(), &counted.tree, Some(inputs), &options)?,
        faults: FaultCount::new(),
        progress,
    };
    let ended = run_job(rt, job, &mut lines);
    let Lines {
        writer,
        faults: found,
        progress: _,
    } = lines;
    *faults = found;
    Ok(print_counted(rt, job, writer, &ended))
}

/// Prints what was counted of a run, and returns the status.
fn print_counted<R: AllocGlobal + Print + Eprint>(
    rt: &R,
    job: &Job<'_>,
    numbers: StatsWriter<'_>,
    ended: &Result<JobEnded, JobError>,
) -> u8 {
    match ended {
        // The cause of a line that was not counted is an error of `finish`.
        Ok(_) | Err(JobError::Write) => {}
        Err(error) => {
            tell_error(rt, job.texts, error, job.is_explained);
            return status(ended);
        }
    }
    let printed = print_through(rt, |writer| Ok(numbers.finish(writer)?));
    match printed.status(rt, job.texts, job.is_explained) {
        ACCEPTED => status(ended),
        refused => refused,
    }
}
