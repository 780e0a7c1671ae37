//! Writes that fail: printing ends at the call that fails, and the bytes of the calls before it are
//! written.

use crate::runs::{Model, run_by, run_in_rounds, run_plainly};
use crate::tell;
use crate::writers::{Full, Reluctant};
use dv_job::{JobEnded, JobError, list_code};
use dv_run::Unwatched;
use std::io;
use std::io::Write;
use std::sync::Wait;
use std::thread::Threads;

/// What prints to a writer.
#[derive(Clone, Copy)]
pub enum Printer<'m> {
    /// The listing of a model.
    Listing(&'m [u8]),
    /// The plain run of a model with inputs.
    Plain { model: &'m [u8], inputs: &'m [u8] },
    /// A run in rounds.
    Rounds(&'m Model<'m>),
    /// A run by so many workers.
    Workers(&'m Model<'m>, u32),
}

/// Prints to a writer. A listing that is printed to its end counts as whole.
fn print<R: AllocGlobal + Threads + Wait + Sync, W: Write>(
    rt: &R,
    printer: Printer<'_>,
    writer: &mut W,
) -> Result<JobEnded, JobError> {
    match printer {
        Printer::Listing(model) => {
            list_code(rt.alloc(), model, writer)?;
            Ok(JobEnded::Whole)
        }
        Printer::Plain { model, inputs } => run_plainly(rt.alloc(), model, inputs, writer),
        Printer::Rounds(model) => run_in_rounds(rt.alloc(), model, writer),
        Printer::Workers(model, workers) => run_by(rt, model, workers, &Unwatched, writer),
    }
}

/// Whether a writer that never fails, and takes one byte a call, gets all wanted bytes.
fn goes_out<R: AllocGlobal + Threads + Wait + Sync>(
    rt: &R,
    printer: Printer<'_>,
    wanted: &[u8],
) -> bool {
    let mut writer = Reluctant::new(rt.alloc(), 0);
    let ended = print(rt, printer, &mut writer);
    matches!(ended, Ok(JobEnded::Whole)) && writer.bytes.as_slice() == wanted
}

/// Whether printing to a writer that takes nothing ends with a write error.
fn ends_at_once<R: AllocGlobal + Threads + Wait + Sync>(rt: &R, printer: Printer<'_>) -> bool {
    let ended = print(rt, printer, &mut Full);
    matches!(ended, Err(JobError::Write))
}

/// Whether printing ends when a writer fails at a call: this call is the last one, and what was
/// written before is the beginning of the wanted bytes.
fn ends_at<R: AllocGlobal + Threads + Wait + Sync>(
    rt: &R,
    printer: Printer<'_>,
    wanted: &[u8],
    call: usize,
) -> bool {
    let mut writer = Reluctant::new(rt.alloc(), call);
    let ended = print(rt, printer, &mut writer);
    let beginning = wanted.get(..call.saturating_sub(1));
    matches!(ended, Err(JobError::Write))
        && writer.calls == call
        && Some(writer.bytes.as_slice()) == beginning
}

/// Whether each failing write ends printing, with one call for each wanted byte. Prints this fact.
pub fn does_end<R: AllocGlobal + Print + Threads + Wait + Sync>(
    rt: &R,
    printer: Printer<'_>,
    wanted: &[u8],
    fact: &str,
) -> io::Result<bool> {
    let does_end = goes_out(rt, printer, wanted)
        && ends_at_once(rt, printer)
        && (1..=wanted.len()).all(|call| ends_at(rt, printer, wanted, call));
    tell(rt, does_end, fact)?;
    Ok(does_end)
}

/// Whether each failing write ends printing, in rounds and by one, two and three workers. Prints
/// each fact.
pub fn do_all_end<R: AllocGlobal + Print + Threads + Wait + Sync>(
    rt: &R,
    model: &Model<'_>,
) -> io::Result<bool> {
    let printers = [
        (
            Printer::Rounds(model),
            "by rounds: each failing write ends the run",
        ),
        (
            Printer::Workers(model, 1),
            "by 1 worker: each failing write ends the run",
        ),
        (
            Printer::Workers(model, 2),
            "by 2 workers: each failing write ends the run",
        ),
        (
            Printer::Workers(model, 3),
            "by 3 workers: each failing write ends the run",
        ),
    ];
    let mut do_all = true;
    for (printer, fact) in printers {
        let does = does_end(rt, printer, model.trace.as_slice(), fact)?;
        do_all = do_all && does;
    }
    Ok(do_all)
}
