//! A test that is a program. It runs a model by workers whose turns are watched, delayed and
//! stopped; it runs and lists models with writers that fail; and it tests how endings are reported.
//!
//! The expected trace of a run by workers is that of the plain run; of a stopped run, the lines
//! before the least of the clocks that it prints. What the plain run and the listing have to print
//! is in files. The tested calls are `run_watched`, `run_bytes`, `run_plain`, `list_code` and
//! `status` of `dv_job`.
//!
//! The arguments name files: a model of three components, which is run by workers; a model, its
//! inputs and its trace to tick 3; and a model and its listing.
#![tactic(auto)]

/// Workers that make their first turns at the same time.
mod at_once;
/// The causes for which runs are stopped.
mod causes;
/// How endings are reported.
mod endings;
/// Writes that fail.
mod failing;
/// A line that is written while the run goes on.
mod first_line;
/// Which worker makes a turn.
mod owners;
/// The runs of the models.
mod runs;
/// Runs that are stopped before a turn.
mod stops;
/// Writers.
mod writers;

use crate::failing::Printer;
use crate::runs::Model;
use std::process::ExitCode;
use std::rt::Files;
use std::sync::Wait;
use std::thread::Threads;
use std::{fs, io};

fn main(rt: HostRuntime) -> io::Result<ExitCode> {
    let words: Vec<String> = std::env::args(&rt)?.skip(1).collect(rt.alloc())?;
    let [turned, run, inputs, trace, listed, listing] = words.as_slice() else {
        return Ok(ExitCode::FAILURE);
    };
    let does_turn = holds(&rt, turned.as_str())?;
    let does_run = does_run(&rt, run.as_str(), inputs.as_str(), trace.as_str())?;
    let does_list = does_list(&rt, listed.as_str(), listing.as_str())?;
    let are_told = endings::are_told(&rt)?;
    Ok(if does_turn && does_run && does_list && are_told {
        ExitCode::SUCCESS
    } else {
        ExitCode::FAILURE
    })
}

/// Tests runs by workers of the model in a file, and prints each fact.
fn holds<R: AllocGlobal + Files + Print + Threads + Wait + Sync>(
    rt: &R,
    name: &str,
) -> io::Result<bool> {
    let text = fs::read(rt, name)?;
    let Some(model) = Model::of(rt.alloc(), &text) else {
        println!(rt; "{name}: is not run")?;
        return Ok(false);
    };
    let is_early = first_line::comes_early(rt, &model);
    tell(
        rt,
        is_early,
        "the first line is written before the last turn",
    )?;
    let are_beside = at_once::are_beside(rt, &model);
    tell(
        rt,
        are_beside,
        "both workers are in their first turns at once",
    )?;
    let are_own = owners::are_own(rt, &model);
    tell(
        rt,
        are_own,
        "each turn is told of the worker that owns its process",
    )?;
    let do_stop = stops::do_all_stop(rt, &model);
    tell(
        rt,
        do_stop,
        "runs that are stopped before turn 1 to 50 are cut at their clocks",
    )?;
    let are_told = causes::are_told(rt, &model);
    tell(
        rt,
        are_told,
        "the cause is told for which a worker is stopped, and of two that of worker 0",
    )?;
    let do_fail = failing::do_all_end(rt, &model)?;
    Ok(is_early && are_beside && are_own && do_stop && are_told && do_fail)
}

/// Tests that the plain run of a model with inputs prints its trace, and that each failing write
/// ends it.
fn does_run<R: AllocGlobal + Files + Print + Threads + Wait + Sync>(
    rt: &R,
    model: &str,
    inputs: &str,
    trace: &str,
) -> io::Result<bool> {
    let model = fs::read(rt, model)?;
    let inputs = fs::read(rt, inputs)?;
    let trace = fs::read(rt, trace)?;
    let printer = Printer::Plain {
        model: &model,
        inputs: &inputs,
    };
    failing::does_end(
        rt,
        printer,
        &trace,
        "by the plain run: each failing write ends the run",
    )
}

/// Tests that the listing of a model is printed, and that each failing write ends it.
fn does_list<R: AllocGlobal + Files + Print + Threads + Wait + Sync>(
    rt: &R,
    model: &str,
    listing: &str,
) -> io::Result<bool> {
    let model = fs::read(rt, model)?;
    let listing = fs::read(rt, listing)?;
    failing::does_end(
        rt,
        Printer::Listing(&model),
        &listing,
        "each failing write ends the listing",
    )
}

/// Prints a fact, or that it does not hold.
pub fn tell<R: Print>(rt: &R, holds: bool, fact: &str) -> io::Result<()> {
    if holds {
        println!(rt; "{fact}")
    } else {
        println!(rt; "not so: {fact}")
    }
}
