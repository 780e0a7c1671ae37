//! The program: from the words of a command line to files, streams and an exit status.
//!
//! It checks models, runs them and prints their traces, prints programs, plans and graphs, prints
//! traces as value change dumps, curves, numbers and tables, and explains refusals and faults.
//! `dv_command` reads the words. The modules here open the files, call `dv_job` for runs and
//! `dv_views` for views, and print errors on standard error, which `dv_cause` explains. What a run
//! does not show by itself is found by `dv_notice`. Progress is printed by the writer of a run, so
//! none is shown while no line is written.
//!
//! No contract speaks of files or terminals: the claims of `dv_job` end at the writer. The test of
//! this crate is the first model of the README (`stdout`). The other commands are tested by scripts
//! that run the built program.
#![tactic(auto)]

/// Explains the faults of a run.
mod faulted;
/// Reads the files that a command line names.
mod files;
/// A writer of the lines of a run.
mod lines;
/// The subcommands `check`, `code`, `plan` and `graph`.
mod models;
/// A writer that keeps the cause of a failed write.
mod noted;
/// Tells what a run does not show by itself.
mod noticed;
/// `run --stats`.
mod numbers;
/// How the program was built.
mod origin;
/// Plans that are given as partitions.
mod plans;
/// Prints through these writers.
mod printed;
/// The progress of a run.
mod progress;
/// The subcommand `run`.
mod runs;
/// Standard input that is named for several files.
mod shared;
/// Prints on standard error.
mod told;
/// The subcommands `vcd`, `plot`, `stats` and `table`.
mod traces;

use dv_command::{Request, RequestError, request_of};
use dv_explain::explanation_text;
use models::{check_model, graph_model, list_model, plan_model};
use origin::origin;
use runs::run_model;
use shared::shares_standard_input;
use std::alloc::AllocError;
use std::io;
use std::io::ErrorKind;
use std::process::ExitCode;
use std::rt::{Env, Files};
use std::sync::Wait;
use std::thread::Threads;
use std::time::Clock;
use told::{tell_failure, tell_line, tell_text};
use traces::{count_trace, dump_trace, plot_trace, tabulate_trace};

/// The status if everything was printed.
const ACCEPTED: u8 = 0;

/// The status of a refusal, of a file that can't be read, of a failed write, and of refused memory.
const REFUSED: u8 = 1;

/// The status of words that are no command.
const USAGE: u8 = 2;

/// The status of a whole run in which a component had a fault.
const FAULTED: u8 = 3;

fn main(rt: HostRuntime) -> ExitCode {
    match answer(&rt) {
        Ok(status) => ExitCode::from(status),
        Err(error) => {
            tell_failure(&rt, &error, false);
            ExitCode::from(REFUSED)
        }
    }
}

/// Does what the words ask for, and returns the status.
///
/// # Errors
///
/// The words can't be read, or an allocation was refused.
fn answer<R: AllocGlobal + Clock + Env + Files + Input + Print + Eprint + Threads + Wait + Sync>(
    rt: &R,
) -> io::Result<u8> {
    let words = match std::env::args(rt) {
        Ok(words) => words.collect::<Vec<String>>(rt.alloc())?,
        Err(error) if matches!(error.kind(), ErrorKind::InvalidData) => {
            tell_line(rt, "the words are not UTF-8");
            return Ok(USAGE);
        }
        Err(error) => return Err(error),
    };
    match request_of(rt.alloc(), words.as_slice()) {
        Ok(request) => match do_request(rt, &request) {
            Ok(status) => Ok(status),
            Err(error) => {
                tell_failure(rt, &error, is_explained(&request));
                Ok(REFUSED)
            }
        },
        Err(RequestError::Usage(usage)) => {
            tell_text(rt, usage.text.as_str());
            Ok(USAGE)
        }
        Err(RequestError::Memory) => Err(io::Error::from(AllocError)),
    }
}

/// Does what is asked for, and returns the status.
///
/// # Errors
///
/// A write failed, or an allocation was refused.
fn do_request<R: AllocGlobal + Clock + Files + Input + Print + Eprint + Threads + Wait + Sync>(
    rt: &R,
    request: &Request,
) -> io::Result<u8> {
    if shares_standard_input(request) {
        tell_line(rt, "standard input, `-`, can be read for one file only");
        return Ok(USAGE);
    }
    match request {
        Request::Check(check) => check_model(rt, check),
        Request::Run(run) => run_model(rt, run),
        Request::Code(code) => list_model(rt, code),
        Request::Plan(plan) => plan_model(rt, plan),
        Request::Graph(graph) => graph_model(rt, graph),
        Request::Plot(plot) => plot_trace(rt, plot),
        Request::Vcd(waves) => dump_trace(rt, waves),
        Request::Stats(stats) => count_trace(rt, stats),
        Request::Table(table) => tabulate_trace(rt, table),
        Request::Explain(explanation) => {
            print!(rt; "{}", explanation_text(rt.alloc(), explanation)?)?;
            Ok(ACCEPTED)
        }
        Request::Version(text) => {
            println!(rt; "{text}{}", origin(rt)?)?;
            Ok(ACCEPTED)
        }
    }
}

/// Whether a refusal or a failure is to be explained.
fn is_explained(request: &Request) -> bool {
    match request {
        Request::Check(check) => check.file.explained,
        Request::Code(file) => file.explained,
        Request::Run(run) => run.explained,
        Request::Plan(plan) => plan.explained,
        Request::Graph(graph) => graph.file.explained,
        Request::Plot(plot) => plot.files.explained,
        Request::Vcd(waves) => waves.files.explained,
        Request::Stats(stats) => stats.files.explained,
        Request::Table(table) => table.files.explained,
        Request::Explain(_) | Request::Version(_) => false,
    }
}
