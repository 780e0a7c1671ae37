//! From bytes to bytes: the calls of the program, with the contract of the whole project.
//!
//! - [`run_bytes`] takes the bytes of a model and its inputs, a partition and [`Options`], and
//!   writes the trace of the model's resultant. Its clauses speak of texts and traces, and of
//!   processes only if a run is cut.
//! - [`run_by_workers`] and [`run_watched`] promise the same for runs on threads, except for the
//!   clocks of a partial run.
//! - [`run_steps`] makes steps of processes in any order, and [`run_plain`] is the plain run.
//! - [`check_bytes`], [`list_code`] and [`plan_bytes`] check a model, list its programs, and print
//!   its plan.
//!
//! The law `a_text_has_one_answer` says that every text has one model or one answer. [`JobError`]
//! has each reason why there is no trace. An error has its number and line, and prints as one line;
//! files, command lines and explanations are elsewhere.
#![tactic(auto)]

/// Whether a text is accepted.
pub mod check;
/// Lists the programs of a text.
pub mod code;
/// How a run ends.
pub mod ended;
/// Whether a trace holds a fault.
mod faults;
/// Laws of texts and models.
pub mod laws;
/// From the bytes of a model to its tree.
pub mod load;
/// The names that a plan prints.
mod names;
/// The options of a run.
pub mod options;
/// The plain run of a model.
pub mod plain;
/// Prints the plan of a model.
pub mod planned;
/// How many rounds a run has.
mod rounds;
/// Runs a model in processes, in rounds.
pub mod run;
/// Reads the partition and the inputs of a run.
mod setup;
/// Runs a model by a list of steps of its processes.
pub mod steps;
/// Runs a model in processes, by workers on threads.
pub mod workers;
/// Writes the end of a trace.
mod written;

pub use check::check_bytes;
pub use code::list_code;
pub use dv_stream::{Halt, Why};
pub use ended::{EndedByWorkers, JobEnded, JobError, status};
pub use options::{Driver, GREATEST_CAPACITY, MOST_WORKERS, Options};
pub use plain::run_plain;
pub use planned::plan_bytes;
pub use run::run_bytes;
pub use steps::run_steps;
pub use workers::{run_by_workers, run_watched};
