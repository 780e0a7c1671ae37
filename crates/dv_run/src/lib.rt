//! Plans the compiled model of a text, runs it in processes, and writes its trace.
//!
//! A [`TextJob`] has the tree of a text, its inputs, the groups of a partition, the horizon and the
//! microstep limit. `compiled_run` (in rounds) and `compiled_workers` (on threads) make the
//! programs of an accepted text, plan it, and run the plan. They return the [`Ran`] of `dv_stream`:
//! the clocks of the processes, how the run ended, and what was written. `compiled_steps` makes the
//! steps of a list. Here the code of processes meets the laws of `law_sound`: the lines that were
//! written are those of the trace of the text's resultant before the least clock, and a run is
//! reported whole exactly if this clock is the end.
//!
//! `dv_job` reads and checks a text, calls this crate, and writes the last line. It prints plans by
//! `links_of` and `least_responses`.
#![tactic(auto)]

/// Runs the compiled model of a text in rounds.
pub mod compiled;
/// Makes the components of a text.
mod components;
/// Laws of the links of a text.
pub mod link_laws;
/// The links of a text.
pub mod links;
/// The values of inputs are numbers of the language.
mod numbers;
/// Makes a plan of a text that can be run.
mod plan;
/// The responses of the processes of a text.
pub mod responses;
/// Runs the compiled model of a text by a list of steps.
pub mod steps;
/// A text with its inputs and its partition.
pub mod text_job;
/// Makes the plan of a text.
pub mod text_plan;
/// What the trace of a text rests on.
mod text_traces;
/// Runs the compiled model of a text by workers.
pub mod workers;

pub use compiled::compiled_run;
pub use dv_stream::{
    Bounds, Halt, Ran, RanByWorkers, RunEnded, Unwatched, Watch, Why, first_cause,
};
pub use links::links_of;
pub use responses::least_responses;
pub use steps::compiled_steps;
pub use text_job::TextJob;
pub use text_plan::plan_text;
pub use workers::{WorkerBounds, compiled_workers};
