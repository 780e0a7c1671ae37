//! Runs a plan, and writes its trace while it runs.
//!
//! `stream_plan` runs a plan in rounds on one thread, and writes after batches of rounds.
//! `stream_plan_by_workers` runs it by workers on threads, and writes in a loop beside them. Both
//! write what is before the least clock, keep the rest, and free what is written. Both return a
//! [`Ran`]: the clocks, what was written, and whether the run is whole or why it is cut. The writer
//! got exactly the lines of the trace before the least clock, or, after an error, a beginning of
//! the lines before some time.
//!
//! A [`Watch`] is called before and after each turn of a worker. It may delay the turn or stop the
//! run for a cause, which is among the halts of the workers, returned beside the `Ran`. It changes
//! nothing else.
//!
//! `dv_run` makes the plan of a text, and `dv_job` writes the last line. That a run by workers
//! comes to an end is tested, not proved.
#![tactic(auto)]

/// Runs one process, whose record is its text.
pub mod alone;
/// The clocks of processes.
pub mod clocks;
/// Whether a part of a trace holds a fault.
pub mod faults;
/// Merges the pieces of all processes, and writes them.
pub mod merged;
/// Writes what workers post, while they run.
pub mod news;
/// Runs the processes of a plan by workers.
pub mod planned;
/// What ran, and how it ended.
pub mod ran;
/// Writes what workers did not post, once they have ended.
pub mod rest;
/// Runs the processes of a plan in rounds on one thread, and writes between them.
pub mod rounds;
/// Runs workers, and writes the trace while they run.
pub mod workers;
/// What was written of a trace.
pub mod written;

pub use dv_work::{Halt, Unwatched, Watch, first_cause};
pub use planned::{Workers, stream_plan_by_workers};
pub use ran::{Ran, RanByWorkers, RunEnded, Why};
pub use rounds::{Bounds, stream_plan};
pub use written::Written;
