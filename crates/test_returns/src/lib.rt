//! Tests that runs by workers return, and print what they should.
//!
//! No contract says that such a call returns. So beside each run here, a thread looks whether it
//! has returned, and fails the test if it has not after many looks. Runs of a ring and of clocks
//! are slowed at one process, stopped before a turn, or written to a writer that is late or fails.
//! The expected trace is that of the plain run of the same model (`run_plain` of `dv_job`).
//!
//! The tested call is `run_watched` of `dv_job`, and with it `dv_work`, `dv_board` and `dv_stream`.
#![tactic(auto)]

/// A watch that delays a process that runs ahead.
#[cfg(test)]
mod ahead;

/// Pauses, and looks that come to an end.
#[cfg(test)]
mod looks;

/// The models.
#[cfg(test)]
mod models;

/// A run beside a thread that looks whether it returns.
#[cfg(test)]
mod run;

/// Runs that return.
#[cfg(test)]
mod tests;

/// A watch that counts turns, is slow before some, and stops a run.
#[cfg(test)]
mod turns;

/// A writer.
#[cfg(test)]
mod writer;
