//! Traces as text: which lines a trace has, how its text ends, and how bytes are written.
//!
//! `specs/` defines the bytes of a trace. It is a law that the text of a trace is the lines of its
//! instants, one after the other; so a trace may be written piece by piece while the run goes on.
//! The end of the text is an `Ending`: the line `whole` with the horizon, or the clocks that were
//! reached and the line `partial`. `write_ending` writes it. After a `WriteError`, the writer holds
//! a beginning of the text.
//!
//! `hand_over` writes bytes by a loop over `write`, since nothing is known of the library's
//! buffered writer after a failed write. `hand_over_if_long` collects 64 KiB before it writes.
//! Traces, listings and views are written by these two calls. `dv_lines` makes the lines that are
//! defined here, `dv_stream` and `dv_job` rest on the laws, and `dv_trace` reads the text back.
#![tactic(auto)]

/// How the text of a trace ends, and why a text is not complete.
pub mod writing;

/// Laws of the text of a trace, and a worked text.
pub mod laws;

/// Writes bytes.
mod handing;

/// The lines of an ending.
mod ending;

pub use handing::{hand_over, hand_over_if_long};
pub use writing::{Ending, WriteError, write_ending};
