//! The numbers of a trace: of each component its transitions, phases, variables and output ports,
//! and of each output of the root what left.
//!
//! `StatsWriter` is a writer, to which the bytes of a trace are written in any pieces: by `pdevs
//! stats`, which reads a file, and by `run --stats`, whose run prints to it. It cuts them into
//! lines (`LineCutter` of `dv_trace`) and adds each line to counts (`Counts`). `finish` then makes
//! the rows of each section and writes them, as columns or as comma-separated values.
//! `StatsOptions` chooses an excerpt of the trace, quantiles and histograms, and the `Form`.
//!
//! A `Flow` takes the time of each value from one port to another one.
//!
//! In memory are the counts of each component, phase, variable and port, and the line that has not
//! ended yet. For quantiles, each port also has a table of the values that it sent, with how often
//! each was sent, and a flow has one of the times; beside it are the ticks at which values came
//! that are still inside. So without quantiles and a flow memory does not grow with the trace.
//!
//! It is proved that transitions and values are counted up to 2^64 - 1. Nothing else is claimed of
//! the numbers except that they are made without a fault of the program.
#![tactic(auto)]

/// Sums of batches.
mod batches;
/// The values of a row.
mod cell;
/// The counts of a component.
mod component;
/// Counts a trace line by line.
mod counter;
/// The counts of a trace.
mod counts;
/// Why the numbers are not complete.
pub mod error;
/// How long values take from one port to another one.
pub mod flow;
/// The ports by which values come in or go out.
pub mod gate;
/// The bins of a histogram.
mod histogram;
/// Values that came in and have not gone out.
mod inside;
/// Writes the sections.
mod listing;
/// Options of the numbers.
pub mod options;
/// The counts of an output of the root.
mod output;
/// The counts of a port.
mod port;
/// From counts to rows.
mod rows;
/// Sections of rows.
mod section;
/// How far numbers are spread.
mod spread;
/// The least, the greatest and the sum of some values.
mod summary;
/// Sections as text, in aligned columns or as comma-separated values.
mod table;
/// How often each value occurred.
mod tally;
/// The values of a variable over time.
mod variable;
/// A writer that counts a trace.
pub mod writer;

pub use error::StatsError;
pub use flow::{Flow, FlowOptions};
pub use gate::{Gate, gate_names};
pub use options::{Form, StatsOptions};
pub use writer::StatsWriter;
