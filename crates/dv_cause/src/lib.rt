//! Explains refusals, for `--explain`.
//!
//! `explained` takes the error of a job and its `Texts`, and returns a text: `FILE:LINE:COLUMN`,
//! which case of its number the refusal is, the line with a mark, sentences that help, and what the
//! number means in general. `cause_of` returns all but the last. If no text is at fault, as after a
//! failed write, the text is empty.
//!
//! The program prints it after the error of a model, of inputs or of a partition. `dv_hints` finds
//! the cases of models, and `dv_explain` has the words of each number; `dv_fault` explains the
//! faults of a run. Nothing is claimed of the text except that it is made without a fault of the
//! program.
#![tactic(auto)]

/// Explains the error of a job.
pub mod cause;
/// Explains a refused line of inputs.
mod inputs;
/// Explains a refused partition.
mod partitions;
/// What exactly a partition is refused for.
mod reason;

pub use cause::{Source, Texts, cause_of, explained};
