//! From what a text says to the file that it stands for.
//!
//! `expand` makes the `File` of a `SourceFile`: the same models, each with its items sorted by kind.
//! Each kind keeps the order of the text, and each item its offsets, so what is refused later is
//! told of the text.
//!
//! `dv_job` expands what `dv_parser` read, before `dv_check` tests it, and `dv_hints` expands what it
//! reads again. Nothing is refused here.
#![tactic(auto)]

/// Whole files.
pub mod file;

/// Atomic models.
mod atomic;
/// Coupled models.
mod coupled;

pub use file::expand;
