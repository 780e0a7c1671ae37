//! Curves of a trace over time, as a picture in SVG.
//!
//! A `Subject` is what a name stands for: a component, whose phases are shown as bands; one of its
//! variables, flags, bags or queues, shown as a step curve of the value or the size; one of its
//! output ports, or an output of the root, whose values are shown as marks. `PlotWriter` is a
//! writer, to which the bytes of a trace are written in any pieces. `finish` returns a `Picture`,
//! which is written as one SVG file: a panel for each subject, one below the other, on one axis of
//! ticks.
//!
//! The ticks are divided into columns of the same width (`Grid`). A column keeps the least and the
//! greatest value in it, and the last one. Where a trace has more ticks than there are columns, two
//! columns each become one (`Cells`). So neither memory nor the picture grows with the trace, and
//! the trace is read once.
//!
//! Nothing is claimed of a picture except that it is made without a fault of the program.
#![tactic(auto)]

/// The numbers on the axis of ticks.
mod axis;
/// What is known of each column.
mod cells;
/// Step curves.
mod curve;
/// The columns of ticks.
mod grid;
/// Texts in the picture.
mod label;
/// The phases of a component.
mod lanes;
/// The values of a port.
mod marks;
/// The pieces of paths.
mod path;
/// What a trace shows, and the picture of it.
pub mod picture;
/// From values to places in a panel.
mod scale;
/// What names stand for.
pub mod subject;
/// A writer that takes a trace.
pub mod writer;

pub use picture::Picture;
pub use subject::Subject;
pub use writer::{PlotOptions, PlotWriter};
