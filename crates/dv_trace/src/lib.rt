//! Reads traces back, line by line, with the names of the model.
//!
//! A `TraceReader` is given one line after the other and returns what it says: what happened to a
//! component, or what left the model, with paths and names as numbers. If the trace is malformed or
//! not one of this model, it returns a `TraceRefusal` with a line and a reason. It does not test
//! whether the model behaves like this; that takes a run. A `PieceReader` reads the bytes of a
//! trace piece by piece, once or twice, and a `LineCutter` cuts pieces into lines.
//!
//! Most lines have the time of the line before, and components mostly come in the same order as at
//! the instant before. So a line is first compared with that time and with the path of the
//! component that followed last time (`Recent`). Otherwise the time is read and the path is looked
//! up in a table. The values of a line stay in its text.
//!
//! In memory are the names of the model, a number for each component, one piece of the trace, and
//! the line that has not ended yet.
//!
//! An `Excerpt` says which part of a trace is asked for: the ticks of a `Span`, and the components
//! that are `Chosen`. `model` has what views ask a model for: names, and values at the start. What
//! a view prints is made of pieces as a `Text`.
//!
//! `dv_vcd`, `dv_plot`, `dv_stats`, `dv_table` and `dv_fault` read traces with this crate. It is
//! proved that numbers are read as they are spelled, within their ranges; nothing else is claimed.
#![tactic(auto)]

/// Cuts pieces of a trace into lines.
pub mod cutter;
/// What a line says.
pub mod line;
/// What a model says of its components.
pub mod model;
/// The names of a model, by their texts.
mod names;
/// Numbers and times.
mod numbers;
/// Reads a trace piece by piece.
pub mod piece_reader;
/// The parts of a line.
mod pieces;
/// How far a trace reaches.
pub mod reach;
/// How the last lines began.
mod recent;
/// Reads lines.
pub mod reader;
/// Why a trace is refused.
pub mod refusal;
/// The part of a trace that is asked for.
pub mod span;
/// A text that is made of pieces.
pub mod text;
/// Values of variables and ports.
mod values;

pub use cutter::{LineCutter, TakeLine};
pub use line::{Datum, EntryHead, Event, LineHead, LineLists, Sending, TraceLine, Values};
pub use piece_reader::PieceReader;
pub use reach::{End, Reach, read_part};
pub use reader::{TraceReader, check_trace};
pub use refusal::{TraceError, TraceReason, TraceRefusal};
pub use span::{Chosen, Excerpt, Side, Span};
pub use text::Text;
