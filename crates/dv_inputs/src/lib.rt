//! The text of inputs: one input in a line, `TICK PORT VALUE` or `TICK.MICRO PORT VALUE`.
//!
//! `read_inputs` reads a text from its bytes in one pass. Its inputs are at the times of their
//! lines, a tick without a microstep at its start, and keep their order, in which times never fall.
//! A text is read exactly as the definitions say, or refused with one number (I1 to I5) and one
//! line. Laws say that a greater microstep limit reads the same inputs, and that inputs which are
//! written as a text are read back.
//!
//! `dv_job` reads the inputs of a run here, and `dv_vcd`, `dv_table` and `dv_views` those beside a
//! trace. Names of ports are looked up in a list from the caller. What an input does in a model is
//! not known here.
#![tactic(auto)]

/// Refusals of a text.
pub mod error;
/// The fields of a line.
mod fields;
/// Laws of texts.
pub mod laws;
/// The lines of a text.
mod lines;
/// The numbers of a line.
mod numbers;
/// The ports by name.
mod ports;
/// The reader.
pub mod reader;

pub use error::{InputRefusal, InputRefusalNumber, InputsError};
pub use reader::read_inputs;
