//! A trace as a table for other tools: a row for each thing that happened, as comma-separated
//! values or as JSON lines.
//!
//! `write_table` reads a trace twice, since nothing may be written if its last line is refused. The
//! first reading tests it (`check_trace` of `dv_trace`). The second one collects the lines of one
//! time (`Instants`), works out what arrived at each component, and writes the rows of these lines
//! (`RowWriter`): what was sent, what arrived, the transition or the fault, and what left the
//! model. No trace has the arrivals: they are computed from what was sent, from the links of the
//! model, and from the inputs (`Routes`).
//!
//! The caller keeps the bytes of the whole trace in memory; lines refer to them. Beside them are
//! the inputs, the lines and arrivals of one time, and output of up to 64 KiB.
//!
//! `dv_views` calls it for `pdevs table`, and `dv_fault` computes arrivals by it. Nothing is
//! claimed of a table except that it is made without a fault of the program.
#![tactic(auto)]

/// What arrives at the components at one time.
pub mod arrivals;
/// Rows as comma-separated values.
mod csv_rows;
/// Why a table is not complete.
pub mod error;
/// The lines of one time.
mod instants;
/// Rows as JSON lines.
mod json_rows;
/// The rows of a table.
mod row;
/// From lines to rows.
mod row_writer;
/// Writes the table of a trace.
pub mod table;

pub use arrivals::{Arrival, Routes, arrivals_to};
pub use error::TableError;
pub use table::{TableForm, TableOptions, inputs_of, write_table};
