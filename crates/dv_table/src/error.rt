//! Why a table is not complete.

use dv_inputs::{InputRefusal, InputsError};
use dv_text::WriteError;
use dv_trace::{TraceError, TraceRefusal};
use std::alloc::{AllocError, AllocFailed};

/// Why a table is not complete.
#[derive(Clone, Copy)]
pub enum TableError {
    /// The inputs are refused; nothing was written.
    Inputs(InputRefusal),
    /// The trace is refused; nothing was written.
    Refused(TraceRefusal),
    /// A write failed; a beginning of the table was written.
    Write,
    /// An allocation was refused; nothing was written, or a beginning of the table.
    Memory,
}

impl From<InputsError> for TableError {
    fn from(error: InputsError) -> Self {
        match error {
            InputsError::Refused(refusal) => TableError::Inputs(refusal),
            InputsError::Memory => TableError::Memory,
        }
    }
}

impl From<TraceError> for TableError {
    fn from(error: TraceError) -> Self {
        match error {
            TraceError::Refused(refusal) => TableError::Refused(refusal),
            TraceError::Memory => TableError::Memory,
        }
    }
}

impl From<WriteError> for TableError {
    fn from(error: WriteError) -> Self {
        match error {
            WriteError::Write => TableError::Write,
            WriteError::Memory => TableError::Memory,
        }
    }
}

// All records have six fields, so an error about the length of a record does not occur.
impl From<csv::Error> for TableError {
    fn from(error: csv::Error) -> Self {
        if error.is_io_error() {
            TableError::Write
        } else {
            TableError::Memory
        }
    }
}

// All rows can be written as JSON, so memory is the only cause.
impl From<serde_json::Error> for TableError {
    fn from(_error: serde_json::Error) -> Self {
        TableError::Memory
    }
}

impl From<AllocError> for TableError {
    fn from(_error: AllocError) -> Self {
        TableError::Memory
    }
}

impl<T: Drop> From<AllocFailed<T>> for TableError {
    fn from(_error: AllocFailed<T>) -> Self {
        TableError::Memory
    }
}
