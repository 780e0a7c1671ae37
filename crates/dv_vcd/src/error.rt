//! Why a dump is not complete.

use dv_inputs::{InputRefusal, InputsError};
use dv_text::WriteError;
use dv_trace::{TraceError, TraceRefusal};
use std::alloc::AllocError;
use std::io;
use std::io::ErrorKind;

/// Why a dump is not complete.
#[derive(Drop)]
pub enum VcdError {
    /// The text of the inputs is refused; nothing was written.
    Inputs(InputRefusal),
    /// The trace can't be read. If the first reading failed, nothing was written; if the second one
    /// did, a beginning of the dump, perhaps nothing.
    Unread(io::Error),
    /// The trace is refused; nothing was written. If the trace was changed between its two
    /// readings, a beginning of the dump may have been written.
    Refused(TraceRefusal),
    /// A write failed; a beginning of the dump was written.
    Write,
    /// An allocation was refused; nothing was written, or a beginning of the dump.
    Memory,
}

impl From<InputsError> for VcdError {
    fn from(error: InputsError) -> Self {
        match error {
            InputsError::Refused(refusal) => VcdError::Inputs(refusal),
            InputsError::Memory => VcdError::Memory,
        }
    }
}

impl From<TraceError> for VcdError {
    fn from(error: TraceError) -> Self {
        match error {
            TraceError::Refused(refusal) => VcdError::Refused(refusal),
            TraceError::Memory => VcdError::Memory,
        }
    }
}

impl From<WriteError> for VcdError {
    fn from(error: WriteError) -> Self {
        match error {
            WriteError::Write => VcdError::Write,
            WriteError::Memory => VcdError::Memory,
        }
    }
}

impl From<AllocError> for VcdError {
    fn from(_error: AllocError) -> Self {
        VcdError::Memory
    }
}

impl From<io::Error> for VcdError {
    fn from(error: io::Error) -> Self {
        match error.kind() {
            ErrorKind::OutOfMemory => VcdError::Memory,
            _ => VcdError::Unread(error),
        }
    }
}
