//! Why the numbers are not complete.

use dv_text::WriteError;
use dv_trace::{TraceError, TraceRefusal};
use std::alloc::AllocError;

/// Why the numbers are not complete.
#[derive(Clone, Copy)]
pub enum StatsError {
    /// The trace is refused; nothing was written.
    Refused(TraceRefusal),
    /// A write failed; a beginning of the text was written.
    Write,
    /// An allocation was refused; nothing was written, or a beginning of the text.
    Memory,
}

impl From<TraceError> for StatsError {
    fn from(error: TraceError) -> Self {
        match error {
            TraceError::Refused(refusal) => StatsError::Refused(refusal),
            TraceError::Memory => StatsError::Memory,
        }
    }
}

impl From<WriteError> for StatsError {
    fn from(error: WriteError) -> Self {
        match error {
            WriteError::Write => StatsError::Write,
            WriteError::Memory => StatsError::Memory,
        }
    }
}

impl From<AllocError> for StatsError {
    fn from(_error: AllocError) -> Self {
        StatsError::Memory
    }
}
