//! Why a view is not complete.

use dv_inputs::InputsError;
use dv_job::JobError;
use dv_partition::PartitionError;
use dv_stats::StatsError;
use dv_table::TableError;
use dv_text::WriteError;
use dv_trace::{TraceError, TraceRefusal};
use dv_vcd::VcdError;
use std::alloc::AllocError;
use std::io::ErrorKind;
use std::{fmt, io};
use thiserror::Error;

/// Why a view is not complete.
#[derive(Debug, Drop, Error)]
pub enum ViewError {
    /// The model, the partition or the inputs are refused, a write failed or an allocation was
    /// refused.
    Job(JobError),
    /// The trace can't be read to its end; nothing was written. If a second reading failed, a
    /// beginning of the view was written.
    Unread(io::Error),
    /// The trace is refused; nothing was written. If it was changed before a second reading, a
    /// beginning of the view was written.
    Trace(TraceRefusal),
    /// No component has the path that is asked for, or nothing has the name whose curve is, or no
    /// port one of a flow; nothing was written. The text says which one, and similar ones.
    NoPath(String),
    /// No atomic model has the name whose phases are asked for; nothing was written. The text says
    /// which name, and similar ones.
    NoPhases(String),
}

impl fmt::Display for ViewError {
    fn fmt<W: fmt::Write>(&self, f: &mut fmt::Formatter<W>) -> fmt::Result {
        match self {
            ViewError::Job(error) => write!(f, "{error}"),
            ViewError::Unread(error) => write!(f, "cannot read the trace: {error}"),
            ViewError::Trace(refusal) => write!(f, "{refusal}"),
            ViewError::NoPath(words) | ViewError::NoPhases(words) => f.write_str(words.as_str()),
        }
    }
}

impl From<io::Error> for ViewError {
    // The error of a trace that can't be read.
    fn from(error: io::Error) -> Self {
        match error.kind() {
            ErrorKind::OutOfMemory => ViewError::Job(JobError::Memory),
            _ => ViewError::Unread(error),
        }
    }
}

impl From<AllocError> for ViewError {
    fn from(_error: AllocError) -> Self {
        ViewError::Job(JobError::Memory)
    }
}

impl From<WriteError> for ViewError {
    fn from(error: WriteError) -> Self {
        ViewError::Job(JobError::from(error))
    }
}

impl From<PartitionError> for ViewError {
    fn from(error: PartitionError) -> Self {
        ViewError::Job(JobError::from(error))
    }
}

impl From<VcdError> for ViewError {
    fn from(error: VcdError) -> Self {
        match error {
            VcdError::Inputs(refusal) => ViewError::Job(JobError::Inputs(refusal)),
            VcdError::Unread(error) => ViewError::Unread(error),
            VcdError::Refused(refusal) => ViewError::Trace(refusal),
            VcdError::Write => ViewError::Job(JobError::Write),
            VcdError::Memory => ViewError::Job(JobError::Memory),
        }
    }
}

impl From<StatsError> for ViewError {
    fn from(error: StatsError) -> Self {
        match error {
            StatsError::Refused(refusal) => ViewError::Trace(refusal),
            StatsError::Write => ViewError::Job(JobError::Write),
            StatsError::Memory => ViewError::Job(JobError::Memory),
        }
    }
}

impl From<TableError> for ViewError {
    fn from(error: TableError) -> Self {
        match error {
            TableError::Inputs(refusal) => ViewError::Job(JobError::Inputs(refusal)),
            TableError::Refused(refusal) => ViewError::Trace(refusal),
            TableError::Write => ViewError::Job(JobError::Write),
            TableError::Memory => ViewError::Job(JobError::Memory),
        }
    }
}

impl From<TraceError> for ViewError {
    fn from(error: TraceError) -> Self {
        match error {
            TraceError::Refused(refusal) => ViewError::Trace(refusal),
            TraceError::Memory => ViewError::Job(JobError::Memory),
        }
    }
}

impl From<InputsError> for ViewError {
    fn from(error: InputsError) -> Self {
        ViewError::Job(JobError::from(error))
    }
}

impl From<JobError> for ViewError {
    fn from(error: JobError) -> Self {
        ViewError::Job(error)
    }
}
