//! Why a trace is refused.

use std::alloc::{AllocError, AllocFailed};
use std::fmt;

/// What is wrong with a line.
#[derive(Clone, Copy, Debug)]
pub enum TraceReason {
    /// The line is not UTF-8.
    NotText,
    /// The line has none of the forms that a line of a trace has.
    Form,
    /// The time is not a tick and a microstep, as in `5.0`.
    Time,
    /// No component has this path.
    Path,
    /// The component has no phase of this name.
    Phase,
    /// The variables are not those of the component, in their order.
    Variable,
    /// A value is not one of its variable or its port. Ranges and capacities are not tested.
    Value,
    /// No output port has this name, or ports are not in their order.
    Port,
    /// No fault has this name.
    Fault,
    /// The line is out of order: lines are sorted by time, then by component, and what left the
    /// model comes last.
    Order,
    /// The line comes after the end of the trace.
    AfterEnd,
    /// The trace has no end: no line `whole` with the horizon, and no `partial`; or its last line
    /// has no line feed.
    NoEnd,
}

impl fmt::Display for TraceReason {
    fn fmt<W: fmt::Write>(&self, f: &mut fmt::Formatter<W>) -> fmt::Result {
        f.write_str(match self {
            TraceReason::NotText => "not UTF-8",
            TraceReason::Form => "not a line of a trace",
            TraceReason::Time => "no time",
            TraceReason::Path => "no component of this path",
            TraceReason::Phase => "no phase of this name",
            TraceReason::Variable => "not the variables of this component",
            TraceReason::Value => "no value",
            TraceReason::Port => "no port of this name",
            TraceReason::Fault => "no fault of this name",
            TraceReason::Order => "out of order",
            TraceReason::AfterEnd => "after the end",
            TraceReason::NoEnd => "no end",
        })
    }
}

/// Why a trace is refused, and at which line.
#[derive(Clone, Copy, Debug)]
pub struct TraceRefusal {
    /// What is wrong.
    pub reason: TraceReason,
    /// The number of the line, counted from 1.
    pub line: u64,
}

impl fmt::Display for TraceRefusal {
    fn fmt<W: fmt::Write>(&self, f: &mut fmt::Formatter<W>) -> fmt::Result {
        write!(f, "trace line {}: {}", self.line, self.reason)
    }
}

/// Why a trace is not read.
#[derive(Clone, Copy)]
pub enum TraceError {
    /// The trace is malformed, or not one of this model.
    Refused(TraceRefusal),
    /// An allocation was refused.
    Memory,
}

impl From<AllocError> for TraceError {
    fn from(_error: AllocError) -> Self {
        TraceError::Memory
    }
}

/// Why a line is not read.
#[derive(Clone, Copy)]
pub(crate) enum LineError {
    Refused(TraceReason),
    Memory,
}

impl From<TraceReason> for LineError {
    fn from(reason: TraceReason) -> Self {
        LineError::Refused(reason)
    }
}

impl From<AllocError> for LineError {
    fn from(_error: AllocError) -> Self {
        LineError::Memory
    }
}

impl<T: Drop> From<AllocFailed<T>> for LineError {
    fn from(_error: AllocFailed<T>) -> Self {
        LineError::Memory
    }
}
