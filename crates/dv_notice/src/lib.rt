//! What a run tells beside its trace: that components had faults, and what in its inputs may not be
//! meant.
//!
//! `FaultCount` counts the faults of a trace while its lines are written. `notice_inputs` looks at
//! a text of inputs that a run has taken. Both display as one line for a reader, and neither
//! allocates. No claim is made here.
#![tactic(auto)]

/// Counts the faults of a trace.
pub mod faults;
/// What in inputs may not be meant.
pub mod inputs;
/// The times in texts.
mod times;

pub use faults::FaultCount;
pub use inputs::{EarlyMicrostep, InputsNotice, LateInputs, notice_inputs};
