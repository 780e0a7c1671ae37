//! The programs of an atomic model.

use dv_code::{Tables, Valid};
use std::alloc::Global;
use std::sync::Arc;

/// The programs of a phase.
#[derive(Drop)]
pub struct PhaseCode {
    /// The output function, at the end of the hold.
    pub output: Valid,
    /// The internal transition, at the end of the hold.
    pub internal: Valid,
    /// The external transition.
    pub external: Valid,
    /// The confluent transition, if the phase has a rule for it.
    pub confluent: Option<Valid>,
    /// The ticks of the hold: forever if there is no program.
    pub hold: Option<Valid>,
}

/// The programs of an atomic model, by the indices of its phases, and the tables that they share.
#[derive(Drop)]
pub struct ModelCode {
    /// The tables that all programs of the model share.
    pub tables: Arc<Tables>,
    /// The programs of each phase, in the order of the phases' declaration.
    pub phases: Vec<PhaseCode>,
}
