//! Ranges and start values, and the hold of the start phase.

use crate::causes::{cause, empty_cause};
use dv_bag::Fault;
use dv_eval::{Scope, VariableRange, phase_hold, start_state};
use dv_explain::{Cause, explanation_of};
use dv_syntax::{Atomic, Declaration};
use std::alloc::{AllocError, Global};

/// The cause of E11 at an offset: of the name of a variable that can't have its start value, or
/// else of the phase after `start` whose hold has a fault.
///
/// # Errors
///
/// No memory for the start or the words.
pub fn start_at(alloc: Global, model: &Atomic, offset: u32) -> Result<Cause, AllocError> {
    match range_at(model, offset) {
        Some(range) => out_of_range(alloc, &range),
        None => start_hold(alloc, model, offset),
    }
}

/// The range of the variable whose name is at an offset.
fn range_at(model: &Atomic, offset: u32) -> Option<VariableRange> {
    for declaration in &model.declarations {
        if let Declaration::Var(variable) = declaration
            && variable.name.offset == offset
        {
            return Some(VariableRange::of(variable));
        }
    }
    None
}

fn out_of_range(alloc: Global, range: &VariableRange) -> Result<Cause, AllocError> {
    let VariableRange { low, high, start } = range;
    if low > high {
        let summary = format_args!("the range {low}..{high} is empty: {low} is above {high}");
        cause(alloc, summary, "")
    } else {
        let summary = format_args!("the start value {start} is outside of {low}..{high}");
        cause(alloc, summary, "")
    }
}

fn start_hold(alloc: Global, model: &Atomic, offset: u32) -> Result<Cause, AllocError> {
    for start in &model.starts {
        if start.phase.offset == offset {
            return match start_fault(alloc, model, start.phase.number)? {
                Some(fault) => faulting(alloc, fault),
                None => empty_cause(alloc),
            };
        }
    }
    empty_cause(alloc)
}

/// The fault of the hold of a phase with the start values, if it has one.
fn start_fault(alloc: Global, model: &Atomic, phase: u32) -> Result<Option<Fault>, AllocError> {
    let scope = Scope::of(alloc, model)?;
    let state = start_state(alloc, model, &scope)?;
    Ok(phase_hold(model, phase, &state, &scope).err())
}

fn faulting(alloc: Global, fault: Fault) -> Result<Cause, AllocError> {
    let name = format!(in alloc; "{fault}")?;
    let words = match explanation_of(name.as_str()) {
        Some(explanation) => explanation.words,
        None => "",
    };
    let summary = format_args!(
        "the hold of the start phase has the fault `{name}` with the start values"
    );
    cause(alloc, summary, format_args!("{words}\n"))
}
