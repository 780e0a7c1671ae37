//! Warnings about phases of hold 0 that lead to one another and to no others.

use crate::findings::Findings;
use crate::mentions::Mention;
use crate::phases::{Length, Phase};
use crate::warning::Warning;
use dv_eval::Scope;
use std::alloc::{AllocError, Global};

/// A `goto`, by the indices of the phases: to which it leads, and from which.
type Step = (usize, usize);

/// Adds a warning about the first phase that is reached and from which rules lead to others of hold
/// 0, and never to one that lasts. The others of such a round get none.
///
/// # Errors
///
/// Memory is refused.
pub(crate) fn find_endless_round(
    alloc: Global,
    findings: &mut Findings<'_>,
    scope: &Scope,
    phases: &[Phase<'_>],
    reached: &[bool],
) -> Result<(), AllocError> {
    let ends = phases_with_end(alloc, scope, phases)?;
    for ((phase, is_reached), has_end) in phases.iter().zip(reached).zip(&ends) {
        if *is_reached && !*has_end {
            let name = findings.name(phase.name);
            return findings.note(phase.name.offset, Warning::EndlessRound { phase: name });
        }
    }
    Ok(())
}

// For each phase, by index, whether rules lead from it to a phase that lasts. One that no rule
// leaves has a warning of its own and counts as such.
fn phases_with_end(
    alloc: Global,
    scope: &Scope,
    phases: &[Phase<'_>],
) -> Result<Vec<bool>, AllocError> {
    let mut ends = Vec::with_capacity(alloc, phases.len())?;
    for phase in phases {
        ends.push(phase.length != Length::Zero || !phase.has_way_out())?;
    }
    let steps = steps_by_target(alloc, scope, phases)?;
    mark_backwards(alloc, &steps, &mut ends)?;
    Ok(ends)
}

// The steps between phases, in the order of the phases to which they lead.
fn steps_by_target(
    alloc: Global,
    scope: &Scope,
    phases: &[Phase<'_>],
) -> Result<Vec<Step>, AllocError> {
    let mut steps = Vec::new(alloc);
    for (from, phase) in phases.iter().enumerate() {
        for rule in &phase.rules {
            add_steps(&mut steps, scope, from, &rule.mentions)?;
        }
    }
    steps.sort_unstable();
    Ok(steps)
}

fn add_steps(
    steps: &mut Vec<Step>,
    scope: &Scope,
    from: usize,
    mentions: &[Mention],
) -> Result<(), AllocError> {
    for mention in mentions {
        if let Mention::GoesTo(phase) = mention
            && let Some(to) = scope.phase(*phase)
        {
            steps.push((to as usize, from))?;
        }
    }
    Ok(())
}

// Marks the phases from which steps lead to marked ones. Each phase waits at most once, so one
// iteration a phase is enough.
fn mark_backwards(alloc: Global, steps: &[Step], marks: &mut [bool]) -> Result<(), AllocError> {
    let mut waiting = marked(alloc, marks)?;
    for _phase in 0..marks.len() {
        if let Some(to) = waiting.pop() {
            mark_sources(steps, to, marks, &mut waiting)?;
        }
    }
    Ok(())
}

// The indices of the marks that are set.
fn marked(alloc: Global, marks: &[bool]) -> Result<Vec<usize>, AllocError> {
    let mut indices = Vec::new(alloc);
    for (index, mark) in marks.iter().enumerate() {
        if *mark {
            indices.push(index)?;
        }
    }
    Ok(indices)
}

// Marks the phases from which a step leads to one phase. Those that were not marked wait.
fn mark_sources(
    steps: &[Step],
    to: usize,
    marks: &mut [bool],
    waiting: &mut Vec<usize>,
) -> Result<(), AllocError> {
    let first = steps.partition_point(|(target, _)| *target < to);
    for (target, from) in steps.get(first..).unwrap_or(&[]) {
        if *target != to {
            break;
        }
        if let Some(mark) = marks.get_mut(*from)
            && !*mark
        {
            *mark = true;
            waiting.push(*from)?;
        }
    }
    Ok(())
}
