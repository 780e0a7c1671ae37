//! Which phases can be reached.

use crate::mentions::{Mention, ReadRule};
use crate::phases::{Length, Phase};
use dv_eval::Scope;
use dv_syntax::{Atomic, RuleSort};
use std::alloc::{AllocError, Global};

/// For each phase, by index, whether it is the start or rules lead from the start to it.
///
/// # Errors
///
/// Memory is refused.
pub(crate) fn reached_phases(
    alloc: Global,
    atomic: &Atomic,
    scope: &Scope,
    phases: &[Phase<'_>],
) -> Result<Vec<bool>, AllocError> {
    let mut walk = Walk {
        reached: vec![in alloc; false; phases.len()]?,
        waiting: Vec::new(alloc),
    };
    walk.follow_all(atomic, scope, phases)?;
    Ok(walk.reached)
}

// The phases that are reached so far, and the indices of those whose rules are still to be
// followed.
#[derive(Drop)]
struct Walk {
    reached: Vec<bool>,
    waiting: Vec<usize>,
}

impl Walk {
    // Reaches all phases from the start. Each phase waits once, so one iteration a phase is enough.
    fn follow_all(
        &mut self,
        atomic: &Atomic,
        scope: &Scope,
        phases: &[Phase<'_>],
    ) -> Result<(), AllocError> {
        for start in &atomic.starts {
            self.reach(scope.phase(start.phase.number))?;
        }
        for _phase in phases {
            if let Some(offset) = self.waiting.pop()
                && let Some(phase) = phases.get(offset)
            {
                self.follow(&phase.rules, scope)?;
            }
        }
        Ok(())
    }

    // Marks a phase as reached. If it was not reached before, its rules are still to be followed.
    fn reach(&mut self, phase: Option<u32>) -> Result<(), AllocError> {
        if let Some(offset) = phase
            && let Some(reached) = self.reached.get_mut(offset as usize)
            && !*reached
        {
            *reached = true;
            self.waiting.push(offset as usize)?;
        }
        Ok(())
    }

    // Reaches the phases to which the rules of a phase lead.
    fn follow(&mut self, rules: &[ReadRule<'_>], scope: &Scope) -> Result<(), AllocError> {
        for rule in rules {
            self.follow_rule(&rule.mentions, scope)?;
        }
        Ok(())
    }

    fn follow_rule(&mut self, mentions: &[Mention], scope: &Scope) -> Result<(), AllocError> {
        for mention in mentions {
            if let Mention::GoesTo(phase) = mention {
                self.reach(scope.phase(*phase))?;
            }
        }
        Ok(())
    }
}

/// For each phase, by index, whether its external rule can run at the instant of an internal rule,
/// directly after it. This is so if an internal transition can end in the phase, and begins in a
/// phase that is reached, does not last forever and has no confluent rule.
///
/// # Errors
///
/// Memory is refused.
pub(crate) fn phases_behind_internal_rules(
    alloc: Global,
    scope: &Scope,
    phases: &[Phase<'_>],
    reached: &[bool],
) -> Result<Vec<bool>, AllocError> {
    let mut behind = vec![in alloc; false; phases.len()]?;
    for (offset, phase) in phases.iter().enumerate() {
        if is_left_by_internal_rule(phase, reached.get(offset)) {
            mark_ends(&mut behind, scope, offset, phase);
        }
    }
    Ok(behind)
}

// Whether the internal rule of a phase runs even if something arrives as the hold ends.
fn is_left_by_internal_rule(phase: &Phase<'_>, reached: Option<&bool>) -> bool {
    reached == Some(&true)
        && phase.length != Length::Forever
        && phase.rule(RuleSort::Confluent).is_none()
}

// Marks the phases in which an internal transition of a phase can end.
fn mark_ends(marks: &mut [bool], scope: &Scope, offset: usize, phase: &Phase<'_>) {
    if phase.may_stay() {
        mark(marks, offset);
    }
    if let Some(rule) = phase.rule(RuleSort::Internal) {
        for mention in &rule.mentions {
            if let Mention::GoesTo(target) = mention
                && let Some(target) = scope.phase(*target)
            {
                mark(marks, target as usize);
            }
        }
    }
}

fn mark(marks: &mut [bool], offset: usize) {
    if let Some(mark) = marks.get_mut(offset) {
        *mark = true;
    }
}
