//! The phases of an atomic model, with their holds and rules.

use crate::constants::Nowhere;
use crate::mentions::{Mention, ReadRule};
use dv_eval::Scope;
use dv_syntax::{Atomic, Hold, Name, RuleSort, Ticks};
use std::alloc::{AllocError, Global};

/// How long a phase lasts, as far as its hold shows without the values of names.
#[derive(Clone, Copy, PartialEq, Eq)]
pub(crate) enum Length {
    Forever,
    /// No ticks: the phase ends at the next microstep.
    Zero,
    /// A number of ticks above 0, or an unknown one.
    Ticks,
}

/// A phase of a model, with its hold and its rules.
#[derive(Drop)]
pub(crate) struct Phase<'a> {
    pub(crate) name: Name,
    pub(crate) length: Length,
    /// The name of the phase as its hold has it, for the offset.
    pub(crate) held: Name,
    /// The rules of the phase, at most one of each sort.
    pub(crate) rules: Vec<ReadRule<'a>>,
}

impl<'a> Phase<'a> {
    /// The rule of a sort, if there is one.
    pub(crate) fn rule(&self, sort: RuleSort) -> Option<&ReadRule<'a>> {
        for rule in &self.rules {
            if rule.rule.sort == sort {
                return Some(rule);
            }
        }
        None
    }

    /// Whether an internal transition may stay in the phase.
    pub(crate) fn may_stay(&self) -> bool {
        match self.rule(RuleSort::Internal) {
            Some(rule) => !rule.rule.body.always_goes(),
            None => true,
        }
    }

    /// Whether a rule goes to another phase.
    pub(crate) fn has_way_out(&self) -> bool {
        for rule in &self.rules {
            if leads_away(&rule.mentions, self.name.number) {
                return true;
            }
        }
        false
    }
}

// Whether a `goto` leads to another phase than this one.
fn leads_away(mentions: &[Mention], phase: u32) -> bool {
    for mention in mentions {
        if let Mention::GoesTo(target) = mention
            && *target != phase
        {
            return true;
        }
    }
    false
}

/// The phases of a model with its rules, in the order of the text.
///
/// # Errors
///
/// Memory is refused.
pub(crate) fn phases_of<'a>(
    alloc: Global,
    atomic: &'a Atomic,
    scope: &Scope,
    rules: Vec<ReadRule<'a>>,
    nowhere: &Nowhere,
) -> Result<Vec<Phase<'a>>, AllocError> {
    let mut phases = named_phases(alloc, atomic)?;
    add_holds(&mut phases, &atomic.holds, scope, nowhere);
    add_rules(&mut phases, rules, scope)?;
    Ok(phases)
}

// The phases without holds and rules.
fn named_phases<'a>(alloc: Global, atomic: &Atomic) -> Result<Vec<Phase<'a>>, AllocError> {
    let mut phases = Vec::new(alloc);
    for item in &atomic.phases {
        add_names(alloc, &mut phases, &item.names)?;
    }
    Ok(phases)
}

fn add_names(alloc: Global, phases: &mut Vec<Phase<'_>>, names: &[Name]) -> Result<(), AllocError> {
    for name in names {
        phases.push(Phase {
            name: *name,
            length: Length::Forever,
            held: *name,
            rules: Vec::new(alloc),
        })?;
    }
    Ok(())
}

fn add_holds(phases: &mut [Phase<'_>], holds: &[Hold], scope: &Scope, nowhere: &Nowhere) {
    for hold in holds {
        if let Some(offset) = scope.phase(hold.phase.number)
            && let Some(phase) = phases.get_mut(offset as usize)
        {
            phase.length = length_of(&hold.ticks, nowhere);
            phase.held = hold.phase;
        }
    }
}

fn length_of(ticks: &Ticks, nowhere: &Nowhere) -> Length {
    match ticks {
        Ticks::Forever => Length::Forever,
        Ticks::After(expression) if nowhere.is_zero(expression) => Length::Zero,
        Ticks::After(_) => Length::Ticks,
    }
}

fn add_rules<'a>(
    phases: &mut [Phase<'a>],
    rules: Vec<ReadRule<'a>>,
    scope: &Scope,
) -> Result<(), AllocError> {
    for rule in rules {
        if let Some(offset) = scope.phase(rule.rule.phase.number)
            && let Some(phase) = phases.get_mut(offset as usize)
        {
            phase.rules.push(rule)?;
        }
    }
    Ok(())
}
