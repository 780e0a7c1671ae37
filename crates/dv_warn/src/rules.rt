//! Warnings about phases and rules.

use crate::constants::Nowhere;
use crate::findings::Findings;
use crate::mentions::ReadRule;
use crate::phases::{Length, Phase};
use crate::warning::{NeverRuns, Warning};
use dv_bag::Value;
use dv_syntax::{Expr, RuleSort, Stmt};
use std::alloc::AllocError;

/// What is known of the model that has a phase.
#[derive(Clone, Copy)]
pub(crate) struct Surroundings {
    /// Whether the model has input ports.
    pub(crate) has_inputs: bool,
    /// Whether a link leads to an input port, at any part of the model.
    pub(crate) is_fed: bool,
    /// Whether a phase has an external rule.
    pub(crate) has_external_rules: bool,
}

/// How a phase can be reached.
#[derive(Clone, Copy)]
pub(crate) struct Reach {
    pub(crate) is_start: bool,
    pub(crate) is_reached: bool,
    /// Whether its external rule can run at the instant of an internal rule, directly after it.
    pub(crate) is_behind_internal_rule: bool,
}

/// Adds the warnings about a phase. If the phase is not reached, this is the only warning about it.
///
/// # Errors
///
/// Memory is refused.
pub(crate) fn find_in_phase<'t>(
    findings: &mut Findings<'t>,
    phase: &Phase<'_>,
    around: Surroundings,
    reach: Reach,
) -> Result<(), AllocError> {
    if !reach.is_reached {
        let name = findings.name(phase.name);
        return findings.note(phase.name.offset, Warning::UnreachedPhase { phase: name });
    }
    find_endless_hold(findings, phase)?;
    find_lost_values(findings, phase, around, reach)?;
    for rule in &phase.rules {
        if let Some(reason) = idle_reason(rule.rule.sort, phase, around, reach) {
            note_idle_rule(findings, rule, reason)?;
        }
    }
    Ok(())
}

// A phase of hold 0 that no rule leaves begins again and again at the same tick.
fn find_endless_hold<'t>(findings: &mut Findings<'t>, phase: &Phase<'_>) -> Result<(), AllocError> {
    if phase.length != Length::Zero || phase.has_way_out() {
        return Ok(());
    }
    let name = findings.name(phase.name);
    let offset = match phase.rule(RuleSort::Internal) {
        Some(rule) => rule.rule.phase.offset,
        None => phase.held.offset,
    };
    findings.note(offset, Warning::EndlessPhase { phase: name })
}

// If a phase has no external rule but another phase has one, what arrives in the phase is probably
// lost by mistake. In a phase of hold 0 nothing can arrive, except at the instant at which an
// internal rule leads to it.
fn find_lost_values<'t>(
    findings: &mut Findings<'t>,
    phase: &Phase<'_>,
    around: Surroundings,
    reach: Reach,
) -> Result<(), AllocError> {
    let is_lossy = around.is_fed
        && around.has_external_rules
        && phase.rule(RuleSort::External).is_none();
    if !is_lossy {
        return Ok(());
    }
    let name = findings.name(phase.name);
    if phase.length != Length::Zero {
        findings.note(phase.name.offset, Warning::LostValues { phase: name })
    } else if reach.is_behind_internal_rule {
        findings.note(phase.name.offset, Warning::LostOnArrival { phase: name })
    } else {
        Ok(())
    }
}

// Why a rule of a phase never runs, if that can be seen.
fn idle_reason(
    sort: RuleSort,
    phase: &Phase<'_>,
    around: Surroundings,
    reach: Reach,
) -> Option<NeverRuns> {
    match sort {
        RuleSort::External | RuleSort::Confluent if !around.has_inputs => Some(NeverRuns::NoInput),
        RuleSort::Output | RuleSort::Internal | RuleSort::Confluent => {
            (phase.length == Length::Forever).then_some(NeverRuns::HeldForever)
        }
        RuleSort::External => is_left_unmet(phase, reach).then_some(NeverRuns::LeftAtOnce),
    }
}

// Whether a phase ends before anything can arrive in it. In the start phase inputs can arrive at
// 0.0.
fn is_left_unmet(phase: &Phase<'_>, reach: Reach) -> bool {
    phase.length == Length::Zero && !reach.is_start && !reach.is_behind_internal_rule
}

fn note_idle_rule<'t>(
    findings: &mut Findings<'t>,
    rule: &ReadRule<'_>,
    reason: NeverRuns,
) -> Result<(), AllocError> {
    let phase = findings.name(rule.rule.phase);
    findings.note(
        rule.rule.phase.offset,
        Warning::IdleRule {
            sort: rule.rule.sort,
            phase,
            reason,
        },
    )
}

/// Adds warnings about the conditions of rules that always have the same value.
///
/// # Errors
///
/// Memory is refused.
pub(crate) fn find_constant_conditions(
    findings: &mut Findings<'_>,
    rules: &[ReadRule<'_>],
    nowhere: &Nowhere,
) -> Result<(), AllocError> {
    for rule in rules {
        find_constant_conditions_of(findings, rule, nowhere)?;
    }
    Ok(())
}

fn find_constant_conditions_of(
    findings: &mut Findings<'_>,
    rule: &ReadRule<'_>,
    nowhere: &Nowhere,
) -> Result<(), AllocError> {
    for statement in &rule.statements {
        if let Some((offset, condition)) = condition_of(statement)
            && let Some(Value::Truth(value)) = nowhere.value(condition)
        {
            findings.note(offset, Warning::ConstantCondition { value })?;
        }
    }
    Ok(())
}

/// The condition of an `if`, with the offset of the `if`.
pub(crate) fn condition_of(statement: &Stmt) -> Option<(u32, &Expr)> {
    match statement {
        Stmt::If {
            offset,
            condition,
            ..
        }
        | Stmt::IfElse {
            offset,
            condition,
            ..
        } => Some((*offset, condition)),
        Stmt::Assign { .. }
        | Stmt::Command { .. }
        | Stmt::Send { .. }
        | Stmt::For { .. }
        | Stmt::Change { .. } => None,
    }
}
