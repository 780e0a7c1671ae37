//! Warnings about numbers that are outside of the range of a variable.

use crate::constants::Nowhere;
use crate::findings::Findings;
use crate::mentions::ReadRule;
use crate::rules::condition_of;
use crate::warning::Warning;
use dv_bag::Value;
use dv_eval::{Domain, Scope, VariableRange};
use dv_syntax::{Expr, Name, Operator, Stmt};
use std::alloc::AllocError;

/// Adds warnings about assignments of a constant that is outside of the range of its variable, and
/// about conditions that the range of a variable decides.
///
/// # Errors
///
/// Memory is refused.
pub(crate) fn find_outside_ranges(
    findings: &mut Findings<'_>,
    rules: &[ReadRule<'_>],
    scope: &Scope,
    nowhere: &Nowhere,
) -> Result<(), AllocError> {
    for rule in rules {
        for statement in &rule.statements {
            find_in_statement(findings, statement, scope, nowhere)?;
        }
    }
    Ok(())
}

fn find_in_statement(
    findings: &mut Findings<'_>,
    statement: &Stmt,
    scope: &Scope,
    nowhere: &Nowhere,
) -> Result<(), AllocError> {
    match statement {
        Stmt::Assign { variable, value } => {
            find_wrong_number(findings, *variable, value, scope, nowhere)
        }
        Stmt::If { .. } | Stmt::IfElse { .. } => {
            find_decided_condition(findings, statement, scope, nowhere)
        }
        Stmt::Command { .. } | Stmt::Send { .. } | Stmt::For { .. } | Stmt::Change { .. } => Ok(()),
    }
}

// A constant that is assigned to a variable and is outside of its range.
fn find_wrong_number(
    findings: &mut Findings<'_>,
    variable: Name,
    value: &Expr,
    scope: &Scope,
    nowhere: &Nowhere,
) -> Result<(), AllocError> {
    let Some(range) = range_of(variable, scope) else {
        return Ok(());
    };
    match nowhere.value(value) {
        Some(Value::Number(number)) if number < range.low || number > range.high => {
            let name = findings.name(variable);
            findings.note(
                variable.offset,
                Warning::OutsideRange {
                    name,
                    number,
                    low: range.low,
                    high: range.high,
                },
            )
        }
        _ => Ok(()),
    }
}

// A condition that compares a variable with a constant, and is the same in each state.
fn find_decided_condition(
    findings: &mut Findings<'_>,
    statement: &Stmt,
    scope: &Scope,
    nowhere: &Nowhere,
) -> Result<(), AllocError> {
    let Some((offset, condition)) = condition_of(statement) else {
        return Ok(());
    };
    match decided(condition, scope, nowhere) {
        Some((variable, range, value)) => {
            let name = findings.name(variable);
            findings.note(
                offset,
                Warning::DecidedByRange {
                    value,
                    name,
                    low: range.low,
                    high: range.high,
                },
            )
        }
        None => Ok(()),
    }
}

// The variable whose range decides a condition, with its range, and the value of the condition. A
// variable with one number stands for a constant, so its conditions are meant to be decided.
fn decided(
    condition: &Expr,
    scope: &Scope,
    nowhere: &Nowhere,
) -> Option<(Name, VariableRange, bool)> {
    let Expr::Binary {
        operator,
        left,
        right,
    } = condition
    else {
        return None;
    };
    let (variable, operator, constant) = match (&**left, &**right) {
        (Expr::Named(variable), constant) => (*variable, *operator, constant),
        (constant, Expr::Named(variable)) => (*variable, turned(*operator), constant),
        _ => return None,
    };
    let range = range_of(variable, scope)?;
    let Some(Value::Number(number)) = nowhere.value(constant) else {
        return None;
    };
    if range.low == range.high {
        return None;
    }
    Some((variable, range, decision(operator, range, number)?))
}

// The operator that says the same with its operands exchanged.
fn turned(operator: Operator) -> Operator {
    match operator {
        Operator::Less => Operator::Greater,
        Operator::AtMost => Operator::AtLeast,
        Operator::Greater => Operator::Less,
        Operator::AtLeast => Operator::AtMost,
        same => same,
    }
}

// Whether a comparison of a variable with a number is true, if its range decides that.
fn decision(operator: Operator, range: VariableRange, number: i64) -> Option<bool> {
    let is_below = range.high < number;
    let is_above = range.low > number;
    let is_apart = is_below || is_above;
    match operator {
        Operator::Less if is_below || range.low >= number => Some(is_below),
        Operator::AtMost if range.high <= number || is_above => Some(!is_above),
        Operator::Greater if is_above || range.high <= number => Some(is_above),
        Operator::AtLeast if range.low >= number || is_below => Some(!is_below),
        Operator::Equal if is_apart => Some(false),
        Operator::Unequal if is_apart => Some(true),
        _ => None,
    }
}

/// The range of a variable of the model, if it is one with numbers.
pub(crate) fn range_of(variable: Name, scope: &Scope) -> Option<VariableRange> {
    match scope.domain(scope.variable(variable.number)?)? {
        Domain::Number(range) => Some(range),
        Domain::Flag { .. } | Domain::Held { .. } => None,
    }
}
