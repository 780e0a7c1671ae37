//! Warnings about divisors that may be 0.

use crate::findings::Findings;
use crate::mentions::{Mention, ReadRule, add_reads, expression_of};
use crate::ranges::range_of;
use crate::rules::condition_of;
use crate::warning::Warning;
use dv_eval::Scope;
use dv_syntax::{Expr, Name, Operator};
use std::alloc::{AllocError, Global};

/// Adds warnings about variables by which rules divide, whose range has 0, and which no
/// condition of the model reads.
///
/// # Errors
///
/// Memory is refused.
pub(crate) fn find_zero_divisors(
    alloc: Global,
    findings: &mut Findings<'_>,
    rules: &[ReadRule<'_>],
    scope: &Scope,
) -> Result<(), AllocError> {
    let asked = names_in_conditions(alloc, rules)?;
    for rule in rules {
        for statement in &rule.statements {
            if let Some(expression) = expression_of(statement) {
                find_in_expression(findings, expression, scope, &asked)?;
            }
        }
    }
    Ok(())
}

// The numbers of the names that the conditions of rules read, in their order.
fn names_in_conditions(alloc: Global, rules: &[ReadRule<'_>]) -> Result<Vec<u32>, AllocError> {
    let mut reads = Vec::new(alloc);
    for rule in rules {
        for statement in &rule.statements {
            if let Some((_, condition)) = condition_of(statement) {
                add_reads(condition, &mut reads)?;
            }
        }
    }
    in_order(alloc, &reads)
}

fn in_order(alloc: Global, reads: &[Mention]) -> Result<Vec<u32>, AllocError> {
    let mut numbers = Vec::with_capacity(alloc, reads.len())?;
    for mention in reads {
        if let Mention::Reads(number) = mention {
            numbers.push(*number)?;
        }
    }
    numbers.sort_unstable();
    Ok(numbers)
}

// Looks at the divisors of an expression. Behind `and` and `or` a division may be decided by what
// stands before, so nothing is said of it.
fn find_in_expression(
    findings: &mut Findings<'_>,
    expression: &Expr,
    scope: &Scope,
    asked: &[u32],
) -> Result<(), AllocError> {
    match expression {
        Expr::Binary {
            operator: Operator::And | Operator::Or,
            ..
        } => Ok(()),
        Expr::Binary {
            operator,
            left,
            right,
        } => {
            if let Operator::Divide | Operator::Remainder = operator
                && let Expr::Named(divisor) = &**right
            {
                find_in_divisor(findings, *divisor, scope, asked)?;
            }
            find_in_expression(findings, left, scope, asked)?;
            find_in_expression(findings, right, scope, asked)
        }
        Expr::Parens { inner, .. } => find_in_expression(findings, inner, scope, asked),
        Expr::Prefixed { operand, .. } => find_in_expression(findings, operand, scope, asked),
        Expr::Times { value, .. } => find_in_expression(findings, value, scope, asked),
        Expr::Literal(_)
        | Expr::TruthValue { .. }
        | Expr::Named(_)
        | Expr::Call { .. }
        | Expr::Elapsed { .. } => Ok(()),
    }
}

fn find_in_divisor(
    findings: &mut Findings<'_>,
    divisor: Name,
    scope: &Scope,
    asked: &[u32],
) -> Result<(), AllocError> {
    let is_asked = asked.binary_search(&divisor.number).is_ok();
    match range_of(divisor, scope) {
        Some(range) if range.low <= 0 && range.high >= 0 && !is_asked => {
            let name = findings.name(divisor);
            findings.note(
                divisor.offset,
                Warning::ZeroDivisor {
                    name,
                    low: range.low,
                    high: range.high,
                },
            )
        }
        _ => Ok(()),
    }
}
