//! Sentences on the operation of an expression that has a fault.

use crate::atom::Atom;
use dv_bag::Value;
use dv_eval::{Moment, eval};
use dv_explain::Quoted;
use dv_syntax::{BagCall, Expr, Name, Operator, Prefix};
use std::alloc::AllocError;

/// What is wrong with a number that does not fit.
const OUTSIDE: &str = "is outside -2^63..2^63-1";

/// Adds a sentence with a line feed on the operation by which an expression has a fault: the one
/// whose operands have none.
///
/// # Errors
///
/// No memory for the longer text.
pub(crate) fn push_operation(
    text: &mut String,
    atom: &Atom<'_>,
    moment: &Moment<'_, '_>,
    expression: &Expr,
) -> Result<(), AllocError> {
    match expression {
        Expr::Literal(_) | Expr::TruthValue { .. } | Expr::Named(_) | Expr::Elapsed { .. } => Ok(
            (),
        ),
        Expr::Parens { inner, .. } => push_operation(text, atom, moment, inner),
        Expr::Prefixed {
            operator,
            operand,
            ..
        } => match eval(operand, moment, atom.scope) {
            Ok(value) => push_prefixed(text, *operator, number_in(value)),
            Err(_) => push_operation(text, atom, moment, operand),
        },
        Expr::Binary {
            operator,
            left,
            right,
        } => {
            let Ok(left_value) = eval(left, moment, atom.scope) else {
                return push_operation(text, atom, moment, left);
            };
            let Ok(right_value) = eval(right, moment, atom.scope) else {
                return push_operation(text, atom, moment, right);
            };
            push_binary(
                text,
                *operator,
                number_in(left_value),
                number_in(right_value),
            )
        }
        Expr::Call { call, bag, .. } => push_call(text, atom, *call, *bag),
        Expr::Times { value, .. } => push_operation(text, atom, moment, value),
    }
}

fn number_in(value: Value) -> i64 {
    match value {
        Value::Number(number) => number,
        Value::Truth(truth) => i64::from(truth),
    }
}

// A minus sign before its operand. `not` has no fault.
fn push_prefixed(text: &mut String, operator: Prefix, operand: i64) -> Result<(), AllocError> {
    match operator {
        Prefix::Minus => writeln!(text, "`-({operand})` {OUTSIDE}."),
        Prefix::Not => Ok(()),
    }
}

// An operator between its operands. A negative right one is put in parentheses.
fn push_binary(
    text: &mut String,
    operator: Operator,
    left: i64,
    right: i64,
) -> Result<(), AllocError> {
    let (sign, case) = match operator {
        Operator::Add => ("+", OUTSIDE),
        Operator::Subtract => ("-", OUTSIDE),
        Operator::Multiply => ("*", OUTSIDE),
        Operator::Divide => ("/", case_of_division(right)),
        Operator::Remainder => ("%", case_of_division(right)),
        // These have no fault.
        Operator::Or
        | Operator::And
        | Operator::Equal
        | Operator::Unequal
        | Operator::Less
        | Operator::AtMost
        | Operator::Greater
        | Operator::AtLeast => return Ok(()),
    };
    let (open, close) = if right < 0 { ("(", ")") } else { ("", "") };
    writeln!(text, "`{left} {sign} {open}{right}{close}` {case}.")
}

fn case_of_division(divisor: i64) -> &'static str {
    if divisor == 0 {
        "divides by 0"
    } else {
        OUTSIDE
    }
}

fn push_call(
    text: &mut String,
    atom: &Atom<'_>,
    call: BagCall,
    bag: Name,
) -> Result<(), AllocError> {
    let (before, after) = match call {
        BagCall::Sum => ("The sum of ", OUTSIDE),
        BagCall::Least => ("", "is empty, so it has no least value"),
        BagCall::Most => ("", "is empty, so it has no greatest value"),
        BagCall::Front => ("", "is empty, so it has no first value"),
        // It has no fault.
        BagCall::Size => return Ok(()),
    };
    let name = Quoted(atom.name(bag.number));
    writeln!(text, "{before}{name} {after}.")
}
