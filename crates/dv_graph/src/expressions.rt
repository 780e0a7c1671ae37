//! Expressions as text, with a blank on each side of an operator.

use dv_syntax::{BagCall, Expr, Operator, Prefix};
use dv_tree::Tree;
use std::alloc::{AllocError, Global};

/// The greatest number of characters that is shown of an expression.
const SHOWN: usize = 40;

/// The text of an expression, cut off after `SHOWN` characters.
///
/// # Errors
///
/// Memory is refused.
pub(crate) fn short_text(
    alloc: Global,
    tree: &Tree,
    expression: &Expr,
) -> Result<String, AllocError> {
    let mut text = String::new(alloc);
    push_expression(&mut text, tree, expression)?;
    cut_off(alloc, text)
}

/// The text of the negation of an expression, cut off after `SHOWN` characters.
///
/// # Errors
///
/// Memory is refused.
pub(crate) fn short_negation(
    alloc: Global,
    tree: &Tree,
    expression: &Expr,
) -> Result<String, AllocError> {
    let mut text = String::new(alloc);
    match expression {
        Expr::Parens { .. } | Expr::Named(_) => {
            push_enclosed(&mut text, tree, "not ", expression, "")?;
        }
        _ => push_enclosed(&mut text, tree, "not (", expression, ")")?,
    }
    cut_off(alloc, text)
}

fn cut_off(alloc: Global, text: String) -> Result<String, AllocError> {
    match text.as_str().char_indices().nth(SHOWN) {
        Some((end, _)) => {
            let front = text.as_str().get(..end).unwrap_or("");
            format!(in alloc; "{front}…")
        }
        None => Ok(text),
    }
}

#[cycle(expressions)]
fn push_expression(text: &mut String, tree: &Tree, expression: &Expr) -> Result<(), AllocError> {
    match expression {
        Expr::Literal(number) => write!(text, "{}", number.value.value()),
        Expr::TruthValue { value, .. } => text.push_str(if *value { "true" } else { "false" }),
        Expr::Named(name) => text.push_str(tree.name(name.number)),
        Expr::Elapsed { .. } => text.push_str("elapsed"),
        Expr::Parens { inner, .. } => push_enclosed(text, tree, "(", inner, ")"),
        Expr::Prefixed {
            operator,
            operand,
            ..
        } => push_enclosed(text, tree, prefix_word(*operator), operand, ""),
        Expr::Binary {
            operator,
            left,
            right,
        } => {
            push_enclosed(text, tree, "", left, operator_word(*operator))?;
            push_expression(text, tree, right)
        }
        Expr::Call { call, bag, .. } => {
            write!(text, "{}({})", call_word(*call), tree.name(bag.number))
        }
        Expr::Times { value, bag, .. } => {
            push_enclosed(text, tree, "times(", value, ", ")?;
            write!(text, "{})", tree.name(bag.number))
        }
    }
}

// An expression between two texts.
#[cycle(expressions)]
fn push_enclosed(
    text: &mut String,
    tree: &Tree,
    before: &str,
    expression: &Expr,
    behind: &str,
) -> Result<(), AllocError> {
    text.push_str(before)?;
    push_expression(text, tree, expression)?;
    text.push_str(behind)
}

fn prefix_word(operator: Prefix) -> &'static str {
    match operator {
        Prefix::Minus => "-",
        Prefix::Not => "not ",
    }
}

// The operator with a blank on each side.
fn operator_word(operator: Operator) -> &'static str {
    match operator {
        Operator::Or => " or ",
        Operator::And => " and ",
        Operator::Add => " + ",
        Operator::Subtract => " - ",
        Operator::Multiply => " * ",
        Operator::Divide => " / ",
        Operator::Remainder => " % ",
        Operator::Equal => " = ",
        Operator::Unequal => " != ",
        Operator::Less => " < ",
        Operator::AtMost => " <= ",
        Operator::Greater => " > ",
        Operator::AtLeast => " >= ",
    }
}

fn call_word(call: BagCall) -> &'static str {
    match call {
        BagCall::Size => "size",
        BagCall::Sum => "sum",
        BagCall::Least => "least",
        BagCall::Most => "most",
        BagCall::Front => "front",
    }
}
