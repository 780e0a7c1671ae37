//! A lower bound of an expression, in all states of its model.

ghost use Rattle.std.specs.Prelude.{◌≡◌};
ghost use Rattle.dv_syntax.specs.Trees.{expression_of};
ghost use Rattle.law_accepted.specs.Fitting.{domain_named};
ghost use Rattle.dv_bound.specs.Response.{low, low_end};

use dv_eval::{Domain, Scope};
use dv_syntax::{BagCall, Expr, Operator};

/// A lower bound of an expression: the least number if nothing is known.
pub(crate) fn low(expression: &Expr, scope: &Scope) -> i64
    ensures { result ≡ low scope.now (expression_of expression.now) }
{
    match expression {
        Expr::Literal(number) => number.value.value(),
        Expr::Named(name) => low_end(name.number, scope),
        Expr::Parens { inner, .. } => low(inner, scope),
        Expr::Binary {
            operator: Operator::Add,
            left,
            right,
        } => low(left, scope).saturating_add(low(right, scope)),
        Expr::Call {
            call: BagCall::Size,
            ..
        }
        | Expr::Times { .. } => 0,
        _ => i64::MIN,
    }
}

// The low end of the range of a variable: the least number if it is no variable with a range.
fn low_end(name: u32, scope: &Scope) -> i64
    ensures { result ≡ low_end (domain_named scope.now name) }
{
    let Some(index) = scope.variable(name) else {
        return i64::MIN;
    };
    match scope.domain(index) {
        Some(Domain::Number(range)) => range.low,
        _ => i64::MIN,
    }
}
