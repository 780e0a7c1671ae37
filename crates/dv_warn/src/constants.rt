//! The values of expressions without names.

use dv_bag::{Arrivals, State, Value, Variables};
use dv_eval::{Context, Moment, Scope, eval};
use dv_syntax::Expr;
use std::alloc::Global;

/// A scope without names and a state without variables, to evaluate expressions that need none.
#[derive(Drop)]
pub(crate) struct Nowhere {
    scope: Scope,
    state: State,
}

impl Nowhere {
    /// The empty scope and state.
    pub(crate) fn new(alloc: Global) -> Self {
        Nowhere {
            scope: Scope::new(alloc),
            state: State {
                phase: 0,
                variables: Variables::new(alloc),
            },
        }
    }

    /// The value of an expression, or `None` if the expression has a name or a fault.
    pub(crate) fn value(&self, expression: &Expr) -> Option<Value> {
        if !names_nothing(expression) {
            return None;
        }
        let moment = Moment {
            state: &self.state,
            context: &Context::Outermost(&Arrivals::nothing()),
        };
        eval(expression, &moment, &self.scope).ok()
    }

    /// Whether an expression has no name and is 0.
    pub(crate) fn is_zero(&self, expression: &Expr) -> bool {
        self.value(expression) == Some(Value::Number(0))
    }
}

// Whether an expression needs no name: it has no variable, no port, no call and no `elapsed`.
fn names_nothing(expression: &Expr) -> bool {
    match expression {
        Expr::Literal(_) | Expr::TruthValue { .. } => true,
        Expr::Parens { inner, .. } => names_nothing(inner),
        Expr::Prefixed { operand, .. } => names_nothing(operand),
        Expr::Binary { left, right, .. } => names_nothing(left) && names_nothing(right),
        Expr::Named(_) | Expr::Call { .. } | Expr::Elapsed { .. } | Expr::Times { .. } => false,
    }
}
