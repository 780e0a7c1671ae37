//! The value of an expression.

ghost use Rattle.std.specs.Prelude.{◌≡◌, ◌≤◌, option_map, IfSome};
ghost use Rattle.dv_bag.specs.Collections.{count_in};
ghost use Rattle.dv_bag.specs.Reading.{HoldsFew, datum_of};
ghost use Rattle.dv_bag.specs.Limits.{greatest_count};
ghost use Rattle.dv_syntax.specs.Trees.{expression_of};
ghost use Rattle.dv_eval.specs.Contexts.{collection_seen, moment_of};
ghost use Rattle.dv_eval.specs.Meaning.{call_result, datum_of_name, is_decided, meaning, number_of, operator_result};
ghost use Rattle.dv_eval.specs.Meaning.{prefix_result, same, truth_of, value_of_name};

use crate::collection::{CollectionView, collection_of_name};
use crate::moment::Moment;
use crate::scope::Scope;
use dv_bag::arithmetic::{
    difference, negated, number_or_empty, product, quotient, remainder, sum, ticks_or_overflow,
};
use dv_bag::bag::copies_of;
use dv_bag::{DatumView, Fault, State, Value};
use dv_syntax::{BagCall, Expr, Operator, Prefix};

/// The value of an expression at a moment.
///
/// # Errors
///
/// The first fault from the left: `Overflow`, `Divide`, or `Empty` for the least or greatest value
/// of an empty bag or the first value of an empty queue.
pub fn eval(expression: &Expr, moment: &Moment, scope: &Scope) -> Result<Value, Fault>
    ensures { result ≡ meaning scope.now (moment_of moment.now) (expression_of expression.now) }
{
    match expression {
        Expr::Literal(number) => Ok(Value::Number(number.value.value())),
        Expr::TruthValue { value, .. } => Ok(Value::Truth(*value)),
        Expr::Named(name) => Ok(value_of_name(name.number, moment, scope)),
        Expr::Parens { inner, .. } => eval(inner, moment, scope),
        Expr::Prefixed {
            operator,
            operand,
            ..
        } => prefix_result(*operator, eval(operand, moment, scope)?),
        Expr::Binary {
            operator,
            left,
            right,
        } => {
            let left = eval(left, moment, scope)?;
            if is_decided(*operator, left) {
                return Ok(Value::Truth(truth_of(left)));
            }
            let right = eval(right, moment, scope)?;
            operator_result(*operator, left, right)
        }
        Expr::Call { call, bag, .. } => {
            call_result(*call, &collection_of_name(bag.number, moment, scope))
        }
        Expr::Elapsed { .. } => ticks_or_overflow(moment.context.arrivals().elapsed()),
        Expr::Times { value, bag, .. } => {
            let value = eval(value, moment, scope)?;
            let collection = collection_of_name(bag.number, moment, scope);
            Ok(Value::Number(copies_of(number_of(value), collection.bag())))
        }
    }
}

// The value that a name denotes.
fn value_of_name(name: u32, moment: &Moment, scope: &Scope) -> Value
    ensures { result ≡ value_of_name scope.now (moment_of moment.now) name }
{
    if let Some(number) = moment.context.value(name) {
        return Value::Number(number);
    }
    match datum_of_name(name, moment.state, scope) {
        Some(DatumView::Number(number)) => Value::Number(number),
        Some(DatumView::Flag(truth)) => Value::Truth(truth),
        Some(DatumView::Held(_)) | None => Value::Number(0),
    }
}

// The state variable of a name, if there is one.
fn datum_of_name<'a>(name: u32, state: &'a State, scope: &Scope) -> Option<DatumView<'a>>
    ensures datum { option_map datum_of result ≡ datum_of_name scope.now state.now name }
    ensures few { IfSome result (λ view. HoldsFew view) }
{
    let index = scope.variable(name)?;
    state.variables.get(index)
}

// The result of a call.
fn call_result(call: BagCall, collection: &CollectionView) -> Result<Value, Fault>
    requires { count_in (collection_seen collection.now) ≤ greatest_count }
    ensures { result ≡ call_result call (collection_seen collection.now) }
{
    match call {
        BagCall::Size => Ok(Value::Number(collection.count())),
        BagCall::Sum => Ok(Value::Number(collection.sum()?)),
        BagCall::Least => number_or_empty(collection.least()),
        BagCall::Most => number_or_empty(collection.most()),
        BagCall::Front => number_or_empty(collection.first()),
    }
}

// The result of a prefix operator.
fn prefix_result(operator: Prefix, operand: Value) -> Result<Value, Fault>
    ensures { result ≡ prefix_result operator operand }
{
    match operator {
        Prefix::Minus => negated(number_of(operand)),
        Prefix::Not => Ok(Value::Truth(!truth_of(operand))),
    }
}

// Whether the left operand decides the result, so that the right one is not evaluated.
fn is_decided(operator: Operator, left: Value) -> bool
    ensures { result ≡ is_decided operator left }
{
    match operator {
        Operator::And => !truth_of(left),
        Operator::Or => truth_of(left),
        _ => false,
    }
}

// The result of a binary operator.
fn operator_result(operator: Operator, left: Value, right: Value) -> Result<Value, Fault>
    ensures { result ≡ operator_result operator left right }
{
    let a = number_of(left);
    let b = number_of(right);
    match operator {
        Operator::Or => Ok(Value::Truth(truth_of(left) || truth_of(right))),
        Operator::And => Ok(Value::Truth(truth_of(left) && truth_of(right))),
        Operator::Add => sum(a, b),
        Operator::Subtract => difference(a, b),
        Operator::Multiply => product(a, b),
        Operator::Divide => quotient(a, b),
        Operator::Remainder => remainder(a, b),
        Operator::Equal => Ok(Value::Truth(same(left, right))),
        Operator::Unequal => Ok(Value::Truth(!same(left, right))),
        Operator::Less => Ok(Value::Truth(a < b)),
        Operator::AtMost => Ok(Value::Truth(a <= b)),
        Operator::Greater => Ok(Value::Truth(b < a)),
        Operator::AtLeast => Ok(Value::Truth(b <= a)),
    }
}

/// A value as a number.
pub(crate) fn number_of(value: Value) -> i64
    ensures { result ≡ number_of value }
{
    match value {
        Value::Number(number) => number,
        Value::Truth(truth) => i64::from(truth),
    }
}

/// A value as a truth value.
pub(crate) fn truth_of(value: Value) -> bool
    ensures { result ≡ truth_of value }
{
    match value {
        Value::Number(number) => number != 0,
        Value::Truth(truth) => truth,
    }
}

fn same(left: Value, right: Value) -> bool
    ensures { result ≡ same left right }
{
    number_of(left) == number_of(right)
}
