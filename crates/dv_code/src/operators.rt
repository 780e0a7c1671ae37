//! The values of operators.

ghost use Rattle.std.specs.Prelude.{◌≡◌, ◌≢◌, None, Ok, Some};
ghost use Rattle.dv_code.specs.Operations.{binary_value, of_numbers, of_truths, unary_value};

use crate::instruction::{Binary, Unary};
use crate::source::bag_of;
use dv_bag::arithmetic::{difference, negated, product, quotient, remainder, sum};
use dv_bag::bag::copies_of;
use dv_bag::{Arrivals, Fault, State, Value};

/// The value of an operator for one value.
///
/// # Errors
///
/// `Overflow` if the least number is negated.
pub(crate) fn unary_value(
    operator: Unary,
    operand: Value,
    state: &State,
    arrivals: &Arrivals,
) -> Result<Value, Fault>
    requires { unary_value arrivals.now state.now operator operand ≢ None }
    ensures { unary_value arrivals.now state.now operator operand ≡ Some result }
{
    match (operator, operand) {
        (Unary::Negate, Value::Number(number)) => negated(number),
        (Unary::Not, Value::Truth(truth)) => Ok(Value::Truth(!truth)),
        (Unary::Times(source), Value::Number(number)) => {
            let copies = copies_of(number, bag_of(source, state, arrivals));
            Ok(Value::Number(copies))
        }
        _ => unreachable!(),
    }
}

/// The value of an operator for two values.
///
/// # Errors
///
/// `Overflow` if the result is no number of 64 bits, and `Divide` for a division by 0.
pub(crate) fn binary_value(operator: Binary, one: Value, two: Value) -> Result<Value, Fault>
    requires { binary_value operator one two ≢ None }
    ensures { binary_value operator one two ≡ Some result }
{
    match (one, two) {
        (Value::Number(one), Value::Number(two)) => of_numbers(operator, one, two),
        (Value::Truth(one), Value::Truth(two)) => Ok(of_truths(operator, one, two)),
        _ => unreachable!(),
    }
}

// The value of an operator for two numbers.
fn of_numbers(operator: Binary, one: i64, two: i64) -> Result<Value, Fault>
    requires { of_numbers operator one two ≢ None }
    ensures { of_numbers operator one two ≡ Some result }
{
    match operator {
        Binary::Add => sum(one, two),
        Binary::Subtract => difference(one, two),
        Binary::Multiply => product(one, two),
        Binary::Divide => quotient(one, two),
        Binary::Remainder => remainder(one, two),
        Binary::Equal => Ok(Value::Truth(one == two)),
        Binary::Unequal => Ok(Value::Truth(one != two)),
        Binary::Less => Ok(Value::Truth(one < two)),
        Binary::AtMost => Ok(Value::Truth(one <= two)),
        Binary::Greater => Ok(Value::Truth(one > two)),
        Binary::AtLeast => Ok(Value::Truth(one >= two)),
        Binary::Same | Binary::Different => unreachable!(),
    }
}

// The value of an operator for two truth values.
fn of_truths(operator: Binary, one: bool, two: bool) -> Value
    requires { of_truths operator one two ≢ None }
    ensures { of_truths operator one two ≡ Some (Ok result) }
{
    match operator {
        Binary::Same => Value::Truth(one == two),
        Binary::Different => Value::Truth(one != two),
        _ => unreachable!(),
    }
}
