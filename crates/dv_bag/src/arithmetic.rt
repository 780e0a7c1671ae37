//! Arithmetic of the language: exact results, or a fault.

ghost use Rattle.std.specs.Prelude.{◌≡◌, ◌+ℤ◌, ◌-ℤ◌, ◌*ℤ◌, neg_ℤ, pos};
ghost use Rattle.dv_bag.specs.Arithmetic.{number_or_empty, number_or_overflow, quotient, remainder};

use crate::fault::Fault;
use crate::value::Value;

/// The sum of two numbers.
///
/// # Errors
///
/// `Overflow` if it does not fit into 64 bits.
pub fn sum(a: i64, b: i64) -> Result<Value, Fault>
    ensures { result ≡ number_or_overflow (a +ℤ b) }
{
    match a.checked_add(b) {
        Some(sum) => Ok(Value::Number(sum)),
        None => Err(Fault::Overflow),
    }
}

/// The difference of two numbers: the first minus the second.
///
/// # Errors
///
/// `Overflow` if it does not fit into 64 bits.
pub fn difference(a: i64, b: i64) -> Result<Value, Fault>
    ensures { result ≡ number_or_overflow (a -ℤ b) }
{
    match a.checked_sub(b) {
        Some(difference) => Ok(Value::Number(difference)),
        None => Err(Fault::Overflow),
    }
}

/// The product of two numbers.
///
/// # Errors
///
/// `Overflow` if it does not fit into 64 bits.
pub fn product(a: i64, b: i64) -> Result<Value, Fault>
    ensures { result ≡ number_or_overflow (a *ℤ b) }
{
    match a.checked_mul(b) {
        Some(product) => Ok(Value::Number(product)),
        None => Err(Fault::Overflow),
    }
}

/// The negated number.
///
/// # Errors
///
/// `Overflow` if it does not fit into 64 bits.
pub fn negated(number: i64) -> Result<Value, Fault>
    ensures { result ≡ number_or_overflow (neg_ℤ number) }
{
    match number.checked_neg() {
        Some(negated) => Ok(Value::Number(negated)),
        None => Err(Fault::Overflow),
    }
}

/// The quotient of two numbers, rounded towards 0.
///
/// # Errors
///
/// `Divide` if the divisor is 0, and `Overflow` if the quotient does not fit into 64 bits.
pub fn quotient(a: i64, b: i64) -> Result<Value, Fault>
    ensures { result ≡ quotient a b }
{
    if b == 0 {
        return Err(Fault::Divide);
    }
    match a.checked_div(b) {
        Some(quotient) => Ok(Value::Number(quotient)),
        None => Err(Fault::Overflow),
    }
}

/// The remainder of the division of the first number by the second. It has the sign of the first.
///
/// # Errors
///
/// `Divide` if the divisor is 0.
pub fn remainder(a: i64, b: i64) -> Result<Value, Fault>
    ensures { result ≡ remainder a b }
{
    if b == 0 {
        return Err(Fault::Divide);
    }
    Ok(Value::Number(a.wrapping_rem(b)))
}

/// A count of ticks as a number.
///
/// # Errors
///
/// `Overflow` if it does not fit into a signed number of 64 bits.
pub fn ticks_or_overflow(ticks: u64) -> Result<Value, Fault>
    ensures { result ≡ number_or_overflow (pos ticks) }
{
    match i64::try_from(ticks) {
        Ok(number) => Ok(Value::Number(number)),
        Err(_) => Err(Fault::Overflow),
    }
}

/// The least or the greatest value of a bag as a value of the language.
///
/// # Errors
///
/// `Empty` if there is none.
pub fn number_or_empty(number: Option<i64>) -> Result<Value, Fault>
    ensures { result ≡ number_or_empty number }
{
    match number {
        Some(number) => Ok(Value::Number(number)),
        None => Err(Fault::Empty),
    }
}
