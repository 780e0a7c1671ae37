//! The numbers of a line.

ghost use Rattle.std.specs.Prelude.{◌≡◌, ◌+◌, ◌^◌, ◌≤◌, option_map, pos, neg_ℤ, position};
ghost use Rattle.std.specs.Char.{is_ascii_digit};
ghost use Rattle.std.specs.List.{list_all};
ghost use Rattle.dv_inputs.specs.Numbers.{is_dot, is_numeral, micro_in, number_below, tick_in, time_in, value_in};

use crate::lines::bytes_from;
use dv_time::{GREATEST_LIMIT, GREATEST_TICK, Time};

// Whether every byte is a decimal digit.
fn all_digits(bytes: &[u8]) -> bool
    ensures { result ≡ list_all is_ascii_digit bytes.now }
{
    bytes.iter().all(|byte| byte.is_ascii_digit())
}

// Whether the bytes are decimal digits, at least one.
fn is_numeral(bytes: &[u8]) -> bool
    ensures { result ≡ is_numeral bytes.now }
{
    !bytes.is_empty() && all_digits(bytes)
}

// The value of decimal digits, if it is below a bound.
fn number_below(bound: u64, bytes: &[u8]) -> Option<u64>
    ensures { result ≡ number_below bound bytes.now }
{
    if !is_numeral(bytes) {
        return None;
    }
    let Ok(digits) = str::from_utf8(bytes) else {
        return None;
    };
    let Ok(number) = digits.parse::<u64>() else {
        return None;
    };
    if number < bound { Some(number) } else { None }
}

// The negated value of decimal digits, if it is at least -2^63.
fn negative(bytes: &[u8]) -> Option<i64>
    ensures { result ≡ option_map (λ n. neg_ℤ (pos n)) (number_below (2 ^ 63 + 1) bytes.now) }
{
    let number = number_below((1 << 63) + 1, bytes)?;
    Some(-i128::from(number) as i64)
}

// The value of decimal digits, if it is at most 2^63 - 1.
fn positive(bytes: &[u8]) -> Option<i64>
    ensures { result ≡ option_map pos (number_below (2 ^ 63) bytes.now) }
{
    let number = number_below(1 << 63, bytes)?;
    Some(number as i64)
}

// The tick of decimal digits, if it is not too great.
fn tick_in(digits: &[u8]) -> Option<u64>
    ensures { result ≡ tick_in digits.now }
{
    number_below(GREATEST_TICK + 1, digits)
}

// The microstep of decimal digits, if it is not too great.
fn micro_in(digits: &[u8]) -> Option<u32>
    ensures { result ≡ micro_in digits.now }
{
    let micro = number_below(u64::from(GREATEST_LIMIT) + 1, digits)?;
    Some(micro as u32)
}

// The offset of the first dot, if there is one.
fn dot_offset(field: &[u8]) -> Option<usize>
    ensures { result ≡ position is_dot field.now }
{
    field.iter().position(|byte| *byte == b'.')
}

/// The time in a field, if it is one.
pub(crate) fn time_in(field: &[u8]) -> Option<Time>
    ensures { result ≡ time_in field.now }
{
    match dot_offset(field) {
        None => {
            let tick = tick_in(field)?;
            Some(Time { tick, micro: 0 })
        }
        Some(dot) => {
            let tick = tick_in(&field[..dot])?;
            let micro = micro_in(bytes_from(field, dot + 1))?;
            Some(Time { tick, micro })
        }
    }
}

/// The value in a field, if it is one.
pub(crate) fn value_in(field: &[u8]) -> Option<i64>
    ensures { result ≡ value_in field.now }
{
    match field {
        [b'-', digits @ ..] => negative(digits),
        _ => positive(field),
    }
}
