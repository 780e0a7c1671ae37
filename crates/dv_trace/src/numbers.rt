//! Numbers and times.

ghost use Rattle.std.specs.Prelude.{◌≡◌, ◌≤◌, IfSome};
ghost use Rattle.std.specs.Str.Parse.{digits_value};
ghost use Rattle.dv_time.specs.Limits.{greatest_tick};

use dv_time::{GREATEST_TICK, Time};

/// The number that the text is in decimal digits, if it is at most `greatest`.
pub(crate) fn number_in(text: &str, greatest: u64) -> Option<u64>
    ensures spelled { IfSome result (λ n. n ≡ digits_value 10 text.now) }
    ensures bound { IfSome result (λ n. n ≤ greatest) }
{
    if text.is_empty() || !text.bytes().all(|byte| byte.is_ascii_digit()) {
        return None;
    }
    let Ok(number) = text.parse::<u64>() else {
        return None;
    };
    if number <= greatest {
        Some(number)
    } else {
        None
    }
}

/// The number that the text is in decimal digits, with or without `-` before them, if it has 64
/// bits.
pub(crate) fn value_in(text: &str) -> Option<i64> {
    if text.starts_with('+') {
        return None;
    }
    match text.parse::<i64>() {
        Ok(value) => Some(value),
        Err(_) => None,
    }
}

/// The tick that the text is, at most the greatest tick of a run.
pub(crate) fn tick_in(text: &str) -> Option<u64>
    ensures spelled { IfSome result (λ n. n ≡ digits_value 10 text.now) }
    ensures bound { IfSome result (λ n. n ≤ greatest_tick) }
{
    number_in(text, GREATEST_TICK)
}

/// The time that the text is, as `TICK.MICROSTEP`, if its tick is at most `greatest`.
pub(crate) fn time_in(text: &str, greatest: u64) -> Option<Time> {
    let (tick, micro) = text.split_once('.')?;
    let tick = number_in(tick, greatest)?;
    let micro = number_in(micro, u64::from(u32::MAX))?;
    Some(Time {
        tick,
        micro: micro as u32,
    })
}
