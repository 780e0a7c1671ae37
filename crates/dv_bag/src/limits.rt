//! Tests of limits. They take no memory, and their answers are exact.

ghost use Rattle.std.specs.Prelude.{◌≡◌, ◌<◌, ◌≤◌, false, true, IfErr, OnOk};
ghost use Rattle.dv_bag.specs.Collections.{is_full};
ghost use Rattle.dv_bag.specs.Effects.{is_within};
ghost use Rattle.dv_bag.specs.Limits.{greatest_count};
ghost use Rattle.dv_bag.specs.declared.fault.Fault.TheVariants as fault;

use crate::fault::Fault;
use crate::{GREATEST_COUNT, ROOM_AT_ONCE};

/// Tests whether a number is within a range.
///
/// # Errors
///
/// `Range` if it is below `low` or above `high`.
pub fn test_range(number: i64, low: i64, high: i64) -> Result<(), Fault>
    ensures within { OnOk result (is_within low high number ≡ true) }
    ensures outside { IfErr result (λ f. (f ≡ fault.Range) × (is_within low high number ≡ false)) }
{
    if number < low || high < number {
        Err(Fault::Range)
    } else {
        Ok(())
    }
}

/// Tests whether a collection of this capacity with `count` values has room for one more.
///
/// # Errors
///
/// `Full` if it has as many values as its capacity, or `GREATEST_COUNT` values.
pub fn test_room(count: u64, capacity: u64) -> Result<(), Fault>
    ensures free { OnOk result (is_full capacity count ≡ false) }
    ensures few { OnOk result (count < greatest_count) }
    ensures full { IfErr result (λ f. (f ≡ fault.Full) × (is_full capacity count ≡ true)) }
{
    if capacity <= count || GREATEST_COUNT <= count {
        Err(Fault::Full)
    } else {
        Ok(())
    }
}

/// Tests whether one more value may be sent after `count` values, each copy counted.
///
/// # Errors
///
/// `Flood` if `GREATEST_COUNT` values were sent.
pub fn test_flood(count: u64) -> Result<(), Fault>
    ensures free { OnOk result (count < greatest_count) }
    ensures flood { IfErr result (λ f. (f ≡ fault.Flood) × (greatest_count ≤ count)) }
{
    if count < GREATEST_COUNT {
        Ok(())
    } else {
        Err(Fault::Flood)
    }
}

/// The number of values for which a collection of this capacity takes memory at once when it has to
/// grow.
pub(crate) fn room_at_once(capacity: u64) -> usize {
    capacity.min(ROOM_AT_ONCE) as usize
}
