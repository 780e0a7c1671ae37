//! How far numbers are spread.

use crate::cell::Cell;
use crate::tally::Tally;

/// The standard deviation: the root of the mean square distance from the mean.
pub(crate) fn deviation_of(tally: &Tally) -> Cell {
    if tally.count == 0 {
        return Cell::Nothing;
    }
    let count = u128::from(tally.count);
    match squares_of(tally, count) {
        // Four times the square of the deviation in thousandths.
        Some(squares) => Cell::root(half_root(4_000_000, squares, count.saturating_mul(count))),
        None => Cell::Overflow,
    }
}

// The square of the deviation, times the square of the count. `None` if it has more than 128 bits.
// Distances are taken from the least number, since that changes no deviation.
fn squares_of(tally: &Tally, count: u128) -> Option<u128> {
    let least = tally.least()?;
    let mut sum: u128 = 0;
    let mut squares: u128 = 0;
    for (value, copies) in tally.counts().iter() {
        let distance = u128::from(value.abs_diff(least));
        let copies = u128::from(*copies);
        let all = distance.checked_mul(copies)?;
        sum = sum.checked_add(all)?;
        squares = squares.checked_add(all.checked_mul(distance)?)?;
    }
    let square = count
        .checked_mul(squares)?
        .saturating_sub(sum.checked_mul(sum)?);
    Some(square)
}

/// Half the root of a quotient that is multiplied by a factor, rounded to the nearest number,
/// halves to even. `None` if the product, or that of the factor and the divisor, has more than 128
/// bits; the dividend is divided first, so that it may have 128 bits.
pub(crate) fn half_root(factor: u128, dividend: u128, divisor: u128) -> Option<u128> {
    let rest = dividend.checked_rem(divisor)?.checked_mul(factor)?;
    let whole = dividend.checked_div(divisor)?.checked_mul(factor)?;
    let square = whole.checked_add(rest.checked_div(divisor)?)?;
    let root = square.isqrt();
    let is_exact = rest.checked_rem(divisor) == Some(0) && root.saturating_mul(root) == square;
    let half = root / 2;
    if root % 2 == 1 && (!is_exact || half % 2 == 1) {
        Some(half.saturating_add(1))
    } else {
        Some(half)
    }
}
