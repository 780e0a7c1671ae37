//! The values of a row.

use dv_bag::Fault;
use dv_time::Time;
use std::fmt;

/// A value of a row. `Display` gives its text in the output.
#[derive(Clone, Copy)]
pub(crate) enum Cell {
    /// There is no such value. It is displayed as an empty text.
    Nothing,
    /// The title of a column.
    Word(&'static str),
    /// A number.
    Number(i128),
    /// A mean, a rate or a share, rounded to thousandths.
    Ratio {
        sign: &'static str,
        whole: u128,
        thousandths: u128,
    },
    /// A sum of more than 128 bits.
    Overflow,
    /// A fault, by its word.
    Fault(Fault),
    /// A time, as in a trace.
    Time(Time),
}

impl Cell {
    /// A count.
    pub(crate) fn count(count: u64) -> Cell {
        Cell::Number(i128::from(count))
    }

    /// A number, or `Nothing`.
    pub(crate) fn number(number: Option<i64>) -> Cell {
        match number {
            Some(number) => Cell::Number(i128::from(number)),
            None => Cell::Nothing,
        }
    }

    /// A sum, or `Overflow` if it has more than 128 bits.
    pub(crate) fn sum(sum: Option<i128>) -> Cell {
        match sum {
            Some(sum) => Cell::Number(sum),
            None => Cell::Overflow,
        }
    }

    /// So many thousandths, or `Overflow` if what they are made of has more than 128 bits.
    pub(crate) fn root(thousandths: Option<u128>) -> Cell {
        match thousandths {
            Some(number) => Cell::Ratio {
                sign: "",
                whole: number / 1000,
                thousandths: number % 1000,
            },
            None => Cell::Overflow,
        }
    }

    /// A sum divided by a count, or `Nothing` if the count is 0. Halves are rounded to even.
    pub(crate) fn ratio(sum: Option<i128>, count: u64) -> Cell {
        if count == 0 {
            return Cell::Nothing;
        }
        let Some(sum) = sum else {
            return Cell::Overflow;
        };
        let (whole, thousandths) = rounded(sum.unsigned_abs(), u128::from(count));
        let is_nothing = whole == 0 && thousandths == 0;
        Cell::Ratio {
            sign: if sum < 0 && !is_nothing { "-" } else { "" },
            whole,
            thousandths,
        }
    }
}

impl fmt::Display for Cell {
    fn fmt<W: fmt::Write>(&self, f: &mut fmt::Formatter<W>) -> fmt::Result {
        match self {
            Cell::Nothing => Ok(()),
            Cell::Word(word) => f.write_str(word),
            Cell::Number(number) => write!(f, "{number}"),
            Cell::Ratio {
                sign,
                whole,
                thousandths,
            } => write!(f, "{sign}{whole}.{thousandths:03}"),
            Cell::Overflow => f.write_str("overflow"),
            Cell::Fault(fault) => f.write_str(fault.word()),
            Cell::Time(time) => write!(f, "{time}"),
        }
    }
}

// A sum divided by a count, and the thousandths of the remainder. The remainder is less than the
// count, which has 64 bits, so that no product overflows.
fn rounded(sum: u128, count: u128) -> (u128, u128) {
    if count == 0 {
        return (0, 0);
    }
    let rest = (sum % count).saturating_mul(1000);
    let thousandths = nearest(rest / count, (rest % count).saturating_mul(2), count);
    if thousandths < 1000 {
        (sum / count, thousandths)
    } else {
        ((sum / count).saturating_add(1), 0)
    }
}

// Rounds a quotient to the nearest number. `twice` is two times the remainder of the division by
// `count`.
fn nearest(number: u128, twice: u128, count: u128) -> u128 {
    if twice > count || (twice == count && number % 2 == 1) {
        number.saturating_add(1)
    } else {
        number
    }
}
