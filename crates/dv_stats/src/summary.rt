//! The least, the greatest and the sum of some values.

/// The least and the greatest of some values.
#[derive(Clone, Copy)]
pub(crate) struct Extremes {
    pub(crate) least: i64,
    pub(crate) greatest: i64,
}

/// The least, the greatest and the sum of some values.
#[derive(Clone, Copy)]
pub(crate) struct Summary {
    /// The least and the greatest value, if there are values.
    pub(crate) extremes: Option<Extremes>,
    /// The sum; `None` if it has more than 128 bits.
    pub(crate) sum: Option<i128>,
}

impl Summary {
    /// No values.
    pub(crate) const NOTHING: Summary = Summary {
        extremes: None,
        sum: Some(0),
    };

    /// The extremes of one value, without a sum.
    pub(crate) fn of(value: i64) -> Self {
        let mut summary = Summary::NOTHING;
        summary.meet(value);
        summary
    }

    /// Adds a value to the extremes alone.
    pub(crate) fn meet(&mut self, value: i64) {
        self.extremes = Some(match self.extremes {
            Some(extremes) => Extremes {
                least: value.min(extremes.least),
                greatest: value.max(extremes.greatest),
            },
            None => Extremes {
                least: value,
                greatest: value,
            },
        });
    }

    /// Adds a value to the extremes and to the sum.
    pub(crate) fn add(&mut self, value: i64) {
        self.meet(value);
        self.sum = with(self.sum, value);
    }

    /// Adds copies of a value to the sum alone.
    pub(crate) fn weigh(&mut self, value: i64, copies: u64) {
        self.sum = with_copies(self.sum, value, copies);
    }
}

fn with(sum: Option<i128>, value: i64) -> Option<i128> {
    sum?.checked_add(i128::from(value))
}

// The product never wraps: that of two numbers of 64 bits has at most 128 bits.
fn with_copies(sum: Option<i128>, value: i64, copies: u64) -> Option<i128> {
    sum?.checked_add(i128::from(value).wrapping_mul(i128::from(copies)))
}
