//! The bins of a histogram.

use crate::tally::Tally;

/// The most bins of a histogram.
const MOST_BINS: usize = 20;

/// A range of numbers, with the number of values in it.
#[derive(Clone, Copy)]
pub(crate) struct Bin {
    pub(crate) least: i128,
    /// The greatest number of the range, which is included.
    pub(crate) greatest: i128,
    pub(crate) count: u64,
}

impl Bin {
    // The bin with a number.
    fn empty(class: i64, width: i64) -> Self {
        let least = i128::from(class).saturating_mul(i128::from(width));
        Bin {
            least,
            greatest: least.saturating_add(i128::from(width)).saturating_sub(1),
            count: 0,
        }
    }
}

/// The bins of a tally, ascending, from the one of the least value to the one of the greatest. All
/// have the same width: 1, 2 or 5 times a power of ten, the least one with which there are at most
/// twenty bins. Each bin begins at a multiple of the width.
#[derive(Clone, Copy)]
pub(crate) struct Histogram {
    bins: [Bin; MOST_BINS],
    count: usize,
}

impl Histogram {
    /// The bins of a tally, or none if it has no values.
    pub(crate) fn of(tally: &Tally) -> Self {
        let (least, greatest) = (tally.least().unwrap_or(0), tally.greatest().unwrap_or(0));
        let width = width_for(least, greatest);
        let first = class_of(least, width);
        let mut histogram = Histogram {
            bins: [Bin::empty(first, width); MOST_BINS],
            count: 0,
        };
        histogram.place(first, width);
        for (value, count) in tally.counts().iter() {
            histogram.add(class_of(*value, width).abs_diff(first) as usize, *count);
        }
        histogram
    }

    // Places the bins side by side.
    fn place(&mut self, first: i64, width: i64) {
        let mut class = first;
        for bin in &mut self.bins {
            *bin = Bin::empty(class, width);
            class = class.saturating_add(1);
        }
    }

    // Adds copies of a value in the bin at an index. Values come in ascending order.
    fn add(&mut self, index: usize, copies: u64) {
        if let Some(bin) = self.bins.get_mut(index) {
            bin.count = bin.count.saturating_add(copies);
            self.count = index.saturating_add(1);
        }
    }

    /// The bins.
    pub(crate) fn bins(&self) -> &[Bin] {
        self.bins.get(..self.count).unwrap_or(&[])
    }
}

// The number of the bin of a value. The bin that begins at 0 has the number 0.
fn class_of(value: i64, width: i64) -> i64 {
    if width > 0 {
        value.div_euclid(width)
    } else {
        0
    }
}

fn width_for(least: i64, greatest: i64) -> i64 {
    let mut power: i64 = 1;
    for _digit in 0..18 {
        if let Some(width) = width_at(power, least, greatest) {
            return width;
        }
        power = power.saturating_mul(10);
    }
    // Twenty bins of 10^18 have all numbers of 64 bits.
    power
}

// The least width among 1, 2 and 5 times a power of ten with which there are few enough bins.
fn width_at(power: i64, least: i64, greatest: i64) -> Option<i64> {
    for factor in [1, 2, 5] {
        let width = power.saturating_mul(factor);
        if class_of(greatest, width).abs_diff(class_of(least, width)) < MOST_BINS as u64 {
            return Some(width);
        }
    }
    None
}
