//! Sums of batches, for the interval of a mean.

use crate::cell::Cell;
use crate::spread::half_root;
use std::alloc::{AllocError, Global};

/// The fewest batches of which an interval is made. There are always fewer than twice as many.
const FEW: usize = 20;

/// More steps than any number of copies takes.
const STEPS: u32 = 2_000;

// Of Student's distribution the numbers of which 95 % are nearer to 0, in thousandths, by the
// number of batches from `FEW` on.
const STUDENT: [u128; FEW] = [
    2_093, 2_086, 2_080, 2_074, 2_069, 2_064, 2_060, 2_056, 2_052, 2_048, 2_045, 2_042, 2_040,
    2_037, 2_035, 2_032, 2_030, 2_028, 2_026, 2_024,
];

/// Numbers in the order in which they came, in batches of the same width.
#[derive(Drop)]
pub(crate) struct Batches {
    // The sums of the batches that are full.
    sums: Vec<i128>,
    // How many numbers a batch has.
    width: u64,
    // The sum of the batch that is not full, and how many numbers it has.
    sum: i128,
    count: u64,
}

impl Batches {
    /// No numbers.
    pub(crate) fn new(alloc: Global) -> Self {
        Batches {
            sums: Vec::new(alloc),
            width: 1,
            sum: 0,
            count: 0,
        }
    }

    /// Adds copies of a number.
    pub(crate) fn add(&mut self, number: i64, copies: u64) -> Result<(), AllocError> {
        let mut left = copies;
        for _step in 0..STEPS {
            if left == 0 {
                break;
            }
            let taken = left.min(self.width.saturating_sub(self.count));
            left = left.saturating_sub(taken);
            let sum = i128::from(number).saturating_mul(i128::from(taken));
            self.sum = self.sum.saturating_add(sum);
            self.count = self.count.saturating_add(taken);
            if self.count >= self.width {
                self.close()?;
            }
        }
        Ok(())
    }

    // Ends a batch. Of twice the fewest batches two each become one.
    fn close(&mut self) -> Result<(), AllocError> {
        self.sums.push(self.sum)?;
        self.sum = 0;
        self.count = 0;
        if self.sums.len() >= 2 * FEW {
            self.fold();
            self.sums.truncate(FEW);
            self.width = self.width.saturating_mul(2);
        }
        Ok(())
    }

    fn fold(&mut self) {
        for index in 0..FEW {
            let both = self
                .sum_at(2 * index)
                .saturating_add(self.sum_at(2 * index + 1));
            if let Some(sum) = self.sums.get_mut(index) {
                *sum = both;
            }
        }
    }

    fn sum_at(&self, index: usize) -> i128 {
        self.sums.get(index).copied().unwrap_or(0)
    }

    /// How far the mean of all numbers is from that of these, at most, with 95 % certainty, if the
    /// means of the batches are independent and normally distributed.
    pub(crate) fn margin(&self) -> Cell {
        let batches = self.sums.len();
        match STUDENT.get(batches.wrapping_sub(FEW)) {
            Some(student) => Cell::root(self.margin_by(*student, batches as u128)),
            None => Cell::Nothing,
        }
    }

    // The margin in thousandths, by that number of Student's distribution. `None` if what it is made
    // of has more than 128 bits.
    fn margin_by(&self, student: u128, batches: u128) -> Option<u128> {
        let four = student.saturating_mul(student).saturating_mul(4);
        let count = u128::from(self.width).saturating_mul(batches);
        let divisor = count
            .checked_mul(count)?
            .checked_mul(batches.saturating_sub(1))?;
        half_root(four, self.distances(batches)?, divisor)
    }

    // The number of batches times the square distances of their sums from the mean sum. It is made
    // of the distances from the first sum, which gives the same.
    fn distances(&self, batches: u128) -> Option<u128> {
        let first = self.sum_at(0);
        let mut sum: i128 = 0;
        let mut squares: u128 = 0;
        for one in &self.sums {
            let distance = one.checked_sub(first)?;
            sum = sum.checked_add(distance)?;
            let distance = distance.unsigned_abs();
            squares = squares.checked_add(distance.checked_mul(distance)?)?;
        }
        let sum = sum.unsigned_abs();
        Some(
            batches
                .checked_mul(squares)?
                .saturating_sub(sum.checked_mul(sum)?),
        )
    }
}
