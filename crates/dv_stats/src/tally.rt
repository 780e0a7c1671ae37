//! How often each value occurred.

use crate::batches::Batches;
use dv_trace::Values;
use std::alloc::{AllocError, Global};
use std::collections::BTreeMap;

/// Some values, each with the number of its copies.
#[derive(Drop)]
pub(crate) struct Tally {
    counts: BTreeMap<i64, u64>,
    /// The values in the order in which they came.
    pub(crate) batches: Batches,
    /// The number of values, with copies.
    pub(crate) count: u64,
}

impl Tally {
    /// No values.
    pub(crate) fn new(alloc: Global) -> Self {
        Tally {
            counts: BTreeMap::new(alloc),
            batches: Batches::new(alloc),
            count: 0,
        }
    }

    /// Adds a value.
    pub(crate) fn add(&mut self, value: i64) -> Result<(), AllocError> {
        self.add_copies(value, 1)
    }

    /// Adds copies of a value. A count that has reached 2^64 - 1 stays there.
    pub(crate) fn add_copies(&mut self, value: i64, copies: u64) -> Result<(), AllocError> {
        match self.counts.get_mut(&value) {
            Some(count) => *count = count.saturating_add(copies),
            None => {
                self.counts.insert(value, copies)?;
            }
        }
        self.count = self.count.saturating_add(copies);
        self.batches.add(value, copies)
    }

    /// The sum of the values; `None` if it has more than 128 bits.
    pub(crate) fn sum(&self) -> Option<i128> {
        let mut sum: i128 = 0;
        for (value, count) in self.counts.iter() {
            let all = i128::from(*value).checked_mul(i128::from(*count))?;
            sum = sum.checked_add(all)?;
        }
        Some(sum)
    }

    /// The values, ascending, each with the number of its copies.
    pub(crate) fn counts(&self) -> &BTreeMap<i64, u64> {
        &self.counts
    }

    /// The least value.
    pub(crate) fn least(&self) -> Option<i64> {
        let (value, _) = self.counts.first_key_value()?;
        Some(*value)
    }

    /// The greatest value.
    pub(crate) fn greatest(&self) -> Option<i64> {
        let (value, _) = self.counts.last_key_value()?;
        Some(*value)
    }

    /// The quantile by the nearest rank: the least value such that at least this percentage of the
    /// values is not above it.
    pub(crate) fn quantile(&self, percent: u8) -> Option<i64> {
        let hundredths = u128::from(self.count).saturating_mul(u128::from(percent));
        let mut passed: u128 = 0;
        for (value, count) in self.counts.iter() {
            passed = passed.saturating_add(u128::from(*count));
            if passed.saturating_mul(100) >= hundredths {
                return Some(*value);
            }
        }
        None
    }
}

/// The tallies of a port.
#[derive(Drop)]
pub(crate) struct PortTallies {
    /// The values that the port sent.
    pub(crate) values: Tally,
    /// The numbers of ticks from one instant at which it sent to the next.
    pub(crate) gaps: Tally,
    // The tick of the last instant, if there was one.
    last: Option<u64>,
}

impl PortTallies {
    /// A port that has sent nothing.
    pub(crate) fn new(alloc: Global) -> Self {
        PortTallies {
            values: Tally::new(alloc),
            gaps: Tally::new(alloc),
            last: None,
        }
    }

    /// Adds the values of one instant at a tick.
    pub(crate) fn send(&mut self, tick: u64, values: Values<'_>) -> Result<(), AllocError> {
        if let Some(last) = self.last {
            let gap = tick.saturating_sub(last);
            self.gaps.add(i64::try_from(gap).unwrap_or(i64::MAX))?;
        }
        self.last = Some(tick);
        tally_all(&mut self.values, values)
    }
}

// All pieces are numbers: others are refused by the reader of the trace.
fn tally_all(tally: &mut Tally, values: Values<'_>) -> Result<(), AllocError> {
    for piece in values.text.split(',') {
        if let Ok(value) = piece.parse::<i64>() {
            tally.add(value)?;
        }
    }
    Ok(())
}

/// The tallies of ports, or none if they are not wanted.
pub(crate) fn tallies_of(
    alloc: Global,
    ports: usize,
    is_wanted: bool,
) -> Result<Vec<PortTallies>, AllocError> {
    let mut tallies = Vec::new(alloc);
    if is_wanted {
        for _port in 0..ports {
            tallies.push(PortTallies::new(alloc))?;
        }
    }
    Ok(tallies)
}
