//! Values that came in and have not gone out.

use std::alloc::{AllocError, Global};
use std::collections::{BTreeMap, VecDeque};

/// The ticks at which values came that are still inside, the earliest ones first.
#[derive(Drop)]
pub(crate) struct Inside {
    alloc: Global,
    // By the value, or all by one number if it does not matter which value goes.
    ticks: BTreeMap<i64, VecDeque<u64>>,
    is_by_value: bool,
    /// The number of values inside.
    pub(crate) count: u64,
}

impl Inside {
    /// Nothing is inside.
    pub(crate) fn new(alloc: Global, is_by_value: bool) -> Self {
        Inside {
            alloc,
            ticks: BTreeMap::new(alloc),
            is_by_value,
            count: 0,
        }
    }

    // The number by which a value is kept.
    fn key_of(&self, value: i64) -> i64 {
        if self.is_by_value { value } else { 0 }
    }

    /// Takes in a value that comes at a tick.
    pub(crate) fn come(&mut self, value: i64, tick: u64) -> Result<(), AllocError> {
        let key = self.key_of(value);
        match self.ticks.get_mut(&key) {
            Some(ticks) => {
                ticks.push_back(tick)?;
            }
            None => {
                let mut ticks = VecDeque::new(self.alloc);
                ticks.push_back(tick)?;
                self.ticks.insert(key, ticks)?;
            }
        }
        self.count = self.count.saturating_add(1);
        Ok(())
    }

    /// Lets a value go, and returns the tick at which the one that is paired with it came: the
    /// first one that is inside, or the first one of the same value. `None` if there is none.
    pub(crate) fn go(&mut self, value: i64) -> Option<u64> {
        let key = self.key_of(value);
        let ticks = self.ticks.get_mut(&key)?;
        let tick = ticks.pop_front()?;
        let is_last = ticks.is_empty();
        if is_last {
            let _ticks = self.ticks.remove(&key);
        }
        self.count = self.count.saturating_sub(1);
        Some(tick)
    }
}
