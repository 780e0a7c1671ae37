//! How many deliveries each component gets.

use crate::link::Delivery;
use std::alloc::{AllocError, Global};

/// More deliveries than this for one component at an instant are many.
pub(crate) const FEW: usize = 64;

/// Counts deliveries by the number of their component. Between two calls all counts are 0.
#[derive(Drop)]
pub(crate) struct Tally {
    counts: Vec<u32>,
}

impl Tally {
    /// No counts. It takes no memory yet.
    pub fn new(alloc: Global) -> Self {
        Tally {
            counts: Vec::new(alloc),
        }
    }

    /// Whether each component gets at most [`FEW`] deliveries.
    ///
    /// # Errors
    ///
    /// No memory for a count of each component.
    pub fn are_few(&mut self, deliveries: &[Delivery]) -> Result<bool, AllocError> {
        if deliveries.len() <= FEW {
            return Ok(true);
        }
        let most = self.greatest(deliveries)?;
        self.reset(deliveries);
        Ok(most as usize <= FEW)
    }

    // The greatest number of deliveries for one component.
    fn greatest(&mut self, deliveries: &[Delivery]) -> Result<u32, AllocError> {
        let mut most = 0;
        for delivery in deliveries {
            most = most.max(self.raise(delivery.component)?);
        }
        Ok(most)
    }

    /// Raises the count of a component, and returns it.
    ///
    /// # Errors
    ///
    /// No memory for a count of each component.
    pub fn raise(&mut self, component: u32) -> Result<u32, AllocError> {
        let component = component as usize;
        if component >= self.counts.len() {
            self.counts.resize(component + 1, 0)?;
        }
        let count = self.counts[component].saturating_add(1);
        self.counts[component] = count;
        Ok(count)
    }

    fn reset(&mut self, deliveries: &[Delivery]) {
        for delivery in deliveries {
            if let Some(count) = self.counts.get_mut(delivery.component as usize) {
                *count = 0;
            }
        }
    }
}
