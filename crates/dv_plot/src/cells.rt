//! What is known of each column of ticks.

use crate::grid::COLUMNS;
use std::alloc::{AllocError, Global};

/// What may be known of a column.
pub(crate) trait Join {
    /// What is known of two columns together. `later` is of the second one.
    fn join(self, later: Self) -> Self;
}

/// What is known of each column, if anything is.
#[derive(Drop)]
pub(crate) struct Cells<T> {
    cells: Vec<Option<T>>,
}

impl<T: Copy + Join> Cells<T> {
    /// Nothing is known of any column.
    pub(crate) fn new(alloc: Global) -> Result<Self, AllocError> {
        Ok(Cells {
            cells: vec![in alloc; None; COLUMNS]?,
        })
    }

    /// What is known of a column.
    pub(crate) fn at(&self, column: usize) -> Option<T> {
        match self.cells.get(column) {
            Some(cell) => *cell,
            None => None,
        }
    }

    /// Adds what happened in a column after all that is known of it.
    pub(crate) fn add(&mut self, column: usize, later: T) {
        let known = match self.at(column) {
            Some(before) => before.join(later),
            None => later,
        };
        self.put(column, Some(known));
    }

    /// Makes one column of two each. Nothing is known of the columns behind them.
    pub(crate) fn fold(&mut self) {
        for column in 0..COLUMNS {
            self.put(column, self.at(2 * column));
            if let Some(later) = self.at(2 * column + 1) {
                self.add(column, later);
            }
        }
    }

    fn put(&mut self, column: usize, known: Option<T>) {
        if let Some(cell) = self.cells.get_mut(column) {
            *cell = known;
        }
    }
}
