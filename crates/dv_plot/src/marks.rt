//! The values of a port, as marks.

use crate::cells::{Cells, Join};
use crate::grid::{COLUMNS, Moment};
use crate::label::add_extent;
use crate::path::{begin_path, down, end_path, go_to};
use crate::scale::{Area, Extent};
use dv_trace::{Sending, Text};
use std::alloc::{AllocError, Global};

/// The most values that are shown each by itself.
const MOST_DOTS: usize = 2_048;

impl Join for Extent {
    fn join(self, later: Self) -> Self {
        self.with(later)
    }
}

/// A value, and the column in which it passed.
#[derive(Clone, Copy)]
struct Dot {
    column: usize,
    value: i64,
}

/// The values that passed by a port.
#[derive(Drop)]
pub(crate) struct Marks {
    // The index of the port.
    port: usize,
    // The least and the greatest value of each column, and of all columns.
    values: Cells<Extent>,
    extent: Option<Extent>,
    // The first values, and the number of all. As soon as a column has several ticks, the number
    // is greater than that of any values.
    dots: Vec<Dot>,
    count: usize,
}

impl Marks {
    /// No value has passed by the port with this index.
    pub(crate) fn new(alloc: Global, port: usize) -> Result<Self, AllocError> {
        let nothing = Dot {
            column: 0,
            value: 0,
        };
        Ok(Marks {
            port,
            values: Cells::new(alloc)?,
            extent: None,
            dots: vec![in alloc; nothing; MOST_DOTS]?,
            count: 0,
        })
    }

    /// Takes what was sent.
    pub(crate) fn send(&mut self, moment: Moment, sent: &[Sending<'_>]) {
        for sending in sent {
            if sending.port == self.port
                && let Some(column) = moment.grid.column_of(moment.tick)
            {
                self.add_all(column, sending.values.text);
            }
        }
    }

    // Adds values, which are given with commas between them, as in a trace.
    fn add_all(&mut self, column: usize, values: &str) {
        for piece in values.split(',') {
            if let Ok(value) = piece.parse::<i64>() {
                self.add(column, value);
            }
        }
    }

    fn add(&mut self, column: usize, value: i64) {
        let extent = Extent::of(value);
        self.values.add(column, extent);
        self.extent = Some(match self.extent {
            Some(others) => others.with(extent),
            None => extent,
        });
        if let Some(dot) = self.dots.get_mut(self.count) {
            *dot = Dot { column, value };
        }
        self.count = self.count.saturating_add(1);
    }

    /// Makes one column of two each.
    pub(crate) fn fold(&mut self) {
        self.values.fold();
        self.count = usize::MAX;
    }

    /// Adds the marks below the upper edge of their panel, which is at 0: a dot for each value if a
    /// column is a tick and the values are few; otherwise a dot for the value of a column, and a
    /// line from the least to the greatest one of several.
    pub(crate) fn add_to(&self, text: &mut Text, area: Area) {
        let Some(extent) = self.extent else {
            return;
        };
        begin_path(text, "dots");
        match self.dots.get(..self.count) {
            Some(dots) => add_dots(text, area, extent, dots),
            None => self.add_columns(text, area, extent),
        }
        end_path(text);
        add_extent(text, extent, false);
    }

    fn add_columns(&self, text: &mut Text, area: Area, extent: Extent) {
        for column in 0..COLUMNS {
            if let Some(values) = self.values.at(column) {
                go_to(text, area.place_at(column), extent.depth_of(values.least));
                down(text, extent.depth_of(values.greatest));
            }
        }
    }
}

fn add_dots(text: &mut Text, area: Area, extent: Extent, dots: &[Dot]) {
    for dot in dots {
        let depth = extent.depth_of(dot.value);
        go_to(text, area.place_at(dot.column), depth);
        down(text, depth);
    }
}
