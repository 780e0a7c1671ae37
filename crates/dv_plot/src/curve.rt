//! Step curves of values.

use crate::cells::{Cells, Join};
use crate::grid::{COLUMNS, Moment};
use crate::label::add_extent;
use crate::path::{across, begin_path, down, end_path, go_to};
use crate::scale::{Area, Extent};
use dv_trace::{Datum, Event, Text};
use std::alloc::{AllocError, Global};

/// The values that a curve takes in a column.
#[derive(Clone, Copy)]
struct Change {
    extent: Extent,
    last: i64,
}

impl Join for Change {
    fn join(self, later: Self) -> Self {
        Change {
            extent: self.extent.with(later.extent),
            last: later.last,
        }
    }
}

/// A variable, a flag, a bag or a queue of a component.
#[derive(Clone, Copy)]
pub(crate) struct Source {
    /// Its index in the state.
    pub(crate) index: usize,
    /// Its number at the start of the model.
    pub(crate) start: i64,
    pub(crate) is_flag: bool,
}

/// The number of a state variable over time. It holds until the next one.
#[derive(Drop)]
pub(crate) struct Curve {
    source: Source,
    // The value at the first tick that is shown.
    start: i64,
    // The value now.
    now: i64,
    // The least and the greatest value that is shown.
    extent: Extent,
    changes: Cells<Change>,
    // The tick at which the value ceased, because the component had a fault.
    end: Option<u64>,
}

impl Curve {
    /// A curve that begins with the value at the start of the model.
    pub(crate) fn new(alloc: Global, source: Source) -> Result<Self, AllocError> {
        let Source { start, .. } = source;
        Ok(Curve {
            source,
            start,
            now: start,
            extent: Extent::of(start),
            changes: Cells::new(alloc)?,
            end: None,
        })
    }

    /// Takes what happened to the component, and the state after it.
    pub(crate) fn follow(&mut self, moment: Moment, event: Event, state: &[Datum<'_>]) {
        match (event, state.get(self.source.index)) {
            (Event::Transition { .. }, Some(datum)) => self.set(moment, datum.number()),
            (Event::Transition { .. }, None) => {}
            (Event::Fault(_), _) => self.end = Some(moment.tick),
        }
    }

    fn set(&mut self, moment: Moment, value: i64) {
        if value == self.now {
            return;
        }
        self.now = value;
        let extent = Extent::of(value);
        match moment.grid.column_of(moment.tick) {
            Some(column) => {
                self.extent = self.extent.with(extent);
                let last = value;
                self.changes.add(column, Change { extent, last });
            }
            None => {
                self.extent = extent;
                self.start = value;
            }
        }
    }

    /// Makes one column of two each.
    pub(crate) fn fold(&mut self) {
        self.changes.fold();
    }

    /// Adds the curve below the upper edge of its panel, which is at 0.
    pub(crate) fn add_to(&self, text: &mut Text, area: Area) {
        begin_path(text, "curve");
        go_to(text, area.place_at(0), self.extent.depth_of(self.start));
        for column in 0..COLUMNS {
            if let Some(change) = self.changes.at(column) {
                across(text, area.place_at(column));
                add_change(text, change, self.extent);
            }
        }
        across(text, area.place_of(self.end.unwrap_or(area.behind)));
        end_path(text);
        add_extent(text, self.extent, self.source.is_flag);
    }
}

// Adds a change: to the least and the greatest value if there are several, and to the last one.
fn add_change(text: &mut Text, change: Change, extent: Extent) {
    let low = extent.depth_of(change.extent.least);
    let high = extent.depth_of(change.extent.greatest);
    if low != high {
        down(text, low);
        down(text, high);
    }
    down(text, extent.depth_of(change.last));
}
