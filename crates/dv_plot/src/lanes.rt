//! The phases of a component, as bands.

use crate::cells::{Cells, Join};
use crate::grid::{COLUMNS, Moment};
use crate::label::add_beside;
use crate::path::{across, begin_path, end_path, go_to};
use crate::scale::{Area, RIGHT};
use dv_trace::model::phase_name;
use dv_trace::{Event, Text};
use dv_tree::Tree;
use std::alloc::{AllocError, Global};

/// The number of lanes: one for each of the first phases, and the last one for all others.
const LANES: u32 = 64;

/// The height of a lane.
const LANE: u64 = 160;

/// The classes of the bands, one after the other. Their colors stand in the style of the picture.
const BANDS: [&str; 6] = [
    "band b0", "band b1", "band b2", "band b3", "band b4", "band b5",
];

/// The lanes in which a component was in a column, as bits.
#[derive(Clone, Copy)]
struct Visits {
    // For a tick or longer.
    stays: u64,
    // For no tick.
    passes: u64,
}

impl Join for Visits {
    fn join(self, later: Self) -> Self {
        Visits {
            stays: self.stays | later.stays,
            passes: self.passes | later.passes,
        }
    }
}

/// The phases in which a component is over time, and its fault.
#[derive(Drop)]
pub(crate) struct Lanes {
    visits: Cells<Visits>,
    // All lanes in which the component was, as bits.
    visited: u64,
    // The present phase, and the tick at which it was entered.
    phase: u32,
    since: u64,
    // The tick of the fault. Nothing happens after it.
    fault: Option<u64>,
}

impl Lanes {
    /// A component that starts in a phase.
    pub(crate) fn new(alloc: Global, phase: u32) -> Result<Self, AllocError> {
        Ok(Lanes {
            visits: Cells::new(alloc)?,
            visited: 0,
            phase,
            since: 0,
            fault: None,
        })
    }

    /// Takes what happened to the component.
    pub(crate) fn follow(&mut self, moment: Moment, event: Event) {
        self.leave(moment);
        match event {
            Event::Transition { kind: _, phase } => {
                self.phase = phase;
                self.since = moment.tick;
            }
            Event::Fault(_) => self.fault = Some(moment.tick),
        }
    }

    /// Ends the trace before a tick.
    pub(crate) fn finish(&mut self, behind: Moment) {
        if self.since < behind.tick {
            self.leave(behind);
        }
    }

    // Notes the present phase, which ends at a tick: the ticks before that, or the one at which it
    // was entered if that is the same.
    fn leave(&mut self, moment: Moment) {
        if self.fault.is_some() {
            return;
        }
        let bit = 1_u64.checked_shl(self.phase.min(LANES - 1)).unwrap_or(0);
        let (last, visits) = if self.since < moment.tick {
            (
                moment.tick.saturating_sub(1),
                Visits {
                    stays: bit,
                    passes: 0,
                },
            )
        } else {
            (
                self.since,
                Visits {
                    stays: 0,
                    passes: bit,
                },
            )
        };
        let Some(end) = moment.grid.column_of(last) else {
            return;
        };
        self.visited |= bit;
        let first = moment.grid.column_of(self.since).unwrap_or(0);
        for column in first..end.saturating_add(1) {
            self.visits.add(column, visits);
        }
    }

    /// Makes one column of two each.
    pub(crate) fn fold(&mut self) {
        self.visits.fold();
    }

    /// The height of all bands.
    pub(crate) fn height(&self) -> u64 {
        let bands = self.visited.count_ones();
        let fault = u64::from(self.fault.is_some());
        LANE.saturating_mul(u64::from(bands).saturating_add(fault))
    }

    /// Adds a band for each phase in which the component was, with its name beside it, and one for
    /// the time after its fault. The upper edge of the first one is at 0.
    pub(crate) fn add_to(
        &self,
        text: &mut Text,
        tree: &Tree<'_>,
        component: Option<u32>,
        area: Area,
    ) {
        let mut depth = LANE / 2;
        for lane in 0..LANES {
            if has(self.visited, lane) {
                self.add_band(text, area, lane, depth);
                add_beside(text, depth, lane_name(tree, component, lane));
                depth = depth.saturating_add(LANE);
            }
        }
        if let Some(tick) = self.fault {
            add_fault(text, area.place_of(tick), depth);
        }
    }

    // Adds the band of a lane at this depth.
    fn add_band(&self, text: &mut Text, area: Area, lane: u32, depth: u64) {
        begin_path(text, BANDS[lane as usize % BANDS.len()]);
        self.add_stays(text, area, lane, depth);
        self.add_passes(text, area, lane, depth);
        end_path(text);
    }

    // Adds a line for each time in a phase of a lane.
    fn add_stays(&self, text: &mut Text, area: Area, lane: u32, depth: u64) {
        let mut is_open = false;
        for column in 0..COLUMNS + 1 {
            let is_in = has(self.at(column).stays, lane);
            let x = area.place_at(column);
            if is_in && !is_open {
                go_to(text, x, depth);
            } else if is_open && !is_in {
                across(text, x);
            }
            is_open = is_in;
        }
    }

    // Adds a thin line for each column in which a phase of a lane was entered and left at one tick,
    // and no such phase lasted.
    fn add_passes(&self, text: &mut Text, area: Area, lane: u32, depth: u64) {
        for column in 0..COLUMNS {
            let visits = self.at(column);
            if has(visits.passes, lane) && !has(visits.stays, lane) {
                go_to(text, area.place_at(column), depth);
                text.add("h8");
            }
        }
    }

    fn at(&self, column: usize) -> Visits {
        self.visits.at(column).unwrap_or(Visits {
            stays: 0,
            passes: 0,
        })
    }
}

// The name of the phase of a lane.
fn lane_name<'t>(tree: &'t Tree<'_>, component: Option<u32>, lane: u32) -> &'t str {
    if lane == LANES - 1 {
        return "others";
    }
    match component {
        Some(component) if (component as usize) < tree.component_count() => {
            phase_name(tree, tree.scope(component as usize), lane)
        }
        Some(_) | None => "",
    }
}

// Adds the band of the time after a fault, which begins at a place from the left.
fn add_fault(text: &mut Text, x: u64, depth: u64) {
    begin_path(text, "band fault");
    go_to(text, x, depth);
    across(text, RIGHT);
    end_path(text);
    add_beside(text, depth, "fault");
}

// Whether a lane is among these, which are given as bits.
fn has(lanes: u64, lane: u32) -> bool {
    lanes.checked_shr(lane).unwrap_or(0) % 2 == 1
}
