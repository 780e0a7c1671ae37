//! From ticks and values to places in the picture. A place is in tenths of a pixel.

use crate::grid::Grid;

/// The width of a picture.
pub(crate) const PICTURE: u64 = 9_600;

/// Where the area of the curves begins, from the left.
pub(crate) const LEFT: u64 = 160;

/// How wide the area of the curves is.
pub(crate) const WIDTH: u64 = 8_160;

/// Where the area of the curves ends, from the left.
pub(crate) const RIGHT: u64 = LEFT + WIDTH;

/// The height of a curve or of marks.
pub(crate) const CURVE: u64 = 700;

/// The columns and the ticks that are shown, from the left edge of the area to the right one.
#[derive(Clone, Copy)]
pub(crate) struct Area {
    pub(crate) grid: Grid,
    /// The tick behind the last one.
    pub(crate) behind: u64,
}

impl Area {
    /// The number of ticks, at least one.
    pub(crate) fn ticks(self) -> u64 {
        self.behind.saturating_sub(self.grid.first).max(1)
    }

    /// Where a tick begins, from the left.
    pub(crate) fn place_of(self, tick: u64) -> u64 {
        let ticks = tick.saturating_sub(self.grid.first).min(self.ticks());
        LEFT.saturating_add(part_of(WIDTH, ticks, self.ticks()))
    }

    /// Where a column begins, from the left.
    pub(crate) fn place_at(self, column: usize) -> u64 {
        let ticks = self.grid.width.saturating_mul(column as u64);
        self.place_of(self.grid.first.saturating_add(ticks))
    }
}

/// The least value that a panel shows, and the greatest one.
#[derive(Clone, Copy)]
pub(crate) struct Extent {
    pub(crate) least: i64,
    pub(crate) greatest: i64,
}

impl Extent {
    /// That of one value.
    pub(crate) fn of(value: i64) -> Self {
        Extent {
            least: value,
            greatest: value,
        }
    }

    /// That of these and of others.
    pub(crate) fn with(self, other: Extent) -> Self {
        Extent {
            least: self.least.min(other.least),
            greatest: self.greatest.max(other.greatest),
        }
    }

    /// How far below the upper edge of a panel a value is. If there is only one value, it is in the
    /// middle.
    pub(crate) fn depth_of(self, value: i64) -> u64 {
        if self.least >= self.greatest {
            return CURVE / 2;
        }
        let below = self.greatest.abs_diff(value);
        part_of(CURVE, below, self.greatest.abs_diff(self.least))
    }
}

// `length` times `part` divided by `whole`, at most `length`.
fn part_of(length: u64, part: u64, whole: u64) -> u64 {
    let scaled = u128::from(length).saturating_mul(u128::from(part));
    let share = scaled.checked_div(u128::from(whole)).unwrap_or(0);
    u64::try_from(share).unwrap_or(length).min(length)
}
