//! The columns of ticks.

/// The most columns. A picture has at least half as many, unless it has fewer ticks.
pub(crate) const COLUMNS: usize = 1_024;

/// The ticks that are shown, and how wide a column is.
#[derive(Clone, Copy)]
pub(crate) struct Grid {
    /// The first tick.
    pub(crate) first: u64,
    /// The number of ticks of a column, a power of two.
    pub(crate) width: u64,
}

impl Grid {
    /// Whether the columns reach as far as a tick.
    pub(crate) fn reaches(self, tick: u64) -> bool {
        let ticks = tick.saturating_sub(self.first);
        ticks.checked_div(self.width).unwrap_or(0) < COLUMNS as u64
    }

    /// The column of a tick. `None` if the tick is before the first one. What is behind the last
    /// column counts for it.
    pub(crate) fn column_of(self, tick: u64) -> Option<usize> {
        let ticks = tick.checked_sub(self.first)?;
        let column = ticks.checked_div(self.width).unwrap_or(0);
        Some(usize::try_from(column).unwrap_or(COLUMNS).min(COLUMNS - 1))
    }
}

/// A tick at which something happens, and the columns, which reach as far.
#[derive(Clone, Copy)]
pub(crate) struct Moment {
    pub(crate) tick: u64,
    pub(crate) grid: Grid,
}
