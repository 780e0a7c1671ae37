//! The values of a variable over time.

use crate::summary::Summary;
use crate::tally::Tally;
use dv_trace::Datum;
use std::alloc::AllocError;

/// What a variable held. A flag counts as 1 or 0, a bag or a queue as the number of its values.
#[derive(Drop)]
pub(crate) struct VariableCount {
    // The present value.
    now: i64,
    // The tick up to which the sum is made. The value has not changed since then.
    since: u64,
    /// The least and the greatest value, and the sum of the values at all ticks.
    pub(crate) held: Summary,
    /// How many ticks it held each value, if quantiles are wanted.
    pub(crate) values: Option<Tally>,
}

impl VariableCount {
    /// A variable with this number at the start of the model. `from` is the first tick of the span.
    pub(crate) fn new(now: i64, from: u64, values: Option<Tally>) -> Self {
        VariableCount {
            now,
            since: from,
            held: Summary::of(now),
            values,
        }
    }

    /// Sets the value before the span, whose first tick is `from`. Former values do not count.
    pub(crate) fn restart(&mut self, datum: Datum<'_>, from: u64) {
        self.now = datum.number();
        self.since = from;
        self.held = Summary::of(self.now);
    }

    /// Notes a fault before the span: the variable holds nothing.
    pub(crate) fn cease(&mut self) {
        self.held = Summary::NOTHING;
    }

    /// Counts the present value up to a tick.
    pub(crate) fn pass(&mut self, tick: u64) -> Result<(), AllocError> {
        let ticks = tick.saturating_sub(self.since);
        self.since = tick;
        self.held.weigh(self.now, ticks);
        match &mut self.values {
            Some(values) if ticks > 0 => values.add_copies(self.now, ticks),
            Some(_) | None => Ok(()),
        }
    }

    /// Sets the value from a tick on.
    pub(crate) fn hold(&mut self, datum: Datum<'_>, tick: u64) -> Result<(), AllocError> {
        let number = datum.number();
        if number != self.now {
            self.pass(tick)?;
            self.now = number;
            self.held.meet(number);
        }
        Ok(())
    }
}
