//! The counts of a port.

ghost use Rattle.std.specs.Prelude.{◌≡◌};
ghost use Rattle.dv_stats.specs.Counting.{more, one_more};

use crate::summary::Summary;
use dv_trace::Values;

/// The counts of a port.
#[derive(Clone, Copy)]
pub(crate) struct PortCount {
    /// The number of instants at which the port sent something.
    pub(crate) instants: u64,
    /// The number of values, with copies.
    pub(crate) values: u64,
    /// The least, the greatest and the sum of the values.
    pub(crate) sent: Summary,
}

impl PortCount {
    /// A port that has sent nothing.
    pub(crate) const NOTHING: PortCount = PortCount {
        instants: 0,
        values: 0,
        sent: Summary::NOTHING,
    };

    /// Counts the values of one more instant. A count that has reached 2^64 - 1 stays there.
    pub(crate) fn send(&mut self, values: Values<'_>)
        ensures instants { self.new.instants ≡ one_more self.old.instants }
        ensures values { self.new.values ≡ more values.entry.count self.old.values }
    {
        self.instants = self.instants.saturating_add(1);
        self.values = self.values.saturating_add(values.count);
        if values.count == 1 {
            add_number(&mut self.sent, values.text);
        } else {
            add_numbers(&mut self.sent, values.text);
        }
    }
}

fn add_numbers(sent: &mut Summary, text: &str) {
    for piece in text.split(',') {
        add_number(sent, piece);
    }
}

// The text is always a number: others are refused by the reader of the trace.
fn add_number(sent: &mut Summary, text: &str) {
    if let Ok(value) = text.parse::<i64>() {
        sent.add(value);
    }
}
