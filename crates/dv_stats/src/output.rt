//! The counts of an output of the root.

use crate::port::PortCount;
use dv_trace::Values;

/// The ticks of the instants at which something left.
#[derive(Clone, Copy)]
pub(crate) struct Instants {
    pub(crate) first: u64,
    pub(crate) last: u64,
    /// The least and the greatest number of ticks from one instant to the next, if there were two
    /// instants.
    pub(crate) gaps: Option<(u64, u64)>,
}

/// The counts of an output of the root.
#[derive(Clone, Copy)]
pub(crate) struct OutputCount {
    pub(crate) port: PortCount,
    /// `None` if nothing has left.
    pub(crate) instants: Option<Instants>,
}

impl OutputCount {
    /// An output by which nothing has left.
    pub(crate) const NOTHING: OutputCount = OutputCount {
        port: PortCount::NOTHING,
        instants: None,
    };

    /// Counts values that leave at a tick.
    pub(crate) fn send(&mut self, tick: u64, values: Values<'_>) {
        self.port.send(values);
        self.instants = Some(match self.instants {
            Some(instants) => instants.to(tick),
            None => Instants {
                first: tick,
                last: tick,
                gaps: None,
            },
        });
    }
}

impl Instants {
    // Adds an instant at a tick.
    fn to(self, tick: u64) -> Instants {
        let gap = tick.saturating_sub(self.last);
        Instants {
            first: self.first,
            last: tick,
            gaps: Some(match self.gaps {
                Some((least, greatest)) => (gap.min(least), gap.max(greatest)),
                None => (gap, gap),
            }),
        }
    }
}
