//! Options of a dump.

use crate::timescale::Timescale;
use dv_trace::{End, Excerpt};

/// Options of a dump.
#[derive(Clone, Copy)]
pub struct WaveOptions<'a> {
    /// Whether the trace has to have an end.
    pub end: End,
    /// The ticks and the components that are shown.
    pub excerpt: Excerpt<'a>,
    /// The text of the run's inputs, if the input ports of the root are to be shown.
    pub inputs: Option<&'a [u8]>,
    /// Whether a port shows its last value until the next one, instead of only in the tick in which
    /// it passed.
    pub holds_ports: bool,
    /// How long a tick is.
    pub timescale: Timescale,
}
