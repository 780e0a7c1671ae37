//! How far a trace reaches.

use dv_time::Time;
use memchr::memrchr;
use std::fmt;

/// Whether a trace has to have an end: the line `whole` with the horizon, or `partial` after
/// clocks.
#[derive(Clone, Copy)]
pub enum End {
    /// The trace has to have an end, with its line feed: a line without one may have been cut, and
    /// an end within its number.
    Required,
    /// The trace may have no end, because its run was stopped. It is read up to its last line feed.
    Optional,
}

/// How far a trace reaches.
#[derive(Clone, Copy)]
pub enum Reach {
    /// It has all that happened up to this horizon, a tick.
    Whole(u64),
    /// It is partial, and has all that happened before the least clock. `None` if it has no clocks.
    Partial(Option<Time>),
    /// It has no end, and has all that happened before the time of its last line; at that time more
    /// may have happened. `None` if it has no lines.
    NoEnd(Option<Time>),
}

impl fmt::Display for Reach {
    fn fmt<W: fmt::Write>(&self, f: &mut fmt::Formatter<W>) -> fmt::Result {
        match self {
            Reach::Whole(horizon) => write!(f, "the trace is whole to {horizon}"),
            Reach::Partial(Some(time)) => write!(f, "the trace is whole before {time}"),
            Reach::NoEnd(Some(time)) => {
                write!(f, "the trace has no end; it is whole before {time}")
            }
            Reach::Partial(None) => f.write_str("the trace is partial"),
            Reach::NoEnd(None) => f.write_str("the trace has no end and no line"),
        }
    }
}

/// The bytes of a trace that are read: all of them if an end is required, otherwise those before
/// the last line feed.
pub fn read_part(trace: &[u8], end: End) -> &[u8] {
    match end {
        End::Required => trace,
        End::Optional => match memrchr(b'\n', trace) {
            Some(last) => trace.get(..last).unwrap_or(trace),
            None => &[],
        },
    }
}
