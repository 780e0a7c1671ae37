//! The times in texts.

use dv_time::Time;

/// The time that a text is: a tick, and a microstep behind a dot if it has one.
pub(crate) fn time_in(text: &str) -> Option<Time> {
    let (tick, micro) = text.split_once('.').unwrap_or((text, "0"));
    Some(Time {
        tick: tick.parse().ok()?,
        micro: micro.parse().ok()?,
    })
}
