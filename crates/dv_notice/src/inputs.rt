//! What in inputs may not be meant.

use crate::times::time_in;
use dv_time::Time;
use std::fmt;

/// Inputs that a run does not reach.
#[derive(Clone, Copy)]
pub struct LateInputs {
    /// How many inputs are after the horizon.
    pub count: u64,
    /// The time of the first of them.
    pub first: Time,
}

/// An input at a microstep above 0 of a tick at which no input is before it. Such a time may be
/// meant as a fraction of a tick, but there are none: `0.5` is the microstep 5 of the tick 0.
#[derive(Clone, Copy)]
pub struct EarlyMicrostep {
    /// Its line, from 1 on.
    pub line: u64,
    /// Its time.
    pub time: Time,
}

/// What in the inputs of a run may not be meant.
#[derive(Clone, Copy)]
pub struct InputsNotice {
    /// The inputs after the horizon, if there are any.
    pub late: Option<LateInputs>,
    /// The first input at a microstep without one before it at its tick, if there is one.
    pub early: Option<EarlyMicrostep>,
    // The tick of the input before, if there is one.
    last: Option<u64>,
}

impl fmt::Display for LateInputs {
    fn fmt<W: fmt::Write>(&self, f: &mut fmt::Formatter<W>) -> fmt::Result {
        let first = self.first;
        match self.count {
            1 => write!(f, "1 input is after the horizon, at {first}"),
            count => write!(
                f,
                "{count} inputs are after the horizon, the first at {first}"
            ),
        }
    }
}

impl fmt::Display for EarlyMicrostep {
    fn fmt<W: fmt::Write>(&self, f: &mut fmt::Formatter<W>) -> fmt::Result {
        let EarlyMicrostep { line, time } = self;
        let Time { tick, micro } = time;
        write!(
            f,
            "line {line} of the inputs: {time} is the microstep {micro} of the tick {tick}, \
             and no input is before it at that tick"
        )
    }
}

impl InputsNotice {
    // Looks at an input. `line` is its number.
    fn look_at(&mut self, line: u64, time: Time, horizon: u64) {
        if time.tick > horizon {
            self.late = Some(later(self.late, time));
        }
        if time.micro > 0 && self.last != Some(time.tick) && self.early.is_none() {
            self.early = Some(EarlyMicrostep { line, time });
        }
        self.last = Some(time.tick);
    }
}

// One more input after the horizon.
fn later(late: Option<LateInputs>, time: Time) -> LateInputs {
    match late {
        Some(late) => LateInputs {
            count: late.count.saturating_add(1),
            first: late.first,
        },
        None => LateInputs {
            count: 1,
            first: time,
        },
    }
}

// The time of the input in a line, if the line has one.
fn time_of(line: &[u8]) -> Option<Time> {
    let line = str::from_utf8(line).ok()?;
    if line.starts_with('#') {
        return None;
    }
    time_in(line.split_ascii_whitespace().next()?)
}

/// What may not be meant in a text of inputs that a run up to this horizon has taken.
pub fn notice_inputs(text: &[u8], horizon: u64) -> InputsNotice {
    let mut notice = InputsNotice {
        late: None,
        early: None,
        last: None,
    };
    let mut number: u64 = 0;
    for line in text.split(|byte| *byte == b'\n') {
        number = number.saturating_add(1);
        if let Some(time) = time_of(line) {
            notice.look_at(number, time, horizon);
        }
    }
    notice
}
