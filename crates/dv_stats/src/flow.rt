//! How long values take from one port to another one.

use crate::gate::Gate;
use crate::inside::Inside;
use crate::tally::Tally;
use dv_bag::Inputs;
use dv_time::Time;
use dv_trace::{LineHead, LineLists, Sending, Side, Span};
use std::alloc::{AllocError, Global};

/// Two ports between which times are taken.
#[derive(Clone, Copy)]
pub struct FlowOptions<'a> {
    /// The names of both ports, with a colon between them. They are printed.
    pub ports: &'a str,
    /// Whether a value that goes is paired with the first one inside that is the same, and not with
    /// the first one.
    pub by_value: bool,
}

/// The times that values take from one port to another one, up to a line of a trace. What came at
/// an instant is inside before anything goes at this instant.
#[derive(Drop)]
pub struct Flow<'t> {
    /// The names of both ports.
    pub(crate) name: &'t str,
    from: Gate,
    to: Gate,
    // The inputs of the run, and how many of them came.
    inputs: Inputs,
    arrived: usize,
    inside: Inside,
    // The time of the last line, and what came and went at this time.
    time: Time,
    came: Vec<i64>,
    went: Vec<i64>,
    /// The numbers of ticks that values took which went in the span, with copies.
    pub(crate) times: Tally,
    /// The number of values that went in the span and are paired with none.
    pub(crate) unmatched: u64,
    span: Span,
}

impl<'t> Flow<'t> {
    /// The times between two ports, before the first line. `inputs` are those of the run.
    pub fn new(
        alloc: Global,
        from: Gate,
        to: Gate,
        options: FlowOptions<'t>,
        inputs: Inputs,
        span: Span,
    ) -> Self {
        Flow {
            name: options.ports,
            from,
            to,
            inputs,
            arrived: 0,
            inside: Inside::new(alloc, options.by_value),
            time: Time::ZERO,
            came: Vec::new(alloc),
            went: Vec::new(alloc),
            times: Tally::new(alloc),
            unmatched: 0,
            span,
        }
    }

    /// The number of values that came and have not gone.
    pub(crate) fn inside(&self) -> u64 {
        self.inside.count
    }

    /// Follows a line. Lines behind the span are left out.
    pub(crate) fn follow(
        &mut self,
        head: LineHead,
        lists: &LineLists<'_>,
    ) -> Result<(), AllocError> {
        match head {
            LineHead::Entry(entry) => self.pass(entry.time, Some(entry.component), &lists.sent),
            LineHead::Outside(time) => self.pass(time, None, &lists.sent),
            LineHead::Empty | LineHead::Whole(_) | LineHead::Clock(_) | LineHead::Partial => Ok(()),
        }
    }

    // Keeps what passes by the two ports at a line.
    fn pass(
        &mut self,
        time: Time,
        component: Option<u32>,
        sent: &[Sending<'_>],
    ) -> Result<(), AllocError> {
        if self.span.side_of(time.tick) == Side::Behind {
            return Ok(());
        }
        if time != self.time {
            self.settle()?;
            self.time = time;
        }
        for sending in sent {
            if self.from.is_at(component, sending.port) {
                push_values(&mut self.came, sending.values.text)?;
            }
            if self.to.is_at(component, sending.port) {
                push_values(&mut self.went, sending.values.text)?;
            }
        }
        Ok(())
    }

    // Takes in what came up to the time of the last line, and then lets go what went at this time.
    fn settle(&mut self) -> Result<(), AllocError> {
        let time = self.time;
        self.arrive(time)?;
        for value in &self.came {
            self.inside.come(*value, time.tick)?;
        }
        self.came.clear();
        let is_within = self.span.side_of(time.tick) == Side::Within;
        for value in &self.went {
            let came = self.inside.go(*value);
            if is_within {
                match came {
                    Some(tick) => {
                        let ticks = time.tick.saturating_sub(tick);
                        let ticks = i64::try_from(ticks).unwrap_or(i64::MAX);
                        self.times.add(ticks)?;
                    }
                    None => self.unmatched = self.unmatched.saturating_add(1),
                }
            }
        }
        self.went.clear();
        Ok(())
    }

    // Takes in the inputs up to a time that have not come.
    fn arrive(&mut self, last: Time) -> Result<(), AllocError> {
        let rest = self.inputs.as_slice().get(self.arrived..);
        for input in rest.unwrap_or(&[]) {
            if last.is_before(input.time) {
                break;
            }
            self.arrived = self.arrived.saturating_add(1);
            if matches!(self.from, Gate::Input(port) if port == input.port) {
                self.inside.come(input.value, input.time.tick)?;
            }
        }
        Ok(())
    }

    /// Ends the trace before a tick, or the span if that ends earlier.
    pub(crate) fn finish(&mut self, before: u64) -> Result<(), AllocError> {
        self.settle()?;
        match before.checked_sub(1) {
            Some(tick) => self.arrive(Time {
                tick,
                micro: u32::MAX,
            }),
            None => Ok(()),
        }
    }
}

// Adds the values of a list in a trace.
fn push_values(values: &mut Vec<i64>, text: &str) -> Result<(), AllocError> {
    for piece in text.split(',') {
        if let Ok(value) = piece.parse::<i64>() {
            values.push(value)?;
        }
    }
    Ok(())
}
