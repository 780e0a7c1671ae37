//! What a line says. Values stay in the text of the line, so that they take no memory.

use dv_bag::{Fault, Kind};
use dv_time::Time;
use std::alloc::Global;

/// The values of a bag or a queue, as in the line. Those of a bag ascend, with copies repeated;
/// those of a queue are in the order of the queue.
#[derive(Clone, Copy)]
pub struct Values<'a> {
    /// The values with commas between them; empty if there are none.
    pub text: &'a str,
    /// The number of values, with copies.
    pub count: u64,
}

/// The value of a state variable: a number, a flag, a bag or a queue.
#[derive(Clone, Copy)]
pub enum Datum<'a> {
    /// The number of a variable.
    Number(i64),
    /// The truth value of a flag.
    Flag(bool),
    /// The values of a bag or a queue.
    Held(Values<'a>),
}

impl Datum<'_> {
    /// The value as a number. A flag counts as 1 or 0, a bag or a queue as the number of its
    /// values.
    pub fn number(self) -> i64 {
        match self {
            Datum::Number(number) => number,
            Datum::Flag(flag) => i64::from(flag),
            Datum::Held(values) => i64::try_from(values.count).unwrap_or(i64::MAX),
        }
    }
}

/// What was sent by a port, or left the model there.
#[derive(Clone, Copy)]
pub struct Sending<'a> {
    /// The index of the output port.
    pub port: usize,
    /// The values, at least one.
    pub values: Values<'a>,
}

/// What happened to a component. The values of its state variables are beside it.
#[derive(Clone, Copy)]
pub enum Event {
    /// A transition of this kind to the phase with this index.
    Transition { kind: Kind, phase: u32 },
    /// A fault, after which the component is quiet.
    Fault(Fault),
}

/// The line of a component, without its lists.
#[derive(Clone, Copy)]
pub struct EntryHead {
    pub time: Time,
    pub component: u32,
    pub event: Event,
}

/// A line, without its lists.
#[derive(Clone, Copy)]
pub enum LineHead {
    /// An empty line, which says nothing.
    Empty,
    /// The line of a component.
    Entry(EntryHead),
    /// The line of what left the model at this time.
    Outside(Time),
    /// The end of a whole trace, with its horizon.
    Whole(u64),
    /// The clock that a process reached in a run that is not whole.
    Clock(Time),
    /// The end of a trace that is not whole.
    Partial,
}

impl LineHead {
    /// The time of a line of a component, or of what left the model.
    pub fn time(self) -> Option<Time> {
        match self {
            LineHead::Entry(entry) => Some(entry.time),
            LineHead::Outside(time) => Some(time),
            LineHead::Empty | LineHead::Whole(_) | LineHead::Clock(_) | LineHead::Partial => None,
        }
    }
}

/// The lists of a line. Their memory is kept from one line to the next.
#[derive(Drop)]
pub struct LineLists<'a> {
    /// The values of the state variables after a transition, in their order.
    pub state: Vec<Datum<'a>>,
    /// What was sent, or left the model, sorted by port.
    pub sent: Vec<Sending<'a>>,
}

impl<'a> LineLists<'a> {
    /// Empty lists.
    pub fn new(alloc: Global) -> Self {
        LineLists {
            state: Vec::new(alloc),
            sent: Vec::new(alloc),
        }
    }

    /// Empties the lists.
    pub(crate) fn clear(&mut self) {
        self.state.clear();
        self.sent.clear();
    }
}

/// A line with its lists.
#[derive(Drop)]
pub struct TraceLine<'a> {
    pub head: LineHead,
    pub lists: LineLists<'a>,
}
