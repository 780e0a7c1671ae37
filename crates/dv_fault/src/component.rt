//! Components between two instants.

use crate::atom::Atom;
use crate::reaction::{Instant, until_behind};
use crate::stop::Stop;
use dv_bag::{
    Bag, Collection, Datum, Discipline, GREATEST_COUNT, Held, Kind, Queue, State, Variables,
};
use dv_eval::{Domain, Scope, start_state};
use dv_time::Time;
use std::alloc::{AllocError, Global};

/// A component after its last line of the trace, or at the start.
#[derive(Drop)]
pub(crate) struct Component {
    pub(crate) state: State,
    /// The tick of its last transition.
    pub(crate) last: u64,
    /// When its hold ends; `None` is never.
    pub(crate) until: Option<Time>,
}

impl Component {
    /// Makes a transition of a kind to a state.
    ///
    /// # Errors
    ///
    /// No memory for intermediate states.
    pub(crate) fn pass(
        &mut self,
        atom: &Atom<'_>,
        instant: &Instant<'_>,
        kind: Kind,
        state: State,
    ) -> Result<(), AllocError> {
        let until = match until_behind(atom, &*self, instant, kind, &state) {
            Ok(until) => until,
            // The trace has a transition here, so there is no fault.
            Err(Stop::Fault(_)) => None,
            Err(Stop::Memory) => return Err(AllocError),
        };
        self.state = state;
        self.last = instant.time.tick;
        self.until = until;
        Ok(())
    }
}

/// The state in which a component of a model starts.
///
/// # Errors
///
/// No memory for the state.
pub(crate) fn state_at_start(atom: &Atom<'_>) -> Result<State, AllocError> {
    let scope = Scope::of(atom.alloc, atom.model)?;
    start_state(atom.alloc, atom.model, &scope)
}

/// The state that a line of the trace shows.
///
/// # Errors
///
/// No memory for the state.
pub(crate) fn state_shown(
    alloc: Global,
    scope: &Scope,
    phase: u32,
    data: &[dv_trace::Datum<'_>],
) -> Result<State, AllocError> {
    let mut variables = Variables::new(alloc);
    for (domain, datum) in scope.domains().iter().zip(data) {
        variables.push(datum_shown(alloc, *domain, *datum)?)?;
    }
    Ok(State { phase, variables })
}

fn datum_shown(
    alloc: Global,
    domain: Domain,
    datum: dv_trace::Datum<'_>,
) -> Result<Datum, AllocError> {
    match (datum, domain) {
        (dv_trace::Datum::Number(number), _) => Ok(Datum::Number(number)),
        (dv_trace::Datum::Flag(flag), _) => Ok(Datum::Flag(flag)),
        (
            dv_trace::Datum::Held(values),
            Domain::Held {
                discipline: Discipline::Queue,
                ..
            },
        ) => Ok(Datum::Held(queue_shown(alloc, values.text)?)),
        (
            dv_trace::Datum::Held(values),
            Domain::Held {
                discipline: Discipline::Bag,
                ..
            }
            | Domain::Number(_)
            | Domain::Flag { .. },
        ) => Ok(Datum::Held(bag_shown(alloc, values.text)?)),
    }
}

// The bag of the values between commas. In the trace of a run there are at most as many as a bag
// can have.
fn bag_shown(alloc: Global, text: &str) -> Result<Held, AllocError> {
    let mut bag = Bag::new(alloc);
    for piece in text.split(',') {
        if let Ok(value) = piece.parse::<i64>() {
            bag.insert(value)?;
        }
    }
    if bag.size() > GREATEST_COUNT {
        return Held::new(alloc, Collection::Bag(Bag::new(alloc)));
    }
    Held::new(alloc, Collection::Bag(bag))
}

// The queue of the values between commas. In the trace of a run there are at most as many as a
// queue can have.
fn queue_shown(alloc: Global, text: &str) -> Result<Held, AllocError> {
    let mut queue = Queue::new(alloc);
    for piece in text.split(',') {
        if let Ok(value) = piece.parse::<i64>() {
            queue.push(value)?;
        }
    }
    if queue.len() as u64 > GREATEST_COUNT {
        return Held::new(alloc, Collection::Queue(Queue::new(alloc)));
    }
    Held::new(alloc, Collection::Queue(queue))
}
