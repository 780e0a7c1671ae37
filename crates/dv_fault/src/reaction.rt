//! The reaction of one component at one instant.

use crate::atom::Atom;
use crate::case::sentences_on_hold;
use crate::component::Component;
use crate::search::find_in_rule;
use crate::stop::{Found, Site, Stop};
use dv_bag::{Arrivals, Bags, Effect, Fault, GREATEST_COUNT, Kind, RuleError, State};
use dv_eval::{hold, run_rule};
use dv_explain::Quoted;
use dv_syntax::{Declaration, Name, RuleSort};
use dv_time::{GREATEST_TICK, Time};
use std::alloc::AllocError;

/// The ticks of the longest hold.
const LONGEST_HOLD: u64 = 9_223_372_036_854_775_807;

/// What a component reacts to.
#[derive(Clone, Copy)]
pub(crate) struct Instant<'a> {
    pub(crate) time: Time,
    /// The greatest microstep of a tick.
    pub(crate) limit: u32,
    /// What arrives at its input ports, a bag for each.
    pub(crate) received: &'a Bags,
}

/// What becomes of a hold after a transition.
#[derive(Clone, Copy)]
enum Hold {
    /// It goes on as it was.
    Continues,
    /// A hold of so many ticks begins; `None` is forever.
    Begins(Option<u64>),
}

/// A component after a transition.
#[derive(Drop)]
struct After {
    state: State,
    hold: Hold,
}

/// What a rule results in: the state, and whether a `goto` ran.
#[derive(Drop)]
struct Changed {
    state: State,
    goes: bool,
}

/// The kind of transition that a component makes at an instant.
pub(crate) fn kind_at(component: &Component, instant: &Instant<'_>) -> Kind {
    if component.until != Some(instant.time) {
        Kind::External
    } else if instant.received.is_empty() {
        Kind::Internal
    } else {
        Kind::Confluent
    }
}

/// Repeats the reaction of a component at an instant, and answers when its hold ends after that;
/// `None` is never.
///
/// # Errors
///
/// `Fault`: the first of the faults of the output rule, the arrivals (a flood), the transition, the
/// hold and the microsteps. `Memory`: no memory for its states.
pub(crate) fn react(
    atom: &Atom<'_>,
    component: &Component,
    instant: &Instant<'_>,
) -> Result<Option<Time>, Stop> {
    let kind = kind_at(component, instant);
    if kind != Kind::External {
        run_output(atom, &component.state)?;
    }
    if !instant.received.are_few() {
        return Err(flood_of(atom, instant.received));
    }
    let elapsed = match kind {
        Kind::External => instant.time.tick.saturating_sub(component.last),
        Kind::Internal | Kind::Confluent => 0,
    };
    let arrivals = Arrivals::new(instant.received, elapsed);
    let after = transition(atom, &component.state, &arrivals, kind)?;
    match after.hold {
        Hold::Continues => Ok(component.until),
        Hold::Begins(ticks) => end_of_hold(atom, &after.state, instant, ticks),
    }
}

// Runs the output rule for its faults alone.
fn run_output(atom: &Atom<'_>, state: &State) -> Result<(), Stop> {
    let _sent = apply_rule(atom, RuleSort::Output, state, &Arrivals::nothing())?;
    Ok(())
}

// A component after a transition of a kind from a state.
fn transition(
    atom: &Atom<'_>,
    state: &State,
    arrivals: &Arrivals<'_>,
    kind: Kind,
) -> Result<After, Stop> {
    match kind {
        Kind::Internal => internal(atom, state),
        Kind::External => external(atom, state, arrivals, Hold::Continues),
        Kind::Confluent => confluent(atom, state, arrivals),
    }
}

/// When the hold of a component ends that has made a transition of this kind to a state; `None` is
/// never.
///
/// # Errors
///
/// As `react`, if the component can't have made this transition.
pub(crate) fn until_behind(
    atom: &Atom<'_>,
    component: &Component,
    instant: &Instant<'_>,
    kind: Kind,
    state: &State,
) -> Result<Option<Time>, Stop> {
    let phase = atom.phase_of(&component.state);
    let begins_there = match kind {
        Kind::Internal => true,
        Kind::External => component.state.phase != state.phase,
        Kind::Confluent => atom.rule(RuleSort::Confluent, phase).is_some(),
    };
    // If the line does not show whether a hold began, and with which values, the rules do.
    if !begins_there {
        return react(atom, component, instant);
    }
    let ticks = ticks_of(atom, state)?;
    end_of_hold(atom, state, instant, ticks)
}

// Runs the rule of a kind for the phase of a state. A missing rule changes nothing.
fn apply_rule(
    atom: &Atom<'_>,
    sort: RuleSort,
    state: &State,
    arrivals: &Arrivals<'_>,
) -> Result<Changed, Stop> {
    let Some(rule) = atom.rule(sort, atom.phase_of(state)) else {
        return Ok(Changed {
            state: state.clone()?,
            goes: false,
        });
    };
    let statements = &rule.body.statements;
    match run_rule(atom.alloc, statements, state, arrivals, atom.scope) {
        Ok(effect) => Ok(changed_by(effect)),
        Err(RuleError::Memory) => Err(Stop::Memory),
        Err(RuleError::Fault(fault)) => {
            let found = find_in_rule(atom, rule, state, arrivals, fault);
            Err(Stop::of(found))
        }
    }
}

fn changed_by(effect: Effect) -> Changed {
    let Effect {
        mut state,
        sent: _,
        goto,
    } = effect;
    if let Some(phase) = goto {
        state.phase = phase;
    }
    Changed {
        state,
        goes: goto.is_some(),
    }
}

fn internal(atom: &Atom<'_>, state: &State) -> Result<After, Stop> {
    let changed = apply_rule(atom, RuleSort::Internal, state, &Arrivals::nothing())?;
    with_hold(atom, changed.state)
}

fn external(
    atom: &Atom<'_>,
    state: &State,
    arrivals: &Arrivals<'_>,
    hold: Hold,
) -> Result<After, Stop> {
    let changed = apply_rule(atom, RuleSort::External, state, arrivals)?;
    if changed.goes {
        return with_hold(atom, changed.state);
    }
    Ok(After {
        state: changed.state,
        hold,
    })
}

// Without a confluent rule, the internal rule and its hold come first, then the external rule of
// the phase reached.
fn confluent(atom: &Atom<'_>, state: &State, arrivals: &Arrivals<'_>) -> Result<After, Stop> {
    if atom
        .rule(RuleSort::Confluent, atom.phase_of(state))
        .is_some()
    {
        let changed = apply_rule(atom, RuleSort::Confluent, state, arrivals)?;
        return with_hold(atom, changed.state);
    }
    let After { state, hold } = internal(atom, state)?;
    external(atom, &state, arrivals, hold)
}

// A state in which the hold of its phase begins.
fn with_hold(atom: &Atom<'_>, state: State) -> Result<After, Stop> {
    let ticks = ticks_of(atom, &state)?;
    Ok(After {
        state,
        hold: Hold::Begins(ticks),
    })
}

// The ticks of the hold of a state; `None` is forever.
fn ticks_of(atom: &Atom<'_>, state: &State) -> Result<Option<u64>, Stop> {
    let phase = atom.phase_of(state);
    let Some(item) = atom.hold(phase) else {
        return Ok(None);
    };
    match hold(&item.ticks, state, atom.scope) {
        Ok(ticks) => Ok(ticks),
        Err(fault) => Err(Stop::of(fault_of_hold(atom, state, fault))),
    }
}

// When a hold of so many ticks ends that begins at an instant; `None` is never.
fn end_of_hold(
    atom: &Atom<'_>,
    state: &State,
    instant: &Instant<'_>,
    ticks: Option<u64>,
) -> Result<Option<Time>, Stop> {
    let Some(ticks) = ticks else {
        return Ok(None);
    };
    // No run has a later instant.
    if instant.time.tick > GREATEST_TICK {
        return Ok(None);
    }
    match instant.time.after(ticks.min(LONGEST_HOLD), instant.limit) {
        Ok(time) => Ok(Some(time)),
        Err(_) => Err(Stop::of(fault_of_hold(atom, state, Fault::Microsteps))),
    }
}

fn fault_of_hold(atom: &Atom<'_>, state: &State, fault: Fault) -> Result<Found, AllocError> {
    let phase = atom.phase_of(state);
    let (offset, sentences) = match atom.hold(phase) {
        Some(item) => (item.offset, sentences_on_hold(atom, state, &item.ticks)?),
        None => (atom.model.name.offset, String::new(atom.alloc)),
    };
    Ok(Found {
        fault,
        site: Site::Hold { phase },
        offset,
        sentences,
    })
}

// The flood of what arrives, at the first input port with too many values.
fn flood_of(atom: &Atom<'_>, received: &Bags) -> Stop {
    for held in received.held() {
        let count = held.bag.size();
        if count > GREATEST_COUNT {
            let port = atom.scope.inputs().get(held.port).copied();
            return Stop::of(flood_at(atom, port.unwrap_or(0), count));
        }
    }
    Stop::of(flood_at(atom, 0, 0))
}

fn flood_at(atom: &Atom<'_>, port: u32, count: u64) -> Result<Found, AllocError> {
    let name = Quoted(atom.name(port));
    Ok(Found {
        fault: Fault::Flood,
        site: Site::Arrival { port },
        offset: declared_at(atom, port),
        sentences: format!(in atom.alloc; "{count} values arrived at {name} at once.\n")?,
    })
}

// The offset at which the model declares an input port.
fn declared_at(atom: &Atom<'_>, port: u32) -> u32 {
    for declaration in &atom.model.declarations {
        if let Declaration::In(Name { number, offset }) = declaration
            && *number == port
        {
            return *offset;
        }
    }
    atom.model.name.offset
}
