//! The counts of a component.

ghost use Rattle.std.specs.Prelude.{◌≡◌};
ghost use Rattle.dv_stats.specs.Counting.{with_kind};

use crate::port::PortCount;
use crate::tally::{PortTallies, Tally, tallies_of};
use crate::variable::VariableCount;
use dv_bag::{Fault, Kind};
use dv_eval::{Domain, Scope};
use dv_time::Time;
use dv_trace::model::start_number;
use dv_trace::{Datum, EntryHead, Event, LineLists, Sending, Side, Span};
use std::alloc::{AllocError, Global};

/// The numbers of transitions of each kind.
#[derive(Clone, Copy)]
pub(crate) struct Transitions {
    pub(crate) internal: u64,
    pub(crate) external: u64,
    pub(crate) confluent: u64,
}

impl Transitions {
    /// No transition.
    const NONE: Transitions = Transitions {
        internal: 0,
        external: 0,
        confluent: 0,
    };

    /// Counts one more transition. A count that has reached 2^64 - 1 stays there.
    fn add(&mut self, kind: Kind)
        ensures { self.new ≡ with_kind kind self.old }
    {
        match kind {
            Kind::Internal => self.internal = self.internal.saturating_add(1),
            Kind::External => self.external = self.external.saturating_add(1),
            Kind::Confluent => self.confluent = self.confluent.saturating_add(1),
        }
    }
}

/// The counts of a phase.
#[derive(Clone, Copy)]
pub(crate) struct PhaseCount {
    /// How often the component entered it from another phase. The start of the span in this phase
    /// counts as one visit.
    pub(crate) visits: u64,
    /// How many ticks the component was in it.
    pub(crate) ticks: u64,
}

impl PhaseCount {
    /// A phase in which the component has not been.
    const NOTHING: PhaseCount = PhaseCount {
        visits: 0,
        ticks: 0,
    };
}

/// The counts of a component up to a tick.
#[derive(Drop)]
pub(crate) struct ComponentCount {
    pub(crate) transitions: Transitions,
    /// The fault, and when it happened.
    pub(crate) fault: Option<(Fault, Time)>,
    /// By the index of the phase.
    pub(crate) phases: Vec<PhaseCount>,
    /// The number of ticks after the fault.
    pub(crate) faulted: u64,
    /// By the index of the variable.
    pub(crate) variables: Vec<VariableCount>,
    /// By the index of the port.
    pub(crate) ports: Vec<PortCount>,
    /// By the index of the port; empty without quantiles.
    pub(crate) tallies: Vec<PortTallies>,
    // The present phase.
    phase: usize,
    // The tick up to which phases are counted.
    tick: u64,
}

impl ComponentCount {
    /// The counts at the start of the model, where the component is in this phase.
    pub(crate) fn new(
        alloc: Global,
        scope: &Scope,
        phase: u32,
        span: Span,
        has_tallies: bool,
    ) -> Result<Self, AllocError> {
        let mut count = ComponentCount {
            transitions: Transitions::NONE,
            fault: None,
            phases: vec![in alloc; PhaseCount::NOTHING; scope.phases().len()]?,
            faulted: 0,
            variables: variables_of(alloc, scope.domains(), span.from, has_tallies)?,
            ports: vec![in alloc; PortCount::NOTHING; scope.output_count()]?,
            tallies: tallies_of(alloc, scope.output_count(), has_tallies)?,
            phase: phase as usize,
            tick: span.from,
        };
        count.set_visits(1);
        Ok(count)
    }

    /// Counts up to the end of the trace, which is before a tick. After a fault the ticks count for
    /// no phase and no variable.
    pub(crate) fn finish(&mut self, tick: u64) -> Result<(), AllocError> {
        self.pass(tick);
        if self.fault.is_none() {
            pass_all(&mut self.variables, tick)?;
        }
        Ok(())
    }

    // Counts the ticks from the last transition up to a tick.
    fn pass(&mut self, tick: u64) {
        let ticks = tick.saturating_sub(self.tick);
        self.tick = tick;
        if self.fault.is_some() {
            self.faulted = self.faulted.saturating_add(ticks);
        } else if let Some(count) = self.phases.get_mut(self.phase) {
            count.ticks = count.ticks.saturating_add(ticks);
        }
    }

    /// Counts a line of the component. Only lines within the span count.
    pub(crate) fn add(
        &mut self,
        entry: EntryHead,
        lists: &LineLists<'_>,
        span: Span,
    ) -> Result<(), AllocError> {
        match span.side_of(entry.time.tick) {
            Side::Before => {
                self.restart(entry, &lists.state, span.from);
                Ok(())
            }
            Side::Within => self.count(entry, lists),
            Side::Behind => Ok(()),
        }
    }

    // Takes over the state from a line before the span.
    fn restart(&mut self, entry: EntryHead, state: &[Datum<'_>], from: u64) {
        self.set_visits(0);
        match entry.event {
            Event::Transition { kind: _, phase } => {
                self.phase = phase as usize;
                self.set_visits(1);
                restart_all(&mut self.variables, state, from);
            }
            Event::Fault(fault) => {
                self.fault = Some((fault, entry.time));
                cease_all(&mut self.variables);
            }
        }
    }

    // Counts a line within the span. After a fault, variables hold nothing.
    fn count(&mut self, entry: EntryHead, lists: &LineLists<'_>) -> Result<(), AllocError> {
        let tick = entry.time.tick;
        self.pass(tick);
        match entry.event {
            Event::Transition { kind, phase } => {
                self.transitions.add(kind);
                self.enter(phase as usize);
                if self.fault.is_none() {
                    hold_all(&mut self.variables, &lists.state, tick)?;
                }
            }
            Event::Fault(fault) => {
                if self.fault.is_none() {
                    pass_all(&mut self.variables, tick)?;
                }
                self.fault = Some((fault, entry.time));
            }
        }
        send_all(&mut self.ports, &lists.sent);
        if self.tallies.is_empty() {
            return Ok(());
        }
        tally_all(&mut self.tallies, tick, &lists.sent)
    }

    fn enter(&mut self, phase: usize) {
        if phase != self.phase {
            self.phase = phase;
            if let Some(count) = self.phases.get_mut(phase) {
                count.visits = count.visits.saturating_add(1);
            }
        }
    }

    // Sets the number of visits to the present phase.
    fn set_visits(&mut self, visits: u64) {
        if let Some(count) = self.phases.get_mut(self.phase) {
            count.visits = visits;
        }
    }
}

// The variables at the start of the model. `from` is the first tick of the span.
fn variables_of(
    alloc: Global,
    domains: &[Domain],
    from: u64,
    has_tallies: bool,
) -> Result<Vec<VariableCount>, AllocError> {
    let mut variables = Vec::with_capacity(alloc, domains.len())?;
    for domain in domains {
        let values = if has_tallies {
            Some(Tally::new(alloc))
        } else {
            None
        };
        variables.push(VariableCount::new(start_number(*domain), from, values))?;
    }
    Ok(variables)
}

fn restart_all(variables: &mut [VariableCount], state: &[Datum<'_>], from: u64) {
    for (variable, datum) in variables.iter_mut().zip(state) {
        variable.restart(*datum, from);
    }
}

fn cease_all(variables: &mut [VariableCount]) {
    for variable in variables {
        variable.cease();
    }
}

fn pass_all(variables: &mut [VariableCount], tick: u64) -> Result<(), AllocError> {
    for variable in variables {
        variable.pass(tick)?;
    }
    Ok(())
}

fn hold_all(
    variables: &mut [VariableCount],
    state: &[Datum<'_>],
    tick: u64,
) -> Result<(), AllocError> {
    for (variable, datum) in variables.iter_mut().zip(state) {
        variable.hold(*datum, tick)?;
    }
    Ok(())
}

fn send_all(ports: &mut [PortCount], sent: &[Sending<'_>]) {
    for sending in sent {
        if let Some(port) = ports.get_mut(sending.port) {
            port.send(sending.values);
        }
    }
}

/// Adds the values that ports send at a tick to their tallies.
pub(crate) fn tally_all(
    tallies: &mut [PortTallies],
    tick: u64,
    sent: &[Sending<'_>],
) -> Result<(), AllocError> {
    for sending in sent {
        if let Some(port) = tallies.get_mut(sending.port) {
            port.send(tick, sending.values)?;
        }
    }
    Ok(())
}
